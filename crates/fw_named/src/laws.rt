//! The laws of named writes: each function's `ensures` is one law, and its body is empty.
ghost use Rattle.fw_named.specs.Named.{AreThereWhereNamed, StayNamed};

/// Where writes are named the store has a record under each of their ids.
pub fn named_are_there()
    ensures { AreThereWhereNamed }
{}

/// Writes stay named where nothing is changed under their ids.
pub fn named_stay()
    ensures { StayNamed }
{}
