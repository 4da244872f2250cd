//! The laws of starts: each function's `ensures` is one law, and its body is empty.
ghost use Rattle.fw_hold.specs.Chain.{StartsAreOneRun};

/// All starts of a held run together are one run of the machine, by the steps of their moves.
pub fn starts_are_one_run()
    ensures { StartsAreOneRun }
{}
