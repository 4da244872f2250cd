//! Of which epochs a running total was told, and what the laws of tables say of it.
ghost use Rattle.fw_examples.specs.Told.{OneMoreMayBeTold, TablesApply};

/// A state in which a running total was told of two epochs, and may be told of a third.
#[tactic(auto, using(crate::proofs::Told::one_more_may_be_told))]
pub fn one_more_may_be_told()
    ensures { OneMoreMayBeTold }
{}

/// The laws of tables.
#[tactic(auto, using(crate::proofs::Told::tables_apply))]
pub fn tables_apply()
    ensures { TablesApply }
{}
