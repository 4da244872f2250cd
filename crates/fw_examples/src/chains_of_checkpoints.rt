//! Checkpoints that hold changes, and those on which they stand.
ghost use Rattle.fw_examples.specs.Chained.{ChangesAreKept, NinthIsWhole};

/// In a run with a failure, a checkpoint on which another one stands is kept, and the recovery goes back to the later one.
#[tactic(auto, using(crate::proofs::Chained::changes_are_kept))]
pub fn changes_are_kept()
    ensures { ChangesAreKept }
{}

/// In a run of nine epochs, the ninth checkpoint is whole, and a collection takes the eight before it.
#[tactic(auto, using(crate::proofs::Chained::ninth_is_whole))]
pub fn ninth_is_whole()
    ensures { NinthIsWhole }
{}
