//! Laws of pairs, each a function that does nothing: its clause is the law.
ghost use Rattle.fw_paired.specs.LawsOfPairs.{PairsAreAll};

/// In whatever order recs come on two in-edges, what is sent as they come is each rec of the first one with each of its key on the
/// second one, each pair once.
pub fn pairs_are_all()
    ensures { PairsAreAll }
{}
