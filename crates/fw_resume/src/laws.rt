//! Laws of roots and of what stores hold of them. Each function carries one as a clause, and does nothing.
ghost use Rattle.fw_resume.specs.Named.{DownHasTheSameWrites, NamedWritesStay};

/// The records hold the writes that a root names also where others put or removed some: under each id that it names is what was there.
#[tactic(auto, using(crate::proofs::StayLaws::named_writes_stay))]
pub fn named_writes_stay()
    ensures { NamedWritesStay }
{}

/// They hold the writes of a state exactly where they hold those of the state in which every node is failed.
#[tactic(auto, using(crate::proofs::StayLaws::down_has_the_same_writes))]
pub fn down_has_the_same_writes()
    ensures { DownHasTheSameWrites }
{}
