//! The headline, and the laws of trails, as functions that do nothing: the clause of each is the law.
ghost use Rattle.fw_headline.specs.LawsOfTrails.{TrailExists, TrailOfStateEndsAtLargest, TrailOfStateIsOne};
ghost use Rattle.fw_headline.specs.Right.{EveryRunIsRight};

/// A well-formed system has exactly one denotation; each list of its steps has exactly one run from the machine's first state; and all is
/// right where it ends.
pub fn every_run_is_right()
    ensures { EveryRunIsRight }
{}

/// In each state that the machine reaches there is a trail from what it offers, whichever nodes count as failed.
pub fn trail_exists()
    ensures { TrailExists }
{}

/// In no state is there another one.
pub fn trail_of_state_is_one()
    ensures { TrailOfStateIsOne }
{}

/// It ends at the largest choice.
pub fn trail_of_state_ends_at_largest()
    ensures { TrailOfStateEndsAtLargest }
{}
