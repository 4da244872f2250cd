//! A loop within a loop: that it is well formed, what it denotes, how a frontier inside the inner loop is projected out of it, and
//! a recovery that cuts a node there.
ghost use Rattle.fw_flow.specs.WellFormed.{IsWellFormed};
ghost use Rattle.fw_examples.specs.Nested.{nested_loops, OneRecCountsUp, ProjectsFromInnerLoop, RecoversInsideInnerLoop};

/// The inner loop is entered once in each round of the outer one, and each goes round by its own feedback.
#[tactic(auto, using(crate::proofs::Nested::nested_is_well_formed))]
pub fn nested_loops_are_well_formed()
    ensures { IsWellFormed nested_loops }
{}

/// A rec comes out once for each pair of counters.
#[tactic(auto, using(crate::proofs::Nested::one_rec_counts_up))]
pub fn one_rec_counts_up()
    ensures { OneRecCountsUp }
{}

/// Each first round of both loops, through the inner feedback and the inner leave.
#[tactic(auto, using(crate::proofs::Nested::projects_from_inner))]
pub fn first_rounds_are_projected()
    ensures { ProjectsFromInnerLoop }
{}

/// A run to the failure of the node that counts up, in the second round of the inner loop, and its recovery, which cuts that node
/// to the first round.
#[tactic(auto, using(crate::proofs::NestedRecovery::recovers_inside_inner))]
pub fn recovers_inside_the_inner_loop()
    ensures { RecoversInsideInnerLoop }
{}
