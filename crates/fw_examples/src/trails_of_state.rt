//! That the laws of a state's trail say something.
ghost use Rattle.fw_examples.specs.TrailsOfState.{TrailsOfStateApply};

/// The trail of a state in which an output failed, of four lowerings, and what the laws of trails say of it.
#[tactic(auto, using(crate::proofs::TrailsOfState::trails_of_state_apply))]
pub fn trails_of_state_apply()
    ensures { TrailsOfStateApply }
{}
