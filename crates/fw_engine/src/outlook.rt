//! What an engine would do in a recovery, and why.
ghost use Rattle.std.specs.Prelude.{◌≡◌, ◌↔◌, Option, None, IfOk, IfSome, IsTrue};
ghost use Rattle.std.specs.List.{list_any};
ghost use Rattle.fw_flow.specs.declared.step.Step.TheVariants as steps;
ghost use Rattle.fw_keep.specs.Stored.{Records};
ghost use Rattle.fw_model.specs.Offers.{AreOffersOf};
ghost use Rattle.fw_choose.specs.declared.viewing.Lost.TheVariants as lost;
ghost use Rattle.fw_choose.specs.Outlooks.{IsOutlookOf};
ghost use Rattle.fw_running.specs.Steps.{IsStepEnabled};
ghost use Rattle.fw_engine.specs.Engine.{flow_of, ForEachState, IsNoneFailed};

use crate::Engine;
use fw_choose::{Lost, Outlook, outlook_of};
use fw_flow::laws::flow_is_well_formed;
use std::alloc::AllocError;

impl Engine {
    /// What the nodes offer to a recovery, and how the largest choice of it is found, to which a recovery now restores them; none exactly
    /// where no node is failed, so that a recovery is not enabled. The error is want of memory, now or in an earlier step.
    pub fn outlook(&self) -> Result<Option<Outlook>, AllocError>
        ensures none { IfOk result (λ found. (records : Option Records) → ForEachState self.now records (λ sys state. found ≡ None ↔ IsNoneFailed state)) }
        ensures some { IfOk result (λ found. IfSome found (λ outlook.
            (records : Option Records) → ForEachState self.now records (λ sys state. IsOutlookOf sys state lost.Failed outlook))) }
        ensures enabled { IfOk result (λ found. IfSome found (λ outlook.
            (records : Option Records) → ForEachState self.now records (λ sys state. IsStepEnabled sys state steps.Recover))) }
        ensures of_flow { IfOk result (λ found. IfSome found (λ outlook. AreOffersOf (flow_of self.now) outlook.candidates.items)) }
    {
        if self.refused {
            return Err(AllocError);
        }
        flow_is_well_formed(&self.running.flow);
        if !any_of(&self.running.failed) {
            return Ok(None);
        }
        let outlook = outlook_of(&self.running, Lost::Failed)?;
        Ok(Some(outlook))
    }
}

// Whether one of these is.
fn any_of(failed: &[bool]) -> bool
    ensures { result ≡ list_any (λ down. down) failed.now }
{
    failed.iter().any(|down| *down)
}
