//! What the nodes offer, and the largest choice of it.
ghost use Rattle.std.specs.Prelude.{IfOk};
ghost use Rattle.fw_model.specs.Choice.{IsChoiceOf};
ghost use Rattle.fw_model.specs.Offers.{AreOffersOf};
ghost use Rattle.fw_choose.specs.Chosen.{IsChosenBy, IsChosenByHeld};
ghost use Rattle.fw_choose.specs.Outlooks.{IsOutlookBy, IsOutlookByHeld};
ghost use Rattle.fw_running.specs.Shaped.{IsShaped};

use crate::viewing::{Lost, views};
use fw_flow::{Choice, Offer};
use fw_monitor::{Descent, descent_to_largest};
use fw_policy::offers_of;
use fw_running::Running;
use std::alloc::AllocError;

/// What the nodes offer, and how the largest choice of it is found.
#[derive(Debug, Drop)]
pub struct Outlook {
    /// What each node offers, in order of the nodes.
    pub candidates: Vec<Offer>,
    /// The descent to the largest choice of that.
    pub descent: Descent,
}

/// What the nodes offer where these count as failed, and the descent to the largest choice of it. The error is want of memory.
pub fn outlook_of(running: &Running, lost: Lost) -> Result<Outlook, AllocError>
    requires { IsShaped running.now }
    ensures of_flow { IfOk result (λ outlook. AreOffersOf running.now.flow outlook.candidates.items) }
    ensures choice { IfOk result (λ outlook. IsChoiceOf running.now.flow outlook.descent.choice) }
    ensures of_state { IfOk result (IsOutlookBy running.now lost) }
    ensures of_held { IfOk result (IsOutlookByHeld running.now lost) }
{
    let view = views(running, lost)?;
    let candidates = offers_of(
        running.alloc,
        &running.flow,
        view,
        running.parts.keep.entries(),
    )?;
    let descent = descent_to_largest(running.alloc, &running.flow, &candidates)?;
    Ok(Outlook {
        candidates,
        descent,
    })
}

/// The largest choice where these nodes count as failed. The error is want of memory.
pub fn choose(running: &Running, lost: Lost) -> Result<Choice, AllocError>
    requires { IsShaped running.now }
    ensures of_flow { IfOk result (IsChoiceOf running.now.flow) }
    ensures of_state { IfOk result (IsChosenBy running.now lost) }
    ensures of_held { IfOk result (IsChosenByHeld running.now lost) }
{
    let outlook = outlook_of(running, lost)?;
    let descent = outlook.descent;
    Ok(descent.choice)
}
