//! What comes of a step.
ghost use Rattle.std.specs.Prelude.{◌≡◌};
ghost use Rattle.fw_running.specs.EffectText.{effect_text, outcome_text};

use crate::Shown;
use fw_bag::Bag;
use fw_flow::{Choice, Flow, NodeId};
use fw_time::Stamp;

/// What a step shows.
#[derive(Debug, Drop)]
pub enum Effect {
    /// Nothing.
    Quiet,
    /// The output acknowledged the stamp, with all the recs that it took at it.
    Acked {
        output: NodeId,
        at: Stamp,
        recs: Bag,
    },
    /// The nodes were restored to the choice.
    Cuts(Choice),
    /// The frontiers of the choice's cuts are the low watermark of now.
    Lows(Choice),
}

/// What comes of a step.
#[derive(Debug, Drop)]
pub enum Stepped {
    /// The step was taken, with this effect.
    Did(Effect),
    /// The step is not enabled, and nothing changed.
    Idle,
}

impl Effect {
    ghost use Rattle.fw_running.specs.Steps.{effect_of};

    /// The effect as the lines that it prints, with the names of its nodes. The flow is the one of the engine that took the
    /// step.
    pub fn display<'a>(&'a self, flow: &'a Flow) -> Shown<'a>
        ensures { result ≡ effect_text flow.now (effect_of self.now) }
    {
        Shown::of(flow, Some(self))
    }
}

impl Stepped {
    ghost use Rattle.fw_running.specs.Steps.{outcome_of};

    /// What came of the step as the lines that it prints, with the names of its nodes; none where it was not enabled. The flow
    /// is the one of the engine that took the step.
    pub fn display<'a>(&'a self, flow: &'a Flow) -> Shown<'a>
        ensures { result ≡ outcome_text flow.now (outcome_of self.now) }
    {
        match self {
            Stepped::Did(effect) => effect.display(flow),
            Stepped::Idle => Shown::of(flow, None),
        }
    }
}
