//! By what nodes are restored after a failure.
ghost use Rattle.std.specs.Prelude.{◌≡◌};
ghost use Rattle.fw_flow.specs.Restoring as spec;

use crate::{Flow, Kind, NodeId, Policy};

/// By what a node can be restored.
#[derive(Clone, Copy, Debug, PartialEq, Eq)]
pub enum Restoring {
    /// Its batches: an input injects them again.
    Batches,
    /// What it acknowledged: an output keeps no less.
    Bound,
    /// Anything settled: a node that keeps nothing starts from any frontier at which what it did is complete.
    Anything,
    /// Its checkpoints: it is restored to the frontier of one.
    Checkpoints,
    /// Its events: it does those inside the frontier again.
    Events,
}

impl Kind {
    /// By what a node of the kind is restored under the policy.
    pub fn restoring(self, policy: Policy) -> Restoring
        ensures { result ≡ spec.restoring self policy }
    {
        match self {
            Kind::Input => Restoring::Batches,
            Kind::OutputEpoch | Kind::OutputNumber => Restoring::Bound,
            Kind::Select { .. }
            | Kind::Concat { .. }
            | Kind::Distinct { .. }
            | Kind::Join { .. }
            | Kind::Sum { .. }
            | Kind::Enter(_)
            | Kind::Feedback(_)
            | Kind::Leave(_)
            | Kind::Total
            | Kind::Sequence
            | Kind::Ledger
            | Kind::Regroup(_) => policy.restoring(),
        }
    }
}

impl Policy {
    /// By what an inner node of the policy is restored.
    fn restoring(self) -> Restoring
        ensures { result ≡ spec.restoring_of_policy self }
    {
        match self {
            Policy::None => Restoring::Anything,
            Policy::Lazy | Policy::Logged | Policy::Eager => Restoring::Checkpoints,
            Policy::Full => Restoring::Events,
        }
    }

    /// Whether a node of the policy can send again what it sent: it writes its messages, or the events that sent them.
    pub fn can_resend(self) -> bool
        ensures { result ≡ spec.can_resend self }
    {
        match self {
            Policy::None | Policy::Lazy => false,
            Policy::Logged | Policy::Eager | Policy::Full => true,
        }
    }
}

impl Flow {
    /// By what a node is restored. Past the last node stand idle outputs.
    pub fn restoring(&self, node: NodeId) -> Restoring
        ensures { result ≡ spec.way_of self.now node }
    {
        self.kind(node).restoring(self.policy(node))
    }
}
