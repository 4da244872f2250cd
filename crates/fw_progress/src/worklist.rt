//! The nodes that wait.
ghost use Rattle.std.specs.Prelude.{◌≡◌, [], ◌∷◌, IfSome, IfNone, IfOk};
ghost use Rattle.fw_progress.specs.Growths.{IsEnlisted, ArePut};
ghost use Rattle.fw_flow.specs.Dataflow.{out_edges};

use fw_flow::{Flow, NodeId};
use fw_places::Places;
use std::alloc::{AllocError, Global};
use std::marker::Model;

/// The nodes that wait to be widened, each once. Contracts see their places, in order.
#[derive(Debug, Drop)]
pub(crate) struct Worklist {
    places: Places,
}

impl Model for Worklist {
    ghost use Rattle.std.specs.Prelude.{ℕ, List};

    ghost Value = { List ℕ };

    ghost view = { λ work. work.places };
}

impl Worklist {
    /// No node waits.
    pub(crate) fn new(alloc: Global) -> Self
        ensures { result ≡ [] }
    {
        Worklist {
            places: Places::new(alloc),
        }
    }

    /// The node waits from now on. The error is want of memory.
    pub(crate) fn put(&mut self, node: NodeId) -> Result<(), AllocError>
        ensures { IfOk result (λ u. IsEnlisted node self.old self.new) }
    {
        self.places.insert(node.place())?;
        Ok(())
    }

    /// Takes the first node that waits.
    pub(crate) fn take(&mut self) -> Option<NodeId>
        ensures some { IfSome result (λ p. self.old ≡ p ∷ self.new) }
        ensures none { IfNone result (self.old ≡ []) }
        ensures still_none { IfNone result (self.new ≡ []) }
    {
        let place = self.places.pop_first()?;
        Some(NodeId::at(place))
    }

    /// The receivers of the node's out-edges wait from now on. The error is want of memory.
    pub(crate) fn put_receivers(&mut self, flow: &Flow, node: NodeId) -> Result<(), AllocError>
        ensures { IfOk result (λ u. ArePut flow.now (out_edges flow.now node) self.old self.new) }
    {
        let edges = flow.out_edges(node);
        for edge in edges {
            self.put(flow.dst(*edge))?;
        }
        Ok(())
    }
}
