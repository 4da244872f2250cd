//! What records and inputs tell of where the events of nodes were, of which not all is known.
ghost use Rattle.std.specs.Prelude.{◌≡◌, ◌<◌, ◌∷◌, [], false, length, IsTrue, IsErr, IfOk};
ghost use Rattle.fw_progress.specs.Trace.{AreTraces, HasDeliveredMore, HasNotifiedMore, HasSentMore};

use crate::traces::{Traces, add_at};
use fw_flow::{EdgeId, Flow, NodeId};
use fw_time::Stamp;
use std::alloc::AllocError;

impl Traces {
    /// A record tells that a message was delivered on the edge at the stamp: it is kept, with what is kept of the edge. Where
    /// the receiver then sent is not told. The error is want of memory.
    pub fn recall_delivered(
        &mut self,
        flow: &Flow,
        edge: EdgeId,
        at: &Stamp,
    ) -> Result<(), AllocError>
        requires traces { AreTraces flow.now self.old }
        requires there { edge < length flow.now.edges }
        ensures traces { AreTraces flow.now self.new }
        ensures recalled { IfOk result (λ u. HasDeliveredMore edge at.now self.old self.new) }
        ensures ready { IfOk result (λ u. self.new.refused ≡ false) }
        ensures refused { IsErr result → IsTrue self.new.refused }
        ensures stays { IsTrue self.old.refused → IsErr result }
    {
        if self.refused {
            return Err(AllocError);
        }
        self.refused = true;
        add_at(&mut self.delivered, edge.place() as usize, at)?;
        self.refused = false;
        Ok(())
    }

    /// A record tells that the node was notified of the stamp: it is kept, with those of which it was. Where the node then
    /// sent is not told. The error is want of memory.
    pub fn recall_notified(
        &mut self,
        flow: &Flow,
        node: NodeId,
        at: &Stamp,
    ) -> Result<(), AllocError>
        requires traces { AreTraces flow.now self.old }
        requires there { node < length flow.now.nodes }
        ensures traces { AreTraces flow.now self.new }
        ensures recalled { IfOk result (λ u. HasNotifiedMore node at.now self.old self.new) }
        ensures ready { IfOk result (λ u. self.new.refused ≡ false) }
        ensures refused { IsErr result → IsTrue self.new.refused }
        ensures stays { IsTrue self.old.refused → IsErr result }
    {
        if self.refused {
            return Err(AllocError);
        }
        self.refused = true;
        add_at(&mut self.notified, node.place() as usize, at)?;
        self.refused = false;
        Ok(())
    }

    /// The inputs tell that a node injected its batch of the epoch, of which the edge carried a rec: the epoch is kept, with what
    /// is kept of the edge. The error is want of memory.
    pub fn recall_sent(&mut self, flow: &Flow, edge: EdgeId, epoch: u32) -> Result<(), AllocError>
        requires traces { AreTraces flow.now self.old }
        requires there { edge < length flow.now.edges }
        ensures traces { AreTraces flow.now self.new }
        ensures recalled { IfOk result (λ u. HasSentMore edge (epoch ∷ []) self.old self.new) }
        ensures ready { IfOk result (λ u. self.new.refused ≡ false) }
        ensures refused { IsErr result → IsTrue self.new.refused }
        ensures stays { IsTrue self.old.refused → IsErr result }
    {
        if self.refused {
            return Err(AllocError);
        }
        self.refused = true;
        add_at(&mut self.sent, edge.place() as usize, &Stamp::new(&[epoch]))?;
        self.refused = false;
        Ok(())
    }
}
