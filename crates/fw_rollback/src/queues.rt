//! What is pending on the edges of a dataflow.
ghost use Rattle.std.specs.Prelude.{◌≡◌, ◌++◌, ◌∷◌, [], length, replicate, slice_get, slice_set, IfOk, IfSome, IfNone};
ghost use Rattle.std.specs.Option.{option_copied, option_copied_mut};
ghost use Rattle.std.specs.Borrow.{sem};
ghost use Rattle.fw_rollback.specs.Edges.{nothing_there};
ghost use Rattle.fw_rollback.specs.Lending.{LendsQueue};

use fw_edge::Queue;
use fw_flow::EdgeId;
use std::alloc::{AllocError, Global};
use std::marker::Model;

/// A queue for each edge of a dataflow. Contracts see their list.
#[derive(Debug, Drop)]
pub struct Queues {
    queues: Vec<Queue>,
}

impl Model for Queues {
    ghost use Rattle.std.specs.Prelude.{List};
    ghost use Rattle.fw_edge.specs.Messages.{MessagesState};

    ghost Value = { List MessagesState };

    ghost view = { λ all. all.queues.items };
}

impl Queues {
    /// The queues of so many edges, in which nothing is pending. The only error is want of memory.
    pub fn new(alloc: Global, edges: usize) -> Result<Self, AllocError>
        ensures { IfOk result (λ all. all ≡ replicate edges nothing_there) }
    {
        let mut queues = Vec::with_capacity(alloc, edges)?;
        for _place in 0..edges {
            queues.push(Queue::new(alloc))?;
        }
        Ok(Queues { queues })
    }

    /// How many queues there are.
    pub fn len(&self) -> usize
        ensures { result ≡ length self.now }
    {
        self.queues.len()
    }

    /// The queue of an edge; none past the last edge.
    pub fn get(&self, edge: EdgeId) -> Option<&Queue>
        ensures { option_copied result ≡ slice_get self.now edge }
    {
        self.queues.get(edge.place() as usize)
    }

    /// The queue of an edge, to be changed; none past the last edge.
    pub fn get_mut(&mut self, edge: EdgeId) -> Option<&mut Queue>
        ensures* writes_back { sem 𝓛 (LendsQueue self.entry edge result) }
        ensures value { option_copied_mut result ≡ slice_get self.old edge }
    {
        self.queues.get_mut(edge.place() as usize)
    }

    /// Puts a queue in place of that of an edge; past the last edge it does nothing.
    pub fn set(&mut self, edge: EdgeId, queue: Queue)
        ensures { self.new ≡ slice_set self.old edge queue }
    {
        if let Some(place) = self.queues.get_mut(edge.place() as usize) {
            *place = queue;
        }
    }

    /// Takes the queue of the last edge out; none where there is no queue.
    pub fn pop(&mut self) -> Option<Queue>
        ensures some { IfSome result (λ queue. self.old ≡ self.new ++ queue ∷ []) }
        ensures none { IfNone result (self.old ≡ []) }
    {
        self.queues.pop()
    }
}
