//! What the nodes of a dataflow may have to send again.
ghost use Rattle.std.specs.Prelude.{◌≡◌, ◌++◌, ◌∷◌, [], length, replicate, slice_get, slice_set, IfOk, IfSome, IfNone};
ghost use Rattle.std.specs.Option.{option_copied, option_copied_mut};
ghost use Rattle.std.specs.Borrow.{sem};
ghost use Rattle.fw_rollback.specs.Edges.{nothing_there};
ghost use Rattle.fw_rollback.specs.Lending.{LendsLog};

use fw_edge::MsgLog;
use fw_flow::EdgeId;
use std::alloc::{AllocError, Global};
use std::marker::Model;

/// A log for each edge of a dataflow: of one whose sender may not send again it stays empty. Contracts see their list.
#[derive(Debug, Drop)]
pub struct Logs {
    logs: Vec<MsgLog>,
}

impl Model for Logs {
    ghost use Rattle.std.specs.Prelude.{List};
    ghost use Rattle.fw_edge.specs.Messages.{MessagesState};

    ghost Value = { List MessagesState };

    ghost view = { λ all. all.logs.items };
}

impl Logs {
    /// The logs of so many edges, without messages. The only error is want of memory.
    pub fn new(alloc: Global, edges: usize) -> Result<Self, AllocError>
        ensures { IfOk result (λ all. all ≡ replicate edges nothing_there) }
    {
        let mut logs = Vec::with_capacity(alloc, edges)?;
        for _place in 0..edges {
            logs.push(MsgLog::new(alloc))?;
        }
        Ok(Logs { logs })
    }

    /// How many logs there are.
    pub fn len(&self) -> usize
        ensures { result ≡ length self.now }
    {
        self.logs.len()
    }

    /// The log of an edge; none past the last edge.
    pub fn get(&self, edge: EdgeId) -> Option<&MsgLog>
        ensures { option_copied result ≡ slice_get self.now edge }
    {
        self.logs.get(edge.place() as usize)
    }

    /// The log of an edge, to be changed; none past the last edge.
    pub fn get_mut(&mut self, edge: EdgeId) -> Option<&mut MsgLog>
        ensures* writes_back { sem 𝓛 (LendsLog self.entry edge result) }
        ensures value { option_copied_mut result ≡ slice_get self.old edge }
    {
        self.logs.get_mut(edge.place() as usize)
    }

    /// Puts a log in place of that of an edge; past the last edge it does nothing.
    pub fn set(&mut self, edge: EdgeId, log: MsgLog)
        ensures { self.new ≡ slice_set self.old edge log }
    {
        if let Some(place) = self.logs.get_mut(edge.place() as usize) {
            *place = log;
        }
    }

    /// Takes the log of the last edge out; none where there is no log.
    pub fn pop(&mut self) -> Option<MsgLog>
        ensures some { IfSome result (λ log. self.old ≡ self.new ++ log ∷ []) }
        ensures none { IfNone result (self.old ≡ []) }
    {
        self.logs.pop()
    }
}
