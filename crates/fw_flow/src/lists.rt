//! Lists as types of their own, which contracts see as lists.
ghost use Rattle.std.specs.Prelude.{◌≡◌, IfOk};

use crate::{Counted, Cut, OfEdge, Recorded};
use fw_frontier::Front;
use fw_time::Stamp;
use std::alloc::{AllocError, Global};
use std::marker::Model;

/// Cuts, one for each node. Contracts see their list.
#[derive(Debug, Drop)]
pub struct Cuts {
    cuts: Vec<Cut>,
}

impl Model for Cuts {
    ghost use Rattle.std.specs.Prelude.{List};
    ghost use Rattle.fw_flow.specs.declared.choice.Cut.{Cut};

    ghost Value = { List Cut };

    ghost view = { λ cuts. cuts.cuts.items };
}

impl Cuts {
    /// These cuts.
    pub fn of(cuts: Vec<Cut>) -> Self
        ensures { result ≡ cuts.items }
    {
        Cuts { cuts }
    }

    /// The cuts, in order of the nodes.
    pub fn as_slice(&self) -> &[Cut]
        ensures { result.now ≡ self.now }
    {
        &self.cuts
    }
}

/// Frontiers, one for each node. Contracts see their list.
#[derive(Debug, Drop)]
pub struct Fronts {
    fronts: Vec<Front>,
}

impl Model for Fronts {
    ghost use Rattle.std.specs.Prelude.{ℕ, List};

    ghost Value = { List (List (List ℕ)) };

    ghost view = { λ fronts. fronts.fronts.items };
}

impl Fronts {
    /// These frontiers.
    pub fn of(fronts: Vec<Front>) -> Self
        ensures { result ≡ fronts.items }
    {
        Fronts { fronts }
    }

    /// The frontiers, in order of the nodes.
    pub fn as_slice(&self) -> &[Front]
        ensures { result.now ≡ self.now }
    {
        &self.fronts
    }
}

/// Frontiers of edges, in any order. Contracts see their list.
#[derive(Debug, Drop)]
pub struct OfEdges {
    fronts: Vec<OfEdge>,
}

impl Model for OfEdges {
    ghost use Rattle.std.specs.Prelude.{List};
    ghost use Rattle.fw_flow.specs.declared.choice.OfEdge.{OfEdge};

    ghost Value = { List OfEdge };

    ghost view = { λ all. all.fronts.items };
}

impl OfEdges {
    /// These frontiers.
    pub fn of(fronts: Vec<OfEdge>) -> Self
        ensures { result ≡ fronts.items }
    {
        OfEdges { fronts }
    }

    /// The frontiers with their edges.
    pub fn as_slice(&self) -> &[OfEdge]
        ensures { result.now ≡ self.now }
    {
        &self.fronts
    }

    /// The same frontiers once more. The error is want of memory.
    pub fn copy(&self) -> Result<Self, AllocError>
        ensures { IfOk result (λ all. all ≡ self.now) }
    {
        let fronts = copied_fronts(*self.fronts.allocator(), &self.fronts)?;
        Ok(OfEdges { fronts })
    }
}

/// Messages with their numbers, in any order. Contracts see their list.
#[derive(Debug, Drop)]
pub struct CountedMessages {
    messages: Vec<Counted>,
}

impl Model for CountedMessages {
    ghost use Rattle.std.specs.Prelude.{List};
    ghost use Rattle.fw_flow.specs.declared.choice.Counted.{Counted};

    ghost Value = { List Counted };

    ghost view = { λ all. all.messages.items };
}

impl CountedMessages {
    /// These messages.
    pub fn of(messages: Vec<Counted>) -> Self
        ensures { result ≡ messages.items }
    {
        CountedMessages { messages }
    }

    /// The messages with their numbers.
    pub fn as_slice(&self) -> &[Counted]
        ensures { result.now ≡ self.now }
    {
        &self.messages
    }

    /// The same messages once more. The error is want of memory.
    pub fn copy(&self) -> Result<Self, AllocError>
        ensures { IfOk result (λ all. all ≡ self.now) }
    {
        let messages = copied_messages(*self.messages.allocator(), &self.messages)?;
        Ok(CountedMessages { messages })
    }
}

/// The stamps of which a node was notified, in any order. Contracts see their list.
#[derive(Debug, Drop)]
pub struct Notices {
    stamps: Vec<Stamp>,
}

impl Model for Notices {
    ghost use Rattle.std.specs.Prelude.{ℕ, List};

    ghost Value = { List (List ℕ) };

    ghost view = { λ notices. notices.stamps.items };
}

impl Notices {
    /// These stamps.
    pub fn of(stamps: Vec<Stamp>) -> Self
        ensures { result ≡ stamps.items }
    {
        Notices { stamps }
    }

    /// The stamps.
    pub fn as_slice(&self) -> &[Stamp]
        ensures { result.now ≡ self.now }
    {
        &self.stamps
    }

    /// The same stamps once more. The error is want of memory.
    pub fn copy(&self) -> Result<Self, AllocError>
        ensures { IfOk result (λ notices. notices ≡ self.now) }
    {
        let stamps = copied_stamps(*self.stamps.allocator(), &self.stamps)?;
        Ok(Notices { stamps })
    }
}

/// Frontiers that a node recorded, with what stands for its events inside. Contracts see their list.
#[derive(Debug, Drop)]
pub struct Records {
    records: Vec<Recorded>,
}

impl Model for Records {
    ghost use Rattle.std.specs.Prelude.{List};
    ghost use Rattle.fw_flow.specs.declared.choice.Recorded.{Recorded};

    ghost Value = { List Recorded };

    ghost view = { λ records. records.records.items };
}

impl Records {
    /// These records.
    pub fn of(records: Vec<Recorded>) -> Self
        ensures { result ≡ records.items }
    {
        Records { records }
    }

    /// The records.
    pub fn as_slice(&self) -> &[Recorded]
        ensures { result.now ≡ self.now }
    {
        &self.records
    }
}

/// The same frontiers of edges once more.
fn copied_fronts(alloc: Global, fronts: &[OfEdge]) -> Result<Vec<OfEdge>, AllocError>
    ensures { IfOk result (λ copy. copy.items ≡ fronts.now) }
{
    let mut copy = Vec::with_capacity(alloc, fronts.len())?;
    for of_edge in fronts {
        copy.push(of_edge.copy()?)?;
    }
    Ok(copy)
}

/// The same messages with their numbers once more.
fn copied_messages(alloc: Global, messages: &[Counted]) -> Result<Vec<Counted>, AllocError>
    ensures { IfOk result (λ copy. copy.items ≡ messages.now) }
{
    let mut copy = Vec::with_capacity(alloc, messages.len())?;
    for message in messages {
        copy.push(message.copy())?;
    }
    Ok(copy)
}

/// The same stamps once more.
fn copied_stamps(alloc: Global, stamps: &[Stamp]) -> Result<Vec<Stamp>, AllocError>
    ensures { IfOk result (λ copy. copy.items ≡ stamps.now) }
{
    let mut copy = Vec::with_capacity(alloc, stamps.len())?;
    for stamp in stamps {
        copy.push(stamp.copy())?;
    }
    Ok(copy)
}
