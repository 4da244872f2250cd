//! Which writes the cuts of a choice ask for.
ghost use Rattle.std.specs.Prelude.{◌≡◌, List, Some, None, IfOk, true, false, if◌then◌else◌, replicate, slice_index_or, slice_set};
ghost use Rattle.std.specs.Option.{option_copied};
ghost use Rattle.fw_flow.specs.Dataflow.{node_frontier};
ghost use Rattle.fw_flow.specs.Restoring as restoring;
ghost use Rattle.fw_model.specs.Choice.{cut_of};
ghost use Rattle.fw_rollback.specs.Asked as spec;
ghost use Rattle.fw_keep.specs.declared.entry.Entry.{Entry as Write};
ghost use Rattle.fw_keep.specs.Entry as writes;
ghost use Rattle.fw_rollback.specs.Asked.{front_at, is_at_cut, whole_front_in_cut, AreEnds, AreFound, AreWholes};

use fw_flow::{Choice, Cut, Flow, NodeId, Restoring};
use fw_frontier::Front;
use fw_keep::{Entry, Written};
use fw_time::Stamp;
use std::alloc::{AllocError, Global};
use std::marker::Model;

/// The frontier to which a node is cut; none where it stays as it is.
pub(crate) fn front_of(choice: &Choice, node: NodeId) -> Option<&Front>
    ensures { option_copied result ≡ front_at (cut_of choice.now node) }
{
    match choice.cuts.as_slice().get(node.place() as usize) {
        Some(Cut::At(front)) => Some(front),
        _ => None,
    }
}

/// For each node the front of the newest whole checkpoint within its cut, if it is cut and has one. Contracts see their list.
#[derive(Debug, Drop)]
pub(crate) struct Wholes {
    fronts: Vec<Option<Front>>,
}

impl Model for Wholes {
    ghost use Rattle.std.specs.Prelude.{List, Option};
    ghost use Rattle.fw_frontier.specs.Front.{Front};

    ghost Value = { List (Option Front) };

    ghost view = { λ wholes. wholes.fronts.items };
}

impl Wholes {
    /// Those among these entries, by one pass over them. The only error is want of memory.
    pub(crate) fn among(
        alloc: Global,
        choice: &Choice,
        entries: &[Entry],
    ) -> Result<Self, AllocError>
        ensures { IfOk result (AreWholes choice.now entries.now) }
    {
        let mut wholes = Wholes::none(alloc, choice.cuts.as_slice().len())?;
        for entry in entries {
            if let Some(front) = whole_front(choice, entry) {
                wholes.set(entry.node, front.copy()?);
            }
        }
        Ok(wholes)
    }

    /// None, of so many nodes.
    fn none(alloc: Global, nodes: usize) -> Result<Self, AllocError>
        ensures { IfOk result (λ wholes. wholes ≡ replicate nodes None) }
    {
        let mut fronts = Vec::with_capacity(alloc, nodes)?;
        for _place in 0..nodes {
            fronts.push(None)?;
        }
        Ok(Wholes { fronts })
    }

    /// Puts a front in place of that of a node; past the last node it does nothing.
    fn set(&mut self, node: NodeId, front: Front)
        ensures { self.new ≡ slice_set self.old node (Some front) }
    {
        if let Some(place) = self.fronts.get_mut(node.place() as usize) {
            *place = Some(front);
        }
    }

    /// That of a node, if it has one.
    fn of(&self, node: NodeId) -> Option<&Front>
        ensures { option_copied result ≡ slice_index_or self.now node None }
    {
        self.fronts.get(node.place() as usize)?.as_ref()
    }
}

/// Of which nodes an acknowledged checkpoint stands exactly at the cut. Contracts see their list.
#[derive(Debug, Drop)]
pub(crate) struct Ends {
    there: Vec<bool>,
}

impl Model for Ends {
    ghost use Rattle.std.specs.Prelude.{Bool, List};

    ghost Value = { List Bool };

    ghost view = { λ ends. ends.there.items };
}

impl Ends {
    /// Of which nodes one of these entries does, by one pass over them. The only error is want of memory.
    pub(crate) fn among(
        alloc: Global,
        choice: &Choice,
        entries: &[Entry],
    ) -> Result<Self, AllocError>
        ensures { IfOk result (AreEnds choice.now entries.now) }
    {
        let mut ends = Ends::none(alloc, choice.cuts.as_slice().len())?;
        for entry in entries {
            if is_end(choice, entry) {
                ends.set(entry.node);
            }
        }
        Ok(ends)
    }

    /// Of none of so many nodes.
    fn none(alloc: Global, nodes: usize) -> Result<Self, AllocError>
        ensures { IfOk result (λ ends. ends ≡ replicate nodes false) }
    {
        let mut there = Vec::with_capacity(alloc, nodes)?;
        for _place in 0..nodes {
            there.push(false)?;
        }
        Ok(Ends { there })
    }

    /// Notes that one does of a node; past the last node it does nothing.
    fn set(&mut self, node: NodeId)
        ensures { self.new ≡ slice_set self.old node true }
    {
        if let Some(there) = self.there.get_mut(node.place() as usize) {
            *there = true;
        }
    }

    /// Whether one does of a node.
    fn of(&self, node: NodeId) -> bool
        ensures { result ≡ slice_index_or self.now node false }
    {
        match self.there.get(node.place() as usize) {
            Some(there) => *there,
            None => false,
        }
    }
}

/// What is found of the nodes that are cut, by which their checkpoints are read.
#[derive(Debug, Drop)]
pub(crate) struct Found {
    /// The fronts of their newest whole checkpoints within their cuts.
    pub(crate) wholes: Wholes,
    /// Of which an acknowledged checkpoint stands exactly at the cut.
    pub(crate) ends: Ends,
}

impl Found {
    /// What is found among these entries. The only error is want of memory.
    pub(crate) fn among(
        alloc: Global,
        choice: &Choice,
        entries: &[Entry],
    ) -> Result<Self, AllocError>
        ensures { IfOk result (AreFound choice.now entries.now) }
    {
        let wholes = Wholes::among(alloc, choice, entries)?;
        let ends = Ends::among(alloc, choice, entries)?;
        Ok(Found { wholes, ends })
    }

    /// The front from which on the checkpoints of a node are read; none where none is read.
    fn read_from(&self, node: NodeId) -> Option<&Front>
        ensures { option_copied result ≡ (if slice_index_or self.now.ends node false then slice_index_or self.now.wholes node None else None) }
    {
        if self.ends.of(node) {
            self.wholes.of(node)
        } else {
            None
        }
    }
}

/// The front of the entry, if it is a whole checkpoint within the cut of its node.
fn whole_front<'a>(choice: &Choice, entry: &'a Entry) -> Option<&'a Front>
    ensures { option_copied result ≡ whole_front_in_cut choice.now entry.now.node entry.now }
{
    let front = front_of(choice, entry.node)?;
    match &entry.written {
        Written::Checkpoint { recorded, .. } if entry.depth == 0 && recorded.front.subset(front) =>
            { Some(&recorded.front) }
        _ => None,
    }
}

/// Whether the entry is an acknowledged checkpoint that stands exactly at the cut of its node.
fn is_end(choice: &Choice, entry: &Entry) -> bool
    ensures { result ≡ is_at_cut entry.now.node (cut_of choice.now entry.now.node) entry.now }
{
    match front_of(choice, entry.node) {
        Some(front) => entry.acknowledged && is_written_at(&entry.written, front),
        None => false,
    }
}

/// Whether a checkpoint is written whose front this is.
fn is_written_at(written: &Written, front: &Front) -> bool
    ensures { result ≡ writes.is_written_at front.now written.now }
{
    match written {
        Written::Checkpoint { recorded, .. } => recorded.front.same(front),
        Written::Event(_) => false,
    }
}

/// Whether the cut of its node asks for the write, one of these. Where the node is restored by checkpoints and an acknowledged one stands
/// exactly at the cut, it asks for the acknowledged ones from the newest whole one within the cut up to it; where it is restored by its
/// events, for the acknowledged ones inside.
pub(crate) fn is_asked_for(flow: &Flow, choice: &Choice, found: &Found, entry: &Entry) -> bool
    ensures { (entries : List Write) → AreFound choice.now entries found.now
        → result ≡ spec.is_asked_for flow.now choice.now entries entry.now }
{
    match front_of(choice, entry.node) {
        Some(front) => {
            let whole = found.read_from(entry.node);
            entry.acknowledged && is_needed(flow, whole, entry.node, front, &entry.written)
        }
        None => false,
    }
}

/// Whether a node is restored to the frontier by what is written, where its checkpoints are read from this front on.
fn is_needed(
    flow: &Flow,
    whole: Option<&Front>,
    node: NodeId,
    front: &Front,
    written: &Written,
) -> bool
    ensures { result ≡ spec.is_needed flow.now (option_copied whole.entry) node front.now (restoring.way_of flow.now node) written.now }
{
    match flow.restoring(node) {
        Restoring::Checkpoints => match whole {
            Some(whole) => written.lies_between(whole, front),
            None => false,
        },
        Restoring::Events => match written {
            Written::Event(event) => is_inside(flow, node, front, event.at()),
            Written::Checkpoint { .. } => false,
        },
        Restoring::Batches | Restoring::Bound | Restoring::Anything => false,
    }
}

/// Whether a stamp is one of the node's domain inside the frontier.
fn is_inside(flow: &Flow, node: NodeId, front: &Front, at: &Stamp) -> bool
    ensures { result ≡ node_frontier flow.now node front.now at.now }
{
    at.in_domain(&flow.domain(node)) && front.contains(at)
}
