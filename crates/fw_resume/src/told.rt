//! The counts that a root tells, as progress keeps them.
ghost use Rattle.std.specs.Prelude.{◌≡◌, ◌<◌, [], length, IfOk, OnOk};
ghost use Rattle.std.specs.List.{AllByRecursion};
ghost use Rattle.fw_flow.specs.Dataflow.{system_of};
ghost use Rattle.fw_flow.specs.WellFormed.{IsWellFormedSystem};
ghost use Rattle.fw_model.specs.Machine.{Machine, events};
ghost use Rattle.fw_model.specs.Reached.{IsReached};
ghost use Rattle.fw_progress.specs.Counts.{AreCounts};
ghost use Rattle.fw_progress.specs.History.{IsCountOf};
ghost use Rattle.fw_progress.specs.Progress.{ChangesAt};
ghost use Rattle.fw_progress.specs.Tally.{HasManyMore};
ghost use Rattle.fw_regain.specs.RootOf.{table_said, IsRootOf};
ghost use Rattle.fw_root.specs.OfFlow as of_flow;
ghost use Rattle.fw_root.specs.Sound.{IsRootFor};
ghost use Rattle.fw_root.specs.declared.of_flow.Role.TheVariants.{Input, ByCount};
ghost use Rattle.fw_resume.specs.Told.{AreBatchesTold, AreCountsTold, AreGoodSends, AreInjectedTold, AreOwedTold, ArePendingTold, AreTablesTold};
ghost use Rattle.fw_resume.specs.Told.{IsOwedOf, IsPendingOf};

use fw_flow::{Flow, NodeId, SentTable};
use fw_frontier::{SentCount, SentCounts};
use fw_lines::Batches;
use fw_progress::{Counts, Tally};
use fw_root::{OwedAt, PendingAt, Role, Root, nodes_as, number_of, place_in};
use fw_time::Stamp;
use std::alloc::{AllocError, Global};

/// The counts. The error is want of memory, or that a sum would not fit 64 bits.
pub(crate) fn counts_of(
    alloc: Global,
    flow: &Flow,
    batches: &Batches,
    root: &Root,
) -> Result<Counts, AllocError>
    requires sound { IsRootFor flow.now batches.now root.now }
    ensures counts { IfOk result (AreCounts flow.now) }

    // They are those of the history of each state of which the root is one.
    ensures of_state { (state : Machine) → IsWellFormedSystem (system_of flow.now batches.now) → IsReached (system_of flow.now batches.now) state
        → IsRootOf (system_of flow.now batches.now) state root.now
        → IfOk result (IsCountOf (system_of flow.now batches.now) (events state.history)) }
{
    let inputs = nodes_as(alloc, flow, Role::Input)?;
    let sequences = nodes_as(alloc, flow, Role::ByCount)?;
    counts_told(alloc, flow, batches, root, &inputs, &sequences)
}

/// The counts, where these are the inputs and the sequences. The error is want of memory, or that a sum would not fit 64 bits.
fn counts_told(
    alloc: Global,
    flow: &Flow,
    batches: &Batches,
    root: &Root,
    inputs: &[NodeId],
    sequences: &[NodeId],
) -> Result<Counts, AllocError>
    requires sound { IsRootFor flow.now batches.now root.now }
    requires inputs { inputs.now ≡ of_flow.nodes_as flow.now Input }
    requires sequences { sequences.now ≡ of_flow.nodes_as flow.now ByCount }
    ensures { IfOk result (AreCountsTold flow.now batches.now root.now) }
{
    let pending = pending_told(alloc, flow, root.pending.as_slice())?;
    let owed = owed_told(alloc, flow, root.owed.as_slice())?;
    let batches = batches_told(alloc, flow, batches)?;
    let injected = injected_told(alloc, flow, inputs, root.injected.as_slice())?;
    let sent = sent_told(alloc, flow, sequences, root.sends.as_slice())?;
    Ok(Counts {
        pending,
        owed,
        batches,
        injected,
        sent,
    })
}

/// For each node how many of its batches it injected; 0 where it is no input. The error is want of memory.
fn injected_told(
    alloc: Global,
    flow: &Flow,
    inputs: &[NodeId],
    injected: &[u64],
) -> Result<Vec<u64>, AllocError>
    ensures { IfOk result (λ counts. AreInjectedTold inputs.now injected.now (length flow.now.nodes) counts.items) }
{
    let mut counts = Vec::with_capacity(alloc, flow.nodes())?;
    for place in 0..flow.nodes() {
        let node = NodeId::at(place as u32);
        counts.push(number_of(inputs, injected, node).unwrap_or(0))?;
    }
    Ok(counts)
}

/// For each node how many messages it sent, by epoch, if it is a sequence. The error is want of memory.
fn sent_told(
    alloc: Global,
    flow: &Flow,
    sequences: &[NodeId],
    sends: &[SentCounts],
) -> Result<Vec<SentTable>, AllocError>
    requires { AllByRecursion AreGoodSends sends.now }
    ensures { IfOk result (λ tables. AreTablesTold sequences.now sends.now (length flow.now.nodes) tables.items) }
{
    let mut tables = Vec::with_capacity(alloc, flow.nodes())?;
    for place in 0..flow.nodes() {
        let node = NodeId::at(place as u32);
        let table = match sends.get(place_in(sequences, node)) {
            Some(sends) => table_of(alloc, sends.as_slice())?,
            None => SentTable::new(alloc),
        };
        tables.push(table)?;
    }
    Ok(tables)
}

/// For each edge how many messages are pending on it, by stamp. The error is want of memory, or that a sum would not fit 64 bits.
fn pending_told(alloc: Global, flow: &Flow, pending: &[PendingAt]) -> Result<Vec<Tally>, AllocError>
    requires { AllByRecursion (IsPendingOf flow.now) pending.now }
    ensures { IfOk result (λ tallies. ArePendingTold flow.now pending.now tallies.items) }
{
    let mut tallies = none_each(alloc, flow.edges())?;
    for of_edge in pending {
        let place = of_edge.edge.place() as usize;
        add_at(&mut tallies, place, &of_edge.at, of_edge.count)?;
    }
    Ok(tallies)
}

/// For each node the stamps of which it is owed a notification. The error is want of memory, or that there are 2^64 of one.
fn owed_told(alloc: Global, flow: &Flow, owed: &[OwedAt]) -> Result<Vec<Tally>, AllocError>
    requires { AllByRecursion (IsOwedOf flow.now) owed.now }
    ensures { IfOk result (λ tallies. AreOwedTold flow.now owed.now tallies.items) }
{
    let mut tallies = none_each(alloc, flow.nodes())?;
    for of_node in owed {
        let place = of_node.node.place() as usize;
        add_at(&mut tallies, place, &of_node.at, 1)?;
    }
    Ok(tallies)
}

/// So many tallies of nothing. The error is want of memory.
fn none_each(alloc: Global, count: usize) -> Result<Vec<Tally>, AllocError>
    ensures one_each { IfOk result (λ tallies. length tallies.items ≡ count) }
    ensures none { IfOk result (λ tallies. AllByRecursion (λ tally. tally ≡ []) tallies.items) }
{
    let mut tallies = Vec::with_capacity(alloc, count)?;
    for _place in 0..count {
        tallies.push(Tally::new(alloc))?;
    }
    Ok(tallies)
}

/// So many more of a stamp in one of the tallies. The error is want of memory, or that their number would not fit 64 bits.
fn add_at(tallies: &mut Vec<Tally>, place: usize, at: &Stamp, count: u64) -> Result<(), AllocError>
    requires { place < length tallies.old.items }
    ensures { OnOk result (ChangesAt place [] (HasManyMore at.now count) tallies.old.items tallies.new.items) }
{
    let tally = &mut tallies[place];
    tally.add_many(at, count)?;
    Ok(())
}

/// For each node how many batches it has. The error is want of memory.
fn batches_told(alloc: Global, flow: &Flow, batches: &Batches) -> Result<Vec<u64>, AllocError>
    ensures { IfOk result (λ counts. AreBatchesTold batches.now (length flow.now.nodes) counts.items) }
{
    let mut counts = Vec::with_capacity(alloc, flow.nodes())?;
    for place in 0..flow.nodes() {
        counts.push(batches.count(place as u32) as u64)?;
    }
    Ok(counts)
}

/// The table of these counts, which ascend. The error is want of memory.
fn table_of(alloc: Global, sends: &[SentCount]) -> Result<SentTable, AllocError>
    requires { AreGoodSends sends.now }
    ensures { IfOk result (λ table. table ≡ table_said sends.now) }
{
    let mut table = SentTable::new(alloc);
    for sent in sends {
        table.push(sent.cause.at(0), sent.count)?;
    }
    Ok(table)
}
