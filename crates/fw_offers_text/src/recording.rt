//! What statements tell, in the words of offers.
ghost use Rattle.std.specs.Prelude.{◌≡◌, ◌++◌, [], true, map, unwrap_or, Some, None, if◌then◌else◌, IfOk, OnOk};
ghost use Rattle.std.specs.List.{cons_option, filter_map, list_all};
ghost use Rattle.fw_flow.specs.Dataflow.{bounds_of};
ghost use Rattle.fw_frontier.specs.Front.{least_stamps};
ghost use Rattle.fw_offers_text.specs.OffersGrammar as spec;
ghost use Rattle.fw_offers_text.specs.Statements.{are_counts_apart, first_told, is_count_small};

use crate::statement::{EpochCounts, RecordCover, RecordCovers};
use fw_flow::{
    Causes, Counted, EdgeId, Flow, NodeId, OfEdge, OfEdges, Offered, Recorded, SentTable, Side,
};
use fw_frontier::Front;
use fw_time::Stamp;
use std::alloc::{AllocError, Global};

/// The record of a frontier with these covers: nothing was notified where that is not told.
pub(crate) fn recorded(
    alloc: Global,
    flow: &Flow,
    node: NodeId,
    front: Front,
    covers: &RecordCovers,
) -> Result<Recorded, AllocError>
    ensures { IfOk result (λ made. made ≡ spec.record_told flow.now node front covers.now) }
{
    let covers = covers.as_slice();
    Ok(Recorded {
        front,
        notified: notified_in(alloc, flow, node, covers)?,
        delivered: OfEdges::of(delivered_in(alloc, covers)?),
        discarded: OfEdges::of(discarded_in(alloc, covers)?),
    })
}

// The first frontier that covers tell of what the node was notified of; that of no stamps where they tell none.
fn notified_in(
    alloc: Global,
    flow: &Flow,
    node: NodeId,
    covers: &[RecordCover],
) -> Result<Front, AllocError>
    ensures { IfOk result (λ front. front
        ≡ unwrap_or (first_told (λ c. spec.notified_front node c.side c.front) covers.now) (least_stamps (bounds_of flow.now node))) }
{
    for cover in covers {
        if is_notice(&cover.side, node) {
            return cover.front.copy();
        }
    }
    Front::empty(alloc, &flow.domain(node))
}

// Whether the side is of what the node was notified.
fn is_notice(side: &Side, node: NodeId) -> bool
    ensures { (front : Front) → spec.notified_front node side.now front ≡ (if result then Some front else None) }
{
    match side {
        Side::Notified(of) => *of == node,
        Side::Delivered(_) | Side::Discarded(_) => false,
    }
}

// The frontiers that covers tell of what was delivered on edges.
fn delivered_in(alloc: Global, covers: &[RecordCover]) -> Result<Vec<OfEdge>, AllocError>
    ensures { IfOk result (λ told. told.items ≡ filter_map (λ c. spec.delivered_front c.side c.front) covers.now) }
{
    let mut told = Vec::new(alloc);
    for cover in covers {
        add_delivered(&mut told, cover)?;
    }
    Ok(told)
}

// Adds what a cover tells of what was delivered on an edge.
fn add_delivered(told: &mut Vec<OfEdge>, cover: &RecordCover) -> Result<(), AllocError>
    ensures { OnOk result
        (told.new.items ≡ told.old.items ++ cons_option (spec.delivered_front cover.now.side cover.now.front) []) }
{
    let Side::Delivered(edge) = cover.side else {
        return Ok(());
    };
    let front = cover.front.copy()?;
    told.push(OfEdge { edge, front })?;
    Ok(())
}

// The frontiers that covers tell of what was discarded on edges.
fn discarded_in(alloc: Global, covers: &[RecordCover]) -> Result<Vec<OfEdge>, AllocError>
    ensures { IfOk result (λ told. told.items ≡ filter_map (λ c. spec.discarded_front c.side c.front) covers.now) }
{
    let mut told = Vec::new(alloc);
    for cover in covers {
        add_discarded(&mut told, cover)?;
    }
    Ok(told)
}

// Adds what a cover tells of what was discarded on an edge.
fn add_discarded(told: &mut Vec<OfEdge>, cover: &RecordCover) -> Result<(), AllocError>
    ensures { OnOk result
        (told.new.items ≡ told.old.items ++ cons_option (spec.discarded_front cover.now.side cover.now.front) []) }
{
    let Side::Discarded(edge) = cover.side else {
        return Ok(());
    };
    let front = cover.front.copy()?;
    told.push(OfEdge { edge, front })?;
    Ok(())
}

/// All between two frontiers: batches of an input, whose all is offered too where it is exhausted.
pub(crate) fn offered_between(
    flow: &Flow,
    node: NodeId,
    least: Front,
    greatest: Front,
    and_all: bool,
) -> Offered
    ensures { result ≡ spec.offered_between flow.now node least greatest and_all }
{
    if flow.kind(node).is_input() {
        Offered::Batches {
            least,
            greatest,
            exhausted: and_all,
        }
    } else {
        Offered::Between { least, greatest }
    }
}

/// A message of an edge at a stamp. Of an input it comes from its batch of that epoch, else from the least stamp of the sender's
/// domain, since it counts by its stamp alone.
pub(crate) fn counted(flow: &Flow, edge: EdgeId, stamp: &Stamp) -> Counted
    ensures { result ≡ spec.counted_at flow.now edge stamp.now }
{
    let sender = flow.src(edge);
    let cause = if flow.kind(sender).is_input() {
        stamp.copy()
    } else {
        flow.domain(sender).origin()
    };
    Counted {
        edge,
        at: stamp.copy(),
        causes: Causes::of(cause),
        count: 1,
    }
}

/// Counts of small epochs and numbers, each of another epoch, as a table.
pub(crate) fn table_of(alloc: Global, counts: &EpochCounts) -> Result<SentTable, AllocError>
    requires small { list_all is_count_small counts.now ≡ true }
    requires apart { are_counts_apart counts.now ≡ true }
    ensures { IfOk result (λ table. table ≡ map spec.counted_in counts.now) }
{
    let mut table = SentTable::new(alloc);
    for count in &counts.counts {
        table.push(count.key as u32, count.value)?;
    }
    Ok(table)
}
