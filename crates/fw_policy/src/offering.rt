//! To which frontiers nodes can be restored.
ghost use Rattle.std.specs.Prelude.{◌≡◌, ◌++◌, List, [], ◌∷◌, IfOk, OnOk};
ghost use Rattle.fw_time.specs.declared.stamp.Bounds.{Bounds as Domain};
ghost use Rattle.fw_time.specs.Stamp.{up_to};
ghost use Rattle.fw_frontier.specs.Frontier.{meet};
ghost use Rattle.fw_frontier.specs.Front.{frontier_of, IsCanonical, IsFrontOf};
ghost use Rattle.fw_flow.specs.declared.choice.Recorded.{Recorded as RecordedValue};
ghost use Rattle.fw_flow.specs.declared.restoring.Restoring.TheVariants as ways;
ghost use Rattle.fw_flow.specs.Dataflow.{bounds_of, greatest_number};
ghost use Rattle.fw_flow.specs.Restoring.{way_of};
ghost use Rattle.fw_model.specs.Choice as choices;
ghost use Rattle.fw_policy.specs.Offering as spec;
ghost use Rattle.fw_policy.specs.Known.{FitsWay, IsKnown};

use crate::below::{cut_below, unlogged};
use crate::view::{Border, NodeView};
use fw_flow::{Flow, NodeId, OfEdges, Offered, Recorded, Records, Restoring};
use fw_frontier::Front;
use fw_keep::{Entry, Written};
use fw_time::{Bounds, Stamp};
use std::alloc::{AllocError, Global};

/// To which frontiers a node can be restored. The error is want of memory.
pub(crate) fn offered(
    alloc: Global,
    flow: &Flow,
    entries: &[Entry],
    node: NodeId,
    known: &NodeView,
) -> Result<Offered, AllocError>
    ensures { IsKnown flow.now entries.now node known.now → IfOk result
        (spec.OffersBy (bounds_of flow.now node) entries.now node known.now (way_of flow.now node)) }
{
    match flow.restoring(node) {
        Restoring::Batches => of_batches(alloc, &known.low, &known.border),
        Restoring::Bound => of_bound(alloc, &known.low, &known.settled, &known.border),
        Restoring::Anything => range(&known.low, known.settled.copy()?),
        Restoring::Checkpoints => {
            let records = records(alloc, &flow.domain(node), entries, node, &known.low)?;
            Ok(Offered::Listed(Records::of(records)))
        }
        Restoring::Events => {
            let stamps = unlogged(alloc, entries, node, known.lost.as_slice())?;
            range(&known.low, cut_below(&known.settled, &stamps)?)
        }
    }
}

/// All from the low watermark to a frontier.
fn range(low: &Front, greatest: Front) -> Result<Offered, AllocError>
    ensures { (bounds : Domain) → IsCanonical bounds greatest → IfOk result (spec.IsRange bounds low.now (frontier_of bounds greatest)) }
{
    Ok(Offered::Between {
        least: low.copy()?,
        greatest,
    })
}

/// What an output offers: what is settled and acknowledged. Of a view that does not tell how much is acknowledged, which no
/// state has, all that is settled.
fn of_bound(
    alloc: Global,
    low: &Front,
    settled: &Front,
    border: &Border,
) -> Result<Offered, AllocError>
    ensures { (domain : Domain) → domain ≡ up_to (greatest_number ∷ []) → IsCanonical domain settled.now → FitsWay ways.Bound border.now
        → IfOk result (spec.IsOfBound domain low.now settled.now border.now) }
{
    match border {
        Border::Output { bound } => Ok(Offered::Between {
            least: low.copy()?,
            greatest: acknowledged(alloc, settled, *bound)?,
        }),
        _ => range(low, settled.copy()?),
    }
}

/// What is settled and acknowledged of an output. A bound past the greatest number leaves what is settled.
fn acknowledged(alloc: Global, settled: &Front, bound: u64) -> Result<Front, AllocError>
    ensures { (domain : Domain) → domain ≡ up_to (greatest_number ∷ []) → IsCanonical domain settled.now
        → IfOk result (λ f. IsFrontOf domain f
        (meet (frontier_of domain settled.now) (frontier_of domain (choices.until bound)))) }
{
    match u32::try_from(bound) {
        Ok(bound) => settled.meet(&until(alloc, bound)?),
        Err(_) => settled.copy(),
    }
}

/// The frontier of the epochs below this one.
fn until(alloc: Global, epoch: u32) -> Result<Front, AllocError>
    ensures { IfOk result (λ f. f ≡ choices.until epoch) }
{
    Front::until(alloc, &[Stamp::new(&[epoch])])
}

/// What an input offers: what it injected, from the low watermark on, and all once there is no more. More batches than the
/// greatest number, which no state has, count as that many; of a view that does not tell how many there are, which no state
/// has either, it is nothing.
fn of_batches(alloc: Global, low: &Front, border: &Border) -> Result<Offered, AllocError>
    ensures { FitsWay ways.Batches border.now → IfOk result (spec.IsOfBatches low.now border.now) }
{
    match border {
        Border::Source {
            injected,
            exhausted,
        } => Ok(Offered::Batches {
            least: low.copy()?,
            greatest: until(alloc, (*injected).min(u32::MAX as u64) as u32)?,
            exhausted: *exhausted,
        }),
        _ => Ok(Offered::Listed(Records::of(Vec::new(alloc)))),
    }
}

/// What a node with checkpoints offers: no stamps, and its acknowledged checkpoints, so far as they hold the low watermark.
fn records(
    alloc: Global,
    bounds: &Bounds,
    entries: &[Entry],
    node: NodeId,
    low: &Front,
) -> Result<Vec<Recorded>, AllocError>
    ensures { IfOk result (λ rs. rs.items ≡ spec.holding low.now (spec.empty_record bounds.now ∷ spec.records_by node entries.now)) }
{
    let mut records = Vec::new(alloc);
    add_empty(alloc, &mut records, bounds, low)?;
    for entry in entries {
        add_entry(alloc, &mut records, entry, node, low)?;
    }
    Ok(records)
}

/// Adds a record of no stamps, if it holds the low watermark.
fn add_empty(
    alloc: Global,
    records: &mut Vec<Recorded>,
    bounds: &Bounds,
    low: &Front,
) -> Result<(), AllocError>
    ensures { records.old.items ≡ [] → OnOk result (records.new.items ≡ spec.holding low.now (spec.empty_record bounds.now ∷ [])) }
{
    let empty = Recorded {
        front: Front::empty(alloc, bounds)?,
        notified: Front::empty(alloc, bounds)?,
        delivered: OfEdges::of(Vec::new(alloc)),
        discarded: OfEdges::of(Vec::new(alloc)),
    };
    if low.subset(&empty.front) {
        records.push(empty)?;
    }
    Ok(())
}

/// Adds the record of the entry, if it is an acknowledged checkpoint of the node that holds the low watermark.
fn add_entry(
    alloc: Global,
    records: &mut Vec<Recorded>,
    entry: &Entry,
    node: NodeId,
    low: &Front,
) -> Result<(), AllocError>
    ensures { (rs : List RecordedValue) → records.old.items ≡ spec.holding low.now rs
        → OnOk result (records.new.items ≡ spec.holding low.now (rs ++ spec.record_by node entry.now)) }
{
    if entry.node == node && entry.acknowledged {
        return add_written(alloc, records, &entry.written, low);
    }
    Ok(())
}

/// Adds the record, if it is one that holds the low watermark.
fn add_written(
    alloc: Global,
    records: &mut Vec<Recorded>,
    written: &Written,
    low: &Front,
) -> Result<(), AllocError>
    ensures { (rs : List RecordedValue) → records.old.items ≡ spec.holding low.now rs
        → OnOk result (records.new.items ≡ spec.holding low.now (rs ++ spec.record_in written.now)) }
{
    match written {
        Written::Checkpoint { recorded, .. } => {
            if low.subset(&recorded.front) {
                records.push(recorded.copy()?)?;
            }
        }
        Written::Event(_) => {}
    }
    Ok(())
}
