//! Giving up what a collection gives up.
ghost use Rattle.std.specs.Prelude.{◌≡◌, ◌↔◌, ◌<◌, ◌-◌, ℕ, IsTrue, length, slice_index_or};
ghost use Rattle.fw_collect.specs.declared.drops.AtNode.{AtNode as Event};
ghost use Rattle.fw_border.specs.Sources.{source_at};
ghost use Rattle.fw_collect.specs.Dropped.{is_below_some, is_at_some, is_dropped, Forgets, source_left};

use crate::drops::{AtNode, Drops, OfNode};
use fw_border::Sources;
use fw_keep::Keep;

/// Takes what is given up out of the catalogue and the inputs, and nothing else; the logs are the caller's. The bytes of the
/// entries that go then wait for a sweep.
///
/// The fronts are gone through in order: where a node is named twice, as no `plan` does, the second finds what the first left. Where
/// none is, each finds what was there at first (`laws::forgets_below_each`).
/// What is beside an input that is not there is passed over. It takes no memory, and time in proportion to the entries for each
/// node that takes checkpoints and each event, those that repeat the one before them left out; and else to the batches that go.
pub fn apply(drops: &Drops, keep: &mut Keep, sources: &mut Sources)
    ensures entries { Forgets (is_dropped drops.now keep.old) keep.old keep.new }
    ensures inputs { length sources.new ≡ length sources.old }
    ensures batches { (s : ℕ) → source_at sources.new s ≡ source_left drops.now.batches.items s (source_at sources.old s) }
{
    forget_records(&drops.records, keep);
    forget_events(&drops.events, keep);
    drop_batches(&drops.batches, sources);
}

/// Takes the checkpoints of these nodes out that lie strictly within the front beside them, and on which none stands that
/// stays, one node after the other.
fn forget_records(records: &[OfNode], keep: &mut Keep)
    ensures { Forgets (is_below_some records.now keep.old) keep.old keep.new }
{
    for record in records {
        keep.forget_below(record.node, &record.front);
    }
}

/// Takes the events of these nodes out at the stamp beside them.
fn forget_events(events: &[AtNode], keep: &mut Keep)
    ensures { Forgets (is_at_some events.now) keep.old keep.new }
{
    for (place, event) in events.iter().enumerate() {
        if !is_repeated(events, place) {
            keep.forget_at(event.node, &event.at);
        }
    }
}

/// Whether the one before is the same node at the same stamp. Events of a node at a stamp mostly come together, so most
/// repetitions are found by this.
fn is_repeated(events: &[AtNode], place: usize) -> bool
    requires { place < length events.now }
    ensures { IsTrue result
        ↔ ((d : Event) → (0 < place) × (slice_index_or events.now (place - 1) d ≡ slice_index_or events.now place d)) }
{
    if place == 0 {
        return false;
    }
    let (before, event) = (&events[place - 1], &events[place]);
    before.node == event.node && before.at == event.at
}

/// Drops the batches of these inputs that are inside the front beside them.
fn drop_batches(fronts: &[OfNode], sources: &mut Sources)
    ensures count { length sources.new ≡ length sources.old }
    ensures each { (s : ℕ) → source_at sources.new s ≡ source_left fronts.now s (source_at sources.old s) }
{
    for front in fronts {
        sources.acknowledge(front.node, &front.front);
    }
}
