//! Whether in two records the same is recorded.
ghost use Rattle.std.specs.Prelude.{◌≡◌, ◌↔◌, IsTrue};
ghost use Rattle.fw_keep.specs.Entry.{HasRecorded};

use fw_flow::{OfEdge, Recorded};
use fw_record::Record;

/// Whether this is recorded in the record of a checkpoint, whole or of changes.
pub(crate) fn has_recorded(what: &Record, recorded: &Recorded) -> bool
    ensures { IsTrue result ↔ HasRecorded recorded.now what.now }
{
    match what {
        Record::State(checkpoint) | Record::Changes { checkpoint, .. } => {
            are_same(&checkpoint.recorded, recorded)
        }
        Record::Event { .. } => false,
    }
}

/// Whether the two are the same.
fn are_same(one: &Recorded, other: &Recorded) -> bool
    ensures { IsTrue result ↔ (one.now ≡ other.now) }
{
    one.front.same(&other.front)
        && one.notified.same(&other.notified)
        && are_same_fronts(one.delivered.as_slice(), other.delivered.as_slice())
        && are_same_fronts(one.discarded.as_slice(), other.discarded.as_slice())
}

/// Whether they are the same fronts of the same edges, in one order.
fn are_same_fronts(some: &[OfEdge], others: &[OfEdge]) -> bool
    ensures { IsTrue result ↔ (some.now ≡ others.now) }
{
    if some.len() != others.len() {
        return false;
    }
    for place in 0..some.len() {
        if !is_same_of_edge(&some[place], &others[place]) {
            return false;
        }
    }
    true
}

/// Whether they are the same front of the same edge.
fn is_same_of_edge(one: &OfEdge, other: &OfEdge) -> bool
    ensures { IsTrue result ↔ (one.now ≡ other.now) }
{
    one.edge == other.edge && one.front.same(&other.front)
}
