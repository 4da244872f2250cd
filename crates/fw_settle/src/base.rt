//! What a checkpoint stands on.
ghost use Rattle.std.specs.Prelude.{◌≡◌, ◌<◌, ◌^◌, IfSome};
ghost use Rattle.std.specs.Option.{option_copied};
ghost use Rattle.fw_record.specs.declared.record.Record.TheVariants as tagged;
ghost use Rattle.fw_keep.specs.Catalogue.{AreAscending, ids_of};
ghost use Rattle.fw_settle.specs.Checkpoints as spec;

use fw_flow::NodeId;
use fw_frontier::Front;
use fw_keep::{Entry, Keep, Written};
use fw_record::{Checkpoint, Record};

// After a checkpoint of this depth comes a whole one.
const DEEPEST: u64 = 7;

/// The entry on which the next checkpoint of a node stands: that of the newest one. None where there is none, or that is as deep as
/// can be: then the next one is whole.
pub(crate) fn next_base(keep: &Keep, node: NodeId) -> Option<&Entry>
    ensures base { option_copied result ≡ spec.next_base node keep.now.entries }
    ensures ascending { AreAscending (ids_of keep.now.entries) }
{
    let _ascending = keep.entries();
    let newest = keep.newest_checkpoint(node)?;
    if newest.depth >= DEEPEST {
        return None;
    }
    Some(newest)
}

/// The front of the checkpoint of an entry, if there is one.
pub(crate) fn front_of_entry(entry: Option<&Entry>) -> Option<&Front>
    ensures { option_copied result ≡ spec.front_of_entry (option_copied entry.entry) }
{
    match &entry?.written {
        Written::Checkpoint { recorded, .. } => Some(&recorded.front),
        Written::Event(_) => None,
    }
}

/// The record of a checkpoint that stands on this entry, or is whole where there is none.
pub(crate) fn record_on(base: Option<&Entry>, checkpoint: Checkpoint) -> Record
    ensures is { result ≡ spec.record_on (option_copied base.entry) checkpoint }
    ensures fits { IfSome (option_copied base.entry) (λ e. e.id < 2 ^ 64) }
{
    match base {
        Some(entry) => changes_on(entry.id, checkpoint),
        None => Record::State(checkpoint),
    }
}

// The record of a checkpoint of changes since the one under an id, which has 64 bits.
fn changes_on(base: u64, checkpoint: Checkpoint) -> Record
    ensures is { result ≡ tagged.Changes base checkpoint }
    ensures fits { base < 2 ^ 64 }
{
    Record::Changes { base, checkpoint }
}
