//! The newest checkpoint of a node, and the newest whole one within a frontier.
ghost use Rattle.std.specs.Prelude.{◌≡◌};
ghost use Rattle.std.specs.Option.{option_copied};
ghost use Rattle.fw_keep.specs.Newest as spec;

use crate::{Entry, Written};
use fw_flow::NodeId;
use fw_frontier::Front;

/// The newest checkpoint of a node, if it has one.
pub(crate) fn newest_by(entries: &[Entry], node: NodeId) -> Option<&Entry>
    ensures { option_copied result ≡ spec.newest_by node entries.now }
{
    let mut rest = entries;
    while let Some((entry, before)) = rest.split_last() {
        if let Some(newest) = checkpoint_by(entry, node) {
            return Some(newest);
        }
        rest = before;
    }
    None
}

/// The entry, if it is a checkpoint of the node.
fn checkpoint_by(entry: &Entry, node: NodeId) -> Option<&Entry>
    ensures { option_copied result ≡ spec.checkpoint_by node entry.now }
{
    entry.is_checkpoint_of(node).then_some(entry)
}

/// The front of the newest checkpoint of a node that is whole and lies within the frontier, if there is one. From it on, up to the
/// frontier, stand those by which the node is restored there. It looks at no entry before that one, and takes no memory.
pub fn whole_within<'a>(entries: &'a [Entry], node: NodeId, front: &Front) -> Option<&'a Front>
    ensures { option_copied result ≡ spec.whole_within node front.now entries.now }
{
    let mut rest = entries;
    while let Some((entry, before)) = rest.split_last() {
        if let Some(whole) = whole_front(entry, node, front) {
            return Some(whole);
        }
        rest = before;
    }
    None
}

/// The front of the entry, if it is a checkpoint of the node that is whole and lies within the frontier.
fn whole_front<'a>(entry: &'a Entry, node: NodeId, front: &Front) -> Option<&'a Front>
    ensures { option_copied result ≡ spec.whole_front node front.now entry.now }
{
    match &entry.written {
        Written::Checkpoint { recorded, .. }
            if entry.node == node && entry.depth == 0 && recorded.front.subset(front) => {
            Some(&recorded.front)
        }
        _ => None,
    }
}
