//! What may stand after what in a record.
ghost use Rattle.std.specs.Prelude.{◌≡◌};
ghost use Rattle.std.specs.Ordering.{ordering_then};
ghost use Rattle.std.specs.Cmp.Lexicographic.{slice_cmp};
ghost use Rattle.fw_bag.specs.Rec.{rec_cmp};
ghost use Rattle.fw_time.specs.Stamp.{stamp_cmp};
ghost use Rattle.fw_record.specs.Sound.{may_follow_edges, may_follow_totals, may_follow_logged, logged_cmp};

use crate::Logged;
use fw_bag::Rec;
use fw_flow::{Message, OfEdge};
use std::cmp::Ordering;

/// Whether an edge may come next.
pub fn follows_edges(before: &[OfEdge], edge: u32) -> bool
    ensures { result ≡ may_follow_edges before.now edge }
{
    match before.last() {
        None => true,
        Some(last) => last.edge.place() < edge,
    }
}

/// Whether a total may come next.
pub fn follows_totals(before: &[Rec], next: &Rec) -> bool
    ensures { result ≡ may_follow_totals before.now next.now }
{
    match before.last() {
        None => true,
        Some(last) => last.key < next.key,
    }
}

/// The order of logged messages: by edge, stamp, causes and rec. What stands later is looked at only where what stands before
/// is the same.
pub fn compare_logged(x: &Logged, y: &Logged) -> Ordering
    ensures { result ≡ logged_cmp x.now y.now }
{
    match x.edge.place().cmp(&y.edge.place()) {
        Ordering::Less => Ordering::Less,
        Ordering::Equal => compare_sent(&x.message, &y.message),
        Ordering::Greater => Ordering::Greater,
    }
}

/// The order of messages that are logged on one edge.
fn compare_sent(sent: &Message, other: &Message) -> Ordering
    ensures { result ≡ ordering_then (stamp_cmp sent.now.at other.now.at)
        (ordering_then (slice_cmp stamp_cmp sent.now.causes other.now.causes) (rec_cmp sent.now.rec other.now.rec)) }
{
    match sent.at.compare(&other.at) {
        Ordering::Less => Ordering::Less,
        Ordering::Equal => sent
            .causes
            .cmp(&other.causes)
            .then(sent.rec.cmp(&other.rec)),
        Ordering::Greater => Ordering::Greater,
    }
}

/// Whether a logged message may come next.
pub fn follows_logged(before: &[Logged], next: &Logged) -> bool
    ensures { result ≡ may_follow_logged before.now next.now }
{
    match before.last() {
        None => true,
        Some(last) => compare_logged(last, next).is_le(),
    }
}
