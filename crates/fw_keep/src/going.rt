//! Which entries a call takes out.
ghost use Rattle.std.specs.Prelude.{◌≡◌, ◌+◌, ◌<◌, ◌≤◌, ◌++◌, Bool, false, not, ◌&&◌, nat_lt, filter, length, take, drop, vec_len};
ghost use Rattle.std.specs.List.{AllByRecursion};
ghost use Rattle.std.specs.Vec.{vec_capacity};
ghost use Rattle.fw_keep.specs.declared.entry.Entry.{Entry as Write};
ghost use Rattle.fw_keep.specs.Catalogue.{AreAscending, ids_of};
ghost use Rattle.fw_keep.specs.Newest as spec;
ghost use Rattle.fw_keep.specs.Entry.{is_in_flight_of, is_withdrawn, is_above, is_entry_below, is_at};

use crate::Entry;
use fw_flow::NodeId;
use fw_frontier::Front;
use fw_time::Stamp;

/// A test of entries: those that go.
pub trait Going {
    /// Whether an entry goes.
    ghost goes: { Self → Write → Bool };

    /// Whether the entry goes.
    fn takes(&self, entry: &Entry) -> bool
        ensures { result ≡ goes self.now entry.now };
}

/// The node's entries in flight.
#[derive(Clone, Copy)]
pub(crate) struct Lost {
    pub(crate) node: NodeId,
}

impl Going for Lost {
    ghost goes = { λ going e. is_in_flight_of going.node e };

    fn takes(&self, entry: &Entry) -> bool {
        entry.node == self.node && !entry.acknowledged
    }
}

/// The entries in flight from an id on.
#[derive(Clone, Copy)]
pub(crate) struct Withdrawn {
    pub(crate) id: u64,
}

impl Going for Withdrawn {
    ghost goes = { λ going e. is_withdrawn going.id e };

    fn takes(&self, entry: &Entry) -> bool {
        !entry.acknowledged && self.id <= entry.id
    }
}

/// The node's entries that do not lie within the frontier.
#[derive(Clone, Copy)]
pub(crate) struct Above<'a> {
    pub(crate) node: NodeId,
    pub(crate) front: &'a Front,
}

impl Going for Above<'_> {
    ghost goes = { λ going e. is_above going.node going.front.now e };

    fn takes(&self, entry: &Entry) -> bool {
        entry.node == self.node && !entry.written.lies_within(self.front)
    }
}

/// The node's checkpoints strictly within the frontier, before an id.
#[derive(Clone, Copy)]
pub(crate) struct Below<'a> {
    pub(crate) node: NodeId,
    pub(crate) front: &'a Front,
    pub(crate) until: u64,
}

impl Going for Below<'_> {
    ghost goes = { λ going e. is_entry_below going.node going.front.now e && nat_lt e.id going.until };

    fn takes(&self, entry: &Entry) -> bool {
        entry.node == self.node && entry.written.lies_below(self.front) && entry.id < self.until
    }
}

/// The id from which on the node's checkpoints stay, where those strictly within the frontier are forgotten: that of the newest
/// whole one up to the first that does not lie strictly within it, and this last one where all do.
pub(crate) fn stay_from(entries: &[Entry], node: NodeId, front: &Front, last: u64) -> u64
    ensures { result ≡ spec.stay_from node front.now 0 last entries.now }
{
    let mut whole = 0;
    for entry in entries {
        if entry.is_checkpoint_of(node) {
            whole = entry.whole_or(whole);
            if !entry.written.lies_below(front) {
                return whole;
            }
        }
    }
    last
}

/// The node's events at the stamp.
#[derive(Clone, Copy)]
pub(crate) struct EventsAt<'a> {
    pub(crate) node: NodeId,
    pub(crate) at: &'a Stamp,
}

impl Going for EventsAt<'_> {
    ghost goes = { λ going e. is_at going.node going.at.now e };

    fn takes(&self, entry: &Entry) -> bool {
        entry.node == self.node && entry.written.is_event_at(self.at)
    }
}

/// Takes entries out, none of which is one of so many first ones, and has their ids wait, for which there is room. It looks at
/// no entry before these.
pub(crate) fn take_out<G: Going>(
    entries: &mut Vec<Entry>,
    waiting: &mut Vec<u64>,
    from: usize,
    going: &G,
)
    requires from { from ≤ length entries.old.items }
    requires others { AllByRecursion (λ e. G.goes going.now e ≡ false) (take from entries.old.items) }
    requires room { vec_len waiting.old + vec_len entries.old ≤ vec_capacity waiting.old }
    ensures entries { entries.new.items ≡ filter (λ e. not (G.goes going.now e)) entries.old.items }
    ensures waiting { waiting.new.items ≡ waiting.old.items ++ ids_of (filter (G.goes going.now) entries.old.items) }
    ensures room { vec_len waiting.new + vec_len entries.new ≤ vec_capacity waiting.new }
{
    add_ids(waiting, entries, from, going);
    keep_others(entries, from, going);
}

/// Adds the ids of the entries that go, from a place on, for which there is room.
fn add_ids<G: Going>(waiting: &mut Vec<u64>, entries: &[Entry], from: usize, going: &G)
    requires from { from ≤ length entries.now }
    requires room { vec_len waiting.old + length entries.now ≤ vec_capacity waiting.old }
    ensures waiting { waiting.new.items ≡ waiting.old.items ++ ids_of (filter (G.goes going.now) (drop from entries.now)) }
    ensures capacity { vec_capacity waiting.new ≡ vec_capacity waiting.old }
{
    for place in from..entries.len() {
        if going.takes(&entries[place]) {
            waiting.push_reserved(entries[place].id);
        }
    }
}

/// Keeps of the entries from a place on those that do not go.
fn keep_others<G: Going>(entries: &mut Vec<Entry>, from: usize, going: &G)
    requires { from ≤ length entries.old.items }
    ensures { entries.new.items ≡ take from entries.old.items ++ filter (λ e. not (G.goes going.now e)) (drop from entries.old.items) }
{
    if from == 0 {
        // One that stays is moved once, where swaps move three times.
        entries.retain(|entry| !going.takes(entry));
        return;
    }
    let mut kept = from;
    for place in from..entries.len() {
        if !going.takes(&entries[place]) {
            entries.swap(kept, place);
            kept += 1;
        }
    }
    entries.truncate(kept);
}

/// The place of the first entry whose id is not below this one.
pub(crate) fn first_from(entries: &[Entry], id: u64) -> usize
    requires { AreAscending (ids_of entries.now) }
    ensures inside { result ≤ length entries.now }
    ensures below { AllByRecursion (λ e. e.id < id) (take result entries.now) }
    ensures from { AllByRecursion (λ e. id ≤ e.id) (drop result entries.now) }
{
    entries.partition_point(|entry| entry.id < id)
}
