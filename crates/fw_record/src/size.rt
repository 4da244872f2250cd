//! How many bytes a record takes, so that memory for its spelling is asked for once.
use crate::{Checkpoint, Event, Logged, Record};
use fw_bytes::size::{COUNT, NUMBER, of_counts, of_front, of_stamp};
use fw_flow::OfEdge;
use fw_frontier::Entries;

/// Letters, version and tag, and the node.
const HEAD: usize = 8;

/// A key and a value.
const REC: usize = 16;

fn of_edges(fronts: &[OfEdge]) -> usize {
    fronts.iter().fold(COUNT, |size, of_edge| {
        size.saturating_add(COUNT)
            .saturating_add(of_front(&of_edge.front))
    })
}

fn of_entries(entries: &Entries) -> usize {
    match entries {
        Entries::Totals(totals) => totals
            .as_slice()
            .len()
            .saturating_mul(REC)
            .saturating_add(NUMBER),
    }
}

/// The bytes of a logged message. Most have one cause, and its size alone is added.
fn of_logged(logged: &Logged) -> usize {
    let message = &logged.message;
    let size = COUNT + of_stamp(&message.at) + REC;
    match message.causes.stamps() {
        [cause] => size + of_stamp(cause),
        causes => causes
            .iter()
            .fold(size, |size, cause| size.saturating_add(of_stamp(cause))),
    }
}

fn of_log(messages: &[Logged]) -> usize {
    messages.iter().fold(NUMBER, |size, logged| {
        size.saturating_add(of_logged(logged))
    })
}

fn of_checkpoint(checkpoint: &Checkpoint) -> usize {
    let recorded = &checkpoint.recorded;
    let state = &checkpoint.state;
    of_front(&recorded.front)
        .saturating_add(of_front(&recorded.notified))
        .saturating_add(of_edges(recorded.delivered.as_slice()))
        .saturating_add(of_edges(recorded.discarded.as_slice()))
        .saturating_add(NUMBER)
        .saturating_add(of_counts(state.sends.as_slice()))
        .saturating_add(of_entries(&state.entries))
        .saturating_add(of_log(checkpoint.log.as_slice()))
}

fn of_event(event: &Event) -> usize {
    match event {
        Event::Deliver { at, .. } => 1 + COUNT + of_stamp(at) + REC,
        Event::Notify { at } => 1 + of_stamp(at),
    }
}

/// How many bytes the spelling of a record takes, or `usize::MAX` where that is more. Only memory rests on it.
pub fn of_record(what: &Record) -> usize {
    match what {
        Record::State(checkpoint) => of_checkpoint(checkpoint).saturating_add(HEAD),
        Record::Event { event, .. } => of_event(event).saturating_add(HEAD),
        Record::Changes { checkpoint, .. } => {
            of_checkpoint(checkpoint).saturating_add(HEAD + NUMBER)
        }
    }
}
