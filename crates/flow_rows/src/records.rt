//! What bytes say as records, and of which node they are.
use fw_flow::Flow;
use fw_record::{Event, Record, RecordFault, decode};
use row_words::{
    NoAnswer, bytes_named, edge_of, front_in, node_of, part, rec_of, record_named, stamp_of,
};
use std::alloc::Global;
use std::fmt::Write;

/// Whether these bytes are a record, and else where the first broken field begins: `read NAME`.
pub fn read(alloc: Global, lines: &str, name: &str, said: &mut String) -> Result<(), NoAnswer> {
    let bytes = bytes_named(alloc, lines, name)?;
    let broken = broken_at(alloc, &bytes)?;
    match broken {
        None => said.push_str("record")?,
        Some(at) => write!(said, "broken at {at}")?,
    }
    Ok(())
}

/// Where the first broken field of these bytes begins; none where they are a record.
fn broken_at(alloc: Global, bytes: &[u8]) -> Result<Option<usize>, NoAnswer> {
    match decode(alloc, bytes) {
        Ok(_) => Ok(None),
        Err(RecordFault::BadRecord { at }) => Ok(Some(at)),
        Err(RecordFault::NoMemory) => Err(NoAnswer::NoMemory),
    }
}

/// Whether a record is that of a checkpoint of a node at a frontier, `checkpoint NAME NODE FRONT`, or that of an event of it,
/// `event NAME NODE EVENT`.
pub fn of_node(
    alloc: Global,
    flow: &Flow,
    lines: &str,
    line: &str,
    said: &mut String,
) -> Result<(), NoAnswer> {
    let (word, rest) = part(line);
    let (name, rest) = part(rest);
    let record = record_named(alloc, lines, name)?;
    let is_so = is_that(alloc, flow, &record, word, rest)?;
    said.push_str(if is_so { "true" } else { "false" })?;
    Ok(())
}

/// Whether a record is that of a checkpoint, or else of an event.
fn is_that(
    alloc: Global,
    flow: &Flow,
    record: &Record,
    word: &str,
    text: &str,
) -> Result<bool, NoAnswer> {
    if word == "checkpoint" {
        is_checkpoint(alloc, flow, record, text)
    } else {
        is_event(alloc, flow, record, text)
    }
}

/// Whether a record is that of a checkpoint: `NODE FRONT`.
fn is_checkpoint(
    alloc: Global,
    flow: &Flow,
    record: &Record,
    text: &str,
) -> Result<bool, NoAnswer> {
    let (node, front) = part(text);
    let node = node_of(flow, node)?;
    let front = front_in(alloc, front, &flow.domain(node))?;
    Ok(record.is_checkpoint_of(flow, node, &front))
}

/// Whether a record is that of an event: `NODE deliver EDGE STAMP K:V` or `NODE notify STAMP`.
fn is_event(alloc: Global, flow: &Flow, record: &Record, text: &str) -> Result<bool, NoAnswer> {
    let (node, rest) = part(text);
    let node = node_of(flow, node)?;
    let (word, rest) = part(rest);
    let event = match word {
        "deliver" => delivery(alloc, flow, rest)?,
        "notify" => Event::Notify {
            at: stamp_of(alloc, rest)?,
        },
        _ => return Err(NoAnswer::NotSpelled),
    };
    Ok(record.is_event_of(node, &event))
}

/// A delivery: `EDGE STAMP K:V`.
fn delivery(alloc: Global, flow: &Flow, text: &str) -> Result<Event, NoAnswer> {
    let (edge, rest) = part(text);
    let (at, rec) = part(rest);
    Ok(Event::Deliver {
        edge: edge_of(flow, edge)?,
        at: stamp_of(alloc, at)?,
        rec: rec_of(rec)?,
    })
}
