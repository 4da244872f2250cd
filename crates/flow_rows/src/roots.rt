//! What bytes say as roots of a flow.
use fw_flow::{BatchFault, Flow, NodeId};
use fw_lines::Batches;
use fw_root::{Root, RootFault, decode_root, encode_root, root_head};
use row_words::{NoAnswer, after, bytes_named};
use std::alloc::Global;
use std::fmt::Write;

/// Of which turn the bytes of a name are, or where the first broken field of a head begins: `head NAME`.
pub fn head(alloc: Global, lines: &str, name: &str, said: &mut String) -> Result<(), NoAnswer> {
    let bytes = bytes_named(alloc, lines, name)?;
    match root_head(&bytes) {
        Ok(head) => write!(said, "turn {}", head.turn)?,
        Err(bad) => write!(said, "broken at {}", bad.at)?,
    }
    Ok(())
}

/// Whether the bytes of a name are a root, and what is written of it has them again; else where the first broken field begins:
/// `root NAME`.
pub fn root(
    alloc: Global,
    flow: &Flow,
    lines: &str,
    name: &str,
    said: &mut String,
) -> Result<(), NoAnswer> {
    let bytes = bytes_named(alloc, lines, name)?;
    let batches = batches_of(alloc, flow, lines)?;
    say_read(alloc, flow, &batches, &bytes, said)
}

/// Says whether bytes are a root, or where the first broken field begins.
fn say_read(
    alloc: Global,
    flow: &Flow,
    batches: &Batches,
    bytes: &[u8],
    said: &mut String,
) -> Result<(), NoAnswer> {
    match decode_root(alloc, flow, batches, bytes) {
        Ok(root) => say_root(alloc, &root, bytes, said),
        Err(RootFault::BadRoot { at }) => Ok(write!(said, "broken at {at}")?),
        Err(RootFault::NoMemory) => Err(NoAnswer::NoMemory),
    }
}

/// Says that there is a root, and whether what is written of it has the bytes that it was read of.
fn say_root(alloc: Global, root: &Root, bytes: &[u8], said: &mut String) -> Result<(), NoAnswer> {
    let again = encode_root(alloc, root)?;
    let words = if again.as_slice() == bytes {
        "root"
    } else {
        "another root"
    };
    Ok(said.push_str(words)?)
}

/// For each input as many batches, without recs, as the line `batches` says; none where there is no such line.
fn batches_of(alloc: Global, flow: &Flow, lines: &str) -> Result<Batches, NoAnswer> {
    let count = after(lines, "batches").unwrap_or("0");
    let Ok(count) = count.trim().parse::<u32>() else {
        return Err(NoAnswer::NotSpelled);
    };
    let mut batches = flow.no_batches(alloc);
    for place in 0..flow.nodes() {
        let node = NodeId::at(place as u32);
        if flow.kind(node).is_input() {
            add_batches(flow, &mut batches, node, count)?;
        }
    }
    Ok(batches)
}

/// So many batches of an input.
fn add_batches(
    flow: &Flow,
    batches: &mut Batches,
    input: NodeId,
    count: u32,
) -> Result<(), NoAnswer> {
    for _ in 0..count {
        match flow.add_batch(batches, input, &[]) {
            Ok(()) => {}
            Err(BatchFault::NoMemory) => return Err(NoAnswer::NoMemory),
            Err(_) => return Err(NoAnswer::NotSpelled),
        }
    }
    Ok(())
}
