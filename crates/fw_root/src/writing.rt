//! Writing roots.
ghost use Rattle.std.specs.Prelude.{◌≡◌, ◌++◌, OnOk, IfOk};
ghost use Rattle.std.specs.List.{flat_map};
ghost use Rattle.fw_bytes.specs.Spelling.{u64_bytes, sent_counts_bytes};
ghost use Rattle.fw_root.specs.Spelling.{digests_bytes, lines_bytes, mark_bytes, node_fronts_bytes, named_write_bytes, writes_bytes, ids_bytes, pending_at_bytes, pending_bytes, owed_at_bytes, owed_bytes, root_spelling};

use crate::codes::{MAGIC, VERSION};
use crate::{Digests, Mark, NamedWrite, NodeFronts, OwedAt, PendingAt, Root};
use fw_bytes::{put_counts, put_front, put_stamp, put_u32, put_u64};
use fw_frontier::SentCounts;
use std::alloc::{AllocError, Global};

/// How many bytes a small root has at most: for so many there is room from the start.
const SMALL_ROOT: usize = 512;

/// The letters FR, the version and the digests.
#[tactic(auto, unfolding(crate::specs::Spelling::digests_bytes))]
fn put_digests(out: &mut Vec<u8>, digests: &Digests) -> Result<(), AllocError>
    ensures { OnOk result (out.new.items ≡ out.old.items ++ digests_bytes digests.now) }
{
    out.extend_from_slice(&MAGIC.to_be_bytes())?;
    out.push(VERSION)?;
    out.extend_from_slice(&digests.flow)?;
    out.extend_from_slice(&digests.inputs)?;
    out.extend_from_slice(&digests.schedule)?;
    Ok(())
}

/// Lines, after the number of their bytes.
fn put_lines(out: &mut Vec<u8>, lines: &[u8]) -> Result<(), AllocError>
    ensures { OnOk result (out.new.items ≡ out.old.items ++ lines_bytes lines.now) }
{
    put_u64(out, lines.len() as u64)?;
    out.extend_from_slice(lines)?;
    Ok(())
}

/// Where a run stands, with the next id before the lines.
#[tactic(auto, unfolding(crate::specs::Spelling::mark_bytes))]
fn put_mark(out: &mut Vec<u8>, mark: &Mark, next_id: u64) -> Result<(), AllocError>
    ensures { OnOk result (out.new.items ≡ out.old.items ++ mark_bytes mark.now next_id) }
{
    put_digests(out, &mark.digests)?;
    put_u64(out, mark.turn)?;
    put_u64(out, mark.line)?;
    put_u64(out, mark.singles)?;
    put_u64(out, mark.steps)?;
    put_u64(out, mark.idle)?;
    put_u64(out, next_id)?;
    put_lines(out, mark.lines.as_slice())
}

/// Numbers, without a count.
fn put_numbers(out: &mut Vec<u8>, numbers: &[u64]) -> Result<(), AllocError>
    ensures { OnOk result (out.new.items ≡ out.old.items ++ flat_map u64_bytes numbers.now) }
{
    for number in numbers {
        put_u64(out, *number)?;
    }
    Ok(())
}

/// The three frontiers of a node.
#[tactic(auto, unfolding(crate::specs::Spelling::node_fronts_bytes))]
fn put_node_fronts(out: &mut Vec<u8>, fronts: &NodeFronts) -> Result<(), AllocError>
    ensures { OnOk result (out.new.items ≡ out.old.items ++ node_fronts_bytes fronts.now) }
{
    put_front(out, &fronts.settled)?;
    put_front(out, &fronts.low)?;
    put_front(out, &fronts.third)
}

/// The frontiers of nodes, without a count.
fn put_fronts(out: &mut Vec<u8>, fronts: &[NodeFronts]) -> Result<(), AllocError>
    ensures { OnOk result (out.new.items ≡ out.old.items ++ flat_map node_fronts_bytes fronts.now) }
{
    for of_node in fronts {
        put_node_fronts(out, of_node)?;
    }
    Ok(())
}

/// A write.
fn put_write(out: &mut Vec<u8>, write: &NamedWrite) -> Result<(), AllocError>
    ensures { OnOk result (out.new.items ≡ out.old.items ++ named_write_bytes write.now) }
{
    put_u64(out, write.id)?;
    put_u32(out, write.node)?;
    out.push(write.tag)?;
    Ok(())
}

/// Writes, after their number.
fn put_writes(out: &mut Vec<u8>, writes: &[NamedWrite]) -> Result<(), AllocError>
    ensures { OnOk result (out.new.items ≡ out.old.items ++ writes_bytes writes.now) }
{
    put_u64(out, writes.len() as u64)?;
    for write in writes {
        put_write(out, write)?;
    }
    Ok(())
}

/// Ids, after their number.
fn put_ids(out: &mut Vec<u8>, ids: &[u64]) -> Result<(), AllocError>
    ensures { OnOk result (out.new.items ≡ out.old.items ++ ids_bytes ids.now) }
{
    put_u64(out, ids.len() as u64)?;
    put_numbers(out, ids)
}

/// A count of what is pending.
fn put_pending_at(out: &mut Vec<u8>, pending: &PendingAt) -> Result<(), AllocError>
    ensures { OnOk result (out.new.items ≡ out.old.items ++ pending_at_bytes pending.now) }
{
    put_u32(out, pending.edge.place())?;
    put_stamp(out, &pending.at)?;
    put_u64(out, pending.count)
}

/// Counts of what is pending, after their number.
fn put_pending(out: &mut Vec<u8>, counts: &[PendingAt]) -> Result<(), AllocError>
    ensures { OnOk result (out.new.items ≡ out.old.items ++ pending_bytes counts.now) }
{
    put_u64(out, counts.len() as u64)?;
    for pending in counts {
        put_pending_at(out, pending)?;
    }
    Ok(())
}

/// A stamp that is owed.
fn put_owed_at(out: &mut Vec<u8>, owed: &OwedAt) -> Result<(), AllocError>
    ensures { OnOk result (out.new.items ≡ out.old.items ++ owed_at_bytes owed.now) }
{
    put_u32(out, owed.node.place())?;
    put_stamp(out, &owed.at)
}

/// Stamps that are owed, after their number.
fn put_owed(out: &mut Vec<u8>, stamps: &[OwedAt]) -> Result<(), AllocError>
    ensures { OnOk result (out.new.items ≡ out.old.items ++ owed_bytes stamps.now) }
{
    put_u64(out, stamps.len() as u64)?;
    for owed in stamps {
        put_owed_at(out, owed)?;
    }
    Ok(())
}

/// Counts of what sequences sent, each list after its own number.
fn put_sends(out: &mut Vec<u8>, tables: &[SentCounts]) -> Result<(), AllocError>
    ensures { OnOk result (out.new.items ≡ out.old.items ++ flat_map sent_counts_bytes tables.now) }
{
    for table in tables {
        put_counts(out, table.as_slice())?;
    }
    Ok(())
}

/// The one spelling of a root. The error is want of memory.
#[tactic(auto, unfolding(crate::specs::Spelling::root_spelling))]
pub fn encode_root(alloc: Global, root: &Root) -> Result<Vec<u8>, AllocError>
    ensures { IfOk result (λ bytes. bytes.items ≡ root_spelling root.now) }
{
    let mut out = Vec::with_capacity(alloc, SMALL_ROOT)?;
    put_mark(&mut out, &root.mark, root.next_id)?;
    put_numbers(&mut out, root.injected.as_slice())?;
    put_numbers(&mut out, root.bounds.as_slice())?;
    put_fronts(&mut out, root.fronts.as_slice())?;
    put_writes(&mut out, root.writes.as_slice())?;
    put_ids(&mut out, root.others.as_slice())?;
    put_pending(&mut out, root.pending.as_slice())?;
    put_owed(&mut out, root.owed.as_slice())?;
    put_sends(&mut out, root.sends.as_slice())?;
    Ok(out)
}
