//! Reading roots.
ghost use Rattle.std.specs.Prelude.{◌≡◌, [], nat_lt, ◌^◌, IfOk};
ghost use Rattle.std.specs.Int.{w32, w64};
ghost use Rattle.fw_bytes.specs.Fields.{number_field};
ghost use Rattle.fw_bytes.specs.Reading.{Gives, kept_if, many_of};
ghost use Rattle.fw_flow.specs.Dataflow.{node_ids};
ghost use Rattle.fw_root.specs.OfFlow as spec;
ghost use Rattle.fw_root.specs.OfFlow.{allows_size};
ghost use Rattle.fw_root.specs.Reading.{many_for, any_bytes, small_number, read_digests, read_lines, read_mark, read_numbers, read_front_in, read_node_fronts, read_fronts, read_sends_of, read_sends, read_writes, read_others, read_pending, read_owed, read_root, root_reading};
ghost use Rattle.fw_root.specs.Sound.{IsRootFor};
ghost use Rattle.fw_root.specs.Spelling.{root_spelling};
ghost use Rattle.fw_root.specs.Decoding.{DecodesRoot, IsRootOrNoMemory};
ghost use Rattle.fw_root.specs.declared.of_flow.Role.TheVariants.{Input, Output, ByCount};
ghost use Rattle.fw_root.specs.declared.root.Root.{Root as Spelled};

use crate::codes::LIMIT;
use crate::extent::Extent;
use crate::fields::bytes_at;
use crate::of_flow::{Role, all_nodes, low_extent, nodes_as, third_extent};
use crate::parts::{numbers_at, others_at, outside_at, owed_at, pending_at, sent_at, writes_at};
use crate::{
    Digests, FrontsOfNodes, Mark, NamedWrite, NamedWrites, NodeFronts, Numbers, OwedStamps,
    PendingCounts, Printed, Root, RootFault, SentTables, head,
};
use fw_bytes::{ReadFault, any_u32, any_u64, u32_at, u64_at};
use fw_flow::{Flow, NodeId};
use fw_frontier::{Front, SentCounts};
use fw_lines::Batches;
use fw_time::Bounds;
use std::alloc::Global;

/// The letters, the version and the digests.
fn digests_at(bytes: &[u8]) -> Result<(Digests, &[u8]), ReadFault>
    ensures { Gives (λ x. (x.0, x.1.now)) result (read_digests bytes.now) }
{
    match head::digests_at(bytes) {
        Ok(read) => Ok(read),
        Err(left) => Err(ReadFault::Broken { left }),
    }
}

/// A number of a mark.
fn small_at(bytes: &[u8]) -> Result<(u64, &[u8]), ReadFault>
    ensures { Gives (λ x. (x.0, x.1.now)) result (small_number bytes.now) }
{
    match u64_at(bytes) {
        Some((number, rest)) if number < LIMIT => Ok((number, rest)),
        _ => Err(ReadFault::Broken { left: bytes.len() }),
    }
}

/// So many bytes.
fn text_at(alloc: Global, count: u64, bytes: &[u8]) -> Result<(Printed, &[u8]), ReadFault>
    ensures { Gives (λ x. (x.0, x.1.now)) result (any_bytes count bytes.now) }
{
    let Some((text, rest)) = bytes_at(count, bytes) else {
        return Err(ReadFault::Broken { left: bytes.len() });
    };
    let mut copy = Vec::new(alloc);
    copy.extend_from_slice(text)?;
    Ok((Printed::of(copy), rest))
}

/// How many bytes, and these.
#[tactic(auto, unfolding(crate::specs::Reading::read_lines))]
fn lines_at(alloc: Global, bytes: &[u8]) -> Result<(Printed, &[u8]), ReadFault>
    ensures { Gives (λ x. (x.0, x.1.now)) result (read_lines bytes.now) }
{
    let (size, rest) = any_u64(bytes)?;
    text_at(alloc, size, rest)
}

/// Where a run stands, and the next id.
#[tactic(auto, unfolding(crate::specs::Reading::read_mark))]
fn mark_at(alloc: Global, bytes: &[u8]) -> Result<((Mark, u64), &[u8]), ReadFault>
    ensures { Gives (λ x. (x.0, x.1.now)) result (read_mark bytes.now) }
{
    let (digests, rest) = digests_at(bytes)?;
    let (turn, rest) = small_at(rest)?;
    let (line, rest) = small_at(rest)?;
    let (singles, rest) = small_at(rest)?;
    let (steps, rest) = small_at(rest)?;
    let (idle, rest) = small_at(rest)?;
    let (next_id, rest) = small_at(rest)?;
    let (lines, rest) = lines_at(alloc, rest)?;
    let mark = Mark {
        digests,
        turn,
        line,
        singles,
        steps,
        idle,
        lines,
    };
    Ok(((mark, next_id), rest))
}

/// How many outside stamps a front has.
fn size_at(extent: Extent, bytes: &[u8]) -> Result<(u32, &[u8]), ReadFault>
    ensures { Gives (λ x. (x.0, x.1.now)) result
        (kept_if (allows_size extent) bytes.now (number_field w32 bytes.now)) }
{
    match u32_at(bytes) {
        Some((size, rest)) if extent.allows_size(size) => Ok((size, rest)),
        _ => Err(ReadFault::Broken { left: bytes.len() }),
    }
}

/// A front that is allowed there.
#[tactic(auto, unfolding(crate::specs::Reading::read_front_in))]
fn front_in<'a>(
    alloc: Global,
    bounds: &Bounds,
    extent: Extent,
    bytes: &'a [u8],
) -> Result<(Front, &'a [u8]), ReadFault>
    ensures { Gives (λ x. (x.0, x.1.now)) result (read_front_in bounds.now extent bytes.now) }
{
    let (size, rest) = size_at(extent, bytes)?;
    let (outside, rest) = outside_at(alloc, bounds, extent, size, rest)?;
    Ok((Front::of_outside(outside), rest))
}

/// The three frontiers of a node, by these inputs and what they injected.
#[tactic(auto, unfolding(crate::specs::Reading::read_node_fronts))]
fn node_fronts_at<'a>(
    alloc: Global,
    flow: &Flow,
    batches: &Batches,
    inputs: &[NodeId],
    injected: &[u64],
    node: NodeId,
    bytes: &'a [u8],
) -> Result<(NodeFronts, &'a [u8]), ReadFault>
    requires { inputs.now ≡ spec.nodes_as flow.now Input }
    ensures { Gives (λ x. (x.0, x.1.now)) result
        (read_node_fronts flow.now batches.now injected.now node bytes.now) }
{
    let bounds = flow.domain(node);
    let extent = low_extent(flow, batches, inputs, injected, node);
    let (settled, rest) = front_in(alloc, &bounds, Extent::Any, bytes)?;
    let (low, rest) = front_in(alloc, &bounds, extent, rest)?;
    let (third, rest) = front_in(alloc, &bounds, third_extent(flow, node), rest)?;
    let fronts = NodeFronts {
        settled,
        low,
        third,
    };
    Ok((fronts, rest))
}

/// Those of each of these nodes.
fn all_fronts_at<'a>(
    alloc: Global,
    flow: &Flow,
    batches: &Batches,
    inputs: &[NodeId],
    injected: &[u64],
    nodes: &[NodeId],
    bytes: &'a [u8],
) -> Result<(Vec<NodeFronts>, &'a [u8]), ReadFault>
    requires { inputs.now ≡ spec.nodes_as flow.now Input }
    ensures { Gives (λ x. (x.0.items, x.1.now)) result
        (many_for (read_node_fronts flow.now batches.now injected.now) nodes.now [] bytes.now) }
{
    let mut parts = Vec::new(alloc);
    let mut rest = bytes;
    for node in nodes {
        let (part, after) = node_fronts_at(alloc, flow, batches, inputs, injected, *node, rest)?;
        parts.push(part)?;
        rest = after;
    }
    Ok((parts, rest))
}

/// Those of each node.
fn fronts_at<'a>(
    alloc: Global,
    flow: &Flow,
    batches: &Batches,
    injected: &[u64],
    bytes: &'a [u8],
) -> Result<(FrontsOfNodes, &'a [u8]), ReadFault>
    ensures { Gives (λ x. (x.0, x.1.now)) result
        (read_fronts flow.now batches.now injected.now bytes.now) }
{
    let inputs = nodes_as(alloc, flow, Role::Input)?;
    let nodes = all_nodes(alloc, flow)?;
    let (fronts, rest) = all_fronts_at(alloc, flow, batches, &inputs, injected, &nodes, bytes)?;
    Ok((FrontsOfNodes::of(fronts), rest))
}

/// What each input injected.
fn injected_at<'a>(
    alloc: Global,
    flow: &Flow,
    batches: &Batches,
    bytes: &'a [u8],
) -> Result<(Numbers, &'a [u8]), ReadFault>
    ensures { Gives (λ x. (x.0, x.1.now)) result
        (read_numbers flow.now batches.now (spec.nodes_as flow.now Input) bytes.now) }
{
    let inputs = nodes_as(alloc, flow, Role::Input)?;
    let (numbers, rest) = numbers_at(alloc, flow, batches, &inputs, bytes)?;
    Ok((Numbers::of(numbers), rest))
}

/// The bound of each output.
fn bounds_at<'a>(
    alloc: Global,
    flow: &Flow,
    batches: &Batches,
    bytes: &'a [u8],
) -> Result<(Numbers, &'a [u8]), ReadFault>
    ensures { Gives (λ x. (x.0, x.1.now)) result
        (read_numbers flow.now batches.now (spec.nodes_as flow.now Output) bytes.now) }
{
    let outputs = nodes_as(alloc, flow, Role::Output)?;
    let (numbers, rest) = numbers_at(alloc, flow, batches, &outputs, bytes)?;
    Ok((Numbers::of(numbers), rest))
}

/// A count, and that many writes.
#[tactic(auto, unfolding(crate::specs::Reading::read_writes))]
fn named_writes_at<'a>(
    alloc: Global,
    flow: &Flow,
    next_id: u64,
    bytes: &'a [u8],
) -> Result<(NamedWrites, &'a [u8]), ReadFault>
    ensures { Gives (λ x. (x.0, x.1.now)) result (read_writes flow.now next_id bytes.now) }
{
    let (count, rest) = any_u64(bytes)?;
    let (writes, rest) = writes_at(alloc, flow, next_id, count, rest)?;
    Ok((NamedWrites::of(writes), rest))
}

/// A count, and that many other ids.
#[tactic(auto, unfolding(crate::specs::Reading::read_others))]
fn other_ids_at<'a>(
    alloc: Global,
    next_id: u64,
    writes: &[NamedWrite],
    bytes: &'a [u8],
) -> Result<(Numbers, &'a [u8]), ReadFault>
    ensures { Gives (λ x. (x.0, x.1.now)) result (read_others next_id writes.now bytes.now) }
{
    let (count, rest) = any_u64(bytes)?;
    let (ids, rest) = others_at(alloc, next_id, writes, count, rest)?;
    Ok((Numbers::of(ids), rest))
}

/// A count, and that many counts of what is pending.
#[tactic(auto, unfolding(crate::specs::Reading::read_pending))]
fn all_pending_at<'a>(
    alloc: Global,
    flow: &Flow,
    bytes: &'a [u8],
) -> Result<(PendingCounts, &'a [u8]), ReadFault>
    ensures { Gives (λ x. (x.0, x.1.now)) result (read_pending flow.now bytes.now) }
{
    let (count, rest) = any_u64(bytes)?;
    let (counts, rest) = pending_at(alloc, flow, count, rest)?;
    Ok((PendingCounts::of(counts), rest))
}

/// A count, and that many stamps that are owed.
#[tactic(auto, unfolding(crate::specs::Reading::read_owed))]
fn all_owed_at<'a>(
    alloc: Global,
    flow: &Flow,
    bytes: &'a [u8],
) -> Result<(OwedStamps, &'a [u8]), ReadFault>
    ensures { Gives (λ x. (x.0, x.1.now)) result (read_owed flow.now bytes.now) }
{
    let (count, rest) = any_u64(bytes)?;
    let (stamps, rest) = owed_at(alloc, flow, count, rest)?;
    Ok((OwedStamps::of(stamps), rest))
}

/// A count, and that many counts of what a sequence sent.
#[tactic(auto, unfolding(crate::specs::Reading::read_sends_of))]
fn sends_of<'a>(
    alloc: Global,
    flow: &Flow,
    node: NodeId,
    bytes: &'a [u8],
) -> Result<(SentCounts, &'a [u8]), ReadFault>
    ensures { Gives (λ x. (x.0, x.1.now)) result (read_sends_of flow.now node bytes.now) }
{
    let (count, rest) = any_u32(bytes)?;
    let (counts, rest) = sent_at(alloc, flow, node, count, rest)?;
    Ok((SentCounts::of(counts), rest))
}

/// Those of each of these sequences.
fn tables_at<'a>(
    alloc: Global,
    flow: &Flow,
    nodes: &[NodeId],
    bytes: &'a [u8],
) -> Result<(Vec<SentCounts>, &'a [u8]), ReadFault>
    ensures { Gives (λ x. (x.0.items, x.1.now)) result
        (many_for (read_sends_of flow.now) nodes.now [] bytes.now) }
{
    let mut parts = Vec::new(alloc);
    let mut rest = bytes;
    for node in nodes {
        let (part, after) = sends_of(alloc, flow, *node, rest)?;
        parts.push(part)?;
        rest = after;
    }
    Ok((parts, rest))
}

/// Those of each sequence.
fn all_sends_at<'a>(
    alloc: Global,
    flow: &Flow,
    bytes: &'a [u8],
) -> Result<(SentTables, &'a [u8]), ReadFault>
    ensures { Gives (λ x. (x.0, x.1.now)) result (read_sends flow.now bytes.now) }
{
    let sequences = nodes_as(alloc, flow, Role::ByCount)?;
    let (tables, rest) = tables_at(alloc, flow, &sequences, bytes)?;
    Ok((SentTables::of(tables), rest))
}

/// The root at the front of the bytes.
#[tactic(auto, unfolding(crate::specs::Reading::read_root))]
fn root_at<'a>(
    alloc: Global,
    flow: &Flow,
    batches: &Batches,
    bytes: &'a [u8],
) -> Result<(Root, &'a [u8]), ReadFault>
    ensures { Gives (λ x. (x.0, x.1.now)) result (read_root flow.now batches.now bytes.now) }
{
    let ((mark, next_id), rest) = mark_at(alloc, bytes)?;
    let (injected, rest) = injected_at(alloc, flow, batches, rest)?;
    let (bounds, rest) = bounds_at(alloc, flow, batches, rest)?;
    let (fronts, rest) = fronts_at(alloc, flow, batches, injected.as_slice(), rest)?;
    let (writes, rest) = named_writes_at(alloc, flow, next_id, rest)?;
    let (others, rest) = other_ids_at(alloc, next_id, writes.as_slice(), rest)?;
    let (pending, rest) = all_pending_at(alloc, flow, rest)?;
    let (owed, rest) = all_owed_at(alloc, flow, rest)?;
    let (sends, rest) = all_sends_at(alloc, flow, rest)?;
    let root = Root {
        mark,
        next_id,
        injected,
        bounds,
        fronts,
        writes,
        others,
        pending,
        owed,
        sends,
    };
    Ok((root, rest))
}

/// A root and no byte more.
#[tactic(auto, unfolding(crate::specs::Reading::root_reading))]
fn whole(alloc: Global, flow: &Flow, batches: &Batches, bytes: &[u8]) -> Result<Root, ReadFault>
    ensures { Gives (λ r. r) result (root_reading flow.now batches.now bytes.now) }
{
    let (root, rest) = root_at(alloc, flow, batches, bytes)?;
    if !rest.is_empty() {
        return Err(ReadFault::Broken { left: rest.len() });
    }
    Ok(root)
}

/// The root of the dataflow and its batches that the bytes spell. It takes memory for what it read, and for lists of the
/// flow's nodes, whatever counts the bytes have.
///
/// # Errors
///
/// `BadRoot` where they spell none, with the place of the first broken field: one inside which the bytes end, or whose value
/// breaks its rule. `NoMemory` where memory is refused, which may come at any time.
pub fn decode_root(
    alloc: Global,
    flow: &Flow,
    batches: &Batches,
    bytes: &[u8],
) -> Result<Root, RootFault>
    ensures found { IfOk result
        (λ root. IsRootFor flow.now batches.now root × (bytes.now ≡ root_spelling root)) }
    ensures only { (root : Spelled) → IsRootFor flow.now batches.now root → bytes.now ≡ root_spelling root
        → IsRootOrNoMemory root result }
    ensures exact { DecodesRoot flow.now batches.now bytes.now result }
{
    match whole(alloc, flow, batches, bytes) {
        Ok(root) => Ok(root),
        Err(ReadFault::Broken { left }) => Err(RootFault::BadRoot {
            at: bytes.len() - left,
        }),
        Err(ReadFault::NoMemory) => Err(RootFault::NoMemory),
    }
}
