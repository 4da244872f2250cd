//! What a node sends in all.
ghost use Rattle.std.specs.Prelude.{◌≡◌, ◌≤◌, ◌<◌, ◌^◌, ◌++◌, [], ◌∷◌, length, map, filter, IfOk, OnOk};
ghost use Rattle.fw_flow.specs.Dataflow.{kind_of, batches_of, system_of};
ghost use Rattle.fw_flow.specs.KeyParts.{is_of_part_if};
ghost use Rattle.fw_flow.specs.WellFormed.{IsGroupSize, IsInDegree, IsWellFormedSystem};
ghost use Rattle.fw_flow.specs.WholeBags as whole;
ghost use Rattle.fw_denote.specs.Domains.{AreIn};
ghost use Rattle.fw_denote.specs.Holding.{AreBagsHeld, family_held, bag_sent_by};

use crate::alone::one_by_one;
use crate::distinct::distinct;
use crate::join::joined;
use crate::keyed::{running_totals, sum_sent, total_sent};
use crate::numbered::{batched, numbered};
use crate::{Timed, TimedBag};
use fw_bag::Bag;
use fw_flow::{EdgeId, Flow, KeyPart, Kind, NodeId, is_of_part};
use fw_lines::Batches;
use std::alloc::{AllocError, Global};

/// What a node of the kind sends in all, from its batches and the whole bag that comes to it. The error is want of memory.
pub(crate) fn sent(
    alloc: Global,
    flow: &Flow,
    kind: &Kind,
    batches: &[Bag],
    rs: &[Timed],
) -> Result<Vec<Timed>, AllocError>
    requires in_order { whole.in_order rs.now ≡ rs.now }
    requires in_domain { AreIn flow.now kind.now rs.now }
    requires group { IsGroupSize kind.now }
    requires few { length batches.now ≤ 2 ^ 32 }
    ensures { IfOk result (λ sent. whole.in_order sent.items
        ≡ whole.in_order (whole.outputs_of_kind flow.now kind.now (map (λ b. b.recs) batches.now) (rs.now ∷ []))) }
{
    match kind {
        Kind::Input => batched(alloc, batches),
        Kind::OutputEpoch | Kind::OutputNumber | Kind::Join { .. } => Ok(Vec::new(alloc)),
        Kind::Distinct { .. } => distinct(alloc, rs),
        Kind::Sum { .. } => sum_sent(alloc, rs),
        Kind::Total => total_sent(alloc, rs),
        Kind::Sequence => numbered(alloc, rs),
        Kind::Ledger => running_totals(alloc, rs),
        Kind::Select { .. }
        | Kind::Concat { .. }
        | Kind::Enter(_)
        | Kind::Feedback(_)
        | Kind::Leave(_)
        | Kind::Regroup(_) => one_by_one(alloc, flow, kind, rs),
    }
}

/// The bag that a node sends.
pub(crate) fn bag_of(bags: &[TimedBag], node: NodeId) -> &[Timed]
    ensures recs { result.now ≡ bag_sent_by bags.now node }
    ensures in_order { whole.in_order result.now ≡ result.now }
{
    match bags.get(node.place() as usize) {
        Some(bag) => bag.as_slice(),
        None => &[],
    }
}

/// The timed recs whose keys are of a part, where there is one; else all. The error is want of memory.
pub(crate) fn of_part(
    alloc: Global,
    part: Option<KeyPart>,
    sent: &[Timed],
) -> Result<Vec<Timed>, AllocError>
    ensures { IfOk result (λ rs. rs.items ≡ filter (λ r. is_of_part_if part r.rec.key) sent.now) }
{
    let mut rs = Vec::with_capacity(alloc, sent.len())?;
    for r in sent {
        if is_of_part(part, r.rec().key) {
            rs.push(r.copy())?;
        }
    }
    Ok(rs)
}

/// The bag that comes on an edge: what this carries of the bag that its sender sends. The error is want of memory.
pub(crate) fn on_edge(
    alloc: Global,
    flow: &Flow,
    bags: &[TimedBag],
    edge: EdgeId,
) -> Result<Vec<Timed>, AllocError>
    ensures recs { IfOk result (λ rs. rs.items ≡ family_held flow.now bags.now edge) }
    ensures in_order { IfOk result (λ rs. whole.in_order rs.items ≡ rs.items) }
{
    of_part(
        alloc,
        flow.part(flow.dst(edge)),
        bag_of(bags, flow.src(edge)),
    )
}

/// The timed recs that come on the edges.
fn joint(
    alloc: Global,
    flow: &Flow,
    bags: &[TimedBag],
    edges: &[EdgeId],
) -> Result<Vec<Timed>, AllocError>
    ensures { IfOk result (λ rs. rs.items ≡ whole.joint_bag (map (family_held flow.now bags.now) edges.now)) }
{
    let mut rs = Vec::new(alloc);
    for edge in edges {
        let more = on_edge(alloc, flow, bags, *edge)?;
        put_all(&mut rs, &more)?;
    }
    Ok(rs)
}

/// Puts the timed recs at the end.
pub(crate) fn put_all(rs: &mut Vec<Timed>, more: &[Timed]) -> Result<(), AllocError>
    ensures { OnOk result (rs.new.items ≡ rs.old.items ++ more.now) }
{
    for r in more {
        rs.push(r.copy())?;
    }
    Ok(())
}

/// What a node of the kind sends in all, from the whole bags that come on its two in-edges.
#[tactic(auto, using(crate::proofs::WholeLaws::two_sent))]
fn sent_of_two(
    alloc: Global,
    flow: &Flow,
    kind: &Kind,
    lefts: &[Timed],
    rights: &[Timed],
) -> Result<Vec<Timed>, AllocError>
    requires in_order { whole.in_order rights.now ≡ rights.now }
    requires two { IsInDegree kind.now 2 }
    ensures { IfOk result (λ sent. sent.items ≡ whole.outputs_of_kind flow.now kind.now [] (lefts.now ∷ rights.now ∷ [])) }
{
    if let Kind::Join { .. } = kind {
        return joined(alloc, lefts, rights);
    }
    let mut sent = Vec::new(alloc);
    put_all(&mut sent, lefts)?;
    put_all(&mut sent, rights)?;
    Ok(sent)
}

/// What a node sends in all, where these are the bags that the nodes send.
fn recs_sent(
    alloc: Global,
    flow: &Flow,
    batches: &Batches,
    bags: &[TimedBag],
    node: NodeId,
) -> Result<Vec<Timed>, AllocError>
    requires there { node < length flow.now.nodes }
    requires system { IsWellFormedSystem (system_of flow.now batches.now) }
    requires held { AreBagsHeld flow.now bags.now }
    ensures { IfOk result (λ recs. whole.in_order recs.items
        ≡ whole.outputs_of (system_of flow.now batches.now) (family_held flow.now bags.now) node) }
{
    let kind = flow.kind(node);
    let edges = flow.in_edges(node);
    match edges {
        [] => sent(alloc, flow, &kind, batches.of(node.place()), &[]),
        [edge] => {
            let rs = on_edge(alloc, flow, bags, *edge)?;
            sent(alloc, flow, &kind, &[], &rs)
        }
        [left, right] => {
            let lefts = on_edge(alloc, flow, bags, *left)?;
            let rights = on_edge(alloc, flow, bags, *right)?;
            sent_of_two(alloc, flow, &kind, &lefts, &rights)
        }
        _ => joint(alloc, flow, bags, edges),
    }
}

/// The bag that a node sends, where these are the bags that the nodes send. The error is want of memory.
pub(crate) fn outputs(
    alloc: Global,
    flow: &Flow,
    batches: &Batches,
    bags: &[TimedBag],
    node: NodeId,
) -> Result<TimedBag, AllocError>
    requires there { node < length flow.now.nodes }
    requires system { IsWellFormedSystem (system_of flow.now batches.now) }
    requires held { AreBagsHeld flow.now bags.now }
    ensures { IfOk result (λ bag. bag ≡ whole.outputs_of (system_of flow.now batches.now) (family_held flow.now bags.now) node) }
{
    TimedBag::of(recs_sent(alloc, flow, batches, bags, node)?)
}
