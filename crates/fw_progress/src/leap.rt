//! A leap over the counters of a loop.
ghost use Rattle.std.specs.Prelude.{◌≡◌, ◌↔◌, ◌+◌, ◌*◌, ◌<◌, ◌≤◌, ◌==◌, not, true, false, [], length, slice_set, IsTrue, IfSome, IfNone, IfOk};
ghost use Rattle.std.specs.List.{list_any};
ghost use Rattle.fw_flow.specs.Dataflow.{out_edges};
ghost use Rattle.fw_model.specs.Machine.{AreCanonical};
ghost use Rattle.fw_progress.specs.declared.growth.Growth.{Growth as Grown};
ghost use Rattle.fw_progress.specs.Counts.{AreCounts};
ghost use Rattle.fw_progress.specs.Growths.{HaveGrown, GrewAlone};
ghost use Rattle.fw_progress.specs.Leap as spec;
ghost use Rattle.fw_progress.specs.Leap.{IsClimbing, AreLedTo, IsMarking, unmarked, CanLeapAt, CanLeap, AreAbove, IsReachedAt, HaveReached, HaveLeapt, AreRaisedAtMarks, AreLowered, IsLoweredAt, StaysLow, IsPass, IsLastPass, AreProposed, AreNoneProposed};

use crate::counts::Counts;
use crate::grow::{grow, is_more, larger};
use crate::growth::{Growth, Growths};
use crate::target::target;
use crate::worklist::Worklist;
use fw_flow::laws::flow_is_well_formed;
use fw_flow::{Flow, NodeId};
use fw_frontier::Front;
use std::alloc::{AllocError, Global};

/// Whether a node is among those that grew.
fn has_grown(growths: &[Growth], node: NodeId) -> bool
    ensures { result ≡ list_any (λ (g : Grown). g.node == node) growths.now }
{
    growths.iter().any(|growth| growth.node == node)
}

/// Whether a node leads a loop to its next counter, grew before among these growths, and can grow again: its loop climbs
/// a counter at a time. The error is want of memory.
fn is_climbing(
    alloc: Global,
    flow: &Flow,
    counts: &Counts,
    fronts: &[Front],
    growths: &[Growth],
    node: NodeId,
) -> Result<bool, AllocError>
    requires there { node < length flow.now.nodes }
    requires counts { AreCounts flow.now counts.now }
    requires one_each { length fronts.now ≡ length flow.now.nodes }
    requires canonical { AreCanonical flow.now fronts.now }
    ensures { IfOk result (λ climbs. IsTrue climbs ↔ IsClimbing flow.now counts.now fronts.now growths.now node) }
{
    if !flow.kind(node).is_feedback() || !has_grown(growths, node) {
        return Ok(false);
    }
    let larger = larger(alloc, flow, counts, fronts, node)?;
    Ok(larger.is_some())
}

/// Marks a node, and tells whether it was not marked before.
fn mark(marks: &mut Vec<bool>, node: NodeId) -> bool
    requires { node < length marks.old.items }
    ensures new { result ≡ not (spec.is_node_marked marks.old.items node) }
    ensures marked { marks.new.items ≡ slice_set marks.old.items node true }
{
    let place = node.place() as usize;
    if marks[place] {
        return false;
    }
    marks[place] = true;
    true
}

/// Whether a place is marked.
fn is_marked(marks: &[bool], place: usize) -> bool
    ensures { result ≡ spec.is_node_marked marks.now place }
{
    match marks.get(place) {
        Some(mark) => *mark,
        None => false,
    }
}

/// Whether the stamps of a node have as many coordinates as those of a feedback, or more.
fn is_as_deep(flow: &Flow, feedback: NodeId, node: NodeId) -> bool
    ensures { result ≡ spec.is_as_deep flow.now feedback node }
{
    flow.domain(node).greatest.len() >= flow.domain(feedback).greatest.len()
}

/// Marks the receivers of a node's out-edges that are as deep as a feedback, and lists those that were not marked. The error
/// is want of memory.
fn mark_receivers(
    flow: &Flow,
    feedback: NodeId,
    node: NodeId,
    marks: &mut Vec<bool>,
    found: &mut Vec<NodeId>,
) -> Result<(), AllocError>
    requires marked { spec.is_node_marked marks.old.items node ≡ true }
    requires marking { IsMarking flow.now feedback marks.old.items found.old.items (out_edges flow.now node) }
    ensures marking { IfOk result (λ u. IsMarking flow.now feedback marks.new.items found.new.items []) }
    ensures left { IfOk result (λ u. 2 * unmarked marks.new.items + length found.new.items
        ≤ 2 * unmarked marks.old.items + length found.old.items) }
{
    flow_is_well_formed(flow);
    let edges = flow.out_edges(node);
    for edge in edges {
        let receiver = flow.dst(*edge);
        if is_as_deep(flow, feedback, receiver) && mark(marks, receiver) {
            found.push(receiver)?;
        }
    }
    Ok(())
}

/// Marks the nodes that a feedback leads to in its loop and in the loops within it. The error is want of memory.
fn led_to(alloc: Global, flow: &Flow, feedback: NodeId) -> Result<Vec<bool>, AllocError>
    requires { feedback < length flow.now.nodes }
    ensures { IfOk result (λ marks. AreLedTo flow.now feedback marks.items) }
{
    let mut marks = vec![in alloc; false; flow.nodes()]?;
    let mut found = Vec::new(alloc);
    mark(&mut marks, feedback);
    found.push(feedback)?;
    'find: while let Some(node) = found.pop() {
        mark_receivers(flow, feedback, node, &mut marks, &mut found)?;
    }
    Ok(marks)
}

/// The same frontiers, with all stamps at the marked nodes. The error is want of memory.
fn raised(
    alloc: Global,
    flow: &Flow,
    fronts: &[Front],
    marks: &[bool],
) -> Result<Vec<Front>, AllocError>
    requires one_each { length fronts.now ≡ length flow.now.nodes }
    requires canonical { AreCanonical flow.now fronts.now }
    ensures one_each { IfOk result (λ next. length next.items ≡ length flow.now.nodes) }
    ensures canonical { IfOk result (λ next. AreCanonical flow.now next.items) }
    ensures raised { IfOk result (λ next. AreRaisedAtMarks flow.now marks.now fronts.now next.items) }
{
    let mut next = Vec::new(alloc);
    for place in 0..fronts.len() {
        if is_marked(marks, place) {
            next.push(Front::all(alloc))?;
        } else {
            next.push(fronts[place].copy()?)?;
        }
    }
    let _ = flow;
    Ok(next)
}

/// Lowers the frontier of a marked node to what it can have by the others, and tells whether it had more. The error is want
/// of memory.
fn lower_at(
    alloc: Global,
    flow: &Flow,
    counts: &Counts,
    next: &mut Vec<Front>,
    marks: &[bool],
    node: NodeId,
) -> Result<bool, AllocError>
    requires there { node < length flow.now.nodes }
    requires counts { AreCounts flow.now counts.now }
    requires one_each { length next.old.items ≡ length flow.now.nodes }
    requires canonical { AreCanonical flow.now next.old.items }
    ensures one_each { IfOk result (λ b. length next.new.items ≡ length flow.now.nodes) }
    ensures canonical { IfOk result (λ b. AreCanonical flow.now next.new.items) }
    ensures lowered { IfOk result (λ had_more. had_more ≡ true → IsLoweredAt flow.now counts.now marks.now node next.old.items next.new.items) }
    ensures low { IfOk result (λ had_more. had_more ≡ false → StaysLow flow.now counts.now marks.now node next.old.items next.new.items) }
{
    let place = node.place() as usize;
    if !is_marked(marks, place) {
        return Ok(false);
    }
    let front = target(alloc, flow, counts, next, node)?;
    if next[place].subset(&front) {
        return Ok(false);
    }
    next[place] = front;
    Ok(true)
}

/// Lowers the marked nodes once, one after the other, and tells whether one had more. The error is want of memory.
fn lower(
    alloc: Global,
    flow: &Flow,
    counts: &Counts,
    next: &mut Vec<Front>,
    marks: &[bool],
) -> Result<bool, AllocError>
    requires counts { AreCounts flow.now counts.now }
    requires one_each { length next.old.items ≡ length flow.now.nodes }
    requires canonical { AreCanonical flow.now next.old.items }
    ensures one_each { IfOk result (λ b. length next.new.items ≡ length flow.now.nodes) }
    ensures canonical { IfOk result (λ b. AreCanonical flow.now next.new.items) }
    ensures pass { IfOk result (λ had_more. had_more ≡ true → IsPass flow.now counts.now marks.now next.old.items next.new.items) }
    ensures last { IfOk result (λ had_more. had_more ≡ false → IsLastPass flow.now counts.now marks.now next.old.items next.new.items) }
{
    let mut lowered = false;
    for place in 0..flow.nodes() {
        let node = NodeId::at(place as u32);
        lowered |= lower_at(alloc, flow, counts, next, marks, node)?;
    }
    Ok(lowered)
}

/// Frontiers that the marked nodes may have by the others as they are: from all stamps on they are lowered until none has
/// more than it can have; `None` where that takes more passes than the flow has nodes. The error is want of memory.
fn lowered(
    alloc: Global,
    flow: &Flow,
    counts: &Counts,
    fronts: &[Front],
    marks: &[bool],
) -> Result<Option<Vec<Front>>, AllocError>
    requires counts { AreCounts flow.now counts.now }
    requires one_each { length fronts.now ≡ length flow.now.nodes }
    requires canonical { AreCanonical flow.now fronts.now }
    ensures one_each { IfOk result (λ lowered. IfSome lowered (λ next. length next.items ≡ length flow.now.nodes)) }
    ensures canonical { IfOk result (λ lowered. IfSome lowered (λ next. AreCanonical flow.now next.items)) }
    ensures proposed { IfOk result (λ lowered. IfSome lowered (λ next. AreProposed flow.now counts.now marks.now fronts.now next.items)) }
    ensures none { IfOk result (λ lowered. IfNone lowered (AreNoneProposed flow.now counts.now marks.now fronts.now)) }
{
    let mut next = raised(alloc, flow, fronts, marks)?;
    for _ in 0..flow.nodes() {
        if !lower(alloc, flow, counts, &mut next, marks)? {
            return Ok(Some(next));
        }
    }
    Ok(None)
}

/// Whether a node's next frontier has all of its frontier so far, and has no more, or lies within what the node can have
/// by the next ones, as those of the marked nodes do. The error is want of memory.
fn can_leap_at(
    alloc: Global,
    flow: &Flow,
    counts: &Counts,
    fronts: &[Front],
    next: &[Front],
    marks: &[bool],
    node: NodeId,
) -> Result<bool, AllocError>
    requires there { node < length flow.now.nodes }
    requires counts { AreCounts flow.now counts.now }
    requires one_each { length fronts.now ≡ length flow.now.nodes }
    requires canonical { AreCanonical flow.now fronts.now }
    requires next_each { length next.now ≡ length flow.now.nodes }
    requires next_canonical { AreCanonical flow.now next.now }
    requires low { AreLowered flow.now counts.now marks.now next.now }
    ensures { IfOk result (λ can. IsTrue can ↔ CanLeapAt flow.now counts.now fronts.now next.now node) }
{
    let place = node.place() as usize;
    if !fronts[place].subset(&next[place]) {
        return Ok(false);
    }
    if is_marked(marks, place) {
        return Ok(true);
    }
    if next[place].subset(&fronts[place]) {
        return Ok(true);
    }
    let most = target(alloc, flow, counts, next, node)?;
    Ok(next[place].subset(&most))
}

/// Whether that is so of each node. The error is want of memory.
fn can_leap(
    alloc: Global,
    flow: &Flow,
    counts: &Counts,
    fronts: &[Front],
    next: &[Front],
    marks: &[bool],
) -> Result<bool, AllocError>
    requires counts { AreCounts flow.now counts.now }
    requires one_each { length fronts.now ≡ length flow.now.nodes }
    requires canonical { AreCanonical flow.now fronts.now }
    requires next_each { length next.now ≡ length flow.now.nodes }
    requires next_canonical { AreCanonical flow.now next.now }
    requires low { AreLowered flow.now counts.now marks.now next.now }
    ensures { IfOk result (λ can. IsTrue can ↔ CanLeap flow.now counts.now fronts.now next.now) }
{
    for place in 0..flow.nodes() {
        let node = NodeId::at(place as u32);
        if !can_leap_at(alloc, flow, counts, fronts, next, marks, node)? {
            return Ok(false);
        }
    }
    Ok(true)
}

/// Gives a node its next frontier, if that is larger. The error is want of memory.
fn reach_at(
    flow: &Flow,
    counts: &Counts,
    fronts: &mut Vec<Front>,
    next: &[Front],
    work: &mut Worklist,
    growths: &mut Growths,
    node: NodeId,
) -> Result<(), AllocError>
    requires there { node < length flow.now.nodes }
    requires one_each { length fronts.old.items ≡ length flow.now.nodes }
    requires canonical { AreCanonical flow.now fronts.old.items }
    requires next_each { length next.now ≡ length flow.now.nodes }
    requires next_canonical { AreCanonical flow.now next.now }
    ensures grown { IfOk result (λ u. HaveGrown flow.now counts.now fronts.old.items fronts.new.items work.old work.new
        growths.old.items growths.new.items) }
    ensures alone { IfOk result (λ u. GrewAlone node growths.old.items growths.new.items) }
    ensures reached { IfOk result (λ u. IsReachedAt flow.now node fronts.old.items next.now fronts.new.items) }
{
    flow_is_well_formed(flow);
    let _ = counts;
    let front = &next[node.place() as usize];
    if !is_more(flow, fronts, node, front) {
        return Ok(());
    }
    grow(flow, fronts, work, growths, node, front.copy()?)
}

/// Gives each node its next frontier. The error is want of memory.
fn reach(
    flow: &Flow,
    counts: &Counts,
    fronts: &mut Vec<Front>,
    next: &[Front],
    work: &mut Worklist,
    growths: &mut Growths,
) -> Result<(), AllocError>
    requires one_each { length fronts.old.items ≡ length flow.now.nodes }
    requires canonical { AreCanonical flow.now fronts.old.items }
    requires next_each { length next.now ≡ length flow.now.nodes }
    requires next_canonical { AreCanonical flow.now next.now }
    requires above { AreAbove flow.now fronts.old.items next.now }
    ensures { IfOk result (λ u. HaveReached flow.now counts.now fronts.old.items next.now fronts.new.items work.old work.new
        growths.old.items growths.new.items) }
{
    for place in 0..flow.nodes() {
        let node = NodeId::at(place as u32);
        reach_at(flow, counts, fronts, next, work, growths, node)?;
    }
    Ok(())
}

/// Where a loop climbs a counter at a time by this node, gives each node of the loop at once the largest frontier that it can
/// have by the nodes outside the loop. The error is want of memory.
pub(crate) fn leap(
    alloc: Global,
    flow: &Flow,
    counts: &Counts,
    fronts: &mut Vec<Front>,
    work: &mut Worklist,
    growths: &mut Growths,
    node: NodeId,
) -> Result<(), AllocError>
    requires there { node < length flow.now.nodes }
    requires counts { AreCounts flow.now counts.now }
    requires one_each { length fronts.old.items ≡ length flow.now.nodes }
    requires canonical { AreCanonical flow.now fronts.old.items }
    ensures { IfOk result (λ u. HaveLeapt flow.now counts.now node fronts.old.items fronts.new.items work.old work.new
        growths.old.items growths.new.items) }
{
    if !is_climbing(alloc, flow, counts, fronts, growths, node)? {
        return Ok(());
    }
    let marks = led_to(alloc, flow, node)?;
    let Some(next) = lowered(alloc, flow, counts, fronts, &marks)? else {
        return Ok(());
    };
    if !can_leap(alloc, flow, counts, fronts, &next, &marks)? {
        return Ok(());
    }
    reach(flow, counts, fronts, &next, work, growths)
}
