//! The largest consistent choice of what the nodes offer, and the trail of the descent to it.
ghost use Rattle.std.specs.Prelude.{◌≡◌, ◌<◌, ◌≤◌, ◌+◌, ◌*◌, length, IfOk};
ghost use Rattle.fw_flow.specs.declared.choice.Choice as choices;
ghost use Rattle.fw_model.specs.Choice.{IsConsistentBy, IsLargestBy, IsChoiceOf};
ghost use Rattle.fw_model.specs.Offers as spec;
ghost use Rattle.fw_model.specs.Offers.{IsOffered, AreOffersOf, RecordsAscend, covers_of};
ghost use Rattle.fw_model.specs.Inclusions.{right_of, IsSideOfFlow, note_node, limit_of, IsLimitIn, IsInclusionOf};
ghost use Rattle.fw_model.specs.Lowerings.{choice_of};
ghost use Rattle.fw_monitor.specs.Descent.{EnclosesConsistent, HasConsistent, IsNoticeLowered};
ghost use Rattle.fw_flow.specs.declared.side.Inclusion.TheVariants as inclusions;
ghost use Rattle.fw_monitor.specs.Worklist.{inclusion_count};
ghost use Rattle.fw_monitor.specs.Trail.{IsTrail, tests_after};
ghost use Rattle.fw_monitor.specs.Tests.{IsTested, IsFirstWaiting, IsOneTest};

use crate::lower::lowered;
use crate::start::greatest_cuts;
use crate::trail::lowering_of;
use crate::worklist::{after, all_wait, first_node, inclusions, node_of, number, put_all};
use fw_flow::laws::flow_is_well_formed;
use fw_flow::{
    Choice, Cut, Cuts, EdgeId, Flow, Fronts, Inclusion, Limit, Lowering, NodeId, Offer, Side,
    Steps, Trail,
};
use fw_frontier::Front;
use fw_offers::{all_kept, cut_at, limit_of, note_node, owner, right_of};
use std::alloc::{AllocError, Global};
use std::marker::Brand;
use std::sync::ledger::{Blank, Ledger};

/// A choice of what nodes offer, and how it was found.
#[derive(Debug, Drop)]
pub struct Descent {
    /// The choice.
    pub choice: Choice,
    /// What was lowered to find it, in order.
    pub trail: Trail,
}

/// A descent under way.
#[derive(Drop)]
struct Going {
    /// The cut of each node so far.
    cuts: Vec<Cut>,
    /// The notification frontier of each node so far.
    notices: Vec<Front>,
    /// Which inclusions wait for their test, by their numbers.
    waiting: Vec<bool>,
    /// What was lowered, in order.
    trail: Vec<Lowering>,
}

/// The largest consistent choice of what the nodes offer, where the records of each ascend and some choice is consistent; else
/// some cuts and frontiers. The error is want of memory.
pub fn largest(alloc: Global, flow: &Flow, offers: &[Offer]) -> Result<Choice, AllocError>
    requires { AreOffersOf flow.now offers.now }
    ensures largest { (some : choices.Choice) → RecordsAscend flow.now offers.now
        → IsConsistentBy flow.now (covers_of flow.now offers.now) (IsOffered flow.now offers.now) some
        → IfOk result (IsLargestBy flow.now (covers_of flow.now offers.now) (IsOffered flow.now offers.now)) }
    ensures of_flow { IfOk result (IsChoiceOf flow.now) }
{
    let descent = descent_to_largest(alloc, flow, offers)?;
    Ok(descent.choice)
}

/// That choice and the trail of the descent to it, as `descend` gives them to a caller that counts the steps. The error is
/// want of memory.
pub fn descent_to_largest(
    alloc: Global,
    flow: &Flow,
    offers: &[Offer],
) -> Result<Descent, AllocError>
    requires { AreOffersOf flow.now offers.now }
    ensures largest { (some : choices.Choice) → RecordsAscend flow.now offers.now
        → IsConsistentBy flow.now (covers_of flow.now offers.now) (IsOffered flow.now offers.now) some
        → IfOk result (λ descent. IsLargestBy flow.now (covers_of flow.now offers.now) (IsOffered flow.now offers.now) descent.choice) }
    ensures trail { HasConsistent flow.now offers.now → IfOk result (λ descent. IsTrail flow.now offers.now descent.trail descent.choice) }
    ensures of_flow { IfOk result (λ descent. IsChoiceOf flow.now descent.choice) }
{
    uncounted::<Brand>(alloc, flow, offers, Blank::new(1))
}

/// The same by a counter of its own.
fn uncounted<L: Ledger>(
    alloc: Global,
    flow: &Flow,
    offers: &[Offer],
    blank: Blank,
) -> Result<Descent, AllocError>
    requires offers { AreOffersOf flow.now offers.now }
    requires name { blank.name ≡ L.name }
    requires parts { blank.parts ≡ L.parts }
    requires some { 0 < L.parts }
    ensures largest { (some : choices.Choice) → RecordsAscend flow.now offers.now
        → IsConsistentBy flow.now (covers_of flow.now offers.now) (IsOffered flow.now offers.now) some
        → IfOk result (λ descent. IsLargestBy flow.now (covers_of flow.now offers.now) (IsOffered flow.now offers.now) descent.choice) }
    ensures trail { HasConsistent flow.now offers.now → IfOk result (λ descent. IsTrail flow.now offers.now descent.trail descent.choice) }
    ensures of_flow { IfOk result (λ descent. IsChoiceOf flow.now descent.choice) }
{
    let mut steps = Steps::<L>::none(blank);
    descend(alloc, flow, offers, &mut steps)
}

/// The largest consistent choice of what the nodes offer, where the records of each ascend and some choice is consistent; else
/// some cuts and frontiers. And the trail of the descent, which tells how it was found. The error is want of memory.
///
/// It begins with the greatest cut of each node, and takes the inclusions that wait for their test in order: what does not
/// hold is lowered, and what that can break waits again. After a lowering it goes on from the first node of which an inclusion
/// can wait again. Each test is one step, and each inclusion is tested at least once.
pub fn descend<L: Ledger>(
    alloc: Global,
    flow: &Flow,
    offers: &[Offer],
    steps: &mut Steps<L>,
) -> Result<Descent, AllocError>
    requires { AreOffersOf flow.now offers.now }
    ensures largest { (some : choices.Choice) → RecordsAscend flow.now offers.now
        → IsConsistentBy flow.now (covers_of flow.now offers.now) (IsOffered flow.now offers.now) some
        → IfOk result (λ descent. IsLargestBy flow.now (covers_of flow.now offers.now) (IsOffered flow.now offers.now) descent.choice) }
    ensures trail { HasConsistent flow.now offers.now → IfOk result (λ descent. IsTrail flow.now offers.now descent.trail descent.choice) }
    ensures of_flow { IfOk result (λ descent. IsChoiceOf flow.now descent.choice) }
    ensures bound { IfOk result (λ descent. steps.new
        ≤ steps.old + 3 * length flow.now.edges + 2 * length flow.now.nodes + tests_after flow.now descent.trail) }
    ensures each_tested { IfOk result (λ descent. steps.old + 3 * length flow.now.edges + 2 * length flow.now.nodes ≤ steps.new) }
{
    flow_is_well_formed(flow);
    let cuts = greatest_cuts(alloc, flow, offers)?;
    let notices = all_kept(alloc, flow, &cuts)?;
    let waiting = all_wait(alloc, flow)?;
    let mut going = Going {
        cuts,
        notices,
        waiting,
        trail: Vec::new(alloc),
    };
    let inclusions = inclusions(alloc, flow)?;
    let mut place = 0;
    'test: while place < inclusions.all.len() {
        let inclusion = &inclusions.all[place];
        match test(alloc, flow, offers, inclusion, &mut going, steps)? {
            None => place += 1,
            Some(node) => place = inclusions.begins[node.place() as usize],
        }
    }
    Ok(Descent {
        choice: Choice {
            cuts: Cuts::of(going.cuts),
            notices: Fronts::of(going.notices),
        },
        trail: Trail::of(going.trail),
    })
}

/// Tests the inclusion, if it waits, and lowers what it is of, if it does not hold; then, the first node of which an inclusion
/// may wait again. The error is want of memory.
fn test<L: Ledger>(
    alloc: Global,
    flow: &Flow,
    offers: &[Offer],
    inclusion: &Inclusion,
    going: &mut Going,
    steps: &mut Steps<L>,
) -> Result<Option<NodeId>, AllocError>
    requires offers { AreOffersOf flow.now offers.now }
    requires there { IsInclusionOf flow.now inclusion.now }
    requires next { IsFirstWaiting flow.now going.old.waiting.items inclusion.now }
    requires one_each { length going.old.waiting.items ≡ inclusion_count flow.now }
    requires encloses { EnclosesConsistent flow.now offers.now (choice_of going.old.cuts.items going.old.notices.items) }
    ensures { IfOk result (IsOneTest flow.now offers.now inclusion.now
        (choice_of going.old.cuts.items going.old.notices.items) (choice_of going.new.cuts.items going.new.notices.items)
        going.old.trail.items going.new.trail.items going.old.waiting.items going.new.waiting.items steps.old steps.new) }
{
    flow_is_well_formed(flow);
    let number = number(flow, *inclusion);
    if !going.waiting[number] {
        return Ok(None);
    }
    going.waiting[number] = false;
    steps.tick();
    let value = lower(
        alloc,
        flow,
        offers,
        inclusion,
        &mut going.cuts,
        &mut going.notices,
    )?;
    match value {
        None => Ok(None),
        Some(to) => {
            let broken = after(alloc, flow, *inclusion)?;
            put_all(flow, &mut going.waiting, &broken);
            going.trail.push(lowering_of(flow, inclusion, to))?;
            Ok(Some(first_node(flow, node_of(flow, *inclusion), &broken)))
        }
    }
}

/// Lowers the value on the left of the inclusion to the greatest one that meets it, if it does not hold; the new value, then.
/// The error is want of memory.
fn lower(
    alloc: Global,
    flow: &Flow,
    offers: &[Offer],
    inclusion: &Inclusion,
    cuts: &mut Vec<Cut>,
    notices: &mut Vec<Front>,
) -> Result<Option<Cut>, AllocError>
    requires offers { AreOffersOf flow.now offers.now }
    requires there { IsInclusionOf flow.now inclusion.now }
    requires encloses { EnclosesConsistent flow.now offers.now (choice_of cuts.old.items notices.old.items) }
    ensures { IfOk result (IsTested flow.now offers.now inclusion.now (choice_of cuts.old.items notices.old.items) (choice_of cuts.new.items notices.new.items)) }
{
    match inclusion {
        Inclusion::OfCut(side) => lower_cut(alloc, flow, offers, side, cuts, notices),
        Inclusion::OfNote(limit) => lower_note(alloc, flow, offers, limit, cuts, notices),
    }
}

/// Lowers the cut of the node of the side to the largest one left, if the side does not lie where it has to; the new cut, then.
/// The error is want of memory.
fn lower_cut(
    alloc: Global,
    flow: &Flow,
    offers: &[Offer],
    side: &Side,
    cuts: &mut Vec<Cut>,
    notices: &[Front],
) -> Result<Option<Cut>, AllocError>
    requires offers { AreOffersOf flow.now offers.now }
    requires there { IsSideOfFlow flow.now side.now }
    requires encloses { EnclosesConsistent flow.now offers.now (choice_of cuts.old.items notices.now) }
    ensures { IfOk result (IsTested flow.now offers.now (inclusions.OfCut side.now) (choice_of cuts.old.items notices.now) (choice_of cuts.new.items notices.now)) }
{
    flow_is_well_formed(flow);
    let bound = right_of(alloc, flow, offers, side, cuts, notices)?;
    let node = owner(flow, *side);
    let lower = lowered(alloc, flow, offers, side, cut_at(cuts, node), &bound)?;
    match lower {
        None => Ok(None),
        Some(cut) => {
            let value = cut.copy()?;
            cuts[node.place() as usize] = cut;
            Ok(Some(value))
        }
    }
}

/// Takes from the notification frontier of the node of the limit what does not lie within it; the new one, if there was any. The
/// error is want of memory.
fn lower_note(
    alloc: Global,
    flow: &Flow,
    offers: &[Offer],
    limit: &Limit,
    cuts: &[Cut],
    notices: &mut Vec<Front>,
) -> Result<Option<Cut>, AllocError>
    requires offers { AreOffersOf flow.now offers.now }
    requires there { IsLimitIn flow.now limit.now }
    requires encloses { EnclosesConsistent flow.now offers.now (choice_of cuts.now notices.old.items) }
    ensures { IfOk result (IsTested flow.now offers.now (inclusions.OfNote limit.now) (choice_of cuts.now notices.old.items) (choice_of cuts.now notices.new.items)) }
{
    flow_is_well_formed(flow);
    let bound = limit_of(alloc, flow, offers, limit, cuts, notices)?;
    let value = lower_notice(notices, note_node(flow, *limit), &bound)?;
    Ok(value)
}

/// Takes from the notification frontier of a node what does not lie within a bound; the new one, if there was any. The error is
/// want of memory.
pub(crate) fn lower_notice(
    notices: &mut Vec<Front>,
    node: NodeId,
    bound: &Front,
) -> Result<Option<Cut>, AllocError>
    requires { node < length notices.old.items }
    ensures { IfOk result (IsNoticeLowered notices.old.items notices.new.items node bound.now) }
{
    let place = node.place() as usize;
    if notices[place].subset(bound) {
        return Ok(None);
    }
    let left = notices[place].meet(bound)?;
    let value = left.copy()?;
    notices[place] = left;
    Ok(Some(Cut::At(value)))
}
