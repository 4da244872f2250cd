//! The largest consistent choice of what the nodes offer, or why there is none: a descent that ends where no cut is left.
ghost use Rattle.std.specs.Prelude.{◌<◌, ℕ, length, IfOk};
ghost use Rattle.fw_flow.specs.declared.choice.Cut.{Cut as SomeCut};
ghost use Rattle.fw_flow.specs.declared.side.Inclusion.TheVariants as variants;
ghost use Rattle.fw_model.specs.Inclusions.{IsInclusionOf, IsLimitIn, IsSideOfFlow};
ghost use Rattle.fw_model.specs.Lowerings.{choice_of};
ghost use Rattle.fw_model.specs.Offers.{AreOffersOf, IsOffered, RecordsAscend};
ghost use Rattle.fw_monitor.specs.Finding.{IsBackFrom, IsFound, IsMended, IsOfOffers};
ghost use Rattle.fw_monitor.specs.Worklist.{AreBegins};

use crate::descent::{Descent, lower_notice};
use crate::lower::lowered_failing;
use crate::start::greatest_cuts;
use crate::trail::lowering_of;
use crate::worklist::{InOrder, after, first_node, inclusions, node_of};
use fw_flow::laws::flow_is_well_formed;
use fw_flow::{Choice, Cut, Cuts, Flow, Fronts, Inclusion, Limit, Lowering, Offer, Side, Trail};
use fw_frontier::Front;
use fw_offers::{all_kept, cut_at, is_offered, limit_of, note_node, owner, passes, right_of};
use std::alloc::{AllocError, Global};

/// What a descent finds where each node offers a cut.
#[derive(Debug, Drop)]
pub enum Finding {
    /// The largest consistent choice, and the trail to it.
    Largest(Descent),
    /// That no choice is consistent: behind the lowerings no cut is left for the side.
    NoneLeft {
        /// What was lowered, in order.
        trail: Trail,
        /// The side.
        side: Side,
    },
}

/// The values on the way down, and how they came about.
#[derive(Drop)]
struct Way {
    /// The cut of each node so far.
    cuts: Vec<Cut>,
    /// The notification frontier of each node so far.
    notices: Vec<Front>,
    /// What was lowered, in order.
    trail: Vec<Lowering>,
}

/// What a test of an inclusion comes to.
#[derive(Clone, Copy, Debug)]
enum Mended {
    /// It holds.
    Holds,
    /// The value on its left was lowered.
    Lowered,
    /// No cut is left for the side.
    NoneLeft(Side),
}

/// The largest consistent choice of what the nodes offer, where the records of each ascend and each offers a cut; or why no choice is
/// consistent. The error is want of memory.
///
/// It begins with the greatest cut of each node, and lowers what stands on the left of the first inclusion that does not hold, until
/// each holds or no cut is left.
pub fn find(alloc: Global, flow: &Flow, offers: &[Offer]) -> Result<Finding, AllocError>
    requires offers { AreOffersOf flow.now offers.now }
    requires ascend { RecordsAscend flow.now offers.now }
    requires some { (p : ℕ) → p < length flow.now.nodes → (cut : SomeCut) × IsOffered flow.now offers.now p cut }
    ensures { IfOk result (IsFound flow.now offers.now) }
{
    flow_is_well_formed(flow);
    let cuts = greatest_cuts(alloc, flow, offers)?;
    let notices = all_kept(alloc, flow, &cuts)?;
    let mut way = Way {
        cuts,
        notices,
        trail: Vec::new(alloc),
    };
    let inclusions = inclusions(alloc, flow)?;
    let mut place = 0;
    'mend: while place < inclusions.all.len() {
        let inclusion = &inclusions.all[place];
        match mend(alloc, flow, offers, inclusion, &mut way)? {
            Mended::Holds => place += 1,
            Mended::Lowered => place = begin_again(alloc, flow, inclusion, &inclusions)?,
            Mended::NoneLeft(side) => {
                return Ok(Finding::NoneLeft {
                    trail: Trail::of(way.trail),
                    side,
                });
            }
        }
    }
    Ok(Finding::Largest(Descent {
        choice: Choice {
            cuts: Cuts::of(way.cuts),
            notices: Fronts::of(way.notices),
        },
        trail: Trail::of(way.trail),
    }))
}

/// The place from which inclusions are tested again where a value on the left of this one was lowered: each before it holds as before. The
/// error is want of memory.
fn begin_again(
    alloc: Global,
    flow: &Flow,
    inclusion: &Inclusion,
    inclusions: &InOrder,
) -> Result<usize, AllocError>
    requires there { IsInclusionOf flow.now inclusion.now }
    requires begins { AreBegins flow.now (length flow.now.nodes) inclusions.now.begins.items }
    ensures { IfOk result (IsBackFrom flow.now inclusion.now) }
{
    flow_is_well_formed(flow);
    let broken = after(alloc, flow, *inclusion)?;
    let first = first_node(flow, node_of(flow, *inclusion), &broken);
    Ok(inclusions.begins[first.place() as usize])
}

/// Tests an inclusion, and lowers the value on its left to the greatest one that is left, if it does not hold. The error is want of
/// memory.
fn mend(
    alloc: Global,
    flow: &Flow,
    offers: &[Offer],
    inclusion: &Inclusion,
    way: &mut Way,
) -> Result<Mended, AllocError>
    requires offers { AreOffersOf flow.now offers.now }
    requires ascend { RecordsAscend flow.now offers.now }
    requires there { IsInclusionOf flow.now inclusion.now }
    requires offered { IsOfOffers flow.now offers.now (choice_of way.old.cuts.items way.old.notices.items) }
    ensures { IfOk result (IsMended flow.now offers.now inclusion.now way.old.trail.items way.new.trail.items
        (choice_of way.old.cuts.items way.old.notices.items) (choice_of way.new.cuts.items way.new.notices.items)) }
{
    match inclusion {
        Inclusion::OfCut(side) => mend_cut(alloc, flow, offers, side, way),
        Inclusion::OfNote(limit) => mend_note(alloc, flow, offers, limit, way),
    }
}

/// The same of what a side says of its node's cut.
fn mend_cut(
    alloc: Global,
    flow: &Flow,
    offers: &[Offer],
    side: &Side,
    way: &mut Way,
) -> Result<Mended, AllocError>
    requires offers { AreOffersOf flow.now offers.now }
    requires ascend { RecordsAscend flow.now offers.now }
    requires there { IsSideOfFlow flow.now side.now }
    requires offered { IsOfOffers flow.now offers.now (choice_of way.old.cuts.items way.old.notices.items) }
    ensures { IfOk result (IsMended flow.now offers.now (variants.OfCut side.now) way.old.trail.items way.new.trail.items
        (choice_of way.old.cuts.items way.old.notices.items) (choice_of way.new.cuts.items way.new.notices.items)) }
{
    flow_is_well_formed(flow);
    let bound = right_of(alloc, flow, offers, side, &way.cuts, &way.notices)?;
    let node = owner(flow, *side);
    let cut = cut_at(&way.cuts, node);
    if passes(alloc, flow, offers, side, cut, &bound)? {
        return Ok(Mended::Holds);
    }
    let Some(to) = lowered_failing(alloc, flow, offers, side, cut, &bound)? else {
        return Ok(Mended::NoneLeft(*side));
    };
    if !is_offered(offers, node, &to) {
        return Ok(Mended::NoneLeft(*side));
    }
    let value = to.copy()?;
    way.cuts[node.place() as usize] = to;
    way.trail
        .push(lowering_of(flow, &Inclusion::OfCut(*side), value))?;
    Ok(Mended::Lowered)
}

/// The same of the limit of a node's notification frontier.
fn mend_note(
    alloc: Global,
    flow: &Flow,
    offers: &[Offer],
    limit: &Limit,
    way: &mut Way,
) -> Result<Mended, AllocError>
    requires offers { AreOffersOf flow.now offers.now }
    requires there { IsLimitIn flow.now limit.now }
    requires offered { IsOfOffers flow.now offers.now (choice_of way.old.cuts.items way.old.notices.items) }
    ensures { IfOk result (IsMended flow.now offers.now (variants.OfNote limit.now) way.old.trail.items way.new.trail.items
        (choice_of way.old.cuts.items way.old.notices.items) (choice_of way.new.cuts.items way.new.notices.items)) }
{
    flow_is_well_formed(flow);
    let bound = limit_of(alloc, flow, offers, limit, &way.cuts, &way.notices)?;
    match lower_notice(&mut way.notices, note_node(flow, *limit), &bound)? {
        None => Ok(Mended::Holds),
        Some(to) => {
            way.trail
                .push(lowering_of(flow, &Inclusion::OfNote(*limit), to))?;
            Ok(Mended::Lowered)
        }
    }
}
