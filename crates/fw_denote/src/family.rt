//! A bag for each edge.
ghost use Rattle.std.specs.Prelude.{◌≡◌, ◌<◌, ℕ, List, map, length, IfOk};
ghost use Rattle.std.specs.List.{range_with_len};
ghost use Rattle.fw_flow.specs.WellFormed.{IsWellFormed};
ghost use Rattle.fw_flow.specs.WholeBags.{in_order};
ghost use Rattle.fw_denote.specs.Holding.{family_held, family_on};

use crate::outputs::on_edge;
use crate::{Timed, TimedBag};
use fw_flow::{EdgeId, Flow};
use std::alloc::{AllocError, Global};
use std::marker::Model;

/// A bag of timed recs for each edge of a flow. Contracts see their list.
#[derive(Debug, Drop)]
pub struct Family {
    bags: Vec<TimedBag>,
}

impl Model for Family {
    ghost use Rattle.std.specs.Prelude.{List};
    ghost use Rattle.fw_flow.specs.WholeBags.{Timed};

    ghost Value = { List (List Timed) };

    ghost view = { λ family. family.bags.items };
}

impl Family {
    /// The bags of the edges, by those that the nodes send.
    pub(crate) fn of(alloc: Global, flow: &Flow, sent: Vec<TimedBag>) -> Result<Self, AllocError>
        requires { IsWellFormed flow.now }
        ensures { IfOk result (λ family. family ≡ map (family_held flow.now sent.items) (range_with_len 0 (length flow.now.edges))) }
    {
        let mut bags = Vec::with_capacity(alloc, flow.edges())?;
        for place in 0..flow.edges() {
            bags.push(bag_on(alloc, flow, &sent, EdgeId::at(place as u32))?)?;
        }
        Ok(Family { bags })
    }

    /// The timed recs on an edge, in ascending order; none past the last edge. It takes no memory.
    pub fn on(&self, edge: EdgeId) -> &[Timed]
        ensures recs { result.now ≡ family_on self.now edge }
        ensures in_order { in_order result.now ≡ result.now }
    {
        match self.bags.get(edge.place() as usize) {
            Some(bag) => bag.as_slice(),
            None => &[],
        }
    }
}

/// The bag on an edge, by those that the nodes send. The error is want of memory.
fn bag_on(
    alloc: Global,
    flow: &Flow,
    sent: &[TimedBag],
    edge: EdgeId,
) -> Result<TimedBag, AllocError>
    ensures { IfOk result (λ bag. bag ≡ family_held flow.now sent.now edge) }
{
    TimedBag::of(on_edge(alloc, flow, sent, edge)?)
}
