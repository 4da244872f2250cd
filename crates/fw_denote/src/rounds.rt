//! The nodes are run in an order of their ranks, and loops round by round: each node once on all that comes to it at the
//! same counters.
//!
//! What is found here is a first guess: nothing rests on the order, since `settle` runs every node once more on what was
//! found, and again until nothing changes.
ghost use Rattle.std.specs.Prelude.{◌≡◌, ◌≤◌, ◌^◌, ℕ, [], true, length, replicate, IfOk, OnOk, IsTrue};
ghost use Rattle.std.specs.List.{AllByRecursion};
ghost use Rattle.fw_time.specs.Stamp.{in_domain};
ghost use Rattle.fw_flow.specs.Dataflow.{kind_of, sender, system_of};
ghost use Rattle.fw_flow.specs.WellFormed.{IsWellFormed, IsWellFormedSystem};
ghost use Rattle.fw_flow.specs.WholeBags as whole;
ghost use Rattle.fw_denote.specs.Domains.{AreOut};
ghost use Rattle.fw_denote.specs.Holding.{AreBagsHeld};

use crate::join::joined;
use crate::numbered::batched;
use crate::outputs::{of_part, put_all, sent};
use crate::ranks::{Ranks, Turn};
use crate::{Timed, TimedBag};
use fw_flow::{EdgeId, Flow, Kind, NodeId};
use fw_lines::Batches;
use fw_time::Bounds;
use std::alloc::{AllocError, Global};
use std::collections::BTreeMap;

/// What waits for a node's turn: what came on its second in-edge of two, and all else.
#[derive(Debug, Drop)]
struct Slice {
    first: Vec<Timed>,
    second: Vec<Timed>,
}

impl Slice {
    fn new(alloc: Global) -> Self {
        Slice {
            first: Vec::new(alloc),
            second: Vec::new(alloc),
        }
    }

    fn put(&mut self, is_second: bool, recs: &[Timed]) -> Result<(), AllocError> {
        if is_second {
            put_all(&mut self.second, recs)
        } else {
            put_all(&mut self.first, recs)
        }
    }
}

/// Whether each is at a stamp within the bounds.
pub(crate) fn are_within(rs: &[Timed], bounds: &Bounds) -> bool
    ensures { IsTrue result → AllByRecursion (λ (r : whole.Timed). in_domain bounds.now r.at ≡ true) rs.now }
{
    let mut rest = rs;
    while let Some((r, later)) = rest.split_first() {
        if !r.at().in_domain(bounds) {
            return false;
        }
        rest = later;
    }
    true
}

/// Whether the edge is the second in-edge of two.
fn is_second(flow: &Flow, edge: EdgeId) -> bool {
    match flow.in_edges(flow.dst(edge)) {
        [_, second] => *second == edge,
        _ => false,
    }
}

/// Puts recs into the slice of a turn.
fn put_into(
    alloc: Global,
    waiting: &mut BTreeMap<Turn, Slice>,
    turn: Turn,
    is_second: bool,
    recs: &[Timed],
) -> Result<(), AllocError> {
    if !waiting.contains_key(&turn) {
        waiting.insert(turn, Slice::new(alloc))?;
    }
    match waiting.get_mut(&turn) {
        Some(slice) => slice.put(is_second, recs),
        None => Ok(()),
    }
}

/// Puts what a node sent at the same counters into the slices of the receivers, of each what its edge carries.
fn post(
    alloc: Global,
    flow: &Flow,
    ranks: &Ranks,
    waiting: &mut BTreeMap<Turn, Slice>,
    node: NodeId,
    recs: &[Timed],
) -> Result<(), AllocError> {
    let Some(first) = recs.first() else {
        return Ok(());
    };
    for edge in flow.out_edges(node) {
        let receiver = flow.dst(*edge);
        let turn = ranks.turn(receiver, first.at());
        let mine = of_part(alloc, flow.part(receiver), recs)?;
        put_into(alloc, waiting, turn, is_second(flow, *edge), &mine)?;
    }
    Ok(())
}

/// What a node sends for the slice.
fn run(alloc: Global, flow: &Flow, node: NodeId, slice: Slice) -> Result<Vec<Timed>, AllocError>
    requires { IsWellFormed flow.now }
{
    let kind = flow.kind(node);
    let Slice { mut first, second } = slice;
    if let Kind::Join { .. } = &kind {
        let rights = TimedBag::of(second)?;
        return joined(alloc, &first, rights.as_slice());
    }
    put_all(&mut first, &second)?;
    let bag = TimedBag::of(first)?;
    let rs = bag.as_slice();
    if (node.place() as usize) < flow.nodes() && are_within(rs, &flow.domain(node)) {
        sent(alloc, flow, &kind, &[], rs)
    } else {
        Ok(Vec::new(alloc))
    }
}

/// The nodes as they are run, turn by turn.
#[derive(Debug, Drop)]
struct Course {
    alloc: Global,
    ranks: Ranks,
    waiting: BTreeMap<Turn, Slice>,
    // What each node sent.
    sent: Vec<Vec<Timed>>,
}

impl Course {
    fn new(alloc: Global, flow: &Flow) -> Result<Self, AllocError> {
        let mut sent = Vec::with_capacity(alloc, flow.nodes())?;
        for _ in 0..flow.nodes() {
            sent.push(Vec::new(alloc))?;
        }
        Ok(Course {
            alloc,
            ranks: Ranks::of(alloc, flow)?,
            waiting: BTreeMap::new(alloc),
            sent,
        })
    }

    /// Takes in what a node sent at the same counters.
    fn take(&mut self, flow: &Flow, node: NodeId, mut recs: Vec<Timed>) -> Result<(), AllocError> {
        post(
            self.alloc,
            flow,
            &self.ranks,
            &mut self.waiting,
            node,
            &recs,
        )?;
        if let Some(sent) = self.sent.get_mut(node.place() as usize) {
            sent.append(&mut recs)?;
        }
        Ok(())
    }

    /// Lets the inputs send their batches.
    fn start(&mut self, flow: &Flow, batches: &Batches) -> Result<(), AllocError>
        requires { IsWellFormedSystem (system_of flow.now batches.now) }
    {
        for place in 0..flow.nodes() {
            let node = NodeId::at(place as u32);
            if flow.kind(node).is_input() {
                let recs = batched(self.alloc, batches.of(place as u32))?;
                self.take(flow, node, recs)?;
            }
        }
        Ok(())
    }

    /// Runs the nodes until nothing waits.
    fn go(&mut self, flow: &Flow) -> Result<(), AllocError>
        requires { IsWellFormed flow.now }
    {
        for _ in 0..u64::MAX {
            let Some((turn, slice)) = self.waiting.pop_first() else {
                return Ok(());
            };
            let recs = run(self.alloc, flow, turn.node(), slice)?;
            self.take(flow, turn.node(), recs)?;
        }
        Ok(())
    }
}

/// Whether the bag is in order, and at stamps of the domain of the edge's receiver.
fn is_for(flow: &Flow, edge: EdgeId, bag: &TimedBag) -> bool
    requires { IsWellFormed flow.now }
    ensures in_order { IsTrue result → whole.in_order bag.now ≡ bag.now }
    ensures out { IsTrue result → AreOut flow.now (kind_of flow.now (sender flow.now edge)) bag.now }
{
    let receiver = flow.dst(edge);
    are_within(bag.as_slice(), &flow.domain(receiver))
}

/// Keeps what the node at a place sent as its bag, where it is at stamps of the domain of a node that it sends to.
fn keep(
    flow: &Flow,
    bags: &mut Vec<TimedBag>,
    place: usize,
    sent: Vec<Timed>,
) -> Result<(), AllocError>
    requires well_formed { IsWellFormed flow.now }
    requires held { AreBagsHeld flow.now bags.old.items }
    ensures { OnOk result (AreBagsHeld flow.now bags.new.items) }
{
    if place >= flow.nodes() || place >= bags.len() {
        return Ok(());
    }
    let node = NodeId::at(place as u32);
    let Some(edge) = flow.out_edges(node).first() else {
        return Ok(());
    };
    let bag = TimedBag::of(sent)?;
    if flow.src(*edge) == node && is_for(flow, *edge, &bag) {
        bags[place] = bag;
    }
    Ok(())
}

/// An empty bag for each node.
fn no_bags(alloc: Global, flow: &Flow) -> Result<Vec<TimedBag>, AllocError>
    ensures { IfOk result (λ bags. bags.items ≡ replicate (length flow.now.nodes) []) }
{
    let mut bags = Vec::with_capacity(alloc, flow.nodes())?;
    for _place in 0..flow.nodes() {
        bags.push(TimedBag::empty(alloc))?;
    }
    Ok(bags)
}

/// Bags of what the nodes send, found by running them in an order of their ranks, and loops round by round. The error is
/// want of memory.
#[tactic(auto, using(crate::proofs::DenoteLaws::none_held))]
pub(crate) fn first_bags(
    alloc: Global,
    flow: &Flow,
    batches: &Batches,
) -> Result<Vec<TimedBag>, AllocError>
    requires { IsWellFormedSystem (system_of flow.now batches.now) }
    ensures { IfOk result (λ bags. AreBagsHeld flow.now bags.items) }
{
    let mut course = Course::new(alloc, flow)?;
    course.start(flow, batches)?;
    course.go(flow)?;
    let Course { mut sent, .. } = course;
    let mut bags = no_bags(alloc, flow)?;
    while let Some(recs) = sent.pop() {
        keep(flow, &mut bags, sent.len(), recs)?;
    }
    Ok(bags)
}
