//! What of an edge comes from a frontier of its sender, and where a frontier of its sender can send.
ghost use Rattle.std.specs.Prelude.{◌≡◌, ℕ, ◌+◌, ◌<◌, ◌≤◌, ◌&&◌, true, false, nat_lt, List, [], ◌∷◌, ◌++◌, length, if◌then◌else◌, is_ok, IfOk};
ghost use Rattle.std.specs.List.{AllByRecursion};
ghost use Rattle.fw_time.specs.declared.stamp.Bounds.{Bounds as Domain};
ghost use Rattle.fw_time.specs.Stamp.{in_domain};
ghost use Rattle.fw_time.specs.Sending.{fed_back_stamp};
ghost use Rattle.fw_frontier.specs.Front.{frontier_of, IsCanonical, IsFrontOf};
ghost use Rattle.fw_flow.specs.declared.event.Event.{Event};
ghost use Rattle.fw_flow.specs.declared.projection.Way.TheVariants as spec_way;
ghost use Rattle.fw_flow.specs.Dataflow.{System, kind_of, sender, receiver, bounds_of, node_frontier};
ghost use Rattle.fw_flow.specs.Projection.{first_coordinate, phi, phi_by_count, psi, psi_back, phi_of_kind, psi_of_kind, psi_back_of_kind, table_count, IsSentTable};
ghost use Rattle.fw_flow.specs.ProjectedStamps.{MayGo, image, images, entered_outside, front_until, AreDomainsOf, AreEndsOf};
ghost use Rattle.fw_flow.specs.WellFormed.{IsGroupSize};

use crate::{EdgeId, Flow, Kind, SentTable};
use fw_frontier::Front;
use fw_time::{Bounds, Stamp};
use std::alloc::{AllocError, Global};

impl Flow {
    /// If the sender of the edge keeps its events in `f`, each message on the edge at a stamp inside the answer comes from
    /// one of them. Only for a sequence it reads `sent`, what the sequence sent so far: it counts those of the epochs inside.
    /// `f` must be canonical in the domain of the sender (`Flow::domain` of `Flow::src`), as `Front::checked_until` makes
    /// it; the answer is canonical in the domain of the receiver. The only error is want of memory.
    pub fn phi(
        &self,
        alloc: Global,
        edge: EdgeId,
        f: &Front,
        sent: &SentTable,
    ) -> Result<Front, AllocError>
        requires { IsCanonical (bounds_of self.now (sender self.now edge)) f.now }
        ensures by_table { let inside = node_frontier self.now (sender self.now edge) f.now in IfOk result
            (λ g. IsFrontOf (bounds_of self.now (receiver self.now edge)) g
            (phi_by_count self.now (table_count inside sent.now) edge inside)) }
        ensures after_history { (sys : System) (h : List Event) → sys.flow ≡ self.now
            → (kind_of self.now (sender self.now edge) ≡ Kind.Sequence → IsSentTable sys h (sender self.now edge) sent.now)
            → IfOk result (λ g. IsFrontOf (bounds_of self.now (receiver self.now edge)) g
            (phi sys h edge (node_frontier self.now (sender self.now edge) f.now))) }
    {
        let (kind, sender, receiver) = self.ends(edge);
        phi(alloc, kind, f, sent, &sender, &receiver)
    }

    /// The cover of the stamps at which an event of the sender of the edge inside `f` can send on it, where the sender is of
    /// a kind that may keep nothing; else the answer has no use. `f` must be canonical in the domain of the sender, and the
    /// answer is in that of the receiver. The only error is want of memory.
    pub fn psi(&self, alloc: Global, edge: EdgeId, f: &Front) -> Result<Front, AllocError>
        requires { IsCanonical (bounds_of self.now (sender self.now edge)) f.now }
        ensures { IfOk result (λ g. IsFrontOf (bounds_of self.now (receiver self.now edge)) g
            (psi self.now edge (node_frontier self.now (sender self.now edge) f.now))) }
    {
        let (kind, sender, receiver) = self.ends(edge);
        psi(alloc, kind, f, &sender, &receiver)
    }

    /// The largest frontier of the sender of the edge from which it sends inside `g` alone, where the sender is of a kind that
    /// may keep nothing; else the answer has no use. `g` must be canonical in the domain of the receiver, and the answer is
    /// in that of the sender. The only error is want of memory.
    pub fn psi_back(&self, alloc: Global, edge: EdgeId, g: &Front) -> Result<Front, AllocError>
        requires { IsCanonical (bounds_of self.now (receiver self.now edge)) g.now }
        ensures { IfOk result (λ f. IsFrontOf (bounds_of self.now (sender self.now edge)) f
            (psi_back self.now edge (node_frontier self.now (receiver self.now edge) g.now))) }
    {
        let (kind, sender, receiver) = self.ends(edge);
        psi_back(alloc, kind, g, &sender, &receiver)
    }

    /// The kind of an edge's sender, and the bounds of the sender's domain and of the receiver's.
    fn ends(&self, edge: EdgeId) -> (Kind, Bounds, Bounds)
        ensures { AreEndsOf self.now edge result.0 result.1 result.2 }
    {
        // Where a field is read, the flow is known to be well formed.
        let _ = &self.edges;
        let src = self.src(edge);
        (
            self.kind(src),
            self.domain(src),
            self.domain(self.dst(edge)),
        )
    }
}

/// Where an outside stamp goes, when a frontier is taken into a loop, out of it, or to its next counter.
#[derive(Clone, Copy)]
pub(crate) enum Way {
    /// To counter 0.
    First,
    /// To the next counter, and nowhere from the greatest one.
    Next(u32),
    /// To the next counter, but 0 stays.
    NextAfterFirst(u32),
    /// To the counter before, but 0 stays.
    Before,
    /// To the stamp without its counter.
    Outer,
    /// To the stamp without its counter where that is 0, else nowhere.
    OuterOfFirst,
}

/// Where a stamp of a loop, or of the domain that it is in, goes.
fn image(way: Way, o: &Stamp) -> Option<Stamp>
    requires { MayGo way o.now }
    ensures { result ≡ image way o.now }
{
    match way {
        Way::First => Some(o.nest(0)),
        Way::Next(max) => next(max, o),
        Way::NextAfterFirst(max) => {
            if o.counter() == 0 {
                Some(o.copy())
            } else {
                next(max, o)
            }
        }
        Way::Before => Some(o.outer().nest(o.counter().saturating_sub(1))),
        Way::Outer => Some(o.outer()),
        Way::OuterOfFirst => {
            if o.counter() == 0 {
                Some(o.outer())
            } else {
                None
            }
        }
    }
}

/// The next counter of a loop's stamp, if there is one.
fn next(max: u32, o: &Stamp) -> Option<Stamp>
    requires { 0 < length o.now }
    ensures { result ≡ fed_back_stamp max o.now }
{
    if o.counter() < max {
        Some(o.outer().nest(o.counter() + 1))
    } else {
        None
    }
}

/// Where the stamps go, in their order.
fn images(alloc: Global, stamps: &[Stamp], way: Way) -> Result<Vec<Stamp>, AllocError>
    requires { AllByRecursion (MayGo way) stamps.now }
    ensures { IfOk result (λ all. all.items ≡ images way stamps.now) }
{
    let mut all = Vec::new(alloc);
    for o in stamps {
        if let Some(image) = image(way, o) {
            all.push(image)?;
        }
    }
    Ok(all)
}

/// The frontier outside of which are the images of the outside stamps of `f`.
fn moved(alloc: Global, f: &Front, way: Way) -> Result<Front, AllocError>
    requires { AllByRecursion (MayGo way) f.now }
    ensures { (bounds : Domain) → AllByRecursion (λ s. in_domain bounds s ≡ true) (images way f.now)
        → IfOk result (λ g. IsFrontOf bounds g (frontier_of bounds (images way f.now))) }
{
    let stamps = images(alloc, f.outside(), way)?;
    Front::until(alloc, &stamps)
}

/// What is sent into a loop from inside `f`: the stamps of counter 0.
fn entered(
    alloc: Global,
    f: &Front,
    sender: &Bounds,
    receiver: &Bounds,
) -> Result<Front, AllocError>
    requires front { AllByRecursion (MayGo spec_way.First) f.now }
    requires sender { MayGo spec_way.First sender.now.greatest }
    requires receiver { 0 < length receiver.now.greatest }
    ensures { (bounds : Domain) → AllByRecursion (λ s. in_domain bounds s ≡ true) (entered_outside sender.now receiver.now f.now)
        → IfOk result (λ g. IsFrontOf bounds g (frontier_of bounds (entered_outside sender.now receiver.now f.now))) }
{
    let mut stamps = images(alloc, f.outside(), Way::First)?;
    if receiver.greatest.counter() > 0 {
        stamps.push(sender.origin().nest(1))?;
    }
    Front::until(alloc, &stamps)
}

/// The numbers, or epochs, below a limit, in a domain without sides.
fn below(alloc: Global, limit: u64, bounds: &Bounds) -> Result<Front, AllocError>
    requires { length bounds.now.greatest ≡ 1 }
    ensures { bounds.now.sides ≡ false → IfOk result
        (λ g. IsFrontOf bounds.now g (λ u. in_domain bounds.now u && nat_lt (first_coordinate u) limit)) }
{
    if limit > u64::from(bounds.greatest.at(0)) {
        return Ok(Front::all(alloc));
    }
    Front::until(alloc, &[Stamp::new(&[limit as u32])])
}

/// The first number outside, if not all are inside.
fn limit(f: &Front, bounds: &Bounds) -> Option<u32>
    requires line { length bounds.now.greatest ≡ 1 }
    requires front { IsCanonical bounds.now f.now }
    ensures { f.now ≡ front_until result }
{
    match f.outside() {
        [] => None,
        [first, ..] => Some(first.at(0)),
    }
}

/// If a node of the kind keeps its events in `f`, each of its messages at a stamp inside the answer comes from one of them.
/// `sender` and `receiver` are the bounds of the node's domain and out domain. Only a sequence reads `sent`, what it sent so
/// far. The only error is want of memory.
pub(crate) fn phi(
    alloc: Global,
    kind: Kind,
    f: &Front,
    sent: &SentTable,
    sender: &Bounds,
    receiver: &Bounds,
) -> Result<Front, AllocError>
    requires group { IsGroupSize kind }
    requires domains { AreDomainsOf kind sender.now receiver.now }
    requires front { IsCanonical sender.now f.now }
    ensures { let inside = frontier_of sender.now f.now in IfOk result
        (λ g. IsFrontOf receiver.now g (λ u. in_domain receiver.now u
        && phi_of_kind sender.now.greatest kind (table_count inside sent.now) inside u)) }
{
    match kind {
        Kind::Enter(_) => moved(alloc, f, Way::First),
        Kind::Feedback(_) => moved(alloc, f, Way::Next(sender.greatest.counter())),
        Kind::Leave(_) => moved(alloc, f, Way::Outer),
        Kind::Sequence => match limit(f, sender) {
            None => Ok(Front::all(alloc)),
            Some(limit) => below(alloc, sent.count_below(limit), receiver),
        },
        Kind::Regroup(n) => match limit(f, sender) {
            None => Ok(Front::all(alloc)),
            Some(limit) => below(alloc, u64::from(limit) / n, receiver),
        },
        _ => f.copy(),
    }
}

/// The cover of the stamps at which a node of the kind can send from its events inside `f`, for the kinds that may keep
/// nothing; for the others the answer has no use. `sender` and `receiver` are the bounds of the node's domain and out
/// domain. The only error is want of memory.
pub(crate) fn psi(
    alloc: Global,
    kind: Kind,
    f: &Front,
    sender: &Bounds,
    receiver: &Bounds,
) -> Result<Front, AllocError>
    requires group { IsGroupSize kind }
    requires domains { AreDomainsOf kind sender.now receiver.now }
    requires front { IsCanonical sender.now f.now }
    ensures { IfOk result (λ g. IsFrontOf receiver.now g (λ u. in_domain receiver.now u
        && psi_of_kind sender.now.greatest kind (frontier_of sender.now f.now) u)) }
{
    match kind {
        Kind::Enter(_) => entered(alloc, f, sender, receiver),
        Kind::Feedback(_) => moved(alloc, f, Way::NextAfterFirst(sender.greatest.counter())),
        Kind::Leave(_) => moved(alloc, f, Way::OuterOfFirst),
        Kind::Regroup(n) => {
            let end = match limit(f, sender) {
                None => u64::from(sender.greatest.at(0)) + 1,
                Some(limit) => u64::from(limit),
            };
            below(alloc, end.div_ceil(n), receiver)
        }
        _ => f.copy(),
    }
}

/// The largest frontier of a node of the kind from which it sends inside `g` alone, for the kinds that may keep nothing;
/// for the others the answer has no use. `sender` and `receiver` are the bounds of the node's domain and out domain. The
/// only error is want of memory.
pub(crate) fn psi_back(
    alloc: Global,
    kind: Kind,
    g: &Front,
    sender: &Bounds,
    receiver: &Bounds,
) -> Result<Front, AllocError>
    requires group { IsGroupSize kind }
    requires domains { AreDomainsOf kind sender.now receiver.now }
    requires front { IsCanonical receiver.now g.now }
    ensures { IfOk result (λ f. IsFrontOf sender.now f (λ t. in_domain sender.now t
        && psi_back_of_kind sender.now.greatest kind (frontier_of receiver.now g.now) t)) }
{
    match kind {
        Kind::Enter(_) => moved(alloc, g, Way::OuterOfFirst),
        Kind::Feedback(_) => moved(alloc, g, Way::Before),
        Kind::Leave(_) => moved(alloc, g, Way::First),
        Kind::Regroup(n) => match limit(g, receiver) {
            None => Ok(Front::all(alloc)),
            Some(limit) => below(alloc, u64::from(limit) * n, sender),
        },
        _ => g.copy(),
    }
}
