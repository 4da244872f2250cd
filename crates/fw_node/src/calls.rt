//! The calls of a node.
ghost use Rattle.std.specs.Prelude.{◌≡◌, ◌&&◌, not, ℕ, List, Bool, [], ◌∷◌, true, false, IfOk, OnOk, OnErr, IsTrue, IsErr, slice_index_or};
ghost use Rattle.std.specs.List.{AllByRecursion};
ghost use Rattle.fw_time.specs.Stamp.{in_domain};
ghost use Rattle.fw_flow.specs.declared.event.Event.{Event};
ghost use Rattle.fw_flow.specs.declared.event.Event.TheVariants.{Deliver, Inject, Notify};
ghost use Rattle.fw_flow.specs.declared.event.Message.{Message};
ghost use Rattle.fw_flow.specs.declared.kind.Kind.TheVariants as kind;
ghost use Rattle.fw_flow.specs.Dataflow.{Dataflow, System, batches_of, bounds_of, kind_of, in_edges, is_input_kind, is_notified_kind, node_frontier};
ghost use Rattle.fw_flow.specs.NodeFunction.{delivered_recs, sends};
ghost use Rattle.fw_flow.specs.WellFormed.{IsWellFormed};
ghost use Rattle.fw_model.specs.Filtering.{events_inside};
ghost use Rattle.fw_model.specs.Order.{notified_stamps};
ghost use Rattle.fw_model.specs.SortedMessages.{sorted_messages};
ghost use Rattle.fw_model.specs.Told.{is_told, AreToldInside, EachDelivery, IsSumOfTold};
ghost use Rattle.fw_frontier.specs.Frontier.{Within};
ghost use Rattle.fw_node.specs.Answers.{caused_by};
ghost use Rattle.fw_node.specs.Arrived.{place_in, AreOnEdges, IsOneOf};
ghost use Rattle.fw_node.specs.NodeOf.{stamps_of, CanBeSent, IsNodeOf};
ghost use Rattle.fw_node.specs.Past.{totals_kept, totals_changed};
ghost use Rattle.fw_node.specs.Sends.{messages_of, notice_sends};
ghost use Rattle.fw_node.specs.StateOf.{IsStateOf, IsStateSince};
ghost use Rattle.fw_node.specs.TableOf.{IsTableOf};

use crate::{Node, Sends, Table};
use fw_bag::{Rec, Recs};
use fw_flow::{EdgeId, Flow, NodeId};
use fw_frontier::{Front, State};
use fw_table::{Sent, SentRecs};
use fw_time::{Bounds, Stamp};
use std::alloc::{AllocError, Global};

// The place of an edge among others.
fn side_of(sides: &[EdgeId], edge: EdgeId) -> usize
    ensures { result ≡ place_in sides.now edge }
{
    let mut side = 0;
    let mut rest = sides;
    while let Some((first, later)) = rest.split_first() {
        if *first == edge {
            return side;
        }
        side += 1;
        rest = later;
    }
    side
}

impl Node {
    /// A node of a flow to which nothing came, whatever is settled.
    ///
    /// It fails where memory is refused.
    pub fn new(alloc: Global, flow: &Flow, id: NodeId) -> Result<Self, AllocError>
        ensures table { (settled : List ℕ → Bool) → IfOk result (λ node. IsTableOf flow.now id settled node []) }
        ensures bounds { IfOk result (λ node. node.bounds ≡ bounds_of flow.now id) }
        ensures node { IfOk result (IsNodeOf flow.now id) }
        ensures live { IfOk result (λ node. node.refused ≡ false) }
    {
        let _nodes = flow.nodes();
        let sides = Vec::from_slice(alloc, flow.in_edges(id))?;
        Ok(Node {
            table: Table::new(alloc, flow, id),
            sides,
            bounds: flow.domain(id),
            alloc,
            refused: false,
        })
    }

    /// A node of a flow that is restored from its state: all that came to it is settled.
    ///
    /// It fails where memory is refused.
    pub fn from_state(
        alloc: Global,
        flow: &Flow,
        id: NodeId,
        state: &State,
    ) -> Result<Self, AllocError>
        ensures table { (settled : List ℕ → Bool) (before : List Event)
            → EachDelivery (λ s. (settled s ≡ true) × (in_domain (bounds_of flow.now id) s ≡ true)) before
            → AreOnEdges (in_edges flow.now id) before → IsStateOf (kind_of flow.now id) before state.now
            → IfOk result (λ node. IsTableOf flow.now id settled node before) }
        ensures bounds { IfOk result (λ node. node.bounds ≡ bounds_of flow.now id) }
        ensures node { IfOk result (IsNodeOf flow.now id) }
        ensures live { IfOk result (λ node. node.refused ≡ false) }
    {
        let _nodes = flow.nodes();
        let sides = Vec::from_slice(alloc, flow.in_edges(id))?;
        let table = Table::from_state(alloc, flow, id, state)?;
        Ok(Node {
            table,
            sides,
            bounds: flow.domain(id),
            alloc,
            refused: false,
        })
    }

    /// The bounds of its domain: the stamps that its calls take are of these bounds.
    pub fn bounds(&self) -> &Bounds
        ensures { result.now ≡ self.now.bounds }
    {
        &self.bounds
    }

    /// Takes in a rec that came on an in-edge at a stamp of the domain, and gives what it makes the node send, in
    /// the node function's order.
    ///
    /// It fails where memory is refused, now or earlier.
    #[tactic(auto, using(crate::proofs::NodeLaws::same_length))]
    pub fn deliver(&mut self, edge: EdgeId, at: &Stamp, rec: Rec) -> Result<Sends, AllocError>
        requires { in_domain self.old.bounds at.now ≡ true }
        ensures ok { (flow : Dataflow) (p : ℕ) (settled : List ℕ → Bool) (before : List Event) (m : Message)
            → m.at ≡ at.now → m.rec ≡ rec → IsOneOf (in_edges flow p) edge → settled at.now ≡ false
            → (is_notified_kind (kind_of flow p) ≡ true → is_told before at.now ≡ false)
            → IsTableOf flow p settled self.old before
            → OnOk result (IsTableOf flow p settled self.new (Deliver edge m ∷ before)) }
        ensures sent { (sys : System) (p : ℕ) (settled : List ℕ → Bool) (before : List Event) (m : Message)
            → m.at ≡ at.now → m.rec ≡ rec → IsOneOf (in_edges sys.flow p) edge → settled at.now ≡ false
            → IsTableOf sys.flow p settled self.old before
            → IfOk result (λ sent. sorted_messages (messages_of at.now sent) ≡ sorted_messages (sends sys p before (Deliver edge m))) }
        ensures in_order { (sys : System) (p : ℕ) (settled : List ℕ → Bool) (before : List Event) (m : Message)
            → m.at ≡ at.now → m.rec ≡ rec → IsOneOf (in_edges sys.flow p) edge → settled at.now ≡ false
            → IsTableOf sys.flow p settled self.old before
            → IfOk result (λ sent. messages_of at.now sent ≡ sends sys p before (Deliver edge m)) }
        ensures err { (flow : Dataflow) (p : ℕ) (settled : List ℕ → Bool) (before : List Event)
            → IsTableOf flow p settled self.old before → OnErr result (IsTableOf flow p settled self.new before) }
        ensures live { OnOk result (self.new.refused ≡ false) }
        ensures refused { OnErr result (self.new.refused ≡ true) }
        ensures stays { IsTrue self.old.refused → IsErr result }
        ensures bounds { self.new.bounds ≡ self.old.bounds }
        ensures node { (flow : Dataflow) (p : ℕ) → IsNodeOf flow p self.old → IsNodeOf flow p self.new }
        ensures domain { (flow : Dataflow) (p : ℕ) → IsWellFormed flow → IsNodeOf flow p self.old
            → IfOk result (λ sent. CanBeSent flow p (stamps_of sent)) }
    {
        if self.refused {
            return Err(AllocError);
        }
        let side = side_of(&self.sides, edge);
        match self.table.deliver(side, at, rec) {
            Ok(sent) => Ok(Sends::AtOneStamp(sent)),
            Err(refusal) => {
                self.refused = true;
                Err(refusal)
            }
        }
    }

    /// Gives what a notification of a stamp of the domain makes the node send, in ascending order.
    ///
    /// It fails where memory is refused, now or earlier.
    #[tactic(auto, using(crate::proofs::NodeLaws::same_length))]
    pub fn notify(&mut self, at: &Stamp) -> Result<Sends, AllocError>
        requires { in_domain self.old.bounds at.now ≡ true }
        ensures ok { (flow : Dataflow) (p : ℕ) (settled : List ℕ → Bool) (before : List Event)
            → settled at.now ≡ false → is_told before at.now ≡ false → IsTableOf flow p settled self.old before
            → OnOk result (IsTableOf flow p settled self.new (Notify p at.now ∷ before)) }
        ensures sent { (flow : Dataflow) (p : ℕ) (settled : List ℕ → Bool) (before : List Event)
            → settled at.now ≡ false → is_told before at.now ≡ false
            → (kind_of flow p ≡ kind.Total → IsSumOfTold settled before at.now) → IsTableOf flow p settled self.old before
            → IfOk result (λ sent. messages_of at.now sent ≡ caused_by at.now (notice_sends (kind_of flow p) before at.now)) }
        ensures err { (flow : Dataflow) (p : ℕ) (settled : List ℕ → Bool) (before : List Event)
            → IsTableOf flow p settled self.old before → OnErr result (IsTableOf flow p settled self.new before) }
        ensures live { OnOk result (self.new.refused ≡ false) }
        ensures refused { OnErr result (self.new.refused ≡ true) }
        ensures stays { IsTrue self.old.refused → IsErr result }
        ensures bounds { self.new.bounds ≡ self.old.bounds }
        ensures node { (flow : Dataflow) (p : ℕ) → IsNodeOf flow p self.old → IsNodeOf flow p self.new }
        ensures domain { (flow : Dataflow) (p : ℕ) → IsWellFormed flow → IsNodeOf flow p self.old
            → IfOk result (λ sent. CanBeSent flow p (stamps_of sent)) }
    {
        if self.refused {
            return Err(AllocError);
        }
        let sent = self.table.notify(at);
        self.refused = sent.is_err();
        sent
    }

    /// Gives what an input sends when it injects its batch of an epoch.
    ///
    /// It fails where memory is refused, now or earlier.
    pub fn inject(&mut self, epoch: u32, batch: &[Rec]) -> Result<Sends, AllocError>
        ensures ok { (flow : Dataflow) (p : ℕ) (settled : List ℕ → Bool) (before : List Event)
            → IsTableOf flow p settled self.old before
            → OnOk result (IsTableOf flow p settled self.new (Inject p epoch ∷ before)) }
        ensures sent { (sys : System) (p : ℕ) (before : List Event) → is_input_kind (kind_of sys.flow p) ≡ true
            → slice_index_or (batches_of sys p) epoch [] ≡ batch.now
            → IfOk result (λ sent. messages_of (epoch ∷ []) sent ≡ sends sys p before (Inject p epoch)) }
        ensures err { (flow : Dataflow) (p : ℕ) (settled : List ℕ → Bool) (before : List Event)
            → IsTableOf flow p settled self.old before → OnErr result (IsTableOf flow p settled self.new before) }
        ensures live { OnOk result (self.new.refused ≡ false) }
        ensures refused { OnErr result (self.new.refused ≡ true) }
        ensures stays { IsTrue self.old.refused → IsErr result }
        ensures bounds { self.new.bounds ≡ self.old.bounds }
        ensures node { (flow : Dataflow) (p : ℕ) → IsNodeOf flow p self.old → IsNodeOf flow p self.new }
        ensures domain { (flow : Dataflow) (p : ℕ) → IsWellFormed flow → is_input_kind (kind_of flow p) ≡ true
            → IfOk result (λ sent. CanBeSent flow p (stamps_of sent)) }
    {
        if self.refused {
            return Err(AllocError);
        }
        self.refused = true;
        let recs = SentRecs::all(Vec::from_slice(self.alloc, batch)?);
        self.refused = false;
        Ok(Sends::AtOneStamp(Sent {
            at: Stamp::new(&[epoch]),
            recs,
        }))
    }

    /// Settles what came inside, which holds what was settled. The outside stamps are of the domain.
    ///
    /// It fails where memory is refused, now or earlier.
    pub fn settle(&mut self, f: &Front) -> Result<(), AllocError>
        requires { AllByRecursion (λ o. in_domain self.old.bounds o ≡ true) f.now }
        ensures ok { (flow : Dataflow) (p : ℕ) (settled : List ℕ → Bool) (before : List Event)
            → Within settled (node_frontier flow p f.now)
            → (is_notified_kind (kind_of flow p) ≡ true → AreToldInside (node_frontier flow p f.now) before)
            → IsTableOf flow p settled self.old before
            → OnOk result (IsTableOf flow p (node_frontier flow p f.now) self.new before) }
        ensures err { (flow : Dataflow) (p : ℕ) (settled : List ℕ → Bool) (before : List Event)
            → IsTableOf flow p settled self.old before → OnErr result (IsTableOf flow p settled self.new before) }
        ensures live { OnOk result (self.new.refused ≡ false) }
        ensures refused { OnErr result (self.new.refused ≡ true) }
        ensures stays { IsTrue self.old.refused → IsErr result }
        ensures bounds { self.new.bounds ≡ self.old.bounds }
        ensures node { (flow : Dataflow) (p : ℕ) → IsNodeOf flow p self.old → IsNodeOf flow p self.new }
    {
        if self.refused {
            return Err(AllocError);
        }
        let settled = self.table.settle(self.alloc, f, &self.bounds);
        self.refused = settled.is_err();
        settled
    }

    /// The totals that a total or a ledger keeps of what came inside, which holds what is settled, in ascending order of
    /// the keys; none of any other kind. The outside stamps are of the domain.
    ///
    /// It fails where memory is refused, now or earlier.
    pub fn totals_at(&self, f: &Front) -> Result<Recs, AllocError>
        requires { AllByRecursion (λ o. in_domain self.now.bounds o ≡ true) f.now }
        ensures totals { (flow : Dataflow) (p : ℕ) (settled : List ℕ → Bool) (before : List Event)
            → Within settled (node_frontier flow p f.now) → IsTableOf flow p settled self.now before
            → IfOk result (λ totals. totals
            ≡ totals_kept (kind_of flow p) (delivered_recs (λ d s. node_frontier flow p f.now s) before)) }
        ensures stays { IsTrue self.now.refused → IsErr result }
    {
        if self.refused {
            return Err(AllocError);
        }
        self.table.totals_at(self.alloc, f, &self.bounds)
    }

    /// The totals that a total or a ledger keeps of what came inside, which holds what is settled, of the keys alone to which
    /// something came outside what is settled, in ascending order of the keys; none of any other kind. The outside stamps are
    /// of the domain.
    ///
    /// It costs these keys, and the times that are not settled. It fails where memory is refused, now or earlier.
    pub fn totals_since(&self, f: &Front) -> Result<Recs, AllocError>
        requires { AllByRecursion (λ o. in_domain self.now.bounds o ≡ true) f.now }
        ensures totals { (flow : Dataflow) (p : ℕ) (settled : List ℕ → Bool) (before : List Event)
            → Within settled (node_frontier flow p f.now) → IsTableOf flow p settled self.now before
            → IfOk result (λ totals. totals ≡ totals_changed (kind_of flow p)
            (delivered_recs (λ d s. node_frontier flow p f.now s && not (settled s)) before)
            (delivered_recs (λ d s. node_frontier flow p f.now s) before)) }
        ensures stays { IsTrue self.now.refused → IsErr result }
    {
        if self.refused {
            return Err(AllocError);
        }
        self.table.totals_since(self.alloc, f, &self.bounds)
    }

    /// The state of the node's events inside f, as it changed since those inside g: of a total and a ledger the totals of the keys
    /// alone to which something came outside g, and of a sequence how many messages it sent in all. Taken in by `take_changes`, it
    /// makes a node of the events inside g one of those inside f. What is settled lies inside g, and g inside f; a sequence was
    /// notified of nothing outside f. The outside stamps are of the domain. How much was sent at which stamps it does not tell.
    ///
    /// It costs the keys, and the times that are not settled. It fails where memory is refused, now or earlier.
    pub fn state_since(&self, g: &Front, f: &Front) -> Result<State, AllocError>
        requires earlier { AllByRecursion (λ o. in_domain self.now.bounds o ≡ true) g.now }
        requires later { AllByRecursion (λ o. in_domain self.now.bounds o ≡ true) f.now }
        ensures state { (flow : Dataflow) (p : ℕ) (settled : List ℕ → Bool) (before : List Event)
            → Within settled (node_frontier flow p g.now) → Within (node_frontier flow p g.now) (node_frontier flow p f.now)
            → (kind_of flow p ≡ kind.Sequence → AllByRecursion (λ t. node_frontier flow p f.now t ≡ true) (notified_stamps before))
            → IsTableOf flow p settled self.now before
            → IfOk result (IsStateSince (kind_of flow p) (node_frontier flow p g.now) (events_inside (node_frontier flow p f.now) before)) }
        ensures no_counts { IfOk result (λ state. state.sends ≡ []) }
        ensures stays { IsTrue self.now.refused → IsErr result }
    {
        if self.refused {
            return Err(AllocError);
        }
        self.table.state_since(self.alloc, g, f, &self.bounds)
    }

    /// Takes in what changed since the events that the node stands for, all of them settled: then it stands for all events, and
    /// all that came is settled. It is for restoring, from the state of a checkpoint and those of the changes on it.
    ///
    /// It fails where memory is refused, now or earlier; then the node stands for nothing.
    pub fn take_changes(&mut self, state: &State) -> Result<(), AllocError>
        ensures ok { (flow : Dataflow) (p : ℕ) (settled after : List ℕ → Bool) (before : List Event)
            → EachDelivery (λ s. (after s ≡ true) × (in_domain (bounds_of flow p) s ≡ true)) before
            → AreOnEdges (in_edges flow p) before
            → IsTableOf flow p settled self.old (events_inside settled before)
            → IsStateSince (kind_of flow p) settled before state.now
            → OnOk result (IsTableOf flow p after self.new before) }
        ensures live { OnOk result (self.new.refused ≡ false) }
        ensures refused { OnErr result (self.new.refused ≡ true) }
        ensures stays { IsTrue self.old.refused → IsErr result }
        ensures bounds { self.new.bounds ≡ self.old.bounds }
        ensures node { (flow : Dataflow) (p : ℕ) → IsNodeOf flow p self.old → IsNodeOf flow p self.new }
    {
        if self.refused {
            return Err(AllocError);
        }
        let taken = self.table.take_changes(self.alloc, state);
        self.refused = taken.is_err();
        taken
    }
}
