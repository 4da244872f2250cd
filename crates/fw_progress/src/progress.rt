//! Progress, kept from event to event.
ghost use Rattle.std.specs.Prelude.{◌≡◌, ◌<◌, ◌≤◌, ◌+◌, ◌↔◌, ℕ, List, map, [], ◌∷◌, length, true, false, slice_set, IsTrue, IsErr, IfOk, IfSome};
ghost use Rattle.fw_time.specs.Stamp.{in_domain};
ghost use Rattle.fw_frontier.specs.Front.{IsCanonical};
ghost use Rattle.fw_flow.specs.declared.event.Event.{Event};
ghost use Rattle.fw_flow.specs.declared.event.Event.TheVariants as events;
ghost use Rattle.fw_flow.specs.declared.event.Message.{Message};
ghost use Rattle.fw_flow.specs.Dataflow.{Dataflow, System, receiver, bounds_of, node_ids, system_of, HasEpochs};
ghost use Rattle.fw_model.specs.History.{IsComplete, IsLegal, IsNotifiable};
ghost use Rattle.fw_model.specs.Machine.{front_of, family_of, no_stamps, AreCanonical};
ghost use Rattle.fw_model.specs.Steps.{IsNextNotice};
ghost use Rattle.fw_progress.specs.Counts.{owed_of, pending_of, AreCounts};
ghost use Rattle.fw_progress.specs.Cut.{events_left, AreTallies, ArePendingAfter, AreTablesAfter};
ghost use Rattle.fw_progress.specs.Growths.{AreGrowths, out_degrees, IsEnlisted};
ghost use Rattle.fw_progress.specs.History.{IsCountOf, StandsForHistory, FollowsEvent, IsFresh};
ghost use Rattle.fw_progress.specs.Notices.{IsFirstNotice};
ghost use Rattle.fw_progress.specs.Settle as settling;
ghost use Rattle.fw_progress.specs.Settle.{SettlesMore, IsGrownAt};
ghost use Rattle.fw_model.specs.Machine.{Machine, SerialEvent, events as machine_events};
ghost use Rattle.fw_progress.specs.Progress.{Standing, IsProgressOf, AreFrontsOf, CanSend, stamps_of_recs, CountsBatch, DeliversOne, HasBatchMore, IsNotified, IsInjected, can_have_more};

use crate::counts::Counts;
use crate::cut::cut_counts;
use crate::events;
use crate::growth::Growths;
use crate::notices::{first_notice, may_notify};
use crate::refresh::refresh;
use crate::settle::{any_has_more, grown, grown_at, has_more};
use crate::start::{largest, no_stamps_each, none};
use crate::tally::Tally;
use crate::worklist::Worklist;
use fw_bag::Rec;
use fw_flow::laws::flow_is_well_formed;
use fw_flow::{Choice, EdgeId, Flow, NodeId, SentTable, Steps};
use fw_frontier::Front;
use fw_lines::Batches;
use fw_time::Stamp;
use std::alloc::{AllocError, Global};
use std::marker::{Brand, Model};
use std::sync::ledger::{Blank, Ledger};

/// Up to where everything has come at each node of a flow: counts of what is pending, owed, injected and sent, what is
/// settled, and of each node a kept frontier within its complete one, with the nodes whose frontier may be widened. To
/// progress to which memory was once refused no more is told, and it says so by an error each time.
#[derive(Debug)]
pub struct Progress {
    counts: Counts,
    settled: Vec<Front>,
    kept: Vec<Front>,
    work: Worklist,
    refused: bool,
}

impl Model for Progress {
    ghost use Rattle.fw_progress.specs.Progress.{Standing};

    ghost Value = { Standing };

    ghost view = { λ p. record { counts = p.counts; settled = p.settled.items; kept = p.kept.items; work = p.work; refused = p.refused } };
}

// Written out, so that it is one call wherever progress is let go.
impl Drop for Progress {
    fn drop(self) {
        let Progress {
            counts,
            settled,
            kept,
            work,
            refused: _,
        } = self;
        drop(counts);
        drop(settled);
        drop(kept);
        drop(work);
    }
}

impl Progress {
    /// Progress of a flow in which nothing has happened yet: the complete frontiers are kept, and nothing is settled. The
    /// error is want of memory.
    pub fn new(alloc: Global, flow: &Flow, batches: &Batches) -> Result<Self, AllocError>
        ensures progress { IfOk result (IsProgressOf flow.now) }
        ensures stands { IfOk result (StandsForHistory (system_of flow.now batches.now) []) }
        ensures complete { IfOk result
            (λ p. IsComplete (system_of flow.now batches.now) [] (family_of flow.now p.kept)) }
        ensures none_waits { IfOk result (λ p. p.work ≡ []) }
        ensures settled { IfOk result
            (λ p. p.settled ≡ map (λ q. no_stamps (bounds_of flow.now q)) (node_ids flow.now)) }
        ensures ready { IfOk result (λ p. p.refused ≡ false) }
    {
        flow_is_well_formed(flow);
        let counts = none(alloc, flow, batches)?;
        let kept = largest(alloc, flow, &counts)?;
        Ok(Progress {
            counts,
            settled: no_stamps_each(alloc, flow)?,
            kept,
            work: Worklist::new(alloc),
            refused: false,
        })
    }

    /// Progress with these counts, and these frontiers as what is settled; the complete frontiers are found, and kept. The error
    /// is want of memory.
    pub fn of_counts(
        alloc: Global,
        flow: &Flow,
        counts: Counts,
        settled: Vec<Front>,
    ) -> Result<Self, AllocError>
        requires counts { AreCounts flow.now counts }
        requires settled_each { length settled.items ≡ length flow.now.nodes }
        requires settled { AreCanonical flow.now settled.items }
        ensures progress { IfOk result (IsProgressOf flow.now) }
        ensures counts { IfOk result (λ p. p.counts ≡ counts) }
        ensures settled { IfOk result (λ p. p.settled ≡ settled.items) }
        ensures none_waits { IfOk result (λ p. p.work ≡ []) }
        ensures complete { (sys : System) (h : List Event) → sys.flow ≡ flow.now → IsCountOf sys h counts
            → IfOk result (λ p. StandsForHistory sys h p × IsComplete sys h (family_of flow.now p.kept)) }
        ensures ready { IfOk result (λ p. p.refused ≡ false) }
    {
        flow_is_well_formed(flow);
        let kept = largest(alloc, flow, &counts)?;
        Ok(Progress {
            counts,
            settled,
            kept,
            work: Worklist::new(alloc),
            refused: false,
        })
    }

    /// Takes other counts, and other frontiers as what is settled; the complete frontiers are found anew, and kept. The error
    /// is want of memory.
    pub fn rebuild(
        &mut self,
        alloc: Global,
        flow: &Flow,
        counts: Counts,
        settled: Vec<Front>,
    ) -> Result<(), AllocError>
        requires counts { AreCounts flow.now counts }
        requires settled_each { length settled.items ≡ length flow.now.nodes }
        requires settled { AreCanonical flow.now settled.items }
        ensures progress { IfOk result (λ u. IsProgressOf flow.now self.new) }
        ensures counts { IfOk result (λ u. self.new.counts ≡ counts) }
        ensures settled { IfOk result (λ u. self.new.settled ≡ settled.items) }
        ensures none_waits { IfOk result (λ u. self.new.work ≡ []) }
        ensures complete { (sys : System) (h : List Event) → sys.flow ≡ flow.now → IsCountOf sys h counts
            → IfOk result (λ u. StandsForHistory sys h self.new × IsComplete sys h (family_of flow.now self.new.kept)) }
        ensures ready { IfOk result (λ u. self.new.refused ≡ false) }
        ensures refused { IsErr result → IsTrue self.new.refused }
        ensures stays { IsTrue self.old.refused → IsErr result }
    {
        flow_is_well_formed(flow);
        if self.refused {
            return Err(AllocError);
        }
        let kept = largest(alloc, flow, &counts);
        self.refused = kept.is_err();
        self.kept = kept?;
        self.counts = counts;
        self.settled = settled;
        self.work = Worklist::new(alloc);
        Ok(())
    }

    /// A recovery cuts the nodes, and other frontiers are settled: what is owed and was injected stays so far as it lies inside
    /// the cuts, and it is told anew how many messages are pending on each edge, by stamp, and what each sequence sent. The
    /// complete frontiers are found anew, and kept. The error is want of memory.
    pub fn cut(
        &mut self,
        alloc: Global,
        flow: &Flow,
        choice: &Choice,
        pending: Vec<Tally>,
        sent: Vec<SentTable>,
        settled: Vec<Front>,
    ) -> Result<(), AllocError>
        requires progress { IsProgressOf flow.now self.old }
        requires pending { AreTallies flow.now pending.items }
        requires sent { length sent.items ≡ length flow.now.nodes }
        requires settled { AreFrontsOf flow.now settled.items }
        ensures progress { IfOk result (λ u. IsProgressOf flow.now self.new) }
        ensures settled { IfOk result (λ u. self.new.settled ≡ settled.items) }
        ensures none_waits { IfOk result (λ u. self.new.work ≡ []) }
        ensures complete { (sys : System) (h : List SerialEvent) → sys.flow ≡ flow.now → HasEpochs sys
            → IsLegal sys (machine_events h) → IsCountOf sys (machine_events h) self.old.counts
            → ArePendingAfter sys (events_left sys choice.now h) pending.items
            → AreTablesAfter sys (events_left sys choice.now h) sent.items
            → IfOk result (λ u. StandsForHistory sys (events_left sys choice.now h) self.new
            × IsComplete sys (events_left sys choice.now h) (family_of flow.now self.new.kept)) }
        ensures ready { IfOk result (λ u. self.new.refused ≡ false) }
        ensures refused { IsErr result → IsTrue self.new.refused }
        ensures stays { IsTrue self.old.refused → IsErr result }
    {
        flow_is_well_formed(flow);
        if self.refused {
            return Err(AllocError);
        }
        cut_counts(flow, &mut self.counts, choice, pending, sent);
        let kept = largest(alloc, flow, &self.counts);
        self.refused = kept.is_err();
        self.kept = kept?;
        self.settled = settled;
        self.work = Worklist::new(alloc);
        Ok(())
    }

    /// A message at the stamp is delivered on the edge, and its receiver sends these recs at these stamps, on each of its
    /// out-edges those that the edge carries. The error is want of memory.
    pub fn delivered(
        &mut self,
        flow: &Flow,
        edge: EdgeId,
        at: &Stamp,
        sent: &[(Stamp, Rec)],
    ) -> Result<(), AllocError>
        requires progress { IsProgressOf flow.now self.old }
        requires there { edge < length flow.now.edges }
        requires at { in_domain (bounds_of flow.now (receiver flow.now edge)) at.now ≡ true }
        requires sent { CanSend flow.now (receiver flow.now edge) (stamps_of_recs sent.now) }
        ensures progress { IsProgressOf flow.now self.new }
        ensures counts { IfOk result (λ u. DeliversOne flow.now edge at.now sent.now self.old.counts self.new.counts) }
        ensures work { IfOk result (λ u. IsEnlisted (receiver flow.now edge) self.old.work self.new.work) }
        ensures settled { self.new.settled ≡ self.old.settled }
        ensures kept { self.new.kept ≡ self.old.kept }
        ensures follows { (m : Message) → m.at ≡ at.now
            → IfOk result (λ u. FollowsEvent flow.now (events.Deliver edge m) sent.now self.old self.new) }
        ensures ready { IfOk result (λ u. self.new.refused ≡ false) }
        ensures refused { IsErr result → IsTrue self.new.refused }
        ensures stays { IsTrue self.old.refused → IsErr result }
    {
        flow_is_well_formed(flow);
        if self.refused {
            return Err(AllocError);
        }
        let told = deliver(flow, &mut self.counts, &mut self.work, edge, at, sent);
        self.refused = told.is_err();
        told
    }

    /// The node is notified of the stamp, and sends these recs at these stamps, on each of its out-edges those that the edge
    /// carries. The error is want of memory.
    pub fn notified(
        &mut self,
        flow: &Flow,
        node: NodeId,
        at: &Stamp,
        sent: &[(Stamp, Rec)],
    ) -> Result<(), AllocError>
        requires progress { IsProgressOf flow.now self.old }
        requires there { node < length flow.now.nodes }
        requires sent { CanSend flow.now node (stamps_of_recs sent.now) }
        ensures progress { IsProgressOf flow.now self.new }
        ensures counts { IfOk result (λ u. IsNotified flow.now node at.now sent.now self.old.counts self.new.counts) }
        ensures work { IfOk result (λ u. IsEnlisted node self.old.work self.new.work) }
        ensures settled { self.new.settled ≡ self.old.settled }
        ensures kept { self.new.kept ≡ self.old.kept }
        ensures follows { IfOk result (λ u. FollowsEvent flow.now (events.Notify node at.now) sent.now self.old self.new) }
        ensures ready { IfOk result (λ u. self.new.refused ≡ false) }
        ensures refused { IsErr result → IsTrue self.new.refused }
        ensures stays { IsTrue self.old.refused → IsErr result }
    {
        flow_is_well_formed(flow);
        if self.refused {
            return Err(AllocError);
        }
        let told = notify(flow, &mut self.counts, &mut self.work, node, at, sent);
        self.refused = told.is_err();
        told
    }

    /// The node injects its next batch, and sends these recs at these stamps, on each of its out-edges those that the edge
    /// carries. The error is want of memory.
    pub fn injected(
        &mut self,
        flow: &Flow,
        node: NodeId,
        sent: &[(Stamp, Rec)],
    ) -> Result<(), AllocError>
        requires progress { IsProgressOf flow.now self.old }
        requires there { node < length flow.now.nodes }
        requires sent { CanSend flow.now node (stamps_of_recs sent.now) }
        ensures progress { IsProgressOf flow.now self.new }
        ensures counts { IfOk result (λ u. IsInjected flow.now node sent.now self.old.counts self.new.counts) }
        ensures work { IfOk result (λ u. IsEnlisted node self.old.work self.new.work) }
        ensures settled { self.new.settled ≡ self.old.settled }
        ensures kept { self.new.kept ≡ self.old.kept }
        ensures follows { (epoch : ℕ)
            → IfOk result (λ u. FollowsEvent flow.now (events.Inject node epoch) sent.now self.old self.new) }
        ensures ready { IfOk result (λ u. self.new.refused ≡ false) }
        ensures refused { IsErr result → IsTrue self.new.refused }
        ensures stays { IsTrue self.old.refused → IsErr result }
    {
        flow_is_well_formed(flow);
        if self.refused {
            return Err(AllocError);
        }
        let told = inject(flow, &mut self.counts, &mut self.work, node, sent);
        self.refused = told.is_err();
        told
    }

    /// Widens the kept frontiers to the complete ones, and answers how they grew. Each node that is taken up is one step. The
    /// error is want of memory.
    pub fn refresh<L: Ledger>(
        &mut self,
        alloc: Global,
        flow: &Flow,
        steps: &mut Steps<L>,
    ) -> Result<Growths, AllocError>
        requires progress { IsProgressOf flow.now self.old }
        ensures progress { IsProgressOf flow.now self.new }
        ensures growths { IfOk result (λ growths. AreGrowths flow.now self.old.kept growths.items self.new.kept) }
        ensures bound { IfOk result
            (λ growths. steps.new ≤ steps.old + length self.old.work + out_degrees flow.now growths.items) }
        ensures each_taken { IfOk result (λ growths. steps.old + length self.old.work ≤ steps.new) }
        ensures none_waits { IfOk result (λ growths. self.new.work ≡ []) }
        ensures still { IfOk result (λ growths. self.old.work ≡ [] → self.new.kept ≡ self.old.kept) }
        ensures ready { IfOk result (λ growths. self.new.refused ≡ false) }
        ensures counts { self.new.counts ≡ self.old.counts }
        ensures settled { self.new.settled ≡ self.old.settled }
        ensures complete { (sys : System) (h : List Event) → sys.flow ≡ flow.now → StandsForHistory sys h self.old
            → IfOk result (λ growths. StandsForHistory sys h self.new × IsComplete sys h (family_of flow.now self.new.kept)) }
        ensures refused { IsErr result → IsTrue self.new.refused }
        ensures stays { IsTrue self.old.refused → IsErr result }
    {
        flow_is_well_formed(flow);
        if self.refused {
            return Err(AllocError);
        }
        let growths = refresh(
            alloc,
            flow,
            &self.counts,
            &mut self.kept,
            &mut self.work,
            steps,
        );
        self.refused = growths.is_err();
        growths
    }

    /// The complete frontier of a node. The kept frontiers are brought up first; how they grew is not told, and the steps of it
    /// are not counted. The error is want of memory.
    pub fn complete(
        &mut self,
        alloc: Global,
        flow: &Flow,
        node: NodeId,
    ) -> Result<Front, AllocError>
        requires progress { IsProgressOf flow.now self.old }
        requires there { node < length flow.now.nodes }
        ensures progress { IsProgressOf flow.now self.new }
        ensures fresh { IfOk result (λ front. IsFresh flow.now self.old self.new) }
        ensures front { IfOk result (λ front. front ≡ front_of self.new.kept node) }
        ensures refused { IsErr result → IsTrue self.new.refused }
        ensures stays { IsTrue self.old.refused → IsErr result }
    {
        self.freshen(alloc, flow)?;
        let front = self.kept[node.place() as usize].copy();
        self.refused = front.is_err();
        front
    }

    /// Whether the node may be notified of the stamp. The kept frontiers are brought up first; how they grew is not told, and
    /// the steps of it are not counted. The error is want of memory.
    pub fn can_notify(
        &mut self,
        alloc: Global,
        flow: &Flow,
        node: NodeId,
        at: &Stamp,
    ) -> Result<bool, AllocError>
        requires progress { IsProgressOf flow.now self.old }
        requires there { node < length flow.now.nodes }
        requires at { in_domain (bounds_of flow.now node) at.now ≡ true }
        ensures progress { IsProgressOf flow.now self.new }
        ensures fresh { IfOk result (λ can. IsFresh flow.now self.old self.new) }
        ensures exact { (sys : System) (h : List Event) → sys.flow ≡ flow.now → StandsForHistory sys h self.old
            → IfOk result (λ can. IsTrue can ↔ IsNotifiable sys h node at.now) }
        ensures next { (sys : System) (h : List Event) → sys.flow ≡ flow.now → StandsForHistory sys h self.old
            → IfOk result (λ can. IsTrue can ↔ IsNextNotice sys h node (Some at.now) at.now) }
        ensures refused { IsErr result → IsTrue self.new.refused }
        ensures stays { IsTrue self.old.refused → IsErr result }
    {
        flow_is_well_formed(flow);
        self.freshen(alloc, flow)?;
        let can = may_notify(alloc, flow, &self.counts, &self.kept, node, at);
        self.refused = can.is_err();
        can
    }

    /// The first stamp, by the coordinates from the outermost on, of which the node may be notified; `None` exactly where it may
    /// be notified of none. The kept frontiers are brought up first; how they grew is not told, and the steps of it are not
    /// counted. The error is want of memory.
    pub fn first_notice(
        &mut self,
        alloc: Global,
        flow: &Flow,
        node: NodeId,
    ) -> Result<Option<Stamp>, AllocError>
        requires progress { IsProgressOf flow.now self.old }
        requires there { node < length flow.now.nodes }
        ensures progress { IsProgressOf flow.now self.new }
        ensures fresh { IfOk result (λ first. IsFresh flow.now self.old self.new) }
        ensures of_domain { IfOk result (λ first. IfSome first (λ t. in_domain (bounds_of flow.now node) t ≡ true)) }
        ensures exact { (sys : System) (h : List Event) → sys.flow ≡ flow.now → StandsForHistory sys h self.old
            → IfOk result (IsFirstNotice sys h node) }
        ensures refused { IsErr result → IsTrue self.new.refused }
        ensures stays { IsTrue self.old.refused → IsErr result }
    {
        flow_is_well_formed(flow);
        self.freshen(alloc, flow)?;
        let first = first_notice(alloc, flow, &self.counts, &self.kept, node);
        self.refused = first.is_err();
        first
    }

    /// What is settled once the nodes that are not failed settle what is complete; `None` exactly where none of them has more
    /// to settle. It settles nothing (`settle`). The kept frontiers are brought up first; how they grew is not told, and the
    /// steps of it are not counted. The error is want of memory.
    pub fn grows(
        &mut self,
        alloc: Global,
        flow: &Flow,
        failed: &[bool],
    ) -> Result<Option<Vec<Front>>, AllocError>
        requires progress { IsProgressOf flow.now self.old }
        requires failed { length failed.now ≡ length flow.now.nodes }
        ensures progress { IsProgressOf flow.now self.new }
        ensures fresh { IfOk result (λ grown. IsFresh flow.now self.old self.new) }
        ensures fronts { IfOk result (λ grown. IfSome grown (λ settled. AreFrontsOf flow.now settled.items)) }
        ensures exact { (sys : System) (state : Machine) → sys.flow ≡ flow.now → StandsForHistory sys (machine_events state.history) self.old
            → self.old.settled ≡ state.settled → failed.now ≡ state.failed → IfOk result (SettlesMore sys state) }
        ensures refused { IsErr result → IsTrue self.new.refused }
        ensures stays { IsTrue self.old.refused → IsErr result }
    {
        self.freshen(alloc, flow)?;
        if !any_has_more(failed, &self.kept, &self.settled) {
            return Ok(None);
        }
        let both = grown(alloc, flow, failed, &self.settled, &self.kept);
        self.refused = both.is_err();
        Ok(Some(both?))
    }

    /// The kept frontiers are complete from now on. The error is want of memory.
    fn freshen(&mut self, alloc: Global, flow: &Flow) -> Result<(), AllocError>
        requires progress { IsProgressOf flow.now self.old }
        ensures progress { IsProgressOf flow.now self.new }
        ensures fresh { IfOk result (λ u. IsFresh flow.now self.old self.new) }
        ensures refused { IsErr result → IsTrue self.new.refused }
        ensures stays { IsTrue self.old.refused → IsErr result }
    {
        self.uncounted::<Brand>(alloc, flow, Blank::new(1))
    }

    /// The same by a counter of its own.
    fn uncounted<L: Ledger>(
        &mut self,
        alloc: Global,
        flow: &Flow,
        blank: Blank,
    ) -> Result<(), AllocError>
        requires progress { IsProgressOf flow.now self.old }
        requires name { blank.name ≡ L.name }
        requires parts { blank.parts ≡ L.parts }
        requires some { 0 < L.parts }
        ensures progress { IsProgressOf flow.now self.new }
        ensures fresh { IfOk result (λ u. IsFresh flow.now self.old self.new) }
        ensures refused { IsErr result → IsTrue self.new.refused }
        ensures stays { IsTrue self.old.refused → IsErr result }
    {
        let mut steps = Steps::<L>::none(blank);
        self.refresh(alloc, flow, &mut steps)?;
        Ok(())
    }

    /// What is settled of each node. It takes no memory.
    pub fn settled(&self) -> &[Front]
        ensures { result.now ≡ self.now.settled }
    {
        &self.settled
    }

    /// What is counted. It takes no memory.
    pub fn counts(&self) -> &Counts
        ensures { result.now ≡ self.now.counts }
    {
        &self.counts
    }

    /// The kept frontier of each node: after a refresh its complete one. It takes no memory.
    pub fn kept(&self) -> &[Front]
        ensures { result.now ≡ self.now.kept }
    {
        &self.kept
    }

    /// The stamps of which a node is owed a notification. It takes no memory.
    pub fn owed(&self, node: NodeId) -> &Tally
        requires { node < length self.now.counts.owed.items }
        ensures { result.now ≡ owed_of self.now.counts node }
    {
        &self.counts.owed[node.place() as usize]
    }

    /// How many messages are pending on an edge, by stamp. It takes no memory.
    pub fn pending(&self, edge: EdgeId) -> &Tally
        requires { edge < length self.now.counts.pending.items }
        ensures { result.now ≡ pending_of self.now.counts edge }
    {
        &self.counts.pending[edge.place() as usize]
    }

    /// Whether a node keeps more than it settled, as it is now. It takes no memory.
    pub fn has_grown(&self, node: NodeId) -> bool
        requires kept { node < length self.now.kept }
        requires settled { node < length self.now.settled }
        ensures { result ≡ settling.has_more (front_of self.now.kept node) (front_of self.now.settled node) }
    {
        let place = node.place() as usize;
        has_more(&self.kept[place], &self.settled[place])
    }

    /// What a node settles once it settles its kept frontier, as it is now; `None` exactly where that has no more than is settled.
    /// It settles nothing (`settle_at`). The error is want of memory, now or earlier; it leaves no mark.
    pub fn grown_at(&self, flow: &Flow, node: NodeId) -> Result<Option<Front>, AllocError>
        requires progress { IsProgressOf flow.now self.now }
        requires there { node < length flow.now.nodes }
        ensures grown { IfOk result (IsGrownAt flow.now self.now.settled self.now.kept node) }
        ensures stays { IsTrue self.now.refused → IsErr result }
    {
        if self.refused {
            return Err(AllocError);
        }
        grown_at(flow, &self.settled, &self.kept, node)
    }

    /// This frontier of a node is settled from now on. It takes no memory.
    pub fn settle_at(&mut self, flow: &Flow, node: NodeId, front: Front)
        requires progress { IsProgressOf flow.now self.old }
        requires there { node < length self.old.settled }
        requires front { IsCanonical (bounds_of flow.now node) front }
        ensures progress { IsProgressOf flow.now self.new }
        ensures settled { self.new ≡ record self.old { settled = slice_set self.old.settled node front } }
    {
        let _ = flow;
        self.settled[node.place() as usize] = front;
    }

    /// Counts one batch more of a node, if that can be: whether it can is told. What is complete stays, and so what is kept. It takes no
    /// memory.
    pub fn count_batch(&mut self, node: NodeId) -> bool
        ensures progress { (flow : Dataflow) → IsProgressOf flow self.old → IsProgressOf flow self.new }
        ensures told { result ≡ can_have_more self.old.counts node }
        ensures counted { IsTrue result → CountsBatch node self.old self.new }
        ensures stays { result ≡ false → self.new ≡ self.old }
    {
        let can = has_room(&self.counts, node);
        if can {
            count_one(&mut self.counts, node);
        }
        can
    }

    /// Whether one batch more of a node can be counted: it did not inject all that it has, and there can be one more. It takes no memory.
    pub fn can_count_batch(&self, node: NodeId) -> bool
        ensures { result ≡ can_have_more self.now.counts node }
    {
        has_room(&self.counts, node)
    }

    /// These frontiers are settled from now on. It takes no memory.
    pub fn settle(&mut self, flow: &Flow, settled: Vec<Front>)
        requires progress { IsProgressOf flow.now self.old }
        requires one_each { length settled.items ≡ length flow.now.nodes }
        requires canonical { AreCanonical flow.now settled.items }
        ensures progress { IsProgressOf flow.now self.new }
        ensures settled { self.new ≡ record self.old { settled = settled.items } }
    {
        let _ = flow;
        self.settled = settled;
    }
}

/// Whether one batch more of a node can be counted.
fn has_room(counts: &Counts, node: NodeId) -> bool
    ensures { result ≡ can_have_more counts.now node }
{
    let place = node.place() as usize;
    let injected = counts.injected.get(place).copied().unwrap_or(0);
    let batches = counts.batches.get(place).copied().unwrap_or(0);
    injected < batches && batches < u64::MAX
}

/// Counts one batch more of a node.
fn count_one(counts: &mut Counts, node: NodeId)
    requires { can_have_more counts.old node ≡ true }
    ensures { HasBatchMore node counts.old counts.new }
{
    counts.batches[node.place() as usize] += 1;
}

/// Counts the delivery, after which the receiver waits. The error is want of memory.
fn deliver(
    flow: &Flow,
    counts: &mut Counts,
    work: &mut Worklist,
    edge: EdgeId,
    at: &Stamp,
    sent: &[(Stamp, Rec)],
) -> Result<(), AllocError>
    requires counts { AreCounts flow.now counts.old }
    requires there { edge < length flow.now.edges }
    ensures counts { IfOk result (λ u. DeliversOne flow.now edge at.now sent.now counts.old counts.new) }
    ensures work { IfOk result (λ u. IsEnlisted (receiver flow.now edge) work.old work.new) }
{
    events::delivered(flow, counts, edge, at, sent)?;
    work.put(flow.dst(edge))
}

/// Counts the notification, after which the node waits. The error is want of memory.
fn notify(
    flow: &Flow,
    counts: &mut Counts,
    work: &mut Worklist,
    node: NodeId,
    at: &Stamp,
    sent: &[(Stamp, Rec)],
) -> Result<(), AllocError>
    requires counts { AreCounts flow.now counts.old }
    requires there { node < length flow.now.nodes }
    ensures counts { IfOk result (λ u. IsNotified flow.now node at.now sent.now counts.old counts.new) }
    ensures work { IfOk result (λ u. IsEnlisted node work.old work.new) }
{
    events::notified(flow, counts, node, at, sent)?;
    work.put(node)
}

/// Counts the injection, after which the node waits. The error is want of memory.
fn inject(
    flow: &Flow,
    counts: &mut Counts,
    work: &mut Worklist,
    node: NodeId,
    sent: &[(Stamp, Rec)],
) -> Result<(), AllocError>
    requires counts { AreCounts flow.now counts.old }
    requires there { node < length flow.now.nodes }
    ensures counts { IfOk result (λ u. IsInjected flow.now node sent.now counts.old counts.new) }
    ensures work { IfOk result (λ u. IsEnlisted node work.old work.new) }
{
    events::injected(flow, counts, node, sent)?;
    work.put(node)
}
