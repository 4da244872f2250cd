//! The kinds that are at the times of a loop.
ghost use Rattle.std.specs.Prelude.{◌≡◌, ◌≤◌, ◌+◌, List, ◌∷◌, true, not, length, IfOk, OnOk, OnErr};
ghost use Rattle.std.specs.List.{AllByRecursion};
ghost use Rattle.fw_time.specs.Stamp.{in_domain};
ghost use Rattle.fw_frontier.specs.Front.{inside};
ghost use Rattle.fw_bag.specs.Arrivals.{Arrival, arrivals_inside, arrival};
ghost use Rattle.fw_bag.specs.Keyed.{sorted_recs};
ghost use Rattle.fw_flow.specs.Kind.{Kind};
ghost use Rattle.fw_flow.specs.Dataflow.{Dataflow, send_stamp_of_kind};
ghost use Rattle.fw_table.specs.Sent.{sent_if_at};
ghost use Rattle.fw_node.specs.Answers.{recs_for, recs_at_notice, sent_list};
ghost use Rattle.fw_node.specs.TimedTable.{IsSideOf};
ghost use Rattle.fw_node.specs.LoopTable.{IsLoopTable};
ghost use Rattle.fw_node.specs.NodeOf.{is_loop_table_of, AreSentAt};

use crate::AtTime;
use fw_bag::Rec;
use fw_frontier::{Front, Logical};
use fw_stateless::{Feedback, Leave};
use fw_table::Sent;
use fw_time::{Bounds, Nest, Stamp, Time};
use std::alloc::{AllocError, Global};

/// The table of a kind that is at the times of a loop within the times `T`.
#[derive(Drop)]
pub(crate) enum InLoop<T: Ord> {
    /// Of a kind that may be anywhere.
    Here(AtTime<Nest<T>>),
    /// Of a feedback.
    Feedback(Feedback<T>),
    /// Of a leave.
    Leave(Leave<T>),
}

impl<T: Logical> InLoop<T> {
    /// Takes in a rec that came on an in-edge, by its place, and gives what it makes the node send.
    ///
    /// It fails where memory is refused; then the table is that of what came before.
    pub(crate) fn deliver(
        &mut self,
        side: usize,
        at: &Stamp,
        rec: Rec,
    ) -> Result<Sent<Stamp>, AllocError>
        requires few { T.dimension + 1 ≤ 4 }
        requires shape { length at.now ≡ T.dimension + 1 }
        ensures ok { (flow : Dataflow) (kind : Kind) (came : List Arrival)
            → IsLoopTable ⟦<Nest<T> as Ord>⟧.cmp ⟦<Nest<T> as Time>⟧.coords flow self.old kind came → IsSideOf kind side
            → OnOk result (IsLoopTable ⟦<Nest<T> as Ord>⟧.cmp ⟦<Nest<T> as Time>⟧.coords flow self.new kind (arrival side at.now rec ∷ came)) }
        ensures sent { (flow : Dataflow) (kind : Kind) (came : List Arrival)
            → IsLoopTable ⟦<Nest<T> as Ord>⟧.cmp ⟦<Nest<T> as Time>⟧.coords flow self.old kind came → IsSideOf kind side
            → IfOk result (λ sent. sent_list sent
            ≡ sent_if_at (send_stamp_of_kind flow kind at.now) (recs_for kind came (arrival side at.now rec))) }
        ensures err { (flow : Dataflow) (kind : Kind) (came : List Arrival)
            → IsLoopTable ⟦<Nest<T> as Ord>⟧.cmp ⟦<Nest<T> as Time>⟧.coords flow self.old kind came
            → OnErr result (IsLoopTable ⟦<Nest<T> as Ord>⟧.cmp ⟦<Nest<T> as Time>⟧.coords flow self.new kind came) }
        ensures of_kind { (flow : Dataflow) (kind : Kind) → is_loop_table_of flow kind self.new ≡ is_loop_table_of flow kind self.old }
        ensures at { (flow : Dataflow) (kind : Kind) → is_loop_table_of flow kind self.old ≡ true
            → IfOk result (λ sent. AreSentAt flow kind at.now (sent_list sent)) }
    {
        match self {
            InLoop::Here(table) => table.deliver(side, at, rec),
            InLoop::Feedback(feedback) => Ok(
                feedback.on_message(Nest::from_coords(at), rec).at_stamp(),
            ),
            InLoop::Leave(leave) => Ok(leave.on_message(Nest::from_coords(at), rec).at_stamp()),
        }
    }

    /// Gives what a notification makes the node send, in ascending order. The table stays.
    ///
    /// It fails where memory is refused.
    pub(crate) fn notify(&mut self, at: &Stamp) -> Result<Sent<Stamp>, AllocError>
        requires few { T.dimension + 1 ≤ 4 }
        requires shape { length at.now ≡ T.dimension + 1 }
        ensures stands { (flow : Dataflow) (kind : Kind) (came : List Arrival)
            → IsLoopTable ⟦<Nest<T> as Ord>⟧.cmp ⟦<Nest<T> as Time>⟧.coords flow self.old kind came
            → IsLoopTable ⟦<Nest<T> as Ord>⟧.cmp ⟦<Nest<T> as Time>⟧.coords flow self.new kind came }
        ensures sent { (flow : Dataflow) (kind : Kind) (came : List Arrival)
            → IsLoopTable ⟦<Nest<T> as Ord>⟧.cmp ⟦<Nest<T> as Time>⟧.coords flow self.old kind came
            → IfOk result (λ sent. sent ≡ record { at = at.now; recs = sorted_recs (recs_at_notice kind came at.now) }) }
        ensures of_kind { (flow : Dataflow) (kind : Kind) → is_loop_table_of flow kind self.new ≡ is_loop_table_of flow kind self.old }
        ensures at { (flow : Dataflow) (kind : Kind) → is_loop_table_of flow kind self.old ≡ true
            → IfOk result (λ sent. AreSentAt flow kind at.now (sent_list sent)) }
    {
        match self {
            InLoop::Here(table) => table.notify(at),
            InLoop::Feedback(_) | InLoop::Leave(_) => Ok(Sent::of(at.copy(), None)),
        }
    }

    /// Forgets what came at stamps inside, to which nothing comes any more. The bounds are those of the stamps.
    ///
    /// It fails where memory is refused; then the table is as it was.
    pub(crate) fn settle(
        &mut self,
        alloc: Global,
        f: &Front,
        bounds: &Bounds,
    ) -> Result<(), AllocError>
        requires shape { length bounds.now.greatest ≡ T.dimension + 1 }
        requires in_domain { AllByRecursion (λ o. in_domain bounds.now o ≡ true) f.now }
        ensures ok { (flow : Dataflow) (kind : Kind) (came : List Arrival)
            → IsLoopTable ⟦<Nest<T> as Ord>⟧.cmp ⟦<Nest<T> as Time>⟧.coords flow self.old kind came
            → OnOk result (IsLoopTable ⟦<Nest<T> as Ord>⟧.cmp ⟦<Nest<T> as Time>⟧.coords flow self.new kind (arrivals_inside (λ s. not (inside f.now s)) came)) }
        ensures err { (flow : Dataflow) (kind : Kind) (came : List Arrival)
            → IsLoopTable ⟦<Nest<T> as Ord>⟧.cmp ⟦<Nest<T> as Time>⟧.coords flow self.old kind came
            → OnErr result (IsLoopTable ⟦<Nest<T> as Ord>⟧.cmp ⟦<Nest<T> as Time>⟧.coords flow self.new kind came) }
        ensures of_kind { (flow : Dataflow) (kind : Kind) → is_loop_table_of flow kind self.new ≡ is_loop_table_of flow kind self.old }
    {
        match self {
            InLoop::Here(table) => table.settle(alloc, f, bounds),
            InLoop::Feedback(_) | InLoop::Leave(_) => Ok(()),
        }
    }
}
