//! The kinds that may be at the times of any depth of loops.
ghost use Rattle.std.specs.Prelude.{◌≡◌, ◌≤◌, List, ◌∷◌, true, not, length, IfOk, OnOk, OnErr};
ghost use Rattle.std.specs.List.{AllByRecursion};
ghost use Rattle.fw_time.specs.Stamp.{in_domain};
ghost use Rattle.fw_frontier.specs.Front.{inside};
ghost use Rattle.fw_bag.specs.Arrivals.{Arrival, arrivals_inside, arrival};
ghost use Rattle.fw_bag.specs.Keyed.{sorted_recs};
ghost use Rattle.fw_flow.specs.Kind.{Kind};
ghost use Rattle.fw_node.specs.Answers.{recs_for, recs_at_notice};
ghost use Rattle.fw_node.specs.TimedTable.{IsTimedTable, IsSideOf};

use fw_bag::Rec;
use fw_frontier::{Front, Frontier, Logical};
use fw_keyed::{Distinct, Join, Sum};
use fw_stateless::{Concat, Select};
use fw_table::Sent;
use fw_time::{Bounds, Stamp, Time};
use std::alloc::{AllocError, Global};

/// The table of a kind that may be at the times of any depth.
#[derive(Drop)]
pub(crate) enum AtTime<T: Ord> {
    /// Of a select.
    Select(Select<T>),
    /// Of a concat.
    Concat(Concat<T>),
    /// Of a distinct.
    Distinct(Distinct<T>),
    /// Of a join.
    Join(Join<T>),
    /// Of a sum.
    Sum(Sum<T>),
}

impl<T: Logical> AtTime<T> {
    /// Takes in a rec that came on an in-edge, by its place, and gives what it makes the node send.
    ///
    /// It fails where memory is refused; then the table is that of what came before.
    pub(crate) fn deliver(
        &mut self,
        side: usize,
        at: &Stamp,
        rec: Rec,
    ) -> Result<Sent<Stamp>, AllocError>
        requires few { T.dimension ≤ 4 }
        requires shape { length at.now ≡ T.dimension }
        ensures ok { (kind : Kind) (came : List Arrival) → IsTimedTable T.cmp T.coords self.old kind came
            → IsSideOf kind side
            → OnOk result (IsTimedTable T.cmp T.coords self.new kind (arrival side at.now rec ∷ came)) }
        ensures sent { (kind : Kind) (came : List Arrival) → IsTimedTable T.cmp T.coords self.old kind came
            → IsSideOf kind side
            → IfOk result (λ sent. sent ≡ record { at = at.now; recs = recs_for kind came (arrival side at.now rec) }) }
        ensures at { IfOk result (λ sent. sent.at ≡ at.now) }
        ensures err { (kind : Kind) (came : List Arrival) → IsTimedTable T.cmp T.coords self.old kind came
            → OnErr result (IsTimedTable T.cmp T.coords self.new kind came) }
    {
        let t = T::from_coords(at);
        let sent = match self {
            AtTime::Select(table) => table.on_message(t, rec),
            AtTime::Concat(table) => table.on_message(t, rec),
            AtTime::Distinct(table) => table.on_message(side, t, rec)?,
            AtTime::Join(table) => table.on_message(side, t, rec)?,
            AtTime::Sum(table) => table.on_message(side, t, rec)?,
        };
        Ok(Sent {
            at: at.copy(),
            recs: sent.recs,
        })
    }

    /// Gives what a notification makes the node send, in ascending order. The table stays.
    ///
    /// It fails where memory is refused.
    pub(crate) fn notify(&mut self, at: &Stamp) -> Result<Sent<Stamp>, AllocError>
        requires few { T.dimension ≤ 4 }
        requires shape { length at.now ≡ T.dimension }
        ensures stands { (kind : Kind) (came : List Arrival) → IsTimedTable T.cmp T.coords self.old kind came
            → IsTimedTable T.cmp T.coords self.new kind came }
        ensures sent { (kind : Kind) (came : List Arrival) → IsTimedTable T.cmp T.coords self.old kind came
            → IfOk result (λ sent. sent ≡ record { at = at.now; recs = sorted_recs (recs_at_notice kind came at.now) }) }
        ensures at { IfOk result (λ sent. sent.at ≡ at.now) }
    {
        match self {
            AtTime::Sum(table) => {
                let sent = table.on_notify(T::from_coords(at))?;
                Ok(Sent {
                    at: at.copy(),
                    recs: sent.recs,
                })
            }
            AtTime::Select(_) | AtTime::Concat(_) | AtTime::Distinct(_) | AtTime::Join(_) => {
                Ok(Sent::of(at.copy(), None))
            }
        }
    }

    /// Forgets what came at stamps inside, to which nothing comes any more. The bounds are those of the stamps.
    ///
    /// It fails where memory is refused; then the table is as it was.
    pub(crate) fn settle(
        &mut self,
        alloc: Global,
        f: &Front,
        bounds: &Bounds,
    ) -> Result<(), AllocError>
        requires shape { length bounds.now.greatest ≡ T.dimension }
        requires in_domain { AllByRecursion (λ o. in_domain bounds.now o ≡ true) f.now }
        ensures ok { (kind : Kind) (came : List Arrival) → IsTimedTable T.cmp T.coords self.old kind came
            → OnOk result (IsTimedTable T.cmp T.coords self.new kind (arrivals_inside (λ s. not (inside f.now s)) came)) }
        ensures err { (kind : Kind) (came : List Arrival) → IsTimedTable T.cmp T.coords self.old kind came
            → OnErr result (IsTimedTable T.cmp T.coords self.new kind came) }
    {
        match self {
            AtTime::Select(_) | AtTime::Concat(_) => {}
            AtTime::Distinct(table) => table.settle(&T::Frontier::from_front(alloc, f, bounds)?),
            AtTime::Join(table) => table.settle(&T::Frontier::from_front(alloc, f, bounds)?),
            AtTime::Sum(table) => table.settle(&T::Frontier::from_front(alloc, f, bounds)?),
        }
        Ok(())
    }
}
