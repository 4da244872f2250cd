//! A node's table at the depth of its domain, with stamps at its border.
ghost use Rattle.std.specs.Prelude.{◌≡◌, ◌&&◌, not, ℕ, Bool, List, [], ◌∷◌, true, false, length, IfOk, OnOk, OnErr};
ghost use Rattle.std.specs.List.{AllByRecursion};
ghost use Rattle.fw_time.specs.declared.stamp.Bounds.{Bounds as Domain};
ghost use Rattle.fw_time.specs.Stamp.{in_domain};
ghost use Rattle.fw_frontier.specs.Below.{is_below};
ghost use Rattle.fw_frontier.specs.Front.{inside};
ghost use Rattle.fw_flow.specs.declared.event.Event.{Event};
ghost use Rattle.fw_flow.specs.Kind.{Kind};
ghost use Rattle.fw_flow.specs.Dataflow.{Dataflow, send_stamp_of_kind, is_notified_kind};
ghost use Rattle.fw_bag.specs.Arrivals.{arrival, recs_inside, AreInside};
ghost use Rattle.fw_frontier.specs.Frontier.{Within};
ghost use Rattle.fw_table.specs.Sent.{sent_if_at};
ghost use Rattle.fw_model.specs.Filtering.{events_inside};
ghost use Rattle.fw_node.specs.Answers.{recs_for, sent_list};
ghost use Rattle.fw_node.specs.Arrived.{arrived};
ghost use Rattle.fw_node.specs.NodeOf.{is_table_of, AreSentAt};
ghost use Rattle.fw_node.specs.NodeTable.{IsNodeTable, dimension_of};
ghost use Rattle.fw_node.specs.Past.{Past, IsSumOfTaken, IsToldWhereNotified, notice_list, past_of, totals_kept, totals_changed, with_arrival, with_notice, with_settled};
ghost use Rattle.fw_node.specs.Sends.{sends_list};
ghost use Rattle.fw_node.specs.StateOf.{IsPastSince, IsStateSince};
ghost use Rattle.fw_node.specs.TimedTable.{IsSideOf};

use crate::making::{sent_of, totals_of};
use crate::{AtTime, InLoop, Sends};
use fw_bag::{Rec, Recs};
use fw_frontier::{Below, Front, Frontier, State};
use fw_numbered::{Regroup, Sequence};
use fw_stateless::Enter;
use fw_table::{Sent, empty_state};
use fw_time::{Bounds, Epoch, Nest, SeqNo, Stamp, Time};
use fw_totals::{Ledger, Total};
use std::alloc::{AllocError, Global};

/// The table of a node, by the times of its domain.
#[derive(Drop)]
pub(crate) enum Table {
    /// Of an input or an output, which keeps nothing.
    Idle,
    /// Of a kind that may be anywhere, outside of all loops.
    Outside(AtTime<Epoch>),
    /// In a loop.
    Loop(InLoop<Epoch>),
    /// In a loop within one.
    Loop2(InLoop<Nest<Epoch>>),
    /// In a loop within two.
    Loop3(InLoop<Nest<Nest<Epoch>>>),
    /// Of a node that leads into a loop.
    Enter(Enter<Epoch>),
    /// Of a node that leads into a loop within one.
    Enter2(Enter<Nest<Epoch>>),
    /// Of a node that leads into a loop within two.
    Enter3(Enter<Nest<Nest<Epoch>>>),
    /// Of a total.
    Total(Total),
    /// Of a sequence.
    Sequence(Sequence),
    /// Of a ledger.
    Ledger(Ledger),
    /// Of a node that regroups numbers.
    Regroup(Regroup),
}

// What is inside of epochs or numbers.
fn epochs_inside(alloc: Global, f: &Front, bounds: &Bounds) -> Result<Below, AllocError>
    requires shape { length bounds.now.greatest ≡ 1 }
    requires in_domain { AllByRecursion (λ o. in_domain bounds.now o ≡ true) f.now }
    ensures { IfOk result (λ below. (n : ℕ) → inside f.now (n ∷ []) ≡ is_below below.until n) }
{
    <Below as Frontier<Epoch>>::from_front(alloc, f, bounds)
}

impl Table {
    /// Takes in a rec that came on an in-edge, by its place, and gives what it makes the node send.
    ///
    /// It fails where memory is refused; then the table is that of what came before.
    pub(crate) fn deliver(
        &mut self,
        side: usize,
        at: &Stamp,
        rec: Rec,
    ) -> Result<Sent<Stamp>, AllocError>
        requires { length at.now ≡ dimension_of self.old }
        ensures ok { (flow : Dataflow) (kind : Kind) (past : Past) → IsNodeTable flow self.old kind past → IsSideOf kind side
            → past.settled at.now ≡ false → (is_notified_kind kind ≡ true → past.told at.now ≡ false)
            → OnOk result (IsNodeTable flow self.new kind (with_arrival (arrival side at.now rec) past)) }
        ensures sent { (flow : Dataflow) (kind : Kind) (past : Past) → IsNodeTable flow self.old kind past → IsSideOf kind side
            → past.settled at.now ≡ false
            → IfOk result (λ sent. sent_list sent
            ≡ sent_if_at (send_stamp_of_kind flow kind at.now) (recs_for kind past.came (arrival side at.now rec))) }
        ensures err { (flow : Dataflow) (kind : Kind) (past : Past) → IsNodeTable flow self.old kind past
            → OnErr result (IsNodeTable flow self.new kind past) }
        ensures shape { dimension_of self.new ≡ dimension_of self.old }
        ensures of_kind { (flow : Dataflow) (kind : Kind) → is_table_of flow kind self.new ≡ is_table_of flow kind self.old }
        ensures at { (flow : Dataflow) (kind : Kind) → is_table_of flow kind self.old ≡ true
            → IfOk result (λ sent. AreSentAt flow kind at.now (sent_list sent)) }
    {
        match self {
            Table::Idle => Ok(Sent::of(at.copy(), None)),
            Table::Outside(table) => table.deliver(side, at, rec),
            Table::Loop(table) => table.deliver(side, at, rec),
            Table::Loop2(table) => table.deliver(side, at, rec),
            Table::Loop3(table) => table.deliver(side, at, rec),
            Table::Enter(enter) => Ok(enter.on_message(Epoch::from_coords(at), rec).at_stamp()),
            Table::Enter2(enter) => Ok(enter.on_message(Nest::from_coords(at), rec).at_stamp()),
            Table::Enter3(enter) => Ok(enter.on_message(Nest::from_coords(at), rec).at_stamp()),
            Table::Total(table) => Ok(
                table
                    .on_message(side, Epoch::from_coords(at), rec)?
                    .at_stamp(),
            ),
            Table::Sequence(table) => {
                table.on_message(side, Epoch::from_coords(at), rec)?;
                Ok(Sent::of(at.copy(), None))
            }
            Table::Ledger(table) => {
                let sent = table.on_message(side, SeqNo::from_coords(at), rec)?;
                Ok(Sent {
                    at: at.copy(),
                    recs: sent.recs,
                })
            }
            Table::Regroup(table) => Ok(table.on_message(SeqNo::from_coords(at), rec).at_stamp()),
        }
    }

    /// Gives what a notification of a stamp makes the node send, in ascending order.
    ///
    /// It fails where memory is refused; then the table is as it was.
    pub(crate) fn notify(&mut self, at: &Stamp) -> Result<Sends, AllocError>
        requires { length at.now ≡ dimension_of self.old }
        ensures ok { (flow : Dataflow) (kind : Kind) (past : Past) → IsNodeTable flow self.old kind past
            → past.settled at.now ≡ false → past.told at.now ≡ false
            → OnOk result (IsNodeTable flow self.new kind (with_notice at.now past)) }
        ensures sent { (flow : Dataflow) (kind : Kind) (past : Past) → IsNodeTable flow self.old kind past
            → past.settled at.now ≡ false → past.told at.now ≡ false → IsSumOfTaken kind past at.now
            → IfOk result (λ sent. sends_list sent ≡ notice_list kind past at.now) }
        ensures err { (flow : Dataflow) (kind : Kind) (past : Past) → IsNodeTable flow self.old kind past
            → OnErr result (IsNodeTable flow self.new kind past) }
        ensures shape { dimension_of self.new ≡ dimension_of self.old }
        ensures of_kind { (flow : Dataflow) (kind : Kind) → is_table_of flow kind self.new ≡ is_table_of flow kind self.old }
        ensures at { (flow : Dataflow) (kind : Kind) → is_table_of flow kind self.old ≡ true
            → IfOk result (λ sent. AreSentAt flow kind at.now (sends_list sent)) }
    {
        match self {
            Table::Outside(table) => Ok(Sends::AtOneStamp(table.notify(at)?)),
            Table::Loop(table) => Ok(Sends::AtOneStamp(table.notify(at)?)),
            Table::Loop2(table) => Ok(Sends::AtOneStamp(table.notify(at)?)),
            Table::Loop3(table) => Ok(Sends::AtOneStamp(table.notify(at)?)),
            Table::Total(table) => {
                let sent = table.on_notify(Epoch::from_coords(at))?;
                Ok(Sends::AtOneStamp(Sent {
                    at: at.copy(),
                    recs: sent.recs,
                }))
            }
            Table::Sequence(table) => Ok(Sends::Numbered(table.on_notify(Epoch::from_coords(at))?)),
            Table::Idle
            | Table::Enter(_)
            | Table::Enter2(_)
            | Table::Enter3(_)
            | Table::Ledger(_)
            | Table::Regroup(_) => { Ok(Sends::AtOneStamp(Sent::of(at.copy(), None))) }
        }
    }

    /// Settles what came at stamps inside, which holds what was settled. The bounds are those of the stamps.
    ///
    /// It fails where memory is refused; then as much is settled as before.
    pub(crate) fn settle(
        &mut self,
        alloc: Global,
        f: &Front,
        bounds: &Bounds,
    ) -> Result<(), AllocError>
        requires shape { length bounds.now.greatest ≡ dimension_of self.old }
        requires in_domain { AllByRecursion (λ o. in_domain bounds.now o ≡ true) f.now }
        ensures ok { (flow : Dataflow) (kind : Kind) (past : Past) → IsNodeTable flow self.old kind past
            → Within past.settled (inside f.now) → IsToldWhereNotified kind past (inside f.now)
            → OnOk result (IsNodeTable flow self.new kind (with_settled (inside f.now) past)) }
        ensures err { (flow : Dataflow) (kind : Kind) (past : Past) → IsNodeTable flow self.old kind past
            → OnErr result (IsNodeTable flow self.new kind past) }
        ensures shape { dimension_of self.new ≡ dimension_of self.old }
        ensures of_kind { (flow : Dataflow) (kind : Kind) → is_table_of flow kind self.new ≡ is_table_of flow kind self.old }
    {
        match self {
            Table::Outside(table) => table.settle(alloc, f, bounds),
            Table::Loop(table) => table.settle(alloc, f, bounds),
            Table::Loop2(table) => table.settle(alloc, f, bounds),
            Table::Loop3(table) => table.settle(alloc, f, bounds),
            Table::Total(table) => table.settle(&epochs_inside(alloc, f, bounds)?),
            Table::Sequence(table) => {
                table.settle(&epochs_inside(alloc, f, bounds)?);
                Ok(())
            }
            Table::Ledger(table) => table.settle(&epochs_inside(alloc, f, bounds)?),
            Table::Idle
            | Table::Enter(_)
            | Table::Enter2(_)
            | Table::Enter3(_)
            | Table::Regroup(_) => Ok(()),
        }
    }

    /// The totals of what came at stamps inside, which holds what is settled, in ascending order of the keys; none of a
    /// kind that keeps no totals. The bounds are those of the stamps.
    ///
    /// It fails where memory is refused.
    pub(crate) fn totals_at(
        &self,
        alloc: Global,
        f: &Front,
        bounds: &Bounds,
    ) -> Result<Recs, AllocError>
        requires shape { length bounds.now.greatest ≡ dimension_of self.now }
        requires in_domain { AllByRecursion (λ o. in_domain bounds.now o ≡ true) f.now }
        ensures { (flow : Dataflow) (kind : Kind) (past : Past) → IsNodeTable flow self.now kind past
            → Within past.settled (inside f.now)
            → IfOk result (λ totals. totals ≡ totals_kept kind (recs_inside (inside f.now) past.came)) }
    {
        match self {
            Table::Total(table) => table.totals_at(&epochs_inside(alloc, f, bounds)?),
            Table::Ledger(table) => table.totals_at(&epochs_inside(alloc, f, bounds)?),
            _ => Ok(Recs::of(Vec::new(alloc))),
        }
    }

    /// The totals of what came at stamps inside, which holds what is settled, of the keys alone to which something came
    /// outside what is settled; in ascending order of the keys, and none of a kind that keeps no totals. The bounds are those
    /// of the stamps.
    ///
    /// It fails where memory is refused.
    pub(crate) fn totals_since(
        &self,
        alloc: Global,
        f: &Front,
        bounds: &Bounds,
    ) -> Result<Recs, AllocError>
        requires shape { length bounds.now.greatest ≡ dimension_of self.now }
        requires in_domain { AllByRecursion (λ o. in_domain bounds.now o ≡ true) f.now }
        ensures { (flow : Dataflow) (kind : Kind) (past : Past) → IsNodeTable flow self.now kind past
            → Within past.settled (inside f.now)
            → IfOk result (λ totals. totals ≡ totals_changed kind
            (recs_inside (λ s. inside f.now s && not (past.settled s)) past.came) (recs_inside (inside f.now) past.came)) }
    {
        match self {
            Table::Total(table) => table.totals_since(&epochs_inside(alloc, f, bounds)?),
            Table::Ledger(table) => table.totals_since(&epochs_inside(alloc, f, bounds)?),
            _ => Ok(Recs::of(Vec::new(alloc))),
        }
    }

    /// The state of what came at stamps inside f, as it changed since what came inside g. What is settled lies inside g, and g
    /// inside f. The bounds are those of the stamps.
    ///
    /// It fails where memory is refused.
    pub(crate) fn state_since(
        &self,
        alloc: Global,
        g: &Front,
        f: &Front,
        bounds: &Bounds,
    ) -> Result<State, AllocError>
        requires shape { length bounds.now.greatest ≡ dimension_of self.now }
        requires earlier { AllByRecursion (λ o. in_domain bounds.now o ≡ true) g.now }
        requires later { AllByRecursion (λ o. in_domain bounds.now o ≡ true) f.now }
        ensures state { (flow : Dataflow) (kind : Kind) (past : Past) → IsNodeTable flow self.now kind past
            → Within past.settled (inside g.now) → Within (inside g.now) (inside f.now)
            → IfOk result (IsPastSince kind (inside g.now) (inside f.now) past) }
        ensures no_counts { IfOk result (λ state. state.sends ≡ []) }
    {
        match self {
            Table::Total(table) => {
                let since = epochs_inside(alloc, g, bounds)?;
                let until = epochs_inside(alloc, f, bounds)?;
                table.state_since(&since, &until)
            }
            Table::Ledger(table) => {
                let since = epochs_inside(alloc, g, bounds)?;
                let until = epochs_inside(alloc, f, bounds)?;
                table.state_since(&since, &until)
            }
            Table::Sequence(table) => {
                let since = epochs_inside(alloc, g, bounds)?;
                let until = epochs_inside(alloc, f, bounds)?;
                Ok(table.state_since(&since, &until))
            }
            _ => Ok(empty_state(alloc)),
        }
    }

    /// Takes in what changed since all that came was settled: then all that came by then is settled.
    ///
    /// It fails where memory is refused.
    pub(crate) fn take_changes(&mut self, alloc: Global, state: &State) -> Result<(), AllocError>
        ensures ok { (flow : Dataflow) (kind : Kind) (ins : List ℕ) (bounds : Domain) (settled after : List ℕ → Bool) (before : List Event)
            → length bounds.greatest ≡ dimension_of self.old → AreInside (in_domain bounds) (arrived ins before)
            → AreInside after (arrived ins before)
            → IsNodeTable flow self.old kind (past_of ins settled (events_inside settled before))
            → IsStateSince kind settled before state.now
            → OnOk result (IsNodeTable flow self.new kind (past_of ins after before)) }
        ensures shape { dimension_of self.new ≡ dimension_of self.old }
        ensures of_kind { (flow : Dataflow) (kind : Kind) → is_table_of flow kind self.new ≡ is_table_of flow kind self.old }
    {
        match self {
            Table::Total(table) => table.take_changes(totals_of(state)),
            Table::Ledger(table) => table.take_changes(totals_of(state)),
            Table::Sequence(table) => {
                *table = Sequence::from_state(alloc, sent_of(state));
                Ok(())
            }
            _ => Ok(()),
        }
    }
}
