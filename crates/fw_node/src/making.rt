//! How a table is made.
ghost use Rattle.std.specs.Prelude.{IfOk, ◌≡◌, ◌≤◌, ◌<◌, ◌^◌, ℕ, [], true, false, Bool, List, length};
ghost use Rattle.fw_time.specs.Stamp.{in_domain};
ghost use Rattle.fw_flow.specs.declared.event.Event.{Event};
ghost use Rattle.fw_flow.specs.Kind.{Kind};
ghost use Rattle.fw_flow.specs.declared.kind.Kind.TheVariants as kind;
ghost use Rattle.fw_flow.specs.Dataflow.{Dataflow, kind_of, bounds_of};
ghost use Rattle.fw_bag.specs.Arrivals.{AreInside};
ghost use Rattle.fw_node.specs.Arrived.{arrived};
ghost use Rattle.fw_node.specs.StateOf.{IsStateOf, totals_in};
ghost use Rattle.fw_node.specs.LoopTable.{IsLoopTable};
ghost use Rattle.fw_node.specs.NodeOf.{is_table_of};
ghost use Rattle.fw_node.specs.NodeTable.{IsNodeTable, dimension_of};
ghost use Rattle.fw_node.specs.Past.{Past, past_of};
ghost use Rattle.fw_node.specs.TimedTable.{IsTimedTable};
ghost use Rattle.fw_node.specs.Kinds.{is_timed, may_be_looped};

use crate::{AtTime, InLoop, Table};
use fw_bag::Rec;
use fw_flow::{Flow, Kind, NodeId};
use fw_frontier::{Entries, Logical, State};
use fw_keyed::{Distinct, Join, Sum};
use fw_numbered::{Regroup, Sequence};
use fw_stateless::{Concat, Enter, Feedback, Leave, Select};
use fw_time::{Nest, Time};
use fw_totals::{Ledger, Total};
use std::alloc::{AllocError, Global};

// How many numbers an edge has that numbers its messages.
const NUMBERS: u64 = 4_294_967_296;

// The table of a kind that may be anywhere, to which nothing came; of each other kind that of a concat.
fn timed<T: Logical>(alloc: Global, kind: Kind) -> AtTime<T>
    ensures { is_timed kind ≡ true → IsTimedTable T.cmp T.coords result kind [] }
{
    match kind {
        Kind::Select { selection, .. } => AtTime::Select(Select::new(selection)),
        Kind::Distinct { .. } => AtTime::Distinct(Distinct::new(alloc)),
        Kind::Join { .. } => AtTime::Join(Join::new(alloc)),
        Kind::Sum { .. } => AtTime::Sum(Sum::new(alloc)),
        _ => AtTime::Concat(Concat::new()),
    }
}

// The table of a kind at the times of a loop, to which nothing came.
fn looped<T: Logical>(alloc: Global, flow: &Flow, kind: Kind) -> InLoop<T>
    ensures { may_be_looped kind ≡ true → IsLoopTable ⟦<Nest<T> as Ord>⟧.cmp ⟦<Nest<T> as Time>⟧.coords flow.now result kind [] }
{
    match kind {
        Kind::Feedback(id) => InLoop::Feedback(Feedback::new(flow.max(id))),
        Kind::Leave(_) => InLoop::Leave(Leave::new()),
        _ => InLoop::Here(timed(alloc, kind)),
    }
}

// The table of a node that leads into a loop, from times of so many coordinates.
fn entering(dimension: usize) -> Table
    ensures table { (flow : Dataflow) (l : ℕ) (past : Past) → IsNodeTable flow result (kind.Enter l) past }
    ensures shape { 1 ≤ dimension → dimension ≤ 3 → dimension_of result ≡ dimension }
{
    match dimension {
        1 => Table::Enter(Enter::new()),
        2 => Table::Enter2(Enter::new()),
        _ => Table::Enter3(Enter::new()),
    }
}

// The table of a kind that may be in a loop, at times of so many coordinates, to which nothing came.
fn staying(alloc: Global, flow: &Flow, kind: Kind, dimension: usize) -> Table
    ensures table { may_be_looped kind ≡ true → (is_timed kind ≡ false → 2 ≤ dimension) → (ins : List ℕ) (settled : List ℕ → Bool)
        → IsNodeTable flow.now result kind (past_of ins settled []) }
    ensures shape { 1 ≤ dimension → dimension ≤ 4 → dimension_of result ≡ dimension }
{
    match dimension {
        0 | 1 => Table::Outside(timed(alloc, kind)),
        2 => Table::Loop(looped(alloc, flow, kind)),
        3 => Table::Loop2(looped(alloc, flow, kind)),
        _ => Table::Loop3(looped(alloc, flow, kind)),
    }
}

/// The totals of a state.
pub(crate) fn totals_of(state: &State) -> &[Rec]
    ensures { result.now ≡ totals_in state.now.entries }
{
    match &state.entries {
        Entries::Totals(totals) => totals.as_slice(),
    }
}

/// How many messages a sequence of the state sent: no more than there are numbers.
pub(crate) fn sent_of(state: &State) -> u64
    ensures sent { state.now.sent ≤ 2 ^ 32 → result ≡ state.now.sent }
    ensures few { result ≤ 2 ^ 32 }
{
    state.sent.min(NUMBERS)
}

impl Table {
    /// The table of a node to which nothing came, whatever is settled.
    #[tactic(auto, using(crate::proofs::MakingLaws::some_group, crate::proofs::MakingLaws::few_group))]
    pub(crate) fn new(alloc: Global, flow: &Flow, id: NodeId) -> Self
        ensures table { (ins : List ℕ) (settled : List ℕ → Bool) → IsNodeTable flow.now result (kind_of flow.now id) (past_of ins settled []) }
        ensures shape { dimension_of result ≡ length (bounds_of flow.now id).greatest }
    {
        let _nodes = flow.nodes();
        let dimension = flow.domain(id).greatest.len();
        match flow.kind(id) {
            Kind::Input | Kind::OutputEpoch | Kind::OutputNumber => Table::Idle,
            Kind::Enter(_) => entering(dimension),
            Kind::Total => Table::Total(Total::new(alloc)),
            Kind::Sequence => Table::Sequence(Sequence::new(alloc)),
            Kind::Ledger => Table::Ledger(Ledger::new(alloc)),
            Kind::Regroup(size) => Table::Regroup(Regroup::new(size as u32)),
            kind => staying(alloc, flow, kind, dimension),
        }
    }

    /// The table of a node that is restored from its state: all that came is settled.
    ///
    /// It fails where memory is refused.
    pub(crate) fn from_state(
        alloc: Global,
        flow: &Flow,
        id: NodeId,
        state: &State,
    ) -> Result<Self, AllocError>
        ensures table { (ins : List ℕ) (settled : List ℕ → Bool) (before : List Event)
            → AreInside settled (arrived ins before)
            → AreInside (in_domain (bounds_of flow.now id)) (arrived ins before)
            → IsStateOf (kind_of flow.now id) before state.now
            → IfOk result (λ table. IsNodeTable flow.now table (kind_of flow.now id) (past_of ins settled before)) }
        ensures shape { IfOk result (λ table. dimension_of table ≡ length (bounds_of flow.now id).greatest) }
        ensures of_kind { IfOk result (λ table. is_table_of flow.now (kind_of flow.now id) table ≡ true) }
    {
        match flow.kind(id) {
            Kind::Total => Ok(Table::Total(Total::from_state(alloc, totals_of(state))?)),
            Kind::Sequence => Ok(Table::Sequence(Sequence::from_state(alloc, sent_of(state)))),
            Kind::Ledger => Ok(Table::Ledger(Ledger::from_state(alloc, totals_of(state))?)),
            _ => Ok(Table::new(alloc, flow, id)),
        }
    }
}
