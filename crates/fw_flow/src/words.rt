//! A word of the builder for each kind, as the text of a flow has it.
ghost use Rattle.std.specs.Prelude.{Some, None};
ghost use Rattle.fw_flow.specs.declared.kind.Policy.TheVariants.{None as NoPolicy};
ghost use Rattle.fw_flow.specs.declared.raw.Declaration.TheVariants.{Node};
ghost use Rattle.fw_flow.specs.declared.kind.Kind.TheVariants.{Input, OutputEpoch, OutputNumber, Select, Concat, Distinct, Join, Sum, Enter, Feedback, Leave, Total, Sequence, Ledger, Regroup};
ghost use Rattle.fw_flow.specs.Builder.{Declares};

use crate::builder::{named, whole_node};
use crate::{BuildFault, FlowBuilder, Kind, Policy};
use fw_bag::Selection;

impl FlowBuilder {
    /// Declares an input.
    pub fn input(self, name: &str) -> Result<Self, BuildFault>
        ensures { Declares self (Node name.now Input NoPolicy None None) result }
    {
        self.node(name, Kind::Input, Policy::None)
    }

    /// Declares an output of epochs: it acknowledges each epoch.
    pub fn output_epoch(self, name: &str) -> Result<Self, BuildFault>
        ensures { Declares self (Node name.now OutputEpoch NoPolicy None None) result }
    {
        self.node(name, Kind::OutputEpoch, Policy::None)
    }

    /// Declares an output of numbers: it acknowledges each number of a numbered edge.
    pub fn output_number(self, name: &str) -> Result<Self, BuildFault>
        ensures { Declares self (Node name.now OutputNumber NoPolicy None None) result }
    {
        self.node(name, Kind::OutputNumber, Policy::None)
    }

    /// Declares a node outside loops that sends a rec on where a condition holds, perhaps after an assignment.
    pub fn select(
        self,
        name: &str,
        selection: Selection,
        policy: Policy,
    ) -> Result<Self, BuildFault>
        ensures { Declares self (Node name.now (Select selection None) policy None None) result }
    {
        let within = None;
        self.node(name, Kind::Select { selection, within }, policy)
    }

    /// Declares such a node within a loop, by the loop's name. The loop may be declared later.
    pub fn select_within(
        self,
        name: &str,
        selection: Selection,
        a_loop: &str,
        policy: Policy,
    ) -> Result<Self, BuildFault>
        ensures { Declares self (Node name.now (Select selection (Some a_loop.now)) policy None None) result }
    {
        let name = named(self.alloc, name)?;
        let within = Some(named(self.alloc, a_loop)?);
        let kind = Kind::Select { selection, within };
        self.declare(whole_node(name, kind, policy))
    }

    /// Declares a node outside loops that sends each rec on, of any of its edges.
    pub fn concat(self, name: &str, policy: Policy) -> Result<Self, BuildFault>
        ensures { Declares self (Node name.now (Concat None) policy None None) result }
    {
        let within = None;
        self.node(name, Kind::Concat { within }, policy)
    }

    /// Declares such a node within a loop, by the loop's name. The loop may be declared later.
    pub fn concat_within(self, name: &str, a_loop: &str, policy: Policy) -> Result<Self, BuildFault>
        ensures { Declares self (Node name.now (Concat (Some a_loop.now)) policy None None) result }
    {
        let name = named(self.alloc, name)?;
        let within = Some(named(self.alloc, a_loop)?);
        let kind = Kind::Concat { within };
        self.declare(whole_node(name, kind, policy))
    }

    /// Declares a node outside loops that sends on the first of equal recs at a time.
    pub fn distinct(self, name: &str, policy: Policy) -> Result<Self, BuildFault>
        ensures { Declares self (Node name.now (Distinct None) policy None None) result }
    {
        let within = None;
        self.node(name, Kind::Distinct { within }, policy)
    }

    /// Declares such a node within a loop, by the loop's name. The loop may be declared later.
    pub fn distinct_within(
        self,
        name: &str,
        a_loop: &str,
        policy: Policy,
    ) -> Result<Self, BuildFault>
        ensures { Declares self (Node name.now (Distinct (Some a_loop.now)) policy None None) result }
    {
        let name = named(self.alloc, name)?;
        let within = Some(named(self.alloc, a_loop)?);
        let kind = Kind::Distinct { within };
        self.declare(whole_node(name, kind, policy))
    }

    /// Declares a node outside loops that sends the sum of each pair of recs of its two edges with one key at a time.
    pub fn join(self, name: &str, policy: Policy) -> Result<Self, BuildFault>
        ensures { Declares self (Node name.now (Join None) policy None None) result }
    {
        let within = None;
        self.node(name, Kind::Join { within }, policy)
    }

    /// Declares such a node within a loop, by the loop's name. The loop may be declared later.
    pub fn join_within(self, name: &str, a_loop: &str, policy: Policy) -> Result<Self, BuildFault>
        ensures { Declares self (Node name.now (Join (Some a_loop.now)) policy None None) result }
    {
        let name = named(self.alloc, name)?;
        let within = Some(named(self.alloc, a_loop)?);
        let kind = Kind::Join { within };
        self.declare(whole_node(name, kind, policy))
    }

    /// Declares a node outside loops that sends, once a time is complete, the sum of the values of each of its keys.
    pub fn sum(self, name: &str, policy: Policy) -> Result<Self, BuildFault>
        ensures { Declares self (Node name.now (Sum None) policy None None) result }
    {
        let within = None;
        self.node(name, Kind::Sum { within }, policy)
    }

    /// Declares such a node within a loop, by the loop's name. The loop may be declared later.
    pub fn sum_within(self, name: &str, a_loop: &str, policy: Policy) -> Result<Self, BuildFault>
        ensures { Declares self (Node name.now (Sum (Some a_loop.now)) policy None None) result }
    {
        let name = named(self.alloc, name)?;
        let within = Some(named(self.alloc, a_loop)?);
        let kind = Kind::Sum { within };
        self.declare(whole_node(name, kind, policy))
    }

    /// Declares a node that leads into a loop, at counter 0. The loop may be declared later, as of the two next calls.
    pub fn enter(self, name: &str, a_loop: &str, policy: Policy) -> Result<Self, BuildFault>
        ensures { Declares self (Node name.now (Enter a_loop.now) policy None None) result }
    {
        let name = named(self.alloc, name)?;
        let kind = Kind::Enter(named(self.alloc, a_loop)?);
        self.declare(whole_node(name, kind, policy))
    }

    /// Declares a node that leads to the next counter of a loop.
    pub fn feedback(self, name: &str, a_loop: &str, policy: Policy) -> Result<Self, BuildFault>
        ensures { Declares self (Node name.now (Feedback a_loop.now) policy None None) result }
    {
        let name = named(self.alloc, name)?;
        let kind = Kind::Feedback(named(self.alloc, a_loop)?);
        self.declare(whole_node(name, kind, policy))
    }

    /// Declares a node that leads out of a loop.
    pub fn leave(self, name: &str, a_loop: &str, policy: Policy) -> Result<Self, BuildFault>
        ensures { Declares self (Node name.now (Leave a_loop.now) policy None None) result }
    {
        let name = named(self.alloc, name)?;
        let kind = Kind::Leave(named(self.alloc, a_loop)?);
        self.declare(whole_node(name, kind, policy))
    }

    /// Declares a node that sends, once an epoch is complete, for each of its keys the sum of the values up to it.
    pub fn total(self, name: &str, policy: Policy) -> Result<Self, BuildFault>
        ensures { Declares self (Node name.now Total policy None None) result }
    {
        self.node(name, Kind::Total, policy)
    }

    /// Declares a node that sends, once an epoch is complete, its recs in order at the next numbers.
    pub fn sequence(self, name: &str, policy: Policy) -> Result<Self, BuildFault>
        ensures { Declares self (Node name.now Sequence policy None None) result }
    {
        self.node(name, Kind::Sequence, policy)
    }

    /// Declares a node that sends for each rec the running total of its key.
    pub fn ledger(self, name: &str, policy: Policy) -> Result<Self, BuildFault>
        ensures { Declares self (Node name.now Ledger policy None None) result }
    {
        self.node(name, Kind::Ledger, policy)
    }

    /// Declares a node that sends the recs of so many numbers at one epoch. A flow is refused where that is 0 or past 2^32 - 1.
    pub fn regroup(self, name: &str, size: u64, policy: Policy) -> Result<Self, BuildFault>
        ensures { Declares self (Node name.now (Regroup size) policy None None) result }
    {
        self.node(name, Kind::Regroup(size), policy)
    }
}
