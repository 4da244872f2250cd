//! What a node does, at which times, and how it is restored.
ghost use Rattle.std.specs.Prelude.{◌≡◌, IfOk, IfSome};
ghost use Rattle.std.specs.Option.{option_copied};
ghost use Rattle.fw_flow.specs.Dataflow.{Dataflow, domain_within, domain_of_kind, out_domain_of_kind, is_input_kind, is_output_kind, is_notified_kind, is_sequence_kind, declared_parent, ends_within, parent_of};
ghost use Rattle.fw_flow.specs.Kind.{loop_of_kind, kind_map};
ghost use Rattle.fw_flow.specs.KindText.{kind_text, policy_text};
ghost use Rattle.fw_flow.specs.WellFormed.{is_feedback_kind};

use crate::name::copied_if_any;
use crate::{Loop, LoopId, Name};
use fw_bag::Selection;
use std::alloc::{AllocError, Global};
use std::fmt;

/// A domain of times, by its word.
#[derive(Clone, Copy, Debug, PartialEq, Eq)]
pub enum Domain {
    /// The batches of the inputs, from 0.
    Epoch,
    /// The places of recs in a numbered edge, from 0.
    Number,
    /// The stamps of the loop's parent domain, each with a counter from 0 to the loop's greatest.
    Loop(LoopId),
}

/// What a node does, with loops of the type `L`: by their places, as in a flow, or by their names (`RawKind`). `within` is the
/// loop that a node stands in; without one it stands outside loops.
#[derive(Clone, Copy, Debug, PartialEq, Eq, Drop)]
pub enum Kind<L = LoopId> {
    /// Injects its batches.
    Input,
    /// Keeps the recs of each epoch, and acknowledges them.
    OutputEpoch,
    /// Keeps the rec of each number, and acknowledges it.
    OutputNumber,
    /// Sends a rec on where a condition holds, perhaps after an assignment; outside loops or within one.
    Select {
        selection: Selection,
        within: Option<L>,
    },
    /// Sends each rec on, of any of its edges.
    Concat {
        within: Option<L>,
    },
    /// Sends on the first of equal recs at a time.
    Distinct {
        within: Option<L>,
    },
    /// Sends the sum of each pair of recs of its two edges with one key at a time.
    Join {
        within: Option<L>,
    },
    /// Once a time is complete, sends the sum of the values of each of its keys.
    Sum {
        within: Option<L>,
    },
    /// Leads from the loop's parent domain into the loop, at counter 0.
    Enter(L),
    /// Leads to the next counter of the loop.
    Feedback(L),
    /// Leads out of the loop.
    Leave(L),
    /// Once an epoch is complete, sends for each of its keys the sum of the values up to it.
    Total,
    /// Once an epoch is complete, sends its recs in order at the next numbers.
    Sequence,
    /// Sends for each rec the running total of its key.
    Ledger,
    /// Sends the recs of so many numbers at one epoch: in a well-formed flow from 1 to 2^32 - 1.
    Regroup(u64),
}

/// What a node does, as it is declared: with loops by their names.
pub type RawKind = Kind<Name>;

impl<L> Kind<L> {
    /// The words for the kind in the line of a node, as `output epoch` and `enter`. The selection, loop or number that stands
    /// behind them there is left out.
    pub fn as_str(&self) -> &'static str
        ensures { result.now ≡ kind_text self.now }
    {
        match self {
            Kind::Input => "input",
            Kind::OutputEpoch => "output epoch",
            Kind::OutputNumber => "output number",
            Kind::Select { .. } => "select",
            Kind::Concat { .. } => "concat",
            Kind::Distinct { .. } => "distinct",
            Kind::Join { .. } => "join",
            Kind::Sum { .. } => "sum",
            Kind::Enter(_) => "enter",
            Kind::Feedback(_) => "feedback",
            Kind::Leave(_) => "leave",
            Kind::Total => "total",
            Kind::Sequence => "sequence",
            Kind::Ledger => "ledger",
            Kind::Regroup(_) => "regroup",
        }
    }

    /// Its loop, if it has one: that in which a node of the kind stands, or that into which it leads, to whose next counter or
    /// out of which.
    pub fn the_loop(&self) -> Option<&L>
        ensures { option_copied result ≡ loop_of_kind self.now }
    {
        match self {
            Kind::Select { within, .. }
            | Kind::Concat { within }
            | Kind::Distinct { within }
            | Kind::Join { within }
            | Kind::Sum { within } => within.as_ref(),
            Kind::Enter(id) | Kind::Feedback(id) | Kind::Leave(id) => Some(id),
            _ => None,
        }
    }

    /// The kind with the loop that `f` gives of its own.
    pub fn map<M, F: FnOnce(L) -> M>(self, f: F) -> Kind<M>
        requires { IfSome (loop_of_kind self) (F.pre f) }
        ensures { (g : L → M) → IfSome (loop_of_kind self) (λ id. (other : M) → F.post f id other → other ≡ g id)
            → result ≡ kind_map g self }
    {
        match self {
            Kind::Input => Kind::Input,
            Kind::OutputEpoch => Kind::OutputEpoch,
            Kind::OutputNumber => Kind::OutputNumber,
            Kind::Select { selection, within } => Kind::Select {
                selection,
                within: within.map(f),
            },
            Kind::Concat { within } => Kind::Concat {
                within: within.map(f),
            },
            Kind::Distinct { within } => Kind::Distinct {
                within: within.map(f),
            },
            Kind::Join { within } => Kind::Join {
                within: within.map(f),
            },
            Kind::Sum { within } => Kind::Sum {
                within: within.map(f),
            },
            Kind::Enter(id) => Kind::Enter(f(id)),
            Kind::Feedback(id) => Kind::Feedback(f(id)),
            Kind::Leave(id) => Kind::Leave(f(id)),
            Kind::Total => Kind::Total,
            Kind::Sequence => Kind::Sequence,
            Kind::Ledger => Kind::Ledger,
            Kind::Regroup(size) => Kind::Regroup(size),
        }
    }
}

impl Kind<Name> {
    /// The same kind, with a name of its own for its loop. The error is want of memory.
    pub(crate) fn copied(&self, alloc: Global) -> Result<RawKind, AllocError>
        ensures { IfOk result (λ kind. kind ≡ self.now) }
    {
        Ok(match self {
            Kind::Input => Kind::Input,
            Kind::OutputEpoch => Kind::OutputEpoch,
            Kind::OutputNumber => Kind::OutputNumber,
            Kind::Select { selection, within } => Kind::Select {
                selection: *selection,
                within: copied_if_any(alloc, within)?,
            },
            Kind::Concat { within } => Kind::Concat {
                within: copied_if_any(alloc, within)?,
            },
            Kind::Distinct { within } => Kind::Distinct {
                within: copied_if_any(alloc, within)?,
            },
            Kind::Join { within } => Kind::Join {
                within: copied_if_any(alloc, within)?,
            },
            Kind::Sum { within } => Kind::Sum {
                within: copied_if_any(alloc, within)?,
            },
            Kind::Enter(name) => Kind::Enter(name.copied(alloc)?),
            Kind::Feedback(name) => Kind::Feedback(name.copied(alloc)?),
            Kind::Leave(name) => Kind::Leave(name.copied(alloc)?),
            Kind::Total => Kind::Total,
            Kind::Sequence => Kind::Sequence,
            Kind::Ledger => Kind::Ledger,
            Kind::Regroup(size) => Kind::Regroup(*size),
        })
    }
}

impl Kind {
    /// The domain of its events.
    pub(crate) fn domain(self, loops: &[Loop]) -> Domain
        ensures { (flow : Dataflow) → flow.loops ≡ loops.now → result ≡ domain_of_kind flow self }
    {
        match self {
            Kind::Enter(id) => parent_of(loops, id),
            Kind::Input | Kind::OutputEpoch | Kind::Total | Kind::Sequence => Domain::Epoch,
            Kind::OutputNumber | Kind::Ledger | Kind::Regroup(_) => Domain::Number,
            Kind::Select { within, .. }
            | Kind::Concat { within }
            | Kind::Distinct { within }
            | Kind::Join { within }
            | Kind::Sum { within } => Domain::within(within),
            Kind::Feedback(id) | Kind::Leave(id) => Domain::Loop(id),
        }
    }

    /// The domain of its messages.
    pub(crate) fn out_domain(self, loops: &[Loop]) -> Domain
        ensures { (flow : Dataflow) → flow.loops ≡ loops.now → result ≡ out_domain_of_kind flow self }
    {
        match self {
            Kind::Enter(id) => Domain::Loop(id),
            Kind::Leave(id) => parent_of(loops, id),
            Kind::Regroup(_) => Domain::Epoch,
            Kind::Sequence => Domain::Number,
            Kind::Input | Kind::OutputEpoch | Kind::Total => Domain::Epoch,
            Kind::OutputNumber | Kind::Ledger => Domain::Number,
            Kind::Select { within, .. }
            | Kind::Concat { within }
            | Kind::Distinct { within }
            | Kind::Join { within }
            | Kind::Sum { within } => Domain::within(within),
            Kind::Feedback(id) => Domain::Loop(id),
        }
    }

    /// Whether a node of the kind is an input: it alone has batches, and injects them.
    pub fn is_input(self) -> bool
        ensures { result ≡ is_input_kind self }
    {
        matches!(self, Kind::Input)
    }

    /// Whether a node of the kind is an output, of epochs or of numbers: it alone acknowledges.
    pub fn is_output(self) -> bool
        ensures { result ≡ is_output_kind self }
    {
        matches!(self, Kind::OutputEpoch | Kind::OutputNumber)
    }

    /// Whether a node of the kind is notified: it waits for a time to be complete, and sends then.
    pub fn is_notified(self) -> bool
        ensures { result ≡ is_notified_kind self }
    {
        matches!(self, Kind::Sum { .. } | Kind::Total | Kind::Sequence)
    }

    /// Whether a node of the kind leads to the next counter of a loop.
    pub fn is_feedback(self) -> bool
        ensures { result ≡ is_feedback_kind self }
    {
        matches!(self, Kind::Feedback(_))
    }

    /// Whether a node of the kind is a sequence: it numbers what it sends.
    pub fn is_sequence(self) -> bool
        ensures { result ≡ is_sequence_kind self }
    {
        matches!(self, Kind::Sequence)
    }
}

impl<L> fmt::Display for Kind<L> {
    ghost use Rattle.std.specs.Prelude.{Some};

    ghost output = { λ kind. Some (kind_text kind) };

    fn fmt<W: fmt::Write>(&self, f: &mut fmt::Formatter<W>) -> fmt::Result {
        write!(f, "{}", self.as_str())
    }
}

impl Domain {
    /// The domain of a node that stands outside loops or within one.
    fn within(id: Option<LoopId>) -> Domain
        ensures { result ≡ domain_within id }
    {
        match id {
            Some(id) => Domain::Loop(id),
            None => Domain::Epoch,
        }
    }
}

/// The parent domain of a loop: that of the loop in which it is declared, if in any. A chain of loops that does not end
/// within three counts as none.
#[tactic(auto, unfolding(crate::specs::Dataflow::parent_of))]
pub(crate) fn parent_of(loops: &[Loop], id: LoopId) -> Domain
    ensures { (flow : Dataflow) → flow.loops ≡ loops.now → result ≡ parent_of flow id }
{
    let parent = declared_parent(loops, id);
    if !is_chain_short(loops, &parent) {
        return Domain::Epoch;
    }
    Domain::within(parent)
}

/// Whether the chain of loops from the parent of a loop, each declared in the next, ends within two.
pub(crate) fn is_chain_short(loops: &[Loop], parent: &Option<LoopId>) -> bool
    ensures { (flow : Dataflow) → flow.loops ≡ loops.now → result ≡ ends_within 2 flow parent.now }
{
    let Some(second) = parent else {
        return true;
    };
    let Some(third) = declared_parent(loops, *second) else {
        return true;
    };
    declared_parent(loops, third).is_none()
}

/// The loop in which a loop is declared, if in any.
#[tactic(auto, unfolding(crate::specs::Dataflow::declared_parent))]
fn declared_parent(loops: &[Loop], id: LoopId) -> Option<LoopId>
    ensures { (flow : Dataflow) → flow.loops ≡ loops.now → result ≡ declared_parent flow id }
{
    match loops.get(id.place() as usize) {
        Some(a_loop) => a_loop.parent,
        None => None,
    }
}

/// How a node is restored after a failure.
#[derive(Clone, Copy, Debug, PartialEq, Eq)]
pub enum Policy {
    /// It keeps nothing. Inputs and outputs have this policy too.
    None,
    /// It writes checkpoints when asked.
    Lazy,
    /// It writes checkpoints when asked, with the messages that it sent.
    Logged,
    /// It writes a checkpoint, with the messages that it sent, whenever more is settled.
    Eager,
    /// It writes each event.
    Full,
}

impl Policy {
    /// The word of the policy.
    pub fn as_str(&self) -> &'static str
        ensures { result.now ≡ policy_text self.now }
    {
        match self {
            Policy::None => "none",
            Policy::Lazy => "lazy",
            Policy::Logged => "logged",
            Policy::Eager => "eager",
            Policy::Full => "full",
        }
    }
}

impl fmt::Display for Policy {
    ghost use Rattle.std.specs.Prelude.{Some};

    ghost output = { λ policy. Some (policy_text policy) };

    fn fmt<W: fmt::Write>(&self, f: &mut fmt::Formatter<W>) -> fmt::Result {
        write!(f, "{}", self.as_str())
    }
}
