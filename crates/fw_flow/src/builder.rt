//! Flows that are made in code.
ghost use Rattle.std.specs.Prelude.{◌≡◌, true, false, [], Some, None, IfOk, MatchResult};
ghost use Rattle.std.specs.Option.{option_map_or};
ghost use Rattle.fw_lines.specs.Spelling.{is_name};
ghost use Rattle.fw_flow.specs.declared.raw.Declaration.TheVariants.{Loop, Node, Edge};
ghost use Rattle.fw_flow.specs.Builder.{Declares, DeclaresNamed, IsNameOrFault, IfBroken};
ghost use Rattle.fw_flow.specs.Check.{IsChecked, IsFirstBroken};
ghost use Rattle.fw_flow.specs.Expand.{expand};
ghost use Rattle.fw_flow.specs.Kind.{loop_of_kind};
ghost use Rattle.fw_flow.specs.WellFormed.{IsWellFormed};

use crate::{Declaration, Declared, Flow, Name, Policy, RawFlow, RawKind};
use fw_lines::{ReadFault, Refusal};
use std::alloc::{AllocError, Global};
use std::marker::Model;
use thiserror::Error;

/// Why a builder takes no declaration, or gives no flow.
#[derive(Clone, Copy, Debug, PartialEq, Eq, Error)]
pub enum BuildFault {
    /// A word is not a name: 1 to 32 of `a` to `z`, `0` to `9` and `_`, the first a letter.
    #[error("a word is not a name")]
    BadName,
    /// The name is taken in its name space: loops, nodes and edges are three.
    #[error("the name is taken")]
    NameTaken,
    /// The declarations break a rule of flows. The refusal's line is the number of the first declaration that breaks it,
    /// counted from 1, or 0 where the flow as a whole does.
    #[error("declaration {} breaks rule {}", .0.line, .0.code)]
    Broken(Refusal),
    /// Memory was refused.
    #[error("out of memory")]
    NoMemory,
}

impl From<AllocError> for BuildFault {
    ghost use Rattle.fw_flow.specs.declared.builder.BuildFault.TheVariants.{NoMemory};

    ghost from_gives = { λ _ fault. fault ≡ NoMemory };

    fn from(_error: AllocError) -> Self {
        BuildFault::NoMemory
    }
}

impl From<ReadFault> for BuildFault {
    ghost use Rattle.fw_flow.specs.Builder.{build_fault};

    ghost from_gives = { λ read fault. fault ≡ build_fault read };

    fn from(fault: ReadFault) -> Self {
        match fault {
            ReadFault::Refused(refusal) => BuildFault::Broken(refusal),
            ReadFault::NoMemory => BuildFault::NoMemory,
        }
    }
}

/// Takes declarations one after the other, and gives the flow that they declare. Contracts see the list of declarations, of
/// which the n-th, counted from 1, has the line n. A call that fails takes the builder with it.
#[derive(Debug)]
pub struct FlowBuilder {
    pub(crate) alloc: Global,
    raw: RawFlow,
}

impl Model for FlowBuilder {
    ghost use Rattle.std.specs.Prelude.{List};
    ghost use Rattle.fw_flow.specs.Declaring.{Declared};

    ghost Value = { List Declared };

    ghost view = { λ builder. builder.raw };
}

// Written out, so that it is one call wherever a builder is let go.
impl Drop for FlowBuilder {
    fn drop(self) {
        let FlowBuilder { alloc: _, raw } = self;
        drop(raw);
    }
}

impl FlowBuilder {
    /// Nothing declared yet, in memory from `alloc`.
    pub fn new(alloc: Global) -> Self
        ensures { result ≡ [] }
    {
        FlowBuilder {
            alloc,
            raw: RawFlow::new(alloc),
        }
    }

    /// Declares a node, with what it does and how it is restored. Each kind has a word of its own beside this call, as
    /// `FlowBuilder::total`.
    pub fn node(self, name: &str, kind: RawKind, policy: Policy) -> Result<Self, BuildFault>
        ensures { Declares self (Node name.now kind policy None None) result }
    {
        let name = named(self.alloc, name)?;
        has_loop_named(&kind);
        self.declare(whole_node(name, kind, policy))
    }

    /// Declares a node that is split into so many replicas, from 2 to 64: each gets the recs of its part of the keys. Nodes of
    /// the kinds `distinct`, `join`, `sum` and `total` can be split; at another kind the number has no meaning.
    pub fn split(
        self,
        name: &str,
        kind: RawKind,
        policy: Policy,
        replicas: u64,
    ) -> Result<Self, BuildFault>
        ensures { Declares self (Node name.now kind policy (Some replicas) None) result }
    {
        let name = named(self.alloc, name)?;
        has_loop_named(&kind);
        self.declare(Declaration::Node {
            name,
            kind,
            policy,
            split: Some(replicas),
            part: None,
        })
    }

    /// Declares a loop that is in no other, with its greatest counter, from 1 to 1024.
    pub fn a_loop(self, name: &str, max: u64) -> Result<Self, BuildFault>
        ensures { Declares self (Loop name.now max None) result }
    {
        let name = named(self.alloc, name)?;
        let parent = None;
        self.declare(Declaration::Loop { name, max, parent })
    }

    /// Declares a loop within the loop of the name `parent`, which may be declared later.
    pub fn a_loop_within(self, name: &str, max: u64, parent: &str) -> Result<Self, BuildFault>
        ensures { Declares self (Loop name.now max (Some parent.now)) result }
    {
        let name = named(self.alloc, name)?;
        let parent = Some(named(self.alloc, parent)?);
        self.declare(Declaration::Loop { name, max, parent })
    }

    /// Declares an edge, from a node to a node, both by their names. The nodes may be declared later.
    pub fn edge(self, name: &str, sender: &str, receiver: &str) -> Result<Self, BuildFault>
        ensures { Declares self (Edge name.now sender.now receiver.now) result }
    {
        let name = named(self.alloc, name)?;
        let sender = named(self.alloc, sender)?;
        let receiver = named(self.alloc, receiver)?;
        self.declare(Declaration::Edge {
            name,
            sender,
            receiver,
        })
    }

    /// The flow of the declarations, or the first rule that they break, as `Flow::check` has it.
    pub fn build(self) -> Result<Flow, BuildFault>
        ensures checked { MatchResult result (IsChecked (expand self)) (IfBroken (IsFirstBroken (expand self))) }
        ensures well_formed { IfOk result IsWellFormed }
    {
        let FlowBuilder { alloc, raw } = self;
        Ok(Flow::check(alloc, raw)?)
    }

    // One declaration more, where its name is new.
    pub(crate) fn declare(self, declaration: Declaration) -> Result<Self, BuildFault>
        ensures { DeclaresNamed self declaration result }
    {
        let FlowBuilder { alloc, raw } = self;
        let Ok(line) = u32::try_from(raw.declared.len() + 1) else {
            return Err(BuildFault::NoMemory);
        };
        let (raw, new) = raw.declare(Declared { line, declaration })?;
        if !new {
            return Err(BuildFault::NameTaken);
        }
        Ok(FlowBuilder { alloc, raw })
    }
}

// A node that is not split.
pub(crate) fn whole_node(name: Name, kind: RawKind, policy: Policy) -> Declaration
    ensures { result ≡ Node name kind policy None None }
{
    Declaration::Node {
        name,
        kind,
        policy,
        split: None,
        part: None,
    }
}

// The word of the loop that a kind names, if it names one, is a name.
pub(crate) fn has_loop_named(kind: &RawKind)
    ensures { option_map_or is_name (loop_of_kind kind.now) true ≡ true }
{
    if let Some(name) = kind.the_loop() {
        let _bytes = name.as_bytes();
    }
}

// The name of this word.
pub(crate) fn named(alloc: Global, word: &str) -> Result<Name, BuildFault>
    ensures { IsNameOrFault word.now result }
{
    Name::new(alloc, word)?.ok_or(BuildFault::BadName)
}
