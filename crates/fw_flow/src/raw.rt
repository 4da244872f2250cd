//! What the text of a flow declares, with names as they are written.
ghost use Rattle.std.specs.Prelude.{◌≡◌, true, [], ◌∷◌, ◌++◌, if◌then◌else◌, IfOk, OnErr, OnOk};
ghost use Rattle.fw_flow.specs.Raw.{names_of, is_new_among, with_name, is_new};

use crate::name::Names;
use crate::{FullName, KeyPart, Name, Policy, RawKind};
use std::alloc::{AllocError, Global};
use std::marker::Model;

/// How many declarations places of 32 bits can count.
const LIMIT: usize = 4_294_967_295;

/// What one line of a flow declares, with names of nodes and edges of the type `N`: as they are written, or `FullName`, once
/// split nodes are spelled out as their replicas.
#[derive(Debug, Drop)]
pub enum Declaration<N = Name> {
    /// A loop, in another one if it names a parent, with its greatest counter. A flow is refused where that is 0 or past
    /// 1024, and where the chain of loops from it, each in the next, does not end within three.
    Loop {
        name: Name,
        max: u64,
        parent: Option<Name>,
    },
    /// A node, with what it does and how it is restored. A flow is refused where so many numbers as are regrouped are 0 or past
    /// 2^32 - 1.
    Node {
        name: N,
        kind: RawKind,
        policy: Policy,
        /// Into how many replicas it is split, if it is: each gets the recs of its part of the keys. It has no meaning at a kind
        /// that is not `distinct`, `join`, `sum` or `total`. A flow is refused where it is below 2 or past 64.
        split: Option<u64>,
        /// The part of the keys whose recs come to it, where it is a replica itself. Then it is not split.
        part: Option<KeyPart>,
    },
    /// An edge, from a node to a node, both by their names.
    Edge {
        name: N,
        sender: N,
        receiver: N,
    },
}

/// A declaration, with its line.
#[derive(Debug, Drop)]
pub struct Declared<N = Name> {
    /// Lines are counted from 1. A refusal of the declaration has this line.
    pub line: u32,
    /// What the line declares.
    pub declaration: Declaration<N>,
}

/// The names that are taken, in three name spaces.
#[derive(Debug, Drop)]
pub(crate) struct NameSpaces {
    pub(crate) loops: Names,
    pub(crate) nodes: Names,
    pub(crate) edges: Names,
}

impl NameSpaces {
    pub(crate) fn new(alloc: Global) -> Self
        ensures { result ≡ names_of [] }
    {
        NameSpaces {
            loops: Names::new(alloc),
            nodes: Names::new(alloc),
            edges: Names::new(alloc),
        }
    }

    // Adds the name of a declaration to its name space, and says whether it is new.
    fn add(&mut self, declaration: &Declaration) -> Result<bool, AllocError>
        ensures new { IfOk result (λ new. new ≡ is_new_among self.old declaration.now) }
        ensures ok { IfOk result (λ new. self.new ≡ (if new then with_name self.old declaration.now else self.old)) }
        ensures err { OnErr result (self.new ≡ self.old) }
    {
        match declaration {
            Declaration::Loop { name, .. } => self.loops.add(name.as_bytes()),
            Declaration::Node { name, .. } => self.nodes.add(name.as_bytes()),
            Declaration::Edge { name, .. } => self.edges.add(name.as_bytes()),
        }
    }
}

impl NameSpaces {
    /// Adds the name of a declaration with full names to its name space. The error is want of memory.
    pub(crate) fn take(&mut self, declaration: &Declaration<FullName>) -> Result<(), AllocError>
        ensures { OnOk result (is_new_among self.old declaration.now ≡ true → self.new ≡ with_name self.old declaration.now) }
    {
        match declaration {
            Declaration::Loop { name, .. } => self.loops.take(name.as_bytes()),
            Declaration::Node { name, .. } => self.nodes.take(name.as_bytes()),
            Declaration::Edge { name, .. } => self.edges.take(name.as_bytes()),
        }
    }
}

/// The declarations of a flow, in order, of which no two have one name in a name space: loops, nodes and edges are
/// three. `laws::declared_names_are_distinct` tells so. Contracts see their list.
#[derive(Debug, Drop)]
pub struct RawFlow {
    pub(crate) names: NameSpaces,
    pub(crate) declared: Vec<Declared>,
}

impl Model for RawFlow {
    ghost use Rattle.std.specs.Prelude.{List};
    ghost use Rattle.fw_flow.specs.Declaring.{Declared};
    ghost use Rattle.fw_flow.specs.Raw.{AreNamed};

    ghost Value = { List Declared };

    ghost view = { λ raw. raw.declared.items };

    ghost invariant = { λ raw. AreNamed raw.names raw.declared.items };
}

impl RawFlow {
    /// Nothing declared yet, in memory from `alloc`.
    pub fn new(alloc: Global) -> Self
        ensures { result ≡ [] }
    {
        RawFlow {
            names: NameSpaces::new(alloc),
            declared: Vec::new(alloc),
        }
    }

    /// The declarations with one more, where its name is new in its name space, and whether it is; else they are as they
    /// were. The error is want of memory; more than 2^32 - 1 declarations count as that.
    pub fn declare(mut self, declared: Declared) -> Result<(Self, bool), AllocError>
        ensures new { IfOk result (λ r. r.1 ≡ is_new self declared.declaration) }
        ensures added { IfOk result (λ r. r.0 ≡ (if r.1 then self ++ declared ∷ [] else self)) }
    {
        if self.declared.len() >= LIMIT {
            return Err(AllocError);
        }
        if !self.names.add(&declared.declaration)? {
            return Ok((self, false));
        }
        self.declared.push(declared)?;
        Ok((self, true))
    }
}
