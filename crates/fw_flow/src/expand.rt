//! The expansion of declarations: each split node spelled out as its replicas.
ghost use Rattle.std.specs.Prelude.{◌≡◌, ◌<◌, ◌≤◌, ◌++◌, ◌∷◌, [], length, map, IfOk, OnOk};
ghost use Rattle.std.specs.List.{IsDistinct, range_with_len};
ghost use Rattle.std.specs.Str.{bytes_eq};
ghost use Rattle.fw_flow.specs.Expand as spec;
ghost use Rattle.fw_flow.specs.Expand.{expand};
ghost use Rattle.fw_flow.specs.Raw.{edge_names, loop_names, node_names};
ghost use Rattle.fw_flow.specs.Raw as names;

use crate::laws::{declared_names_are_distinct, declared_names_are_names};
use crate::name::copied_if_any;
use crate::raw::NameSpaces;
use crate::{Declaration, Declared, FullName, KeyPart, Kind, Name, Policy, RawFlow, RawKind};
use std::alloc::{AllocError, Global};
use std::marker::Model;

/// How many declarations places of 32 bits can count.
const LIMIT: usize = 4_294_967_295;

/// Into how many replicas a node may be split.
const MAX_REPLICAS: u64 = 64;

/// The expansion of declarations, in order, with full names of nodes and edges, of which no two have one name in a name space.
/// Contracts see its list.
#[derive(Drop)]
pub(crate) struct FullFlow {
    pub(crate) names: NameSpaces,
    pub(crate) declared: Vec<Declared<FullName>>,
}

impl Model for FullFlow {
    ghost use Rattle.std.specs.Prelude.{List};
    ghost use Rattle.fw_flow.specs.Declaring.{Declared};
    ghost use Rattle.fw_flow.specs.PlainNames.{ArePlain};
    ghost use Rattle.fw_flow.specs.Raw.{AreNamed};

    ghost Value = { List Declared };

    ghost view = { λ full. full.declared.items };

    ghost invariant = { λ full. AreNamed full.names full.declared.items × ArePlain full.declared.items };
}

impl FullFlow {
    /// The expansion of the declarations. The error is want of memory; more than 2^32 - 1 declarations count as that.
    pub(crate) fn of(alloc: Global, raw: &RawFlow) -> Result<FullFlow, AllocError>
        ensures { IfOk result (λ full. full ≡ expand raw.now) }
    {
        declared_names_are_distinct(raw);
        declared_names_are_names(raw);
        let declared = all_expanded(alloc, &raw.declared)?;
        if declared.len() >= LIMIT {
            return Err(AllocError);
        }
        let names = names_of(alloc, &declared)?;
        Ok(FullFlow { names, declared })
    }
}

// The names of these declarations.
fn names_of(alloc: Global, declared: &[Declared<FullName>]) -> Result<NameSpaces, AllocError>
    requires loops { IsDistinct bytes_eq (loop_names declared.now) }
    requires nodes { IsDistinct bytes_eq (node_names declared.now) }
    requires edges { IsDistinct bytes_eq (edge_names declared.now) }
    ensures { IfOk result (λ taken. taken ≡ names.names_of declared.now) }
{
    let mut names = NameSpaces::new(alloc);
    for one in declared {
        names.take(&one.declaration)?;
    }
    Ok(names)
}

// The expansion of the declarations.
fn all_expanded(alloc: Global, raw: &[Declared]) -> Result<Vec<Declared<FullName>>, AllocError>
    ensures { IfOk result (λ all. all.items ≡ spec.expand raw.now) }
{
    let mut all = Vec::new(alloc);
    for one in raw {
        add_expanded(&mut all, raw, one)?;
    }
    Ok(all)
}

// A declaration as it is written.
fn add_written(all: &mut Vec<Declared<FullName>>, one: &Declared) -> Result<(), AllocError>
    ensures { OnOk result (all.new.items ≡ all.old.items ++ one.now ∷ []) }
{
    let alloc = *all.allocator();
    let declaration = written(alloc, &one.declaration)?;
    all.push(Declared {
        line: one.line,
        declaration,
    })?;
    Ok(())
}

// The same declaration, with full names.
fn written(alloc: Global, declaration: &Declaration) -> Result<Declaration<FullName>, AllocError>
    ensures { IfOk result (λ full. full ≡ declaration.now) }
{
    Ok(match declaration {
        Declaration::Loop { name, max, parent } => Declaration::Loop {
            name: name.copied(alloc)?,
            max: *max,
            parent: copied_if_any(alloc, parent)?,
        },
        Declaration::Node {
            name,
            kind,
            policy,
            split,
            part,
        } => Declaration::Node {
            name: FullName::of(alloc, name)?,
            kind: kind.copied(alloc)?,
            policy: *policy,
            split: *split,
            part: *part,
        },
        Declaration::Edge {
            name,
            sender,
            receiver,
        } => Declaration::Edge {
            name: FullName::of(alloc, name)?,
            sender: FullName::of(alloc, sender)?,
            receiver: FullName::of(alloc, receiver)?,
        },
    })
}

// What a declaration comes to, among these.
fn add_expanded(
    all: &mut Vec<Declared<FullName>>,
    raw: &[Declared],
    one: &Declared,
) -> Result<(), AllocError>
    ensures { OnOk result (all.new.items ≡ all.old.items ++ spec.expanded_one raw.now one.now) }
{
    match &one.declaration {
        Declaration::Node {
            name,
            kind,
            policy,
            split,
            part,
        } => match replicas_of_kind(kind, *split, *part) {
            Some(count) => {
                let node = SplitNode {
                    name,
                    kind,
                    policy: *policy,
                    split: *split,
                    count,
                };
                node.add(all, one.line)
            }
            None => add_written(all, one),
        },
        Declaration::Edge {
            name,
            sender,
            receiver,
        } => match split_of(raw, receiver) {
            Some(count) => {
                let edge = SplitEdge {
                    name,
                    sender,
                    receiver,
                    count,
                };
                edge.add(all, one.line)
            }
            None => add_written(all, one),
        },
        Declaration::Loop { .. } => add_written(all, one),
    }
}

// How many replicas the node of this name has, if it is declared to be split.
fn split_of(raw: &[Declared], name: &Name) -> Option<u32>
    ensures { result ≡ spec.split_of raw.now name.now }
{
    for one in raw {
        match replicas_declared(name, &one.declaration) {
            Some(count) => return Some(count),
            None => {}
        }
    }
    None
}

// How many replicas the node of this name has, if this declares it to be split.
fn replicas_declared(name: &Name, declaration: &Declaration) -> Option<u32>
    ensures { result ≡ spec.replicas_declared name.now declaration.now }
{
    match declaration {
        Declaration::Node {
            name: own,
            kind,
            split,
            part,
            ..
        } if name.as_bytes() == own.as_bytes() => replicas_of_kind(kind, *split, *part),
        _ => None,
    }
}

// How many replicas a node of the kind has, if it is split.
fn replicas_of_kind(kind: &RawKind, split: Option<u64>, part: Option<KeyPart>) -> Option<u32>
    ensures { result ≡ spec.replicas_of_kind kind.now split part }
{
    match (split, part) {
        (Some(number), None) if kind.may_split() => Some(replicas_for(number)),
        _ => None,
    }
}

// How many replicas are made where this number is written.
fn replicas_for(number: u64) -> u32
    ensures { result ≡ spec.replicas_for number }
{
    if (2..=MAX_REPLICAS).contains(&number) {
        number as u32
    } else {
        2
    }
}

// A node that is split into so many.
#[derive(Drop)]
struct SplitNode<'a> {
    name: &'a Name,
    kind: &'a RawKind,
    policy: Policy,
    split: Option<u64>,
    count: u32,
}

impl SplitNode<'_> {
    // Its replicas, the node that joins what these send, and the edges to there, each at the line.
    fn add(&self, all: &mut Vec<Declared<FullName>>, line: u32) -> Result<(), AllocError>
        requires { 1 ≤ self.now.count }
        ensures { OnOk result (all.new.items ≡ all.old.items
            ++ spec.at_line line (spec.split_node self.now.name.now self.now.kind.now self.now.policy self.now.split self.now.count)) }
    {
        let alloc = *all.allocator();
        self.add_replicas(all, line)?;
        let declaration = self.joint(alloc)?;
        all.push(Declared { line, declaration })?;
        self.add_edges(all, line)
    }

    // Its replicas, each at the line.
    fn add_replicas(&self, all: &mut Vec<Declared<FullName>>, line: u32) -> Result<(), AllocError>
        requires { 1 ≤ self.now.count }
        ensures { OnOk result (all.new.items ≡ all.old.items ++ spec.at_line line
            (map (spec.replica self.now.name.now self.now.kind.now self.now.policy self.now.count) (range_with_len 0 self.now.count))) }
    {
        let alloc = *all.allocator();
        for place in 0..self.count {
            let declaration = self.replica(alloc, place)?;
            all.push(Declared { line, declaration })?;
        }
        Ok(())
    }

    // The edges from its replicas, each at the line.
    fn add_edges(&self, all: &mut Vec<Declared<FullName>>, line: u32) -> Result<(), AllocError>
        ensures { OnOk result (all.new.items ≡ all.old.items
            ++ spec.at_line line (map (spec.replica_edge self.now.name.now) (range_with_len 0 self.now.count))) }
    {
        let alloc = *all.allocator();
        for place in 0..self.count {
            let declaration = self.edge_from(alloc, place)?;
            all.push(Declared { line, declaration })?;
        }
        Ok(())
    }

    // A replica.
    fn replica(&self, alloc: Global, place: u32) -> Result<Declaration<FullName>, AllocError>
        requires { 1 ≤ self.now.count }
        ensures { IfOk result (λ one. one ≡ spec.replica self.now.name.now self.now.kind.now self.now.policy self.now.count place) }
    {
        Ok(Declaration::Node {
            name: FullName::part(alloc, self.name, place)?,
            kind: self.kind.copied(alloc)?,
            policy: self.policy,
            split: None,
            part: Some(KeyPart {
                place,
                last: self.count - 1,
            }),
        })
    }

    // The node that joins what the replicas send.
    fn joint(&self, alloc: Global) -> Result<Declaration<FullName>, AllocError>
        ensures { IfOk result (λ one. one ≡ spec.joint self.now.name.now self.now.kind.now self.now.split) }
    {
        let within = match self.kind.the_loop() {
            Some(name) => Some(name.copied(alloc)?),
            None => None,
        };
        Ok(Declaration::Node {
            name: FullName::of(alloc, self.name)?,
            kind: Kind::Concat { within },
            policy: Policy::None,
            split: self.split,
            part: None,
        })
    }

    // The edge from a replica to that node.
    fn edge_from(&self, alloc: Global, place: u32) -> Result<Declaration<FullName>, AllocError>
        ensures { IfOk result (λ one. one ≡ spec.replica_edge self.now.name.now place) }
    {
        Ok(Declaration::Edge {
            name: FullName::out(alloc, self.name, place)?,
            sender: FullName::part(alloc, self.name, place)?,
            receiver: FullName::of(alloc, self.name)?,
        })
    }
}

// An edge to a node that is split into so many.
#[derive(Drop)]
struct SplitEdge<'a> {
    name: &'a Name,
    sender: &'a Name,
    receiver: &'a Name,
    count: u32,
}

impl SplitEdge<'_> {
    // An edge to each replica, at the line.
    fn add(&self, all: &mut Vec<Declared<FullName>>, line: u32) -> Result<(), AllocError>
        ensures { OnOk result (all.new.items ≡ all.old.items
            ++ spec.at_line line (spec.split_edge self.now.name.now self.now.sender.now self.now.receiver.now self.now.count)) }
    {
        let alloc = *all.allocator();
        for place in 0..self.count {
            let declaration = self.part(alloc, place)?;
            all.push(Declared { line, declaration })?;
        }
        Ok(())
    }

    // The edge to a replica.
    fn part(&self, alloc: Global, place: u32) -> Result<Declaration<FullName>, AllocError>
        ensures { IfOk result (λ one. one ≡ spec.edge_to_replica self.now.name.now self.now.sender.now self.now.receiver.now place) }
    {
        Ok(Declaration::Edge {
            name: FullName::part(alloc, self.name, place)?,
            sender: FullName::of(alloc, self.sender)?,
            receiver: FullName::part(alloc, self.receiver, place)?,
        })
    }
}
