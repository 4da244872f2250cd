//! The parts of a flow by their places, from declarations by names.
ghost use Rattle.std.specs.Prelude.{◌≡◌, ◌^◌, ◌<◌, [], ◌∷◌, ◌++◌, length, IfOk, OnOk};
ghost use Rattle.fw_flow.specs.Check.{loop_lines, node_lines, edge_lines};
ghost use Rattle.fw_flow.specs.Kind.{kind_map};
ghost use Rattle.fw_flow.specs.Parts.{ArePartsOf};
ghost use Rattle.fw_flow.specs.Raw.{place_or_end, loop_in, node_in, edge_in};

use crate::name::Names;
use crate::raw::NameSpaces;
use crate::{
    Declaration, Declared, Edge, FullName, Kind, Loop, LoopId, Name, Node, NodeId, RawKind,
};
use std::alloc::{AllocError, Global};

/// The parts of a flow by their places, and the lines of its loops, nodes and edges.
#[derive(Drop)]
pub(crate) struct Parts {
    pub(crate) loops: Vec<Loop>,
    pub(crate) nodes: Vec<Node>,
    pub(crate) edges: Vec<Edge>,
    pub(crate) loop_lines: Vec<u32>,
    pub(crate) node_lines: Vec<u32>,
    pub(crate) edge_lines: Vec<u32>,
}

impl Parts {
    /// The parts that the declarations give. A name that is not among these is the place past their
    /// end. The only error is want of memory.
    pub(crate) fn of(
        alloc: Global,
        names: &NameSpaces,
        declared: Vec<Declared<FullName>>,
    ) -> Result<Parts, AllocError>
        requires loops { length names.now.loops < 2 ^ 32 }
        requires nodes { length names.now.nodes < 2 ^ 32 }
        ensures { IfOk result (λ parts. ArePartsOf parts names.now declared.items) }
    {
        let mut parts = Parts {
            loops: Vec::new(alloc),
            nodes: Vec::new(alloc),
            edges: Vec::new(alloc),
            loop_lines: Vec::new(alloc),
            node_lines: Vec::new(alloc),
            edge_lines: Vec::new(alloc),
        };
        for one in declared {
            parts.add(names, one)?;
        }
        Ok(parts)
    }

    // Adds what one declaration gives.
    fn add(&mut self, names: &NameSpaces, declared: Declared<FullName>) -> Result<(), AllocError>
        requires loops { length names.now.loops < 2 ^ 32 }
        requires nodes { length names.now.nodes < 2 ^ 32 }
        ensures loops { OnOk result
            (self.new.loops.items ≡ self.old.loops.items ++ loop_in names.now.loops declared) }
        ensures nodes { OnOk result (self.new.nodes.items ≡ self.old.nodes.items ++ node_in names.now.loops declared) }
        ensures edges { OnOk result
            (self.new.edges.items ≡ self.old.edges.items ++ edge_in names.now.nodes declared) }
        ensures loop_lines { OnOk result
            (self.new.loop_lines.items ≡ self.old.loop_lines.items ++ loop_lines (declared ∷ [])) }
        ensures node_lines { OnOk result
            (self.new.node_lines.items ≡ self.old.node_lines.items ++ node_lines (declared ∷ [])) }
        ensures edge_lines { OnOk result
            (self.new.edge_lines.items ≡ self.old.edge_lines.items ++ edge_lines (declared ∷ [])) }
    {
        let Declared { line, declaration } = declared;
        match declaration {
            Declaration::Loop { name, max, parent } => {
                let parent = parent.map(|name| loop_of(&names.loops, &name));
                self.loops.push(Loop { name, max, parent })?;
                self.loop_lines.push(line)?;
            }
            Declaration::Node {
                name,
                kind,
                policy,
                part,
                ..
            } => {
                let kind = resolved(&names.loops, kind);
                self.nodes.push(Node {
                    name,
                    kind,
                    policy,
                    part,
                })?;
                self.node_lines.push(line)?;
            }
            Declaration::Edge {
                name,
                sender,
                receiver,
            } => {
                let sender = node_of(&names.nodes, &sender);
                let receiver = node_of(&names.nodes, &receiver);
                self.edges.push(Edge {
                    name,
                    sender,
                    receiver,
                })?;
                self.edge_lines.push(line)?;
            }
        }
        Ok(())
    }
}

// The kind with its loop by its place.
fn resolved(loops: &Names, kind: RawKind) -> Kind
    requires { length loops.now < 2 ^ 32 }
    ensures { result ≡ kind_map (place_or_end loops.now) kind }
{
    kind.map(|name| loop_of(loops, &name))
}

// The loop of a name.
fn loop_of(loops: &Names, name: &Name) -> LoopId
    requires { length loops.now < 2 ^ 32 }
    ensures { result ≡ place_or_end loops.now name.now }
{
    LoopId::at(loops.place_or_end(name.as_bytes()) as u32)
}

fn node_of(nodes: &Names, name: &FullName) -> NodeId
    requires { length nodes.now < 2 ^ 32 }
    ensures { result ≡ place_or_end nodes.now name.now }
{
    NodeId::at(nodes.place_or_end(name.as_bytes()) as u32)
}
