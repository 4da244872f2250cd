//! A well-formed dataflow, and what is looked up in it.
ghost use Rattle.std.specs.Prelude.{◌≡◌, ◌<◌, length, map, MatchResult, IfOk, true, false};
ghost use Rattle.fw_lines.specs.Faults.{IfRefused};
ghost use Rattle.fw_flow.specs.Dataflow.{kind_of, policy_of, sender, receiver, in_edges, out_edges, domain_of, bounds_of, greatest_of, max_of, node_at};
ghost use Rattle.fw_flow.specs.Flow.{AreBoundsOf, HasNoParts};
ghost use Rattle.fw_flow.specs.WellFormed.{IsWellFormed};
ghost use Rattle.fw_flow.specs.DomainText.{name_of_edge};
ghost use Rattle.fw_flow.specs.Names.{place_of};
ghost use Rattle.fw_flow.specs.Check.{IsChecked, IsFirstBroken};
ghost use Rattle.fw_flow.specs.Expand.{expand};

use crate::check::{limit_line, refuse, undeclared_line};
use crate::draft::Draft;
use crate::expand::FullFlow;
use crate::kind::parent_of;
use crate::laws::flow_is_well_formed;
use crate::name::Names;
use crate::{Domain, Edge, EdgeId, FullName, Kind, Loop, LoopId, Node, NodeId, Policy, RawFlow};
use fw_lines::{Code, ReadFault};
use fw_time::{Bounds, Stamp};
use std::alloc::{AllocError, Global};
use std::marker::Model;

/// A well-formed dataflow. Contracts see its loops, nodes and edges.
#[derive(Debug)]
pub struct Flow {
    pub(crate) loops: Vec<Loop>,
    pub(crate) nodes: Vec<Node>,
    pub(crate) edges: Vec<Edge>,
    pub(crate) node_names: Names,
    pub(crate) edge_names: Names,
    // For each node its edges, in order.
    pub(crate) incoming: Vec<Vec<EdgeId>>,
    pub(crate) outgoing: Vec<Vec<EdgeId>>,
    // The bounds of the domains of its nodes, in order, where they are kept.
    pub(crate) bounds: Vec<Bounds>,
    // Whether it is known that no node is a replica.
    pub(crate) unsplit: bool,
}

impl Model for Flow {
    ghost use Rattle.fw_flow.specs.Dataflow.{Dataflow};
    ghost use Rattle.fw_flow.specs.Flow.{IsIndexed};

    ghost Value = { Dataflow };

    ghost view = { λ flow. record { loops = flow.loops.items; nodes = flow.nodes.items; edges = flow.edges.items } };

    ghost invariant = { λ flow. IsIndexed (record { loops = flow.loops.items; nodes = flow.nodes.items; edges = flow.edges.items })
        flow.node_names flow.edge_names flow.incoming.items flow.outgoing.items flow.bounds.items flow.unsplit };
}

// Written out, so that it is one call wherever a flow is let go.
impl Drop for Flow {
    fn drop(self) {
        let Flow {
            loops,
            nodes,
            edges,
            node_names,
            edge_names,
            incoming,
            outgoing,
            bounds,
            unsplit: _,
        } = self;
        drop(loops);
        drop(nodes);
        drop(edges);
        drop(node_names);
        drop(edge_names);
        drop(incoming);
        drop(outgoing);
        drop(bounds);
    }
}

impl Flow {
    /// How many nodes it has: they stand at the places from 0 on. The call also tells that the flow is well formed.
    pub fn nodes(&self) -> usize
        ensures count { result ≡ length self.now.nodes }
        ensures well_formed { IsWellFormed self.now }
    {
        self.nodes.len()
    }

    /// How many edges it has: they stand at the places from 0 on.
    pub fn edges(&self) -> usize
        ensures { result ≡ length self.now.edges }
    {
        self.edges.len()
    }

    /// What a node does. Past the last node stand idle outputs.
    #[tactic(auto, unfolding(crate::specs::Dataflow::kind_of))]
    pub fn kind(&self, node: NodeId) -> Kind
        ensures { result ≡ kind_of self.now node }
    {
        match self.nodes.get(node.place() as usize) {
            Some(node) => node.kind,
            None => Kind::OutputEpoch,
        }
    }

    /// How a node is restored. Past the last node each keeps nothing.
    #[tactic(auto, unfolding(crate::specs::Dataflow::policy_of))]
    pub fn policy(&self, node: NodeId) -> Policy
        ensures { result ≡ policy_of self.now node }
    {
        match self.nodes.get(node.place() as usize) {
            Some(node) => node.policy,
            None => Policy::None,
        }
    }

    /// The domain of a node's events, by its word; that of epochs past the last node.
    pub fn domain_word(&self, node: NodeId) -> Domain
        ensures { result ≡ domain_of self.now node }
    {
        self.kind(node).domain(&self.loops)
    }

    /// The bounds of the domain of a node's events; those of epochs past the last node.
    pub fn domain(&self, node: NodeId) -> Bounds
        ensures { result ≡ bounds_of self.now node }
    {
        match self.bounds.get(node.place() as usize) {
            Some(bounds) => Bounds {
                greatest: bounds.greatest.copy(),
                sides: bounds.sides,
            },
            None => self.bounds_of(node),
        }
    }

    // The same, by the loops that the node is in.
    #[tactic(auto, unfolding(crate::specs::Dataflow::bounds_of))]
    fn bounds_of(&self, node: NodeId) -> Bounds
        ensures { result ≡ bounds_of self.now node }
    {
        Bounds {
            greatest: self.greatest(self.domain_word(node)),
            sides: false,
        }
    }

    /// The greatest stamp of a domain.
    fn greatest(&self, domain: Domain) -> Stamp
        ensures { result ≡ greatest_of self.now domain }
    {
        let Domain::Loop(inner) = domain else {
            return Stamp::new(&[u32::MAX]);
        };
        let Domain::Loop(middle) = parent_of(&self.loops, inner) else {
            return Stamp::new(&[u32::MAX, self.max(inner)]);
        };
        let Domain::Loop(outer) = parent_of(&self.loops, middle) else {
            return Stamp::new(&[u32::MAX, self.max(middle), self.max(inner)]);
        };
        Stamp::new(&[u32::MAX, self.max(outer), self.max(middle), self.max(inner)])
    }

    /// The greatest counter of a loop, 0 past the last one.
    #[tactic(auto, unfolding(crate::specs::Dataflow::max_of))]
    pub fn max(&self, id: LoopId) -> u32
        ensures { result ≡ max_of self.now id }
    {
        flow_is_well_formed(self);
        match self.loops.get(id.place() as usize) {
            Some(a_loop) => a_loop.max as u32,
            None => 0,
        }
    }

    /// The sender of an edge; for an edge past the last one the node past the last one, which is an idle output.
    #[tactic(auto, unfolding(crate::specs::Dataflow::sender))]
    pub fn src(&self, edge: EdgeId) -> NodeId
        ensures { result ≡ sender self.now edge }
    {
        match self.edges.get(edge.place() as usize) {
            Some(edge) => edge.sender,
            None => self.past_the_last(),
        }
    }

    /// The receiver of an edge; for an edge past the last one the node past the last one, which is an idle output.
    #[tactic(auto, unfolding(crate::specs::Dataflow::receiver))]
    pub fn dst(&self, edge: EdgeId) -> NodeId
        ensures { result ≡ receiver self.now edge }
    {
        match self.edges.get(edge.place() as usize) {
            Some(edge) => edge.receiver,
            None => self.past_the_last(),
        }
    }

    fn past_the_last(&self) -> NodeId
        ensures { result ≡ length self.now.nodes }
    {
        NodeId::at(self.nodes.len() as u32)
    }

    /// The edges to a node, in order of their places; none past the last node.
    #[tactic(auto, using(crate::proofs::FlowLaws::edges_there, crate::proofs::FlowLaws::edges_past))]
    pub fn in_edges(&self, node: NodeId) -> &[EdgeId]
        ensures { result.now ≡ in_edges self.now node }
    {
        match self.incoming.get(node.place() as usize) {
            Some(edges) => edges.as_slice(),
            None => &[],
        }
    }

    /// The edges from a node, in order of their places; none past the last node.
    #[tactic(auto, using(crate::proofs::FlowLaws::edges_there, crate::proofs::FlowLaws::edges_past))]
    pub fn out_edges(&self, node: NodeId) -> &[EdgeId]
        ensures { result.now ≡ out_edges self.now node }
    {
        match self.outgoing.get(node.place() as usize) {
            Some(edges) => edges.as_slice(),
            None => &[],
        }
    }

    /// The name of a node that the flow has.
    #[tactic(auto, unfolding(crate::specs::Dataflow::node_at))]
    pub fn node_name(&self, node: NodeId) -> &FullName
        requires { node < length self.now.nodes }
        ensures { result.now ≡ (node_at self.now node).name }
    {
        &self.nodes[node.place() as usize].name
    }

    /// The name of an edge; past the last edge it is empty.
    pub fn edge_name(&self, edge: EdgeId) -> &str
        ensures { result.now ≡ name_of_edge self.now edge }
    {
        match self.edges.get(edge.place() as usize) {
            Some(edge) => edge.name.as_str(),
            None => "",
        }
    }

    /// The node of a name, `None` where no node has it.
    pub fn node_named(&self, name: &str) -> Option<NodeId>
        ensures { result ≡ place_of name.now (map (λ node. node.name) self.now.nodes) }
    {
        self.node_spelled(name.as_bytes())
    }

    /// The edge of a name, `None` where no edge has it.
    pub fn edge_named(&self, name: &str) -> Option<EdgeId>
        ensures { result ≡ place_of name.now (map (λ edge. edge.name) self.now.edges) }
    {
        self.edge_spelled(name.as_bytes())
    }

    /// The node whose name these bytes spell, as they stand in a text; `None` where no node has it.
    pub fn node_spelled(&self, name: &[u8]) -> Option<NodeId>
        ensures { result ≡ place_of name.now (map (λ node. node.name) self.now.nodes) }
    {
        let place = self.node_names.place_of(name)?;
        Some(NodeId::at(place as u32))
    }

    /// The edge whose name these bytes spell, as they stand in a text; `None` where no edge has it.
    pub fn edge_spelled(&self, name: &[u8]) -> Option<EdgeId>
        ensures { result ≡ place_of name.now (map (λ edge. edge.name) self.now.edges) }
    {
        let place = self.edge_names.place_of(name)?;
        Some(EdgeId::at(place as u32))
    }

    /// The flow of the expansion of these declarations, where no rule is broken; else the first broken rule, with the line of the
    /// first declaration that breaks it, or line 0 where it is broken by the flow as a whole. The rules are F3, F12, and F4 to F9,
    /// in this order, tested on the expansion; those of words and names were tested before. The other error is want of memory.
    pub fn check(alloc: Global, raw: RawFlow) -> Result<Flow, ReadFault>
        ensures checked { MatchResult result (IsChecked (expand raw)) (IfRefused (IsFirstBroken (expand raw))) }
        ensures well_formed { IfOk result IsWellFormed }
    {
        let mut flow = Flow::of(alloc, FullFlow::of(alloc, &raw)?)?;
        let bounds = flow.each_bounds(alloc)?;
        let unsplit = flow.has_no_parts();
        flow.bounds = bounds;
        flow.unsplit = unsplit;
        Ok(flow)
    }

    // The bounds of the domain of each node, in order. The error is want of memory.
    fn each_bounds(&self, alloc: Global) -> Result<Vec<Bounds>, AllocError>
        ensures one_each { IfOk result (λ each. length each.items ≡ length self.now.nodes) }
        ensures bounds { IfOk result (λ each. AreBoundsOf self.now each.items) }
    {
        let mut each = Vec::new(alloc);
        for place in 0..self.nodes.len() {
            each.push(self.bounds_of(NodeId::at(place as u32)))?;
        }
        Ok(each)
    }

    // Whether no node is a replica, so that the recs of all keys come to each.
    #[tactic(auto, using(crate::proofs::NoPartLaws::no_parts_more, crate::proofs::NoPartLaws::no_parts_all))]
    fn has_no_parts(&self) -> bool
        ensures none { result ≡ true → HasNoParts self.now }
        ensures some { result ≡ false → HasNoParts self.now → ⊥ }
    {
        for place in 0..self.nodes.len() {
            if self.part(NodeId::at(place as u32)).is_some() {
                return false;
            }
        }
        true
    }

    // The flow of an expansion, of which no bounds are kept, where no rule is broken; else the first broken rule.
    fn of(alloc: Global, full: FullFlow) -> Result<Flow, ReadFault>
        ensures checked { MatchResult result (IsChecked full) (IfRefused (IsFirstBroken full)) }
        ensures well_formed { IfOk result IsWellFormed }
    {
        let FullFlow { names, declared } = full;
        names.loops.are_distinct();
        refuse(Code::F3, undeclared_line(&names, &declared))?;
        let limit_line = limit_line(&declared);
        let draft = Draft::of(alloc, &names, declared)?;
        draft.test(alloc, limit_line)?;
        let Draft {
            parts,
            incoming,
            outgoing,
            ..
        } = draft;
        Ok(Flow {
            loops: parts.loops,
            nodes: parts.nodes,
            edges: parts.edges,
            node_names: names.nodes,
            edge_names: names.edges,
            incoming,
            outgoing,
            bounds: Vec::new(alloc),
            unsplit: false,
        })
    }
}
