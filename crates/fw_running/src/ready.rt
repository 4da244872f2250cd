//! Where something may be done.
ghost use Rattle.std.specs.Prelude.{◌≡◌, [], OnOk};
ghost use Rattle.fw_running.specs.Places.{IsPut, IsNodePut, IsTakenOut, IsFirstPlace, IsFirstPlaceFrom, HasAllPlaces};

use fw_flow::{EdgeId, Flow, NodeId};
use fw_places::Places;
use std::alloc::{AllocError, Global};
use std::marker::Model;

/// Places among which are all where something may be done, so that a step that is taken by itself is found without trying
/// others. A place is put in when something may have become possible there, and is taken out when it is looked at and nothing
/// is.
#[derive(Drop)]
pub struct Ready {
    /// Among these are the edges on which something is pending for a receiver that is not failed.
    edges: Places,
    /// Among these are the nodes that are owed a notification, and are not failed.
    owing: Places,
    /// Among these are the nodes at which more is kept as complete than is settled.
    growing: Places,
    /// Among these are the outputs that may acknowledge.
    outputs: Places,
    /// Among these are the inputs that have a batch to inject, and are not failed.
    inputs: Places,
}

impl Model for Ready {
    ghost use Rattle.fw_running.specs.ReadyState.{ReadyState};

    ghost Value = { ReadyState };

    ghost view = { λ ready. record {
      edges = ready.edges;
      owing = ready.owing;
      growing = ready.growing;
      outputs = ready.outputs;
      inputs = ready.inputs;
    } };
}

impl Ready {
    /// No place. The sets take their memory from `alloc`.
    pub fn none(alloc: Global) -> Self
        ensures { result ≡ record { edges = []; owing = []; growing = []; outputs = []; inputs = [] } }
    {
        Ready {
            edges: Places::new(alloc),
            owing: Places::new(alloc),
            growing: Places::new(alloc),
            outputs: Places::new(alloc),
            inputs: Places::new(alloc),
        }
    }

    /// Every place. The error is want of memory.
    pub fn put_all(&mut self, flow: &Flow) -> Result<(), AllocError>
        ensures { OnOk result (HasAllPlaces flow.now self.new) }
    {
        for place in 0..flow.nodes() {
            self.put_node(NodeId::at(place as u32))?;
        }
        for place in 0..flow.edges() {
            self.put_edge(EdgeId::at(place as u32))?;
        }
        Ok(())
    }

    // A node is put among all of which nodes are. The error is want of memory.
    fn put_node(&mut self, node: NodeId) -> Result<(), AllocError>
        ensures { OnOk result (IsNodePut node self.old self.new) }
    {
        self.put_owing(node)?;
        self.put_growing(node)?;
        self.put_output(node)?;
        self.put_input(node)
    }

    /// Something is pending on an edge. The error is want of memory.
    pub fn put_edge(&mut self, edge: EdgeId) -> Result<(), AllocError>
        ensures put { OnOk result (IsPut edge self.old.edges self.new.edges) }
        ensures others { self.new ≡ record self.old { edges = self.new.edges } }
    {
        self.edges.insert(edge.place())?;
        Ok(())
    }

    /// Nothing can be delivered on an edge.
    pub fn take_edge(&mut self, edge: EdgeId)
        ensures taken { IsTakenOut edge self.old.edges self.new.edges }
        ensures others { self.new ≡ record self.old { edges = self.new.edges } }
    {
        self.edges.remove(edge.place());
    }

    /// The first of the edges.
    pub fn first_edge(&self) -> Option<EdgeId>
        ensures { IsFirstPlace self.now.edges result }
    {
        let place = self.edges.first()?;
        Some(EdgeId::at(place))
    }

    /// A node is owed a notification. The error is want of memory.
    pub fn put_owing(&mut self, node: NodeId) -> Result<(), AllocError>
        ensures put { OnOk result (IsPut node self.old.owing self.new.owing) }
        ensures others { self.new ≡ record self.old { owing = self.new.owing } }
    {
        self.owing.insert(node.place())?;
        Ok(())
    }

    /// Nothing is owed to a node, or it is failed.
    pub fn take_owing(&mut self, node: NodeId)
        ensures taken { IsTakenOut node self.old.owing self.new.owing }
        ensures others { self.new ≡ record self.old { owing = self.new.owing } }
    {
        self.owing.remove(node.place());
    }

    /// The first node from a place on that may be owed a notification.
    pub fn owing_from(&self, place: u32) -> Option<NodeId>
        ensures { IsFirstPlaceFrom place self.now.owing result }
    {
        let place = self.owing.first_between(place, u32::MAX)?;
        Some(NodeId::at(place))
    }

    /// The kept frontier of a node grew. The error is want of memory.
    pub fn put_growing(&mut self, node: NodeId) -> Result<(), AllocError>
        ensures put { OnOk result (IsPut node self.old.growing self.new.growing) }
        ensures others { self.new ≡ record self.old { growing = self.new.growing } }
    {
        self.growing.insert(node.place())?;
        Ok(())
    }

    /// No more is kept as complete at a node than is settled.
    pub fn take_growing(&mut self, node: NodeId)
        ensures taken { IsTakenOut node self.old.growing self.new.growing }
        ensures others { self.new ≡ record self.old { growing = self.new.growing } }
    {
        self.growing.remove(node.place());
    }

    /// The first node from a place on whose kept frontier may have more than is settled.
    pub fn growing_from(&self, place: u32) -> Option<NodeId>
        ensures { IsFirstPlaceFrom place self.now.growing result }
    {
        let place = self.growing.first_between(place, u32::MAX)?;
        Some(NodeId::at(place))
    }

    /// A node may acknowledge, if it is an output. The error is want of memory.
    pub fn put_output(&mut self, node: NodeId) -> Result<(), AllocError>
        ensures put { OnOk result (IsPut node self.old.outputs self.new.outputs) }
        ensures others { self.new ≡ record self.old { outputs = self.new.outputs } }
    {
        self.outputs.insert(node.place())?;
        Ok(())
    }

    /// A node may not acknowledge.
    pub fn take_output(&mut self, node: NodeId)
        ensures taken { IsTakenOut node self.old.outputs self.new.outputs }
        ensures others { self.new ≡ record self.old { outputs = self.new.outputs } }
    {
        self.outputs.remove(node.place());
    }

    /// The first of the outputs.
    pub fn first_output(&self) -> Option<NodeId>
        ensures { IsFirstPlace self.now.outputs result }
    {
        let place = self.outputs.first()?;
        Some(NodeId::at(place))
    }

    /// A node may inject, if it is an input. The error is want of memory.
    pub fn put_input(&mut self, node: NodeId) -> Result<(), AllocError>
        ensures put { OnOk result (IsPut node self.old.inputs self.new.inputs) }
        ensures others { self.new ≡ record self.old { inputs = self.new.inputs } }
    {
        self.inputs.insert(node.place())?;
        Ok(())
    }

    /// A node may not inject.
    pub fn take_input(&mut self, node: NodeId)
        ensures taken { IsTakenOut node self.old.inputs self.new.inputs }
        ensures others { self.new ≡ record self.old { inputs = self.new.inputs } }
    {
        self.inputs.remove(node.place());
    }

    /// The first of the inputs.
    pub fn first_input(&self) -> Option<NodeId>
        ensures { IsFirstPlace self.now.inputs result }
    {
        let place = self.inputs.first()?;
        Some(NodeId::at(place))
    }
}
