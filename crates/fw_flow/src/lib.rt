//! Dataflows: nodes, edges, kinds and policies, events and messages, cuts and choices, and the steps of a run.
//!
//! A `RawFlow` takes declarations by names, `Flow::check` spells out each split node as its replicas, tests every rule on this
//! expansion and gives the `Flow`, or the first broken rule with its line; `FlowBuilder` does both for flows that are made in
//! code, and `Flow::add_batch` gives their inputs batches. A `Flow` answers look-ups by places, also past
//! its end, and projects frontiers along its edges (`Flow::phi`, `Flow::psi`, `Flow::psi_back`). The other types are the
//! words of a run, over which `fw_model` defines what a run does.
#![tactic(auto)]

mod batches;
mod builder;
mod check;
mod choice;
mod copies;
mod draft;
mod event;
mod expand;
mod flow;
mod full_name;
mod ids;
mod key_part;
mod kind;
pub mod laws;
mod lists;
mod loops;
mod name;
mod node;
mod parts;
mod premises;
mod projection;
mod raw;
mod restoring;
mod sending;
mod sent_table;
mod side;
mod sources;
mod step;
mod steps;
mod trail;
mod walks;
mod words;

pub use batches::BatchFault;
pub use builder::{BuildFault, FlowBuilder};
pub use choice::{Choice, Counted, Cut, OfEdge, Offer, Offered, Recorded, Stamps};
pub use event::{Causes, Event, Message};
pub use flow::Flow;
pub use full_name::{FullName, is_full_name};
pub use ids::{EdgeId, LoopId, NodeId};
pub use key_part::{KeyPart, is_of_part};
pub use kind::{Domain, Kind, Policy, RawKind};
pub use lists::{CountedMessages, Cuts, Fronts, Notices, OfEdges, Records};
pub use name::Name;
pub use node::{Edge, Loop, Node};
pub use raw::{Declaration, Declared, RawFlow};
pub use restoring::Restoring;
pub use sent_table::SentTable;
pub use side::{Inclusion, Limit, Side};
pub use step::{Nodes, Step};
pub use steps::Steps;
pub use trail::{Cause, Lowering, Part, Trail};
