//! What the text of a certificate says.
use fw_certify::Certificate;
use fw_flow::{Cause, Cut, Cuts, Lowering, NodeId};
use fw_lines::Number;

/// Where the lowerings of a certificate lead.
#[derive(Debug, Drop)]
pub enum Ending {
    /// To a choice that is the largest: to what each node is cut.
    Largest(Cuts),
    /// To values at which no cut of a node is left.
    NoneLeft {
        /// The node.
        node: NodeId,
        /// The inclusion of its for which none is left; without one the node offers nothing.
        by: Option<Cause>,
    },
}

/// What the text of a certificate says: lowerings, and where they lead. Whether it is right is another question.
#[derive(Debug, Drop)]
pub struct Claim {
    /// The lowerings, in order.
    pub lowerings: Certificate,
    /// Where they lead.
    pub ending: Ending,
}

/// What a line of a certificate says of a flow.
#[derive(Debug, Drop)]
pub enum ClaimEntry {
    /// To what a node is cut.
    Cut(NodeId, Cut),
    /// A lowering.
    Down(Lowering),
    /// No cut of a node is left.
    NoneLeft(NodeId, Option<Cause>),
    /// How many lowerings there are, and whether they lead to a choice.
    End(Number, bool),
}
