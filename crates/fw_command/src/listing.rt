//! The command `check` lists the nodes of a flow.
ghost use Rattle.std.specs.Prelude.{◌≡◌, ◌<◌, Some, length};
ghost use Rattle.fw_flow.specs.DomainText.{domain_text};
ghost use Rattle.fw_command.specs.Listing.{node_line, check_text, kind_word, policy_word};
ghost use Rattle.fw_command.specs.Writing.{Writes};

use fw_flow::{Domain, Flow, Kind, NodeId, Policy};
use fw_outside::{OutFault, Sink};
use std::alloc::Global;
use std::fmt;

/// Prints the line of each node, in order, and that of the flow.
pub fn list<O: Sink>(alloc: Global, flow: &Flow, out: &mut O) -> Result<(), OutFault>
    ensures { Writes (check_text flow.now) result (O.view out.old) (O.view out.new) }
{
    let listing = Listing { flow };
    let text = format!(in alloc; "{listing}")?;
    out.write(text.as_bytes())
}

// The lines of a flow.
#[derive(Drop)]
struct Listing<'a> {
    flow: &'a Flow,
}

impl<'a> fmt::Display for Listing<'a> {
    ghost output = { λ listing. Some (check_text listing.flow.now) };

    fn fmt<W: fmt::Write>(&self, f: &mut fmt::Formatter<W>) -> fmt::Result {
        for place in 0..self.flow.nodes() {
            let line = NodeLine {
                flow: self.flow,
                node: NodeId::at(place as u32),
            };
            write!(f, "{line}")?;
        }
        let (nodes, edges, loops) = (self.flow.nodes(), self.flow.edges(), self.flow.loops());
        writeln!(f, "flow nodes {nodes} edges {edges} loops {loops}")
    }
}

// The line of a node of the flow.
#[derive(Drop)]
struct NodeLine<'a> {
    flow: &'a Flow,
    node: NodeId,
    ghost declared: { node < length flow.now.nodes },
}

impl<'a> fmt::Display for NodeLine<'a> {
    ghost output = { λ line. Some (node_line line.flow.now line.node) };

    fn fmt<W: fmt::Write>(&self, f: &mut fmt::Formatter<W>) -> fmt::Result {
        let name = self.flow.node_name(self.node);
        let kind = self.flow.kind(self.node);
        let word = kind_word(&kind);
        let domain = DomainWord {
            flow: self.flow,
            domain: self.flow.domain_word(self.node),
        };
        let policy = policy_word(&kind, &self.flow.policy(self.node));
        writeln!(f, "node {name} {word} {domain} {policy}")
    }
}

// The word of a kind; that of an output's domain has a place of its own.
fn kind_word(kind: &Kind) -> &'static str
    ensures { result.now ≡ kind_word kind.now }
{
    if kind.is_output() {
        "output"
    } else {
        kind.as_str()
    }
}

// The word of a policy; `-` for inputs and outputs, which have none.
fn policy_word(kind: &Kind, policy: &Policy) -> &'static str
    ensures { result.now ≡ policy_word kind.now policy.now }
{
    if kind.is_input() || kind.is_output() {
        "-"
    } else {
        policy.as_str()
    }
}

// A domain of the flow.
#[derive(Drop)]
struct DomainWord<'a> {
    flow: &'a Flow,
    domain: Domain,
}

impl<'a> fmt::Display for DomainWord<'a> {
    ghost output = { λ word. Some (domain_text word.flow.now word.domain) };

    fn fmt<W: fmt::Write>(&self, f: &mut fmt::Formatter<W>) -> fmt::Result {
        match self.domain {
            Domain::Epoch => write!(f, "epoch"),
            Domain::Number => write!(f, "number"),
            Domain::Loop(id) => {
                let name = self.flow.loop_name(id);
                write!(f, "loop:{name}")
            }
        }
    }
}
