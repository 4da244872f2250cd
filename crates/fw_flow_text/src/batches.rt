//! The batches of a flow's inputs as their text.
ghost use Rattle.std.specs.Prelude.{◌≡◌, ◌<◌, Some, length, map};
ghost use Rattle.fw_bag.specs.RecText.{rec_text};
ghost use Rattle.fw_lines.specs.Written.{spaced};
ghost use Rattle.fw_flow_text.specs.BatchesText.{text_of_batches, line_of_batch, lines_of_batches, lines_of_node};

use fw_bag::Bag;
use fw_flow::{Flow, FullName, NodeId};
use fw_lines::Batches;
use std::fmt;
use std::marker::Model;

/// The batches of a flow's inputs as a text: a line for each batch, input by input and epoch by epoch, each ended by LF, as
/// `read_batches` takes them. Contracts see this text.
#[derive(Drop)]
pub struct BatchesText<'a> {
    flow: &'a Flow,
    batches: &'a Batches,
}

impl<'a> Model for BatchesText<'a> {
    ghost use Rattle.std.specs.Prelude.{ℕ, List};
    ghost use Rattle.fw_flow_text.specs.BatchesText.{text_of_batches};

    ghost Value = { List ℕ };

    ghost view = { λ text. text_of_batches text.flow.now text.batches.now };
}

impl<'a> BatchesText<'a> {
    /// The text of these batches of the flow. What they have for a node that is no input is left out.
    pub fn of(flow: &'a Flow, batches: &'a Batches) -> Self
        ensures { result ≡ text_of_batches flow.now batches.now }
    {
        BatchesText { flow, batches }
    }
}

impl<'a> fmt::Display for BatchesText<'a> {
    ghost output = { λ text. Some text };

    fn fmt<W: fmt::Write>(&self, f: &mut fmt::Formatter<W>) -> fmt::Result {
        let lines = AllLines {
            flow: self.flow,
            batches: self.batches,
        };
        write!(f, "{lines}")
    }
}

// The lines of each node.
#[derive(Drop)]
struct AllLines<'a> {
    flow: &'a Flow,
    batches: &'a Batches,
}

impl<'a> fmt::Display for AllLines<'a> {
    ghost output = { λ lines. Some (text_of_batches lines.flow.now lines.batches.now) };

    fn fmt<W: fmt::Write>(&self, f: &mut fmt::Formatter<W>) -> fmt::Result {
        for place in 0..self.flow.nodes() {
            let lines = NodeLines {
                flow: self.flow,
                batches: self.batches,
                node: NodeId::at(place as u32),
            };
            write!(f, "{lines}")?;
        }
        Ok(())
    }
}

// The lines of a node that the flow has; none of a node that is no input.
#[derive(Drop)]
struct NodeLines<'a> {
    flow: &'a Flow,
    batches: &'a Batches,
    node: NodeId,
    ghost there: { node < length flow.now.nodes },
}

impl<'a> fmt::Display for NodeLines<'a> {
    ghost output = { λ lines. Some (lines_of_node lines.flow.now lines.batches.now lines.node) };

    fn fmt<W: fmt::Write>(&self, f: &mut fmt::Formatter<W>) -> fmt::Result {
        if !self.flow.kind(self.node).is_input() {
            return Ok(());
        }
        let lines = BatchLines {
            name: self.flow.node_name(self.node),
            batches: self.batches.of(self.node.place()),
        };
        write!(f, "{lines}")
    }
}

// The lines of an input's batches, those of earlier epochs first.
#[derive(Drop)]
struct BatchLines<'a> {
    name: &'a FullName,
    batches: &'a [Bag],
}

impl<'a> fmt::Display for BatchLines<'a> {
    ghost output = { λ lines. Some (lines_of_batches lines.name.now (map (λ bag. bag.recs) lines.batches.now)) };

    fn fmt<W: fmt::Write>(&self, f: &mut fmt::Formatter<W>) -> fmt::Result {
        for batch in self.batches {
            let line = BatchLine {
                name: self.name,
                batch,
            };
            write!(f, "{line}")?;
        }
        Ok(())
    }
}

// The line of a batch.
#[derive(Drop)]
struct BatchLine<'a> {
    name: &'a FullName,
    batch: &'a Bag,
}

impl<'a> fmt::Display for BatchLine<'a> {
    ghost output = { λ line. Some (line_of_batch line.name.now line.batch.now.recs) };

    fn fmt<W: fmt::Write>(&self, f: &mut fmt::Formatter<W>) -> fmt::Result {
        let name = self.name;
        let recs = SpacedRecs { recs: self.batch };
        writeln!(f, "batch {name}{recs}")
    }
}

// The recs of a bag in ascending order, each behind a space.
#[derive(Drop)]
struct SpacedRecs<'a> {
    recs: &'a Bag,
}

impl<'a> fmt::Display for SpacedRecs<'a> {
    ghost output = { λ words. Some (spaced (map rec_text words.recs.now.recs)) };

    fn fmt<W: fmt::Write>(&self, f: &mut fmt::Formatter<W>) -> fmt::Result {
        for rec in self.recs {
            write!(f, " {rec}")?;
        }
        Ok(())
    }
}
