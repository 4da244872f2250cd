//! A certificate as text.
ghost use Rattle.std.specs.Prelude.{◌≡◌, Some};
ghost use Rattle.fw_flow.specs.Dataflow.{node_at};
ghost use Rattle.fw_certify.specs.CertificateText.{cause_text, down_line, down_lines, part_text};

use crate::Certificate;
use fw_flow::{Cause, Flow, Lowering, NodeId, Part};
use std::fmt;
use std::marker::Model;

/// A certificate with the flow whose nodes and edges it names. It prints a line for each of its lowerings, in order, ended by LF:
/// `down NODE cut VALUE by CAUSE` or `down NODE note VALUE by CAUSE`, where the value is `present`, `all` or `until STAMP ..`, and
/// the cause `delivered EDGE`, `discarded EDGE`, `notified`, `own` or `note EDGE`. Contracts see this text.
#[derive(Drop)]
pub struct DownLines<'a> {
    flow: &'a Flow,
    entries: &'a [Lowering],
}

impl<'a> Model for DownLines<'a> {
    ghost use Rattle.std.specs.Prelude.{ℕ, List};
    ghost use Rattle.fw_certify.specs.CertificateText.{down_lines};

    ghost Value = { List ℕ };

    ghost view = { λ lines. down_lines lines.flow.now lines.entries.now };
}

impl Certificate {
    /// The lines of the lowerings.
    pub fn display<'a>(&'a self, flow: &'a Flow) -> DownLines<'a>
        ensures { result ≡ down_lines flow.entry.now self.entry.now }
    {
        DownLines {
            flow,
            entries: self.as_slice(),
        }
    }
}

impl<'a> fmt::Display for DownLines<'a> {
    ghost output = { λ text. Some text };

    fn fmt<W: fmt::Write>(&self, f: &mut fmt::Formatter<W>) -> fmt::Result {
        let lines = EntryLines {
            flow: self.flow,
            entries: self.entries,
        };
        write!(f, "{lines}")
    }
}

// The lines of lowerings.
#[derive(Drop)]
struct EntryLines<'a> {
    flow: &'a Flow,
    entries: &'a [Lowering],
}

impl<'a> fmt::Display for EntryLines<'a> {
    ghost output = { λ lines. Some (down_lines lines.flow.now lines.entries.now) };

    fn fmt<W: fmt::Write>(&self, f: &mut fmt::Formatter<W>) -> fmt::Result {
        for lowering in self.entries {
            let line = DownLine {
                flow: self.flow,
                lowering,
            };
            write!(f, "{line}")?;
        }
        Ok(())
    }
}

// The line of a lowering.
#[derive(Drop)]
struct DownLine<'a> {
    flow: &'a Flow,
    lowering: &'a Lowering,
}

impl<'a> fmt::Display for DownLine<'a> {
    ghost output = { λ line. Some (down_line line.flow.now line.lowering.now) };

    fn fmt<W: fmt::Write>(&self, f: &mut fmt::Formatter<W>) -> fmt::Result {
        let name = name_of(self.flow, self.lowering.node);
        let part = part_word(self.lowering.part);
        let value = &self.lowering.to;
        let cause = CauseText::of(self.flow, self.lowering.by);
        writeln!(f, "down {name} {part} {value} by {cause}")
    }
}

/// What did not hold where a value was lowered, or where no cut is left, with the flow whose edges it names. It prints
/// `delivered EDGE`, `discarded EDGE`, `notified`, `own` or `note EDGE`. Contracts see this text.
#[derive(Drop)]
pub struct CauseText<'a> {
    flow: &'a Flow,
    cause: Cause,
}

impl<'a> Model for CauseText<'a> {
    ghost use Rattle.std.specs.Prelude.{ℕ, List};
    ghost use Rattle.fw_certify.specs.CertificateText.{cause_text};

    ghost Value = { List ℕ };

    ghost view = { λ text. cause_text text.flow.now text.cause };
}

impl<'a> CauseText<'a> {
    /// The text of a cause.
    pub fn of(flow: &'a Flow, cause: Cause) -> CauseText<'a>
        ensures { result ≡ cause_text flow.entry.now cause }
    {
        CauseText { flow, cause }
    }
}

impl<'a> fmt::Display for CauseText<'a> {
    ghost output = { λ text. Some text };

    fn fmt<W: fmt::Write>(&self, f: &mut fmt::Formatter<W>) -> fmt::Result {
        match self.cause {
            Cause::Delivered(edge) => write!(f, "delivered {}", self.flow.edge_name(edge)),
            Cause::Discarded(edge) => write!(f, "discarded {}", self.flow.edge_name(edge)),
            Cause::Notified => write!(f, "notified"),
            Cause::Own => write!(f, "own"),
            Cause::Note(edge) => write!(f, "note {}", self.flow.edge_name(edge)),
        }
    }
}

// The word of a part.
fn part_word(part: Part) -> &'static str
    ensures { result.now ≡ part_text part }
{
    match part {
        Part::Cut => "cut",
        Part::Note => "note",
    }
}

// The name of a node; past the last node it is empty.
fn name_of(flow: &Flow, node: NodeId) -> &str
    ensures { result.now ≡ (node_at flow.now node).name }
{
    if (node.place() as usize) < flow.nodes() {
        flow.node_name(node).as_str()
    } else {
        ""
    }
}
