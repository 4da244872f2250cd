//! What comes of a step, as text.
ghost use Rattle.std.specs.Prelude.{◌≡◌, Some};
ghost use Rattle.fw_flow.specs.Dataflow.{node_at};
ghost use Rattle.fw_running.specs.EffectText.{recs_text, ack_line, cut_line, cut_lines, low_line, low_lines};

use crate::Effect;
use fw_bag::Bag;
use fw_flow::{Cut, Flow, FullName, Kind, NodeId};
use fw_time::Stamp;
use std::fmt;
use std::marker::Model;

/// What came of a step, with the flow whose nodes it names. It prints the lines of the effect, each ended by LF: nothing,
/// `ack OUTPUT epoch EPOCH KEY:VALUE ..` (or `number` and a number), or for each node in order `cut NODE present`,
/// `cut NODE all` or `cut NODE until STAMP ..`, or `low NODE all` or `low NODE until STAMP ..`. Contracts see this text.
#[derive(Drop)]
pub struct Shown<'a> {
    flow: &'a Flow,
    effect: Option<&'a Effect>,
}

impl<'a> Model for Shown<'a> {
    ghost use Rattle.std.specs.Prelude.{ℕ, List, option_copied};
    ghost use Rattle.fw_running.specs.Shown.{shown_text};

    ghost Value = { List ℕ };

    ghost view = { λ shown. shown_text shown.flow.now (option_copied shown.effect) };
}

impl<'a> Shown<'a> {
    ghost use Rattle.std.specs.Prelude.{option_copied};
    ghost use Rattle.fw_running.specs.Shown.{shown_text};

    /// The effect, if there is one, with its flow.
    pub fn of(flow: &'a Flow, effect: Option<&'a Effect>) -> Self
        ensures { result ≡ shown_text flow.now (option_copied effect.entry) }
    {
        Shown { flow, effect }
    }
}

impl<'a> fmt::Display for Shown<'a> {
    ghost output = { λ text. Some text };

    fn fmt<W: fmt::Write>(&self, f: &mut fmt::Formatter<W>) -> fmt::Result {
        match self.effect {
            None | Some(Effect::Quiet) => Ok(()),
            Some(Effect::Acked { output, at, recs }) => {
                let line = AckLine {
                    name: name_of(self.flow, *output),
                    kind: self.flow.kind(*output),
                    at,
                    recs,
                };
                write!(f, "{line}")
            }
            Some(Effect::Cuts(choice)) => {
                let lines = CutLines {
                    flow: self.flow,
                    cuts: choice.cuts.as_slice(),
                };
                write!(f, "{lines}")
            }
            Some(Effect::Lows(choice)) => {
                let lines = LowLines {
                    flow: self.flow,
                    cuts: choice.cuts.as_slice(),
                };
                write!(f, "{lines}")
            }
        }
    }
}

// The name of a node; past the last node it is empty.
fn name_of(flow: &Flow, node: NodeId) -> &str
    ensures { result.now ≡ (node_at flow.now node).name }
{
    if (node.place() as usize) < flow.nodes() {
        flow.node_name(node).as_str()
    } else {
        ""
    }
}

// The line of an acknowledgement.
#[derive(Drop)]
struct AckLine<'a> {
    name: &'a str,
    kind: Kind,
    at: &'a Stamp,
    recs: &'a Bag,
}

impl<'a> fmt::Display for AckLine<'a> {
    ghost output = { λ line. Some (ack_line line.name.now line.kind line.at.now line.recs.now.recs) };

    fn fmt<W: fmt::Write>(&self, f: &mut fmt::Formatter<W>) -> fmt::Result {
        let name = self.name;
        let at = self.at;
        let recs = SpacedRecs { recs: self.recs };
        match self.kind {
            Kind::OutputNumber => writeln!(f, "ack {name} number {at}{recs}"),
            _ => writeln!(f, "ack {name} epoch {at}{recs}"),
        }
    }
}

// The recs of a bag in ascending order, each after a space.
#[derive(Drop)]
struct SpacedRecs<'a> {
    recs: &'a Bag,
}

impl<'a> fmt::Display for SpacedRecs<'a> {
    ghost output = { λ spaced. Some (recs_text spaced.recs.now.recs) };

    fn fmt<W: fmt::Write>(&self, f: &mut fmt::Formatter<W>) -> fmt::Result {
        for rec in self.recs {
            write!(f, " {rec}")?;
        }
        Ok(())
    }
}

// The line of each node's cut, where the cuts stand in the order of the nodes.
#[derive(Drop)]
struct CutLines<'a> {
    flow: &'a Flow,
    cuts: &'a [Cut],
}

impl<'a> fmt::Display for CutLines<'a> {
    ghost output = { λ lines. Some (cut_lines lines.flow.now lines.cuts.now) };

    fn fmt<W: fmt::Write>(&self, f: &mut fmt::Formatter<W>) -> fmt::Result {
        for place in 0..self.flow.nodes() {
            let line = CutLine {
                name: self.flow.node_name(NodeId::at(place as u32)),
                cut: self.cuts.get(place),
            };
            write!(f, "{line}")?;
        }
        Ok(())
    }
}

// The line of a node's cut; a node for which no cut stands keeps its state.
#[derive(Drop)]
struct CutLine<'a> {
    name: &'a FullName,
    cut: Option<&'a Cut>,
}

impl<'a> fmt::Display for CutLine<'a> {
    ghost use Rattle.std.specs.Prelude.{option_copied, unwrap_or};
    ghost use Rattle.fw_flow.specs.declared.choice.Cut.TheVariants.{Present};

    ghost output = { λ line. Some (cut_line line.name.now (unwrap_or (option_copied line.cut) Present)) };

    fn fmt<W: fmt::Write>(&self, f: &mut fmt::Formatter<W>) -> fmt::Result {
        let name = self.name;
        match self.cut {
            Some(cut) => writeln!(f, "cut {name} {cut}"),
            None => writeln!(f, "cut {name} {}", Cut::Present),
        }
    }
}

// The line of each node's low watermark, where the cuts stand in the order of the nodes.
#[derive(Drop)]
struct LowLines<'a> {
    flow: &'a Flow,
    cuts: &'a [Cut],
}

impl<'a> fmt::Display for LowLines<'a> {
    ghost output = { λ lines. Some (low_lines lines.flow.now lines.cuts.now) };

    fn fmt<W: fmt::Write>(&self, f: &mut fmt::Formatter<W>) -> fmt::Result {
        for place in 0..self.flow.nodes() {
            let line = LowLine {
                name: self.flow.node_name(NodeId::at(place as u32)),
                cut: self.cuts.get(place),
            };
            write!(f, "{line}")?;
        }
        Ok(())
    }
}

// The line of a node's low watermark; that of a node which keeps its state, or for which no cut stands, is all.
#[derive(Drop)]
struct LowLine<'a> {
    name: &'a FullName,
    cut: Option<&'a Cut>,
}

impl<'a> fmt::Display for LowLine<'a> {
    ghost use Rattle.std.specs.Prelude.{option_copied, unwrap_or};
    ghost use Rattle.fw_flow.specs.declared.choice.Cut.TheVariants.{Present};

    ghost output = { λ line. Some (low_line line.name.now (unwrap_or (option_copied line.cut) Present)) };

    fn fmt<W: fmt::Write>(&self, f: &mut fmt::Formatter<W>) -> fmt::Result {
        let name = self.name;
        match self.cut {
            Some(Cut::At(front)) => writeln!(f, "low {name} {front}"),
            Some(Cut::Present) | None => writeln!(f, "low {name} all"),
        }
    }
}
