//! What declarations are as a flow, what its edges make of frontiers, and which records are those of its nodes.
use crate::choices::tell_choice;
use crate::records::{of_node, read};
use crate::roots;
use fw_flow::{EdgeId, Flow, SentTable};
use fw_frontier::Front;
use row_words::{Answers, NoAnswer, Row, after, edge_of, front_in, part, table_of, tell_row};
use std::alloc::{AllocError, Global};
use std::fmt::Write;

/// A flow, the lines of its row, and how many messages its sequence sent.
#[derive(Drop)]
struct Values<'a> {
    alloc: Global,
    flow: &'a Flow,
    lines: &'a str,
    sent: SentTable,
}

/// Tells that the declarations are a flow, the answer to each line that asks something of it, and then, where there are
/// offers, the choice to which it is restored.
pub fn tell(alloc: Global, flow: &Flow, row: Row<'_>, told: &mut String) -> Result<(), AllocError> {
    told.push_str("accepted\n")?;
    tell_values(alloc, flow, row, told)?;
    if after(row.lines, "offer").is_some() {
        tell_choice(alloc, flow, row.lines, told)?;
    }
    Ok(())
}

/// Tells the answer to each line.
fn tell_values(
    alloc: Global,
    flow: &Flow,
    row: Row<'_>,
    told: &mut String,
) -> Result<(), AllocError> {
    let lines = row.lines;
    let Ok(sent) = table_of(alloc, after(lines, "sent").unwrap_or("")) else {
        return told.push_str("no numbers sent\n");
    };
    let mut values = Values {
        alloc,
        flow,
        lines,
        sent,
    };
    tell_row(alloc, row, &mut values, told)
}

impl Answers for Values<'_> {
    ghost stands = { λ _. Unit {0} };

    fn answer(&mut self, line: &str, said: &mut String) -> Result<(), NoAnswer> {
        let (word, rest) = part(line);
        match word {
            "phi" | "psi" | "back" => {
                say_projected(self.alloc, self.flow, &self.sent, word, rest, said)
            }
            "checkpoint" | "event" => of_node(self.alloc, self.flow, self.lines, line, said),
            "read" => read(self.alloc, self.lines, rest, said),
            "head" => roots::head(self.alloc, self.lines, rest, said),
            "root" => roots::root(self.alloc, self.flow, self.lines, rest, said),
            _ => Err(NoAnswer::NotAsked),
        }
    }
}

/// Says a frontier as an edge projects it: `phi`, `psi`, or `back` for psi backwards.
fn say_projected(
    alloc: Global,
    flow: &Flow,
    sent: &SentTable,
    word: &str,
    text: &str,
    said: &mut String,
) -> Result<(), NoAnswer> {
    let (edge, front) = part(text);
    let edge = edge_of(flow, edge)?;
    let front = if word == "back" {
        back(alloc, flow, edge, front)?
    } else {
        forth(alloc, flow, sent, word, edge, front)?
    };
    Ok(write!(said, "{front}")?)
}

/// A frontier of an edge's receiver, through psi backwards.
fn back(alloc: Global, flow: &Flow, edge: EdgeId, text: &str) -> Result<Front, NoAnswer> {
    let front = front_in(alloc, text, &flow.domain(flow.dst(edge)))?;
    Ok(flow.psi_back(alloc, edge, &front)?)
}

/// A frontier of an edge's sender, through psi, or else through phi.
fn forth(
    alloc: Global,
    flow: &Flow,
    sent: &SentTable,
    word: &str,
    edge: EdgeId,
    text: &str,
) -> Result<Front, NoAnswer> {
    let front = front_in(alloc, text, &flow.domain(flow.src(edge)))?;
    if word == "psi" {
        Ok(flow.psi(alloc, edge, &front)?)
    } else {
        Ok(flow.phi(alloc, edge, &front, sent)?)
    }
}
