//! The flow of a row, and what is of it by words: nodes, edges, cuts and what a sequence sent.
ghost use Rattle.std.specs.Prelude.{◌<◌, length, IfOk};

use crate::NoAnswer;
use crate::fronts::front_of;
use crate::rows::declarations;
use fw_flow::{Cut, EdgeId, Flow, NodeId, SentTable};
use fw_flow_text::read_flow;
use fw_lines::ReadFault;
use std::alloc::{AllocError, Global};
use std::fmt::Write;

/// The flow that the lines of a row declare; none where they declare none, and then it is told why. The error is want of
/// memory.
pub fn flow_of(alloc: Global, lines: &str, told: &mut String) -> Result<Option<Flow>, AllocError> {
    let text = declarations(alloc, lines)?;
    match read_flow(alloc, text.as_bytes()) {
        Ok(flow) => Ok(Some(flow)),
        Err(ReadFault::Refused(refusal)) => {
            writeln!(told, "{refusal}")?;
            Ok(None)
        }
        Err(ReadFault::NoMemory) => Err(AllocError),
    }
}

/// The node of a name.
pub fn node_of(flow: &Flow, name: &str) -> Result<NodeId, NoAnswer>
    ensures { IfOk result (λ p. p < length flow.now.nodes) }
{
    match flow.node_named(name) {
        Some(node) if (node.place() as usize) < flow.nodes() => Ok(node),
        _ => Err(NoAnswer::NotSpelled),
    }
}

/// The edge of a name.
pub fn edge_of(flow: &Flow, name: &str) -> Result<EdgeId, NoAnswer>
    ensures { IfOk result (λ e. e < length flow.now.edges) }
{
    match flow.edge_named(name) {
        Some(edge) if (edge.place() as usize) < flow.edges() => Ok(edge),
        _ => Err(NoAnswer::NotSpelled),
    }
}

/// The cut that is spelled `present`, or as a frontier.
pub fn cut_of(alloc: Global, text: &str) -> Result<Cut, NoAnswer> {
    if text == "present" {
        Ok(Cut::Present)
    } else {
        Ok(Cut::At(front_of(alloc, text)?))
    }
}

/// How many messages a sequence sent, by words of an epoch, a colon and their number.
pub fn table_of(alloc: Global, words: &str) -> Result<SentTable, NoAnswer> {
    let mut table = SentTable::new(alloc);
    for word in words.split_whitespace() {
        add_sent(&mut table, word)?;
    }
    Ok(table)
}

/// Adds how many messages were sent in an epoch, if it comes next.
fn add_sent(table: &mut SentTable, word: &str) -> Result<(), NoAnswer> {
    let Some((epoch, count)) = word.split_once(':') else {
        return Err(NoAnswer::NotSpelled);
    };
    let epoch = epoch.parse::<u32>()?;
    let count = count.parse::<u64>()?;
    if !table.takes(epoch) {
        return Err(NoAnswer::NotSpelled);
    }
    table.push(epoch, count)?;
    Ok(())
}
