//! How a choice was found.
use fw_flow::{Cause, EdgeId, Flow, Lowering, NodeId, Part, Trail};
use row_words::part;
use std::alloc::AllocError;
use std::fmt::Write;

/// Tells what was lowered, in order, and how many steps of work the descent took at most.
pub fn tell_trail(
    flow: &Flow,
    lines: &str,
    trail: &Trail,
    told: &mut String,
) -> Result<(), AllocError> {
    for lowering in trail.as_slice() {
        tell_lowering(flow, lines, lowering, told)?;
    }
    let most = most_steps(flow, trail);
    writeln!(told, "at most {most} steps")
}

/// Tells of which node which value was lowered, to what, and what did not hold of it.
fn tell_lowering(
    flow: &Flow,
    lines: &str,
    lowering: &Lowering,
    told: &mut String,
) -> Result<(), AllocError> {
    let node = node_name(flow, lowering.node);
    let part = part_word(lowering.part);
    let cause = cause_word(lowering.by);
    write!(told, "lower {node} {part} {} by {cause}", lowering.to)?;
    if let Some(edge) = cause_edge(lowering.by) {
        told.push(' ')?;
        told.push_str(edge_name(flow, lines, edge))?;
    }
    told.push('\n')
}

/// The word of what is lowered.
fn part_word(part: Part) -> &'static str {
    match part {
        Part::Cut => "cut",
        Part::Note => "note",
    }
}

/// The word of a cause.
fn cause_word(cause: Cause) -> &'static str {
    match cause {
        Cause::Delivered(_) => "delivered",
        Cause::Discarded(_) => "discarded",
        Cause::Notified => "notified",
        Cause::Own => "own",
        Cause::Note(_) => "note",
    }
}

/// The edge of a cause, if it has one.
fn cause_edge(cause: Cause) -> Option<EdgeId> {
    match cause {
        Cause::Delivered(edge) | Cause::Discarded(edge) | Cause::Note(edge) => Some(edge),
        Cause::Notified | Cause::Own => None,
    }
}

/// The name of a node; empty where there is none.
fn node_name(flow: &Flow, node: NodeId) -> &str {
    if node.place() as usize >= flow.nodes() {
        return "";
    }
    flow.node_name(node).as_str()
}

/// The name of an edge, by its line; empty where there is none.
fn edge_name<'a>(flow: &Flow, lines: &'a str, edge: EdgeId) -> &'a str {
    for line in lines.lines() {
        if let ("edge", rest) = part(line) {
            let (name, _) = part(rest);
            if flow.edge_named(name) == Some(edge) {
                return name;
            }
        }
    }
    ""
}

/// How many steps a descent with this trail takes at most: three for each edge and two for each node, and after a lowering two
/// more, and three for each edge of its node.
fn most_steps(flow: &Flow, trail: &Trail) -> usize {
    let mut most = most_tests(flow.edges(), flow.nodes());
    for lowering in trail.as_slice() {
        let node = lowering.node;
        let degree = flow
            .in_edges(node)
            .len()
            .saturating_add(flow.out_edges(node).len());
        most = most.saturating_add(most_tests(degree, 1));
    }
    most
}

/// Three for each edge and two for each node.
fn most_tests(edges: usize, nodes: usize) -> usize {
    edges
        .saturating_mul(3)
        .saturating_add(nodes.saturating_mul(2))
}
