//! Where a session stands, as lines.
ghost use Rattle.std.specs.Prelude.{◌≡◌, ◌<◌, ◌++◌, not, filter, length, false, IfOk, OnOk, string_bytes};
ghost use Rattle.std.specs.List.{flat_map};
ghost use Rattle.fw_flow.specs.Dataflow.{node_ids};
ghost use Rattle.fw_model.specs.Auto.{edge_ids};
ghost use Rattle.fw_engine.specs.Engine.{flow_of, was_refused};
ghost use Rattle.fw_session.specs.Story.{Story};
ghost use Rattle.fw_live.specs.Aspects.{aspect_line};
ghost use Rattle.fw_live.specs.ShowText as spec;

use crate::text::{name_of, push};
use fw_flow::laws::flow_is_well_formed;
use fw_flow::{EdgeId, NodeId};
use fw_keep::Entry;
use fw_living::Living;
use std::alloc::{AllocError, Global};

// What is told of a node.
#[derive(Clone, Copy)]
enum Aspect {
    // Of an input: what came, and what was injected.
    Source,
    // Up to where it is settled, or that it is failed.
    Settled,
    // Of an output: which epoch or number is next.
    Output,
}

/// Writes where a session stands. The error is want of memory, now or earlier.
pub(crate) fn write_standing<S: Living>(
    alloc: Global,
    session: &S,
    into: &mut Vec<u8>,
) -> Result<(), AllocError>
    ensures { (story : Story) → S.at session.now story
        → OnOk result (into.new.items ≡ into.old.items ++ spec.show_text (flow_of (S.engine_of session.now)) story) }
{
    if session.engine().is_refused() {
        return Err(AllocError);
    }
    write_nodes(alloc, session, Aspect::Source, into)?;
    write_edges(alloc, session, into)?;
    write_nodes(alloc, session, Aspect::Settled, into)?;
    write_nodes(alloc, session, Aspect::Output, into)?;
    write_writes(alloc, session, into)?;
    Ok(())
}

// Writes this of each node of which there is a line.
fn write_nodes<S: Living>(
    alloc: Global,
    session: &S,
    aspect: Aspect,
    into: &mut Vec<u8>,
) -> Result<(), AllocError>
    ensures { (story : Story) → S.at session.now story → OnOk result (into.new.items ≡ into.old.items
        ++ flat_map (aspect_line aspect (flow_of (S.engine_of session.now)) story) (node_ids (flow_of (S.engine_of session.now)))) }
{
    let flow = session.engine().flow();
    flow_is_well_formed(flow);
    for place in 0..flow.nodes() {
        let line = aspect_line(alloc, session, aspect, NodeId::at(place as u32))?;
        push(into, line.as_bytes())?;
    }
    Ok(())
}

// Writes a line of each edge on which messages wait.
fn write_edges<S: Living>(alloc: Global, session: &S, into: &mut Vec<u8>) -> Result<(), AllocError>
    requires { was_refused (S.engine_of session.now) ≡ false }
    ensures { (story : Story) → S.at session.now story → OnOk result (into.new.items ≡ into.old.items
        ++ flat_map (spec.edge_line (flow_of (S.engine_of session.now)) story) (edge_ids (flow_of (S.engine_of session.now)))) }
{
    let flow = session.engine().flow();
    flow_is_well_formed(flow);
    for place in 0..flow.edges() {
        let line = edge_line(alloc, session, EdgeId::at(place as u32))?;
        push(into, line.as_bytes())?;
    }
    Ok(())
}

// The line of this of a node; it is empty where there is none.
fn aspect_line<S: Living>(
    alloc: Global,
    session: &S,
    aspect: Aspect,
    node: NodeId,
) -> Result<String, AllocError>
    requires { node < length (flow_of (S.engine_of session.now)).nodes }
    ensures { (story : Story) → S.at session.now story
        → IfOk result (λ line. string_bytes line ≡ aspect_line aspect (flow_of (S.engine_of session.now)) story node) }
{
    match aspect {
        Aspect::Source => source_line(alloc, session, node),
        Aspect::Settled => settled_line(alloc, session, node),
        Aspect::Output => output_line(alloc, session, node),
    }
}

// The line of a source; it is empty where the node is none.
fn source_line<S: Living>(alloc: Global, session: &S, node: NodeId) -> Result<String, AllocError>
    requires { node < length (flow_of (S.engine_of session.now)).nodes }
    ensures { (story : Story) → S.at session.now story
        → IfOk result (λ line. string_bytes line ≡ spec.source_line (flow_of (S.engine_of session.now)) story node) }
{
    let engine = session.engine();
    let Some(injected) = engine.injected(node) else {
        return Ok(String::new(alloc));
    };
    let name = name_of(engine.flow(), node);
    let came = session.came(node);
    let state = open_word(session.is_open(node));
    format!(in alloc; "source {name} came {came} injected {injected} {state}\n")
}

// Whether a source is open, in a word.
fn open_word(is_open: bool) -> &'static str
    ensures { result.now ≡ spec.open_word is_open }
{
    if is_open { "open" } else { "closed" }
}

// The line of a node: up to where it is settled, or that it is failed.
fn settled_line<S: Living>(alloc: Global, session: &S, node: NodeId) -> Result<String, AllocError>
    ensures { (story : Story) → S.at session.now story
        → IfOk result (λ line. string_bytes line ≡ spec.settled_line (flow_of (S.engine_of session.now)) story node) }
{
    let engine = session.engine();
    let name = name_of(engine.flow(), node);
    if engine.is_failed(node) {
        return format!(in alloc; "node {name} failed\n");
    }
    match engine.settled(node) {
        Some(front) => format!(in alloc; "node {name} {front}\n"),
        None => format!(in alloc; "node {name} all\n"),
    }
}

// The line of an output; it is empty where the node is none.
fn output_line<S: Living>(alloc: Global, session: &S, node: NodeId) -> Result<String, AllocError>
    requires { node < length (flow_of (S.engine_of session.now)).nodes }
    ensures { (story : Story) → S.at session.now story
        → IfOk result (λ line. string_bytes line ≡ spec.output_line (flow_of (S.engine_of session.now)) story node) }
{
    let engine = session.engine();
    let Some(next) = engine.acknowledged(node) else {
        return Ok(String::new(alloc));
    };
    let name = name_of(engine.flow(), node);
    format!(in alloc; "output {name} next {next}\n")
}

// The line of an edge; it is empty where no message waits.
fn edge_line<S: Living>(alloc: Global, session: &S, edge: EdgeId) -> Result<String, AllocError>
    requires live { was_refused (S.engine_of session.now) ≡ false }
    requires there { edge < length (flow_of (S.engine_of session.now)).edges }
    ensures { (story : Story) → S.at session.now story
        → IfOk result (λ line. string_bytes line ≡ spec.edge_line (flow_of (S.engine_of session.now)) story edge) }
{
    let engine = session.engine();
    let Some(queue) = engine.pending(edge) else {
        return Ok(String::new(alloc));
    };
    let Some(message) = queue.first(None) else {
        return Ok(String::new(alloc));
    };
    let name = engine.flow().edge_name(edge);
    let at = &message.at;
    format!(in alloc; "edge {name} waits from {at}\n")
}

// Writes the line of the writes.
fn write_writes<S: Living>(alloc: Global, session: &S, into: &mut Vec<u8>) -> Result<(), AllocError>
    ensures { (story : Story) → S.at session.now story
        → OnOk result (into.new.items ≡ into.old.items ++ spec.writes_line story) }
{
    let writes = session.engine().writes();
    let count = writes.len();
    let flying = in_flight(writes);
    let line = format!(in alloc; "writes {count} in flight {flying}\n")?;
    push(into, line.as_bytes())
}

// How many of the writes the store has not acknowledged.
fn in_flight(writes: &[Entry]) -> usize
    ensures { result ≡ length (filter (λ entry. not entry.acknowledged) writes.now) }
{
    let mut flying = 0;
    for entry in writes {
        if !entry.acknowledged {
            flying += 1;
        }
    }
    flying
}
