//! What a call opens with.
ghost use Rattle.std.specs.Prelude.{◌≡◌, ◌<◌, ◌++◌, ℕ, length, List, IfErr, IfOk, IsSome, OnErr, OnOk, IsErrOf, string_bytes};
ghost use Rattle.std.specs.List.{flat_map};
ghost use Rattle.fw_flow.specs.Dataflow.{node_ids};
ghost use Rattle.fw_command.specs.Writing.{IsWritten};
ghost use Rattle.fw_engine.specs.Engine.{flow_of};
ghost use Rattle.fw_session.specs.Story.{Story};
ghost use Rattle.fw_live.specs.Call.{stopped_status};
ghost use Rattle.fw_live.specs.Serving.{IsCutBy};
ghost use Rattle.fw_run.specs.declared.status.Status.TheVariants.{Done};
ghost use Rattle.fw_run.specs.Call.{CountsWrites};
ghost use Rattle.fw_relive.specs.Opening as spec;
ghost use Rattle.fw_relive.specs.Opening.{CutsOpening, lines_found, restart_in};

use fw_flow::laws::flow_is_well_formed;
use fw_flow::{Flow, NodeId};
use fw_lasting::Resumed;
use fw_live::{ServeFault, write_outcome};
use fw_living::{LifeFault, Living};
use fw_outside::{OutFault, Sink};
use std::alloc::{AllocError, Global};

/// Keeps where the start led, with the lines that were kept last, and then writes what it goes on from.
///
/// # Errors
///
/// `Store` where the store fails, before anything is written; `Write` where the output fails; `NoMemory`.
pub(crate) fn open<S: Living, O: Sink>(
    alloc: Global,
    session: &mut S,
    resumed: &Option<Resumed>,
    out: &mut O,
) -> Result<(), ServeFault>
    ensures flow { flow_of (S.engine_of session.new) ≡ flow_of (S.engine_of session.old) }
    ensures told_before { IsSome (S.records session.new) → IsSome (S.records session.old) }
    ensures opened { (story : Story) → S.at session.old story → OnOk result (S.at session.new story × S.keeps session.new story (lines_found (restart_in resumed.now))
        × IsWritten (spec.opened_text (flow_of (S.engine_of session.old)) story (restart_in resumed.now)) (O.view out.old) (O.view out.new)) }
    ensures cut { (story : Story) → S.at session.old story → IfErr result (λ fault.
        CutsOpening fault (spec.opened_text (flow_of (S.engine_of session.old)) story (restart_in resumed.now)) (O.view out.old) (O.view out.new)) }
    ensures texts { S.digests_of session.new ≡ S.digests_of session.old }
    ensures left { (story : Story) → S.at session.old story → S.may_restart session.old → IsSome (S.records session.new) → S.may_restart session.new }
    ensures writes { OnOk result (CountsWrites Done (O.view out.old) (O.view out.new)) }
    ensures writes_failed { IfErr result (λ fault. CountsWrites (stopped_status fault) (O.view out.old) (O.view out.new)) }
    ensures no_read { IsErrOf result ServeFault.Read → ⊥ }
{
    let Ok(text) = opening_text(alloc, &*session, resumed) else {
        return Err(ServeFault::NoMemory);
    };
    keep(session, lines_of(resumed))?;
    write(out, &text)
}

// The whole text.
fn opening_text<S: Living>(
    alloc: Global,
    session: &S,
    resumed: &Option<Resumed>,
) -> Result<Vec<u8>, AllocError>
    ensures { (story : Story) → S.at session.now story
        → IfOk result (λ text. text.items ≡ spec.opened_text (flow_of (S.engine_of session.now)) story (restart_in resumed.now)) }
{
    let mut text = Vec::new(alloc);
    put_came(alloc, session, &mut text)?;
    put_found(alloc, session.engine().flow(), resumed, &mut text)?;
    put(&mut text, b"done 0\n")?;
    Ok(text)
}

// How many batches came to each input, and which is closed.
fn put_came<S: Living>(alloc: Global, session: &S, into: &mut Vec<u8>) -> Result<(), AllocError>
    ensures { (story : Story) → S.at session.now story → OnOk result (into.new.items ≡ into.old.items
        ++ flat_map (spec.from_line (flow_of (S.engine_of session.now)) story) (node_ids (flow_of (S.engine_of session.now)))) }
{
    let flow = session.engine().flow();
    flow_is_well_formed(flow);
    for place in 0..flow.nodes() {
        let line = from_line(alloc, session, NodeId::at(place as u32))?;
        put(into, line.as_bytes())?;
    }
    Ok(())
}

// The line of an input; it is empty where the node is none.
fn from_line<S: Living>(alloc: Global, session: &S, node: NodeId) -> Result<String, AllocError>
    requires { node < length (flow_of (S.engine_of session.now)).nodes }
    ensures { (story : Story) → S.at session.now story
        → IfOk result (λ line. string_bytes line ≡ spec.from_line (flow_of (S.engine_of session.now)) story node) }
{
    let flow = session.engine().flow();
    if !flow.kind(node).is_input() {
        return Ok(String::new(alloc));
    }
    let name = flow.node_name(node).as_str();
    let came = session.came(node);
    let end = closed_word(session.is_open(node));
    format!(in alloc; "from {name} {came}{end}\n")
}

// What is told of a source that is closed.
fn closed_word(is_open: bool) -> &'static str
    ensures { result.now ≡ spec.closed_word is_open }
{
    if is_open { "" } else { " closed" }
}

// What was found of a root, if there is one.
fn put_found(
    alloc: Global,
    flow: &Flow,
    resumed: &Option<Resumed>,
    into: &mut Vec<u8>,
) -> Result<(), AllocError>
    ensures { OnOk result (into.new.items ≡ into.old.items ++ spec.found_text flow.now (restart_in resumed.now)) }
{
    match resumed {
        Some(resumed) => put_resumed(alloc, flow, resumed, into),
        None => Ok(()),
    }
}

// How many steps were done, the lines of the root, and how every node was restored.
fn put_resumed(
    alloc: Global,
    flow: &Flow,
    resumed: &Resumed,
    into: &mut Vec<u8>,
) -> Result<(), AllocError>
    ensures { OnOk result (into.new.items ≡ into.old.items ++ spec.restart_text flow.now (spec.restart_of resumed.now)) }
{
    let steps = resumed.steps;
    let line = format!(in alloc; "resumed at {steps}\n")?;
    put(into, line.as_bytes())?;
    put(into, resumed.lines.as_slice())?;
    write_outcome(alloc, flow, &resumed.stepped, into)?;
    Ok(())
}

// Puts bytes behind the others.
fn put(into: &mut Vec<u8>, bytes: &[u8]) -> Result<(), AllocError>
    ensures { OnOk result (into.new.items ≡ into.old.items ++ bytes.now) }
{
    into.extend_from_slice(bytes)?;
    Ok(())
}

// The lines that were kept last.
fn lines_of(resumed: &Option<Resumed>) -> &[u8]
    ensures { result.now ≡ lines_found (restart_in resumed.now) }
{
    match resumed {
        Some(resumed) => resumed.lines.as_slice(),
        None => &[],
    }
}

// Keeps them once more, with where the start led.
fn keep<S: Living>(session: &mut S, lines: &[u8]) -> Result<(), ServeFault>
    ensures flow { flow_of (S.engine_of session.new) ≡ flow_of (S.engine_of session.old) }
    ensures told_before { IsSome (S.records session.new) → IsSome (S.records session.old) }
    ensures kept { (story : Story) → S.at session.old story → OnOk result (S.at session.new story × S.keeps session.new story lines.now) }
    ensures texts { S.digests_of session.new ≡ S.digests_of session.old }
    ensures left { (story : Story) → S.at session.old story → IsSome (S.records session.new) → S.may_restart session.new }
    ensures no_write { IsErrOf result ServeFault.Write → ⊥ }
    ensures no_read { IsErrOf result ServeFault.Read → ⊥ }
{
    match session.keep_line(lines) {
        Ok(()) => Ok(()),
        Err(LifeFault::StoreFault) => Err(ServeFault::Store),
        Err(LifeFault::NotFed | LifeFault::NoMemory) => Err(ServeFault::NoMemory),
    }
}

// Writes a text.
fn write<O: Sink>(out: &mut O, text: &[u8]) -> Result<(), ServeFault>
    ensures written { OnOk result (IsWritten text.now (O.view out.old) (O.view out.new)) }
    ensures cut { IfErr result (λ fault. IsCutBy fault text.now (O.view out.old) (O.view out.new)) }
    ensures no_read { IsErrOf result ServeFault.Read → ⊥ }
{
    match out.write(text) {
        Ok(()) => Ok(()),
        Err(OutFault::Failed) => Err(ServeFault::Write),
        Err(OutFault::NoMemory) => Err(ServeFault::NoMemory),
    }
}
