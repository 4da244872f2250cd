//! Writing records.
ghost use Rattle.std.specs.Prelude.{◌≡◌, [], ◌∷◌, ◌++◌, OnOk, IfOk, IfSome};
ghost use Rattle.std.specs.List.{flat_map};
ghost use Rattle.fw_bytes.specs.Spelling.{u32_bytes, stamp_bytes, IsCountable};
ghost use Rattle.fw_record.specs.Spelling.{spelling, version_of, checkpoint_tag, head_bytes, rec_bytes, of_edges_bytes, recs_bytes, entries_bytes, state_bytes, logged_bytes, log_bytes, checkpoint_bytes, changes_bytes, delivery_bytes, event_bytes, HasCountableEdges, HasCountableLists, FitsItsCounts};

use crate::codes::{CHANGES, CHECKPOINT, DELIVERY, EVENT, MAGIC, NOTICE, SECOND_VERSION, VERSION};
use crate::{Checkpoint, Event, Logged, Record, size};
use fw_bag::Rec;
use fw_bytes::{only_coord, put_count, put_counts, put_front, put_stamp, put_u32, put_u64};
use fw_flow::{Causes, EdgeId, OfEdge};
use fw_frontier::{Entries, State};
use fw_time::Stamp;
use std::alloc::{AllocError, Global};

fn put_rec(out: &mut Vec<u8>, rec: &Rec) -> Result<(), AllocError>
    ensures { OnOk result (out.new.items ≡ out.old.items ++ rec_bytes rec.now) }
{
    let [a, b, c, d, e, f, g, h] = rec.key.to_be_bytes();
    let [i, j, k, l, m, n, o, p] = rec.value.to_be_bytes();
    out.extend_from_slice(&[a, b, c, d, e, f, g, h, i, j, k, l, m, n, o, p])?;
    Ok(())
}

/// Edges with their fronts, after their number.
fn put_of_edges(out: &mut Vec<u8>, fronts: &[OfEdge]) -> Result<(), AllocError>
    ensures bytes { OnOk result (out.new.items ≡ out.old.items ++ of_edges_bytes fronts.now) }
    ensures counted { OnOk result (HasCountableEdges fronts.now) }
{
    put_count(out, fronts.len())?;
    for of_edge in fronts {
        put_u32(out, of_edge.edge.place())?;
        put_front(out, &of_edge.front)?;
    }
    Ok(())
}

/// Recs, after their number.
fn put_recs(out: &mut Vec<u8>, recs: &[Rec]) -> Result<(), AllocError>
    ensures { OnOk result (out.new.items ≡ out.old.items ++ recs_bytes recs.now) }
{
    put_u64(out, recs.len() as u64)?;
    for rec in recs {
        put_rec(out, rec)?;
    }
    Ok(())
}

/// What a node holds.
fn put_entries(out: &mut Vec<u8>, entries: &Entries) -> Result<(), AllocError>
    ensures { OnOk result (out.new.items ≡ out.old.items ++ entries_bytes entries.now) }
{
    match entries {
        Entries::Totals(totals) => put_recs(out, totals.as_slice()),
    }
}

/// A node's table.
#[tactic(auto, unfolding(crate::specs::Spelling::state_bytes))]
fn put_state(out: &mut Vec<u8>, state: &State) -> Result<(), AllocError>
    ensures bytes { OnOk result (out.new.items ≡ out.old.items ++ state_bytes state.now) }
    ensures counted { OnOk result (IsCountable state.now.sends) }
{
    put_u64(out, state.sent)?;
    put_counts(out, state.sends.as_slice())?;
    put_entries(out, &state.entries)
}

/// Causes, one after the other: how many there are shows in the tag.
fn put_causes(out: &mut Vec<u8>, causes: &Causes) -> Result<(), AllocError>
    ensures { OnOk result (out.new.items ≡ out.old.items ++ flat_map stamp_bytes causes.now) }
{
    let stamps = causes.stamps();
    for cause in stamps {
        put_stamp(out, cause)?;
    }
    Ok(())
}

/// The coordinate of the stamp of one cause, where both are alone.
fn only_cause(causes: &Causes) -> Option<u32>
    ensures { IfSome result (λ coord. causes.now ≡ (coord ∷ []) ∷ []) }
{
    match causes.stamps() {
        [cause] => only_coord(cause),
        _ => None,
    }
}

/// A logged message.
#[tactic(auto, unfolding(crate::specs::Spelling::logged_bytes))]
fn put_logged(out: &mut Vec<u8>, logged: &Logged) -> Result<(), AllocError>
    ensures { OnOk result (out.new.items ≡ out.old.items ++ logged_bytes logged.now) }
{
    let edge = logged.edge.place();
    let message = &logged.message;
    if let (Some(at), Some(cause)) = (only_coord(&message.at), only_cause(&message.causes)) {
        return put_plain(out, edge, at, cause, &message.rec);
    }
    put_u32(out, edge)?;
    put_stamp(out, &message.at)?;
    put_causes(out, &message.causes)?;
    put_rec(out, &message.rec)
}

/// A logged message of one cause, where that and its stamp have one coordinate each: it is written at once.
fn put_plain(out: &mut Vec<u8>, edge: u32, at: u32, cause: u32, rec: &Rec) -> Result<(), AllocError>
    ensures { OnOk result (out.new.items ≡ out.old.items
        ++ (u32_bytes edge ++ stamp_bytes (at ∷ []) ++ stamp_bytes (cause ∷ []) ++ rec_bytes rec.now)) }
{
    let [e0, e1, e2, e3] = edge.to_be_bytes();
    let [a0, a1, a2, a3] = at.to_be_bytes();
    let [c0, c1, c2, c3] = cause.to_be_bytes();
    let [k0, k1, k2, k3, k4, k5, k6, k7] = rec.key.to_be_bytes();
    let [v0, v1, v2, v3, v4, v5, v6, v7] = rec.value.to_be_bytes();
    out.extend_from_slice(&[
        e0, e1, e2, e3, 1, a0, a1, a2, a3, 1, c0, c1, c2, c3, k0, k1, k2, k3, k4, k5, k6, k7, v0,
        v1, v2, v3, v4, v5, v6, v7,
    ])?;
    Ok(())
}

/// Logged messages, after their number.
fn put_log(out: &mut Vec<u8>, messages: &[Logged]) -> Result<(), AllocError>
    ensures { OnOk result (out.new.items ≡ out.old.items ++ log_bytes messages.now) }
{
    put_u64(out, messages.len() as u64)?;
    for message in messages {
        put_logged(out, message)?;
    }
    Ok(())
}

/// A checkpoint, behind its head.
fn put_checkpoint(out: &mut Vec<u8>, checkpoint: &Checkpoint) -> Result<(), AllocError>
    ensures bytes { OnOk result (out.new.items ≡ out.old.items ++ checkpoint_bytes checkpoint.now) }
    ensures counted { OnOk result (HasCountableLists checkpoint.now) }
{
    let recorded = &checkpoint.recorded;
    put_u32(out, checkpoint.node.place())?;
    put_front(out, &recorded.front)?;
    put_front(out, &recorded.notified)?;
    put_of_edges(out, recorded.delivered.as_slice())?;
    put_of_edges(out, recorded.discarded.as_slice())?;
    put_state(out, &checkpoint.state)?;
    put_log(out, checkpoint.log.as_slice())
}

/// Changes on the base of an id, behind their head.
fn put_changes(out: &mut Vec<u8>, base: u64, checkpoint: &Checkpoint) -> Result<(), AllocError>
    ensures bytes { OnOk result (out.new.items ≡ out.old.items ++ changes_bytes base checkpoint.now) }
    ensures counted { OnOk result (HasCountableLists checkpoint.now) }
{
    let recorded = &checkpoint.recorded;
    put_u32(out, checkpoint.node.place())?;
    put_front(out, &recorded.front)?;
    put_u64(out, base)?;
    put_front(out, &recorded.notified)?;
    put_of_edges(out, recorded.delivered.as_slice())?;
    put_of_edges(out, recorded.discarded.as_slice())?;
    put_state(out, &checkpoint.state)?;
    put_log(out, checkpoint.log.as_slice())
}

/// A delivery, behind its byte.
fn put_delivery(out: &mut Vec<u8>, edge: EdgeId, at: &Stamp, rec: &Rec) -> Result<(), AllocError>
    ensures { OnOk result (out.new.items ≡ out.old.items ++ delivery_bytes edge at.now rec.now) }
{
    put_u32(out, edge.place())?;
    put_stamp(out, at)?;
    put_rec(out, rec)
}

/// An event.
fn put_event(out: &mut Vec<u8>, event: &Event) -> Result<(), AllocError>
    ensures { OnOk result (out.new.items ≡ out.old.items ++ event_bytes event.now) }
{
    match event {
        Event::Deliver { edge, at, rec } => {
            out.push(DELIVERY)?;
            put_delivery(out, *edge, at, rec)
        }
        Event::Notify { at } => {
            out.push(NOTICE)?;
            put_stamp(out, at)
        }
    }
}

/// The letters FW, a version and a tag of it.
fn put_head(out: &mut Vec<u8>, version: u8, tag: u8) -> Result<(), AllocError>
    requires { version ≡ version_of tag }
    ensures { OnOk result (out.new.items ≡ out.old.items ++ head_bytes tag) }
{
    out.extend_from_slice(&MAGIC.to_be_bytes())?;
    out.extend_from_slice(&[version, tag])?;
    Ok(())
}

/// The tag of a checkpoint, by what the node holds.
fn checkpoint_tag(entries: &Entries) -> u8
    ensures { result ≡ checkpoint_tag entries.now }
{
    match entries {
        Entries::Totals(_) => CHECKPOINT,
    }
}

/// The one spelling of a record. It asks for its memory once. The error is want of memory; a list of more parts than its
/// count can say is answered so too.
pub fn encode(alloc: Global, what: &Record) -> Result<Vec<u8>, AllocError>
    ensures spelled { IfOk result (λ bytes. bytes.items ≡ spelling what.now) }
    ensures counted { OnOk result (FitsItsCounts what.now) }
{
    let mut out = Vec::with_capacity(alloc, size::of_record(what))?;
    match what {
        Record::State(checkpoint) => {
            put_head(&mut out, VERSION, checkpoint_tag(&checkpoint.state.entries))?;
            put_checkpoint(&mut out, checkpoint)?;
        }
        Record::Event { node, event } => {
            put_head(&mut out, VERSION, EVENT)?;
            put_u32(&mut out, node.place())?;
            put_event(&mut out, event)?;
        }
        Record::Changes { base, checkpoint } => {
            put_head(&mut out, SECOND_VERSION, CHANGES)?;
            put_changes(&mut out, *base, checkpoint)?;
        }
    }
    Ok(out)
}
