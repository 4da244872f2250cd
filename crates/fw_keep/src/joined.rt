//! The record of a write is joined with those of the writes on which it stands.
ghost use Rattle.std.specs.Prelude.{◌≡◌, ◌++◌, [], true, map, IfOk, OnOk};
ghost use Rattle.std.specs.List.{flat_map};
ghost use Rattle.std.specs.List.Sorted.{IsPermutation};
ghost use Rattle.fw_frontier.specs.declared.state.Entries.TheVariants.{Totals as Held};
ghost use Rattle.fw_bytes.specs.Sound.{each_may_follow};
ghost use Rattle.fw_record.specs.Sound.{may_follow_logged};
ghost use Rattle.fw_keep.specs.Joined.{AreJoined, IsJoinedCheckpoint, counts_over, totals_over, last_counts, last_totals};
ghost use Rattle.fw_keep.specs.Joined as spec;

use crate::copies::base_of;
use fw_bag::{Rec, Recs};
use fw_frontier::{Entries, SentCount, SentCounts, State};
use fw_record::{Checkpoint, Log, Logged, Record};
use fw_time::Stamp;
use std::alloc::{AllocError, Global};
use std::collections::BTreeMap;

/// What a write's own record spells together with those of the writes on which it stands, the lowest first. The error is want of
/// memory.
pub(crate) fn joined(alloc: Global, under: &[Record], own: Record) -> Result<Record, AllocError>
    ensures { IfOk result (AreJoined under.now own) }
{
    let Some(lowest) = under.first() else {
        return Ok(own);
    };
    match own {
        Record::Changes { checkpoint, .. } => {
            let whole = joined_checkpoint(alloc, under, checkpoint)?;
            Ok(checkpoint_record(base_of(lowest), whole))
        }
        own => Ok(own),
    }
}

/// The record of a checkpoint: of a whole one where there is no base, and else of changes on it.
fn checkpoint_record(base: Option<u64>, checkpoint: Checkpoint) -> Record
    ensures { result ≡ spec.checkpoint_record base checkpoint }
{
    match base {
        Some(base) => Record::Changes { base, checkpoint },
        None => Record::State(checkpoint),
    }
}

/// What the records hold together with the checkpoint that comes after them.
fn joined_checkpoint(
    alloc: Global,
    under: &[Record],
    last: Checkpoint,
) -> Result<Checkpoint, AllocError>
    ensures { IfOk result (IsJoinedCheckpoint under.now last) }
{
    let state = State {
        sent: last.state.sent,
        sends: joined_sends(alloc, under, last.state.sends.as_slice())?,
        entries: joined_entries(alloc, under, held_totals(&last.state.entries))?,
    };
    Ok(Checkpoint {
        node: last.node,
        recorded: last.recorded.copy()?,
        state,
        log: joined_log(alloc, under, last.log.as_slice())?,
    })
}

/// Of each cause the last count of those of the records and these.
fn joined_sends(
    alloc: Global,
    under: &[Record],
    last: &[SentCount],
) -> Result<SentCounts, AllocError>
    ensures { IfOk result (λ sends. sends ≡ last_counts (flat_map spec.sends_of_record under.now ++ last.now)) }
{
    let mut counts = BTreeMap::new(alloc);
    for record in under {
        put_counts(&mut counts, sends_of_record(record))?;
    }
    put_counts(&mut counts, last)?;
    Ok(SentCounts::of(counts_of(alloc, &counts)?))
}

/// What the record says of how many messages were sent from where.
fn sends_of_record(record: &Record) -> &[SentCount]
    ensures { result.now ≡ spec.sends_of_record record.now }
{
    match record {
        Record::State(checkpoint) | Record::Changes { checkpoint, .. } => {
            checkpoint.state.sends.as_slice()
        }
        Record::Event { .. } => &[],
    }
}

/// Puts counts into those by cause: each takes the place of an earlier one of its cause.
fn put_counts(counts: &mut BTreeMap<Stamp, u64>, sends: &[SentCount]) -> Result<(), AllocError>
    ensures { OnOk result (counts.new.entries ≡ counts_over counts.old.entries sends.now) }
{
    for sent in sends {
        counts.insert(sent.cause.copy(), sent.count)?;
    }
    Ok(())
}

/// The counts by cause as a list.
fn counts_of(alloc: Global, counts: &BTreeMap<Stamp, u64>) -> Result<Vec<SentCount>, AllocError>
    ensures { IfOk result (λ sends. sends.items ≡ map spec.count_at_cause counts.now.entries) }
{
    let mut sends = Vec::new(alloc);
    for (cause, count) in counts {
        sends.push(SentCount {
            cause: cause.copy(),
            count: *count,
        })?;
    }
    Ok(sends)
}

/// Of each key the last total of those of the records and these.
fn joined_entries(alloc: Global, under: &[Record], last: &[Rec]) -> Result<Entries, AllocError>
    ensures { IfOk result (λ entries. entries ≡ Held (last_totals (flat_map spec.totals_of_record under.now ++ last.now))) }
{
    let mut totals = BTreeMap::new(alloc);
    for record in under {
        put_totals(&mut totals, totals_of_record(record))?;
    }
    put_totals(&mut totals, last)?;
    Ok(Entries::Totals(Recs::of(recs_of(alloc, &totals)?)))
}

/// The totals of the record.
fn totals_of_record(record: &Record) -> &[Rec]
    ensures { result.now ≡ spec.totals_of_record record.now }
{
    match record {
        Record::State(checkpoint) | Record::Changes { checkpoint, .. } => {
            held_totals(&checkpoint.state.entries)
        }
        Record::Event { .. } => &[],
    }
}

/// The totals among what a node holds.
fn held_totals(entries: &Entries) -> &[Rec]
    ensures { result.now ≡ spec.held_totals entries.now }
{
    match entries {
        Entries::Totals(totals) => totals.as_slice(),
    }
}

/// Puts totals into those by key: each takes the place of an earlier one of its key.
fn put_totals(totals: &mut BTreeMap<u64, u64>, recs: &[Rec]) -> Result<(), AllocError>
    ensures { OnOk result (totals.new.entries ≡ totals_over totals.old.entries recs.now) }
{
    for rec in recs {
        totals.insert(rec.key, rec.value)?;
    }
    Ok(())
}

/// The totals by key as a list.
fn recs_of(alloc: Global, totals: &BTreeMap<u64, u64>) -> Result<Vec<Rec>, AllocError>
    ensures { IfOk result (λ recs. recs.items ≡ map spec.total_at_key totals.now.entries) }
{
    let mut recs = Vec::new(alloc);
    for (key, value) in totals {
        recs.push(Rec {
            key: *key,
            value: *value,
        })?;
    }
    Ok(recs)
}

/// The messages of the records and these, in the order of a log.
fn joined_log(alloc: Global, under: &[Record], last: &[Logged]) -> Result<Log, AllocError>
    ensures messages { IfOk result (λ log. IsPermutation (flat_map spec.log_of_record under.now ++ last.now) log) }
    ensures in_order { IfOk result (λ log. each_may_follow may_follow_logged [] log ≡ true) }
{
    let mut messages = Vec::new(alloc);
    for record in under {
        add_messages(&mut messages, log_of_record(record))?;
    }
    add_messages(&mut messages, last)?;
    Ok(Log::sorted(messages))
}

/// The logged messages of the record.
fn log_of_record(record: &Record) -> &[Logged]
    ensures { result.now ≡ spec.log_of_record record.now }
{
    match record {
        Record::State(checkpoint) | Record::Changes { checkpoint, .. } => checkpoint.log.as_slice(),
        Record::Event { .. } => &[],
    }
}

/// Adds logged messages behind others.
fn add_messages(messages: &mut Vec<Logged>, log: &[Logged]) -> Result<(), AllocError>
    ensures { OnOk result (messages.new.items ≡ messages.old.items ++ log.now) }
{
    for logged in log {
        messages.push(Logged {
            edge: logged.edge,
            message: logged.message.copy(),
        })?;
    }
    Ok(())
}
