//! What a recovery makes of the parts of an engine, and what is fetched of their writes.
ghost use Rattle.std.specs.Prelude.{IfOk, IsTrue};
ghost use Rattle.fw_keep.specs.Entry.{IsBase, IsBased};
ghost use Rattle.fw_rollback.specs.Restored.{AreOfFlow};

use fw_edge::{MsgLog, Queue};
use fw_flow::{Causes, Choice, Cuts, Flow, Fronts, Message, NodeId};
use fw_frontier::Front;
use fw_keep::{Entry, Keep, KeepFault, no_stamps};
use fw_outside::{FoulStore, OutFault, Store};
use fw_record::{Record, encode};
use fw_rollback::{Parts, restore};
use row_words::{
    Answers, NoAnswer, Row, bytes_named, columns, cut_of, edge_of, mark, node_of, part, rec_of,
    record_named, show_digits, stamp_of, tell_row,
};
use std::alloc::{AllocError, Global};
use std::fmt::Write;

/// The most writes of a row.
const WRITES: u64 = 1_000_000;

/// The parts that calls are of, with their flow, the lines of the row, and the store of what is written, which tells nothing, so
/// that its bytes may be damaged.
#[derive(Drop)]
struct Kept<'a> {
    alloc: Global,
    flow: &'a Flow,
    lines: &'a str,
    parts: Parts,
    store: FoulStore,
    ghost each: { AreOfFlow flow.now parts },
}

/// Tells the answers to calls, of the parts of a flow without batches, where nothing has happened at first.
pub fn tell(alloc: Global, flow: &Flow, row: Row<'_>, told: &mut String) -> Result<(), AllocError> {
    let parts = parts_of(alloc, flow)?;
    let mut kept = Kept {
        alloc,
        flow,
        lines: row.lines,
        parts,
        store: FoulStore::new(alloc, Vec::new(alloc)),
    };
    tell_row(alloc, row, &mut kept, told)
}

/// The parts of a flow without batches, where nothing has happened.
fn parts_of(alloc: Global, flow: &Flow) -> Result<Parts, AllocError>
    ensures { IfOk result (AreOfFlow flow.now) }
{
    let mut low = Vec::new(alloc);
    for place in 0..flow.nodes() {
        low.push(Front::empty(alloc, &flow.domain(NodeId::at(place as u32)))?)?;
    }
    Parts::new(alloc, flow, &flow.no_batches(alloc), Fronts::of(low))
}

impl Answers for Kept<'_> {
    ghost stands = { λ _. Unit {0} };

    /// To `fetch` what came of it, to `queue` and `log` what is there, to the other calls nothing.
    fn answer(&mut self, line: &str, said: &mut String) -> Result<(), NoAnswer> {
        let (word, rest) = part(line);
        match word {
            "loop" | "node" | "edge" | "record" => Err(NoAnswer::NotAsked),
            "write" => self.write(rest),
            "damage" => damage(self.alloc, self.lines, &mut self.store, rest),
            "fetch" => self.fetch(rest, said),
            "pending" => self.put_pending(rest),
            "logged" => self.put_logged(rest),
            "lose" => self.lose(rest),
            "restore" => self.restore(rest),
            "queue" => self.say_queue(rest, said),
            "log" => self.say_log(rest, said),
            _ => Err(NoAnswer::NotSpelled),
        }
    }
}

impl Kept<'_> {
    /// The record of a name is written and acknowledged.
    fn write(&mut self, name: &str) -> Result<(), NoAnswer> {
        let record = record_named(self.alloc, self.lines, name)?;
        write_one(self.alloc, &mut self.parts.keep, &mut self.store, &record)
    }

    /// Says the record of the write of an id, joined with those on which it stands, or why there is none.
    fn fetch(&mut self, id: &str, said: &mut String) -> Result<(), NoAnswer> {
        let id = id.parse::<u64>()?;
        if !self.parts.keep.has(id) {
            return Err(NoAnswer::NotSpelled);
        }
        let fetched = self.parts.keep.fetch(self.flow, &mut self.store, id);
        say_read(self.alloc, &fetched, said)
    }

    /// These messages are pending on an edge, and no others: `EDGE MESSAGE ..`.
    fn put_pending(&mut self, words: &str) -> Result<(), NoAnswer> {
        let (name, messages) = part(words);
        let edge = edge_of(self.flow, name)?;
        let queue = queue_of(self.alloc, messages)?;
        self.parts.queues.set(edge, queue);
        Ok(())
    }

    /// These messages, and no others, may have to be sent again on an edge: `EDGE MESSAGE ..`.
    fn put_logged(&mut self, words: &str) -> Result<(), NoAnswer> {
        let (name, messages) = part(words);
        let edge = edge_of(self.flow, name)?;
        let log = log_of(self.alloc, messages)?;
        self.parts.logs.set(edge, log);
        Ok(())
    }

    /// A node loses its table.
    fn lose(&mut self, name: &str) -> Result<(), NoAnswer> {
        let node = node_of(self.flow, name)?;
        self.parts.tables.set(node, None);
        Ok(())
    }

    /// The nodes are restored to cuts with strokes between them, in the order of the nodes.
    fn restore(&mut self, text: &str) -> Result<(), NoAnswer> {
        let choice = choice_of(self.alloc, text)?;
        let restored = restore(
            self.alloc,
            self.flow,
            &choice,
            &mut self.parts,
            &mut self.store,
        );
        answer_of(restored)
    }

    /// Says at which stamps messages are pending on an edge, how many, and the first rec of each.
    fn say_queue(&self, name: &str, said: &mut String) -> Result<(), NoAnswer> {
        let edge = edge_of(self.flow, name)?;
        match self.parts.queues.get(edge) {
            Some(queue) => Ok(say_pending(queue, said)?),
            None => Err(NoAnswer::NotSpelled),
        }
    }

    /// Says what may have to be sent again on an edge.
    fn say_log(&self, name: &str, said: &mut String) -> Result<(), NoAnswer> {
        let edge = edge_of(self.flow, name)?;
        let none = Front::empty(self.alloc, &self.flow.domain(self.flow.dst(edge)))?;
        match self.parts.logs.get(edge) {
            Some(log) => say_messages(&log.outside(&none)?, said),
            None => Err(NoAnswer::NotSpelled),
        }
    }
}

/// Writes a record, and acknowledges the oldest write in flight.
fn write_one(
    alloc: Global,
    keep: &mut Keep,
    store: &mut FoulStore,
    what: &Record,
) -> Result<(), NoAnswer> {
    if keep.next_id() > WRITES || !is_based(keep, what) {
        return Err(NoAnswer::NotSpelled);
    }
    let asked = keep.ask(store, what, no_stamps(alloc));
    keep.persist_one();
    match asked {
        Ok(_) => Ok(()),
        Err(fault) => Err(fault_of(fault)),
    }
}

/// Whether what the record stands on, if it holds changes, is one of the writes, and of a checkpoint of its node.
pub(crate) fn is_based(keep: &Keep, what: &Record) -> bool
    ensures { IsTrue result → IsBased keep.now.entries what.now }
{
    match what {
        Record::Changes { base, checkpoint } => is_base(keep.entries(), *base, checkpoint.node),
        Record::State(_) | Record::Event { .. } => true,
    }
}

/// Whether one of the writes has this id, and is of a checkpoint of the node.
#[tactic(auto, using(crate::proofs::Based::base_there))]
fn is_base(entries: &[Entry], id: u64, node: NodeId) -> bool
    ensures { IsTrue result → IsBase entries.now id node }
{
    entries
        .iter()
        .any(|entry| entry.id == id && entry.is_checkpoint_of(node))
}

/// The bytes of a name come under the id of a write, in place of those that are there: `ID NAME`.
fn damage(alloc: Global, lines: &str, store: &mut FoulStore, words: &str) -> Result<(), NoAnswer> {
    let (id, name) = part(words);
    let id = id.parse::<u64>()?;
    let bytes = bytes_named(alloc, lines, name)?;
    done(store.remove(id))?;
    done(store.put_vec(id, bytes))
}

/// What becomes of a call of the store.
pub(crate) fn done(became: Result<(), OutFault>) -> Result<(), NoAnswer> {
    match became {
        Ok(()) => Ok(()),
        Err(OutFault::Failed) => Err(NoAnswer::NotSpelled),
        Err(OutFault::NoMemory) => Err(NoAnswer::NoMemory),
    }
}

/// Says the bytes of the record that was read, or why there is none.
pub(crate) fn say_read(
    alloc: Global,
    read: &Result<Record, KeepFault>,
    said: &mut String,
) -> Result<(), NoAnswer> {
    match read {
        Ok(record) => say_record(alloc, record, said),
        Err(fault) => say_fault(fault, said),
    }
}

/// Says the bytes of a record.
fn say_record(alloc: Global, record: &Record, said: &mut String) -> Result<(), NoAnswer> {
    let bytes = encode(alloc, record)?;
    show_digits(&bytes, said)?;
    Ok(())
}

/// Says why no record was fetched: the id whose bytes are wrong, and these, or that the store failed.
pub(crate) fn say_fault(fault: &KeepFault, said: &mut String) -> Result<(), NoAnswer> {
    match fault {
        KeepFault::Damaged { id, bytes } => {
            write!(said, "damaged {id} ")?;
            show_digits(bytes, said)?;
            Ok(())
        }
        KeepFault::StoreFault => {
            said.push_str("failed")?;
            Ok(())
        }
        KeepFault::NoMemory => Err(NoAnswer::NoMemory),
    }
}

/// What becomes of a recovery.
fn answer_of(restored: Result<(), KeepFault>) -> Result<(), NoAnswer> {
    match restored {
        Ok(()) => Ok(()),
        Err(fault) => Err(fault_of(fault)),
    }
}

/// Why a call of the catalogue has no answer.
pub(crate) fn fault_of(fault: KeepFault) -> NoAnswer {
    match fault {
        KeepFault::NoMemory => NoAnswer::NoMemory,
        KeepFault::StoreFault | KeepFault::Damaged { .. } => NoAnswer::NotSpelled,
    }
}

/// The cuts that are spelled with strokes between them: `present`, `all` or `until T ..`.
fn choice_of(alloc: Global, text: &str) -> Result<Choice, NoAnswer> {
    let mut cuts = Vec::new(alloc);
    for word in text.split('|') {
        cuts.push(cut_of(alloc, word.trim())?)?;
    }
    Ok(Choice {
        cuts: Cuts::of(cuts),
        notices: Fronts::of(Vec::new(alloc)),
    })
}

/// The queue of messages.
fn queue_of(alloc: Global, words: &str) -> Result<Queue, NoAnswer> {
    let mut queue = Queue::new(alloc);
    for word in words.split_whitespace() {
        queue.put(message_of(alloc, word)?)?;
    }
    Ok(queue)
}

/// The log of messages.
fn log_of(alloc: Global, words: &str) -> Result<MsgLog, NoAnswer> {
    let mut log = MsgLog::new(alloc);
    for word in words.split_whitespace() {
        log.append(message_of(alloc, word)?)?;
    }
    Ok(log)
}

/// A message: its stamp, its rec and its cause, with strokes between them.
fn message_of(alloc: Global, word: &str) -> Result<Message, NoAnswer> {
    let (at, rest) = columns(word, "/");
    let (rec, cause) = columns(rest, "/");
    Ok(Message {
        at: stamp_of(alloc, at)?,
        rec: rec_of(rec)?,
        causes: Causes::of(stamp_of(alloc, cause)?),
    })
}

/// Says at which stamps messages are pending, how many, and the first rec of each.
fn say_pending(queue: &Queue, said: &mut String) -> Result<(), AllocError> {
    for (at, count) in queue.stamps() {
        mark(", ", said)?;
        write!(said, "{at} {count}")?;
        if let Some(message) = queue.first(Some(at)) {
            write!(said, " {}", message.rec)?;
        }
    }
    Ok(())
}

/// Says messages.
fn say_messages(messages: &[Message], said: &mut String) -> Result<(), NoAnswer> {
    for message in messages {
        mark(", ", said)?;
        write!(said, "{} {}", message.at, message.rec)?;
    }
    Ok(())
}
