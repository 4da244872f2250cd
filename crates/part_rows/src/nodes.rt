//! Nodes.
ghost use Rattle.std.specs.Prelude.{◌≡◌, IfOk, true};
ghost use Rattle.std.specs.List.{AllByRecursion};
ghost use Rattle.fw_time.specs.Stamp.{in_domain};

use fw_bag::{Rec, Recs};
use fw_flow::{EdgeId, Flow, NodeId};
use fw_frontier::{Entries, Front, SentCounts, State};
use fw_node::{Node, Sends};
use fw_time::Bounds;
use row_words::{
    Answers, NoAnswer, Row, columns, front_of, mark, part, rec_of, recs_of, stamp_in, tell_row,
};
use std::alloc::{AllocError, Global};
use std::fmt::Write;

/// The node that calls are of, and the flow.
#[derive(Drop)]
struct Called<'a> {
    alloc: Global,
    flow: &'a Flow,
    node: Node,
}

/// Tells the answers to calls, each of the node that the last line `new` or `restore` before it made, and at first of the
/// first one.
pub fn tell(alloc: Global, flow: &Flow, row: Row<'_>, told: &mut String) -> Result<(), AllocError> {
    let node = Node::new(alloc, flow, NodeId::at(0))?;
    tell_row(alloc, row, &mut Called { alloc, flow, node }, told)
}

impl Answers for Called<'_> {
    ghost stands = { λ _. Unit {0} };

    /// To an event what it makes the node send.
    fn answer(&mut self, line: &str, said: &mut String) -> Result<(), NoAnswer> {
        let (word, rest) = part(line);
        match word {
            "loop" | "node" | "edge" => Err(NoAnswer::NotAsked),
            "new" | "restore" => {
                self.node = made(self.alloc, self.flow, word, rest)?;
                Ok(())
            }
            "settle" => settle(self.alloc, &mut self.node, rest),
            "totals" => totals(self.alloc, &self.node, rest, said),
            "since" => since(self.alloc, &self.node, rest, said),
            _ => happens(self.alloc, &mut self.node, word, rest, said),
        }
    }
}

/// The node that a line `new` or `restore` makes.
fn made(alloc: Global, flow: &Flow, word: &str, rest: &str) -> Result<Node, NoAnswer> {
    if word == "new" {
        Ok(Node::new(alloc, flow, node_of(rest)?)?)
    } else {
        restored(alloc, flow, rest)
    }
}

/// An event happens; what it makes the node send is said.
fn happens(
    alloc: Global,
    node: &mut Node,
    word: &str,
    rest: &str,
    said: &mut String,
) -> Result<(), NoAnswer> {
    let sends = sends(alloc, node, word, rest)?;
    say_sends(&sends, said)
}

/// The node of a number, counted from 1 as the lines are.
fn node_of(word: &str) -> Result<NodeId, NoAnswer> {
    Ok(NodeId::at(place_of(word)?))
}

/// The place of a number that is counted from 1.
fn place_of(word: &str) -> Result<u32, NoAnswer> {
    match word.parse::<u32>()?.checked_sub(1) {
        Some(place) => Ok(place),
        None => Err(NoAnswer::NotSpelled),
    }
}

/// What an event makes a node send: `deliver E STAMP K:V`, `notify STAMP` or `inject EPOCH K:V ..`.
fn sends(alloc: Global, node: &mut Node, word: &str, rest: &str) -> Result<Sends, NoAnswer> {
    let (first, words) = part(rest);
    match word {
        "deliver" => deliver(alloc, node, EdgeId::at(place_of(first)?), words),
        "notify" => {
            let at = stamp_in(alloc, rest, node.bounds())?;
            Ok(node.notify(&at)?)
        }
        "inject" => {
            let epoch = first.parse::<u32>()?;
            let batch = recs_of(alloc, words)?;
            Ok(node.inject(epoch, &batch)?)
        }
        _ => Err(NoAnswer::NotSpelled),
    }
}

/// What a delivery makes a node send.
fn deliver(alloc: Global, node: &mut Node, edge: EdgeId, words: &str) -> Result<Sends, NoAnswer> {
    let (at, rec) = part(words);
    let at = stamp_in(alloc, at, node.bounds())?;
    Ok(node.deliver(edge, &at, rec_of(rec)?)?)
}

/// The frontier that is spelled `all`, or `until` and stamps of a domain outside.
fn front_at(alloc: Global, text: &str, bounds: &Bounds) -> Result<Front, NoAnswer>
    ensures { IfOk result (λ f. AllByRecursion (λ o. in_domain bounds.now o ≡ true) f) }
{
    let front = front_of(alloc, text)?;
    if front.is_in_domain(bounds) {
        Ok(front)
    } else {
        Err(NoAnswer::NotSpelled)
    }
}

/// Settles what came inside a frontier.
fn settle(alloc: Global, node: &mut Node, text: &str) -> Result<(), NoAnswer> {
    let front = front_at(alloc, text, node.bounds())?;
    node.settle(&front)?;
    Ok(())
}

/// The totals of what came inside a frontier.
fn totals(alloc: Global, node: &Node, text: &str, said: &mut String) -> Result<(), NoAnswer> {
    let front = front_at(alloc, text, node.bounds())?;
    let totals = node.totals_at(&front)?;
    say_recs(totals.as_slice(), said)
}

/// The state of what came inside the second of two frontiers, as it changed since what came inside the first.
fn since(alloc: Global, node: &Node, text: &str, said: &mut String) -> Result<(), NoAnswer> {
    let (earlier, later) = columns(text, "|");
    let earlier = front_at(alloc, earlier.trim(), node.bounds())?;
    let later = front_at(alloc, later.trim(), node.bounds())?;
    let state = node.state_since(&earlier, &later)?;
    say_state(&state, said)
}

/// Says a state: how many messages were sent, at which stamps how many, and the totals.
fn say_state(state: &State, said: &mut String) -> Result<(), NoAnswer> {
    write!(said, "{}", state.sent)?;
    for sent in state.sends.as_slice() {
        write!(said, " at {} {}", sent.cause, sent.count)?;
    }
    let Entries::Totals(totals) = &state.entries;
    say_recs(totals.as_slice(), said)
}

/// Says recs.
fn say_recs(recs: &[Rec], said: &mut String) -> Result<(), NoAnswer> {
    for rec in recs {
        mark(" ", said)?;
        write!(said, "{rec}")?;
    }
    Ok(())
}

/// The node of a number, restored from a state: how many messages it sent, and its totals.
fn restored(alloc: Global, flow: &Flow, words: &str) -> Result<Node, NoAnswer> {
    let (name, rest) = part(words);
    let node = node_of(name)?;
    let state = state_of(alloc, rest)?;
    Ok(Node::from_state(alloc, flow, node, &state)?)
}

/// A state: how many messages were sent, and totals.
fn state_of(alloc: Global, words: &str) -> Result<State, NoAnswer> {
    let (sent, recs) = part(words);
    let sent = sent.parse::<u64>()?;
    let totals = recs_of(alloc, recs)?;
    Ok(State {
        sent,
        sends: SentCounts::of(Vec::new(alloc)),
        entries: Entries::Totals(Recs::of(totals)),
    })
}

/// What is sent, each rec behind its stamp.
fn say_sends(sends: &Sends, said: &mut String) -> Result<(), NoAnswer> {
    for place in 0..sends.len() {
        if let Some((at, rec)) = sends.get(place) {
            mark(", ", said)?;
            write!(said, "{at} {rec}")?;
        }
    }
    Ok(())
}
