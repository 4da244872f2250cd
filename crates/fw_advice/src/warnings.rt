//! What a person is warned of, though nothing is refused.
use crate::acks::Acks;
use crate::circle::{Walks, is_in};
use crate::declared::{Declarations, NodeLine};
use crate::flow_rules::add_shown;
use crate::shown::Shown;
use crate::word::{Row, is_word, rows};
use std::alloc::{AllocError, Global};

/// What of a flow leads nowhere or is never entered.
pub(crate) fn flow_warnings(alloc: Global, name: &str, text: &[u8]) -> Result<String, AllocError> {
    let rows = rows(alloc, text)?;
    let all = Declarations::of(alloc, rows.as_slice())?;
    let walks = Walks::of(alloc, &all)?;
    let mut told = String::new(alloc);
    if walks.is_whole() {
        add_astray(alloc, name, &all, &walks, &mut told)?;
    }
    Ok(told)
}

// Adds the inputs that lead to no output, and the loops that nothing enters which comes from an input.
fn add_astray(
    alloc: Global,
    name: &str,
    all: &Declarations<'_>,
    walks: &Walks,
    told: &mut String,
) -> Result<(), AllocError> {
    let mut fed = vec![in alloc; false; all.nodes.len()]?;
    feed(alloc, name, all, walks, &mut fed, told)?;
    add_unentered(name, all, fed.as_slice(), told)
}

// Joins the places that inputs reach, and adds the inputs that lead to no output.
fn feed(
    alloc: Global,
    name: &str,
    all: &Declarations<'_>,
    walks: &Walks,
    fed: &mut Vec<bool>,
    told: &mut String,
) -> Result<(), AllocError> {
    let every = vec![in alloc; true; all.nodes.len()]?;
    for (place, node) in all.nodes.iter().enumerate() {
        if node.kind == b"input".as_slice() {
            let reached = walks.from(alloc, place, every.as_slice())?;
            join(fed, reached.as_slice());
            if !reaches_output(all, reached.as_slice()) {
                add_nowhere(name, *node, told)?;
            }
        }
    }
    Ok(())
}

// Whether an output is among these places.
fn reaches_output(all: &Declarations<'_>, reached: &[bool]) -> bool {
    for (node, is_reached) in all.nodes.iter().zip(reached) {
        if *is_reached && node.kind == b"output".as_slice() {
            return true;
        }
    }
    false
}

// Adds the places of the others.
fn join(places: &mut Vec<bool>, others: &[bool]) {
    for (place, other) in places.iter_mut().zip(others) {
        *place = *place || *other;
    }
}

fn add_nowhere(name: &str, node: NodeLine<'_>, told: &mut String) -> Result<(), AllocError> {
    let file = Shown(name.as_bytes());
    let line = node.number;
    let input = Shown(node.name.bytes);
    write!(
        told,
        "warning: {file}:{line}: the input `{input}` leads to no output: what it is given is told to nobody\n"
    )
}

// Adds the loops that nothing enters which comes from an input.
fn add_unentered(
    name: &str,
    all: &Declarations<'_>,
    fed: &[bool],
    told: &mut String,
) -> Result<(), AllocError> {
    for it in all.loops.iter() {
        if !is_entered(all, fed, it.name.bytes) {
            let file = Shown(name.as_bytes());
            let line = it.number;
            let a_loop = Shown(it.name.bytes);
            write!(
                told,
                "warning: {file}:{line}: nothing from an input enters the loop `{a_loop}`: no rec ever goes round in it (an `enter {a_loop}` leads into it)\n"
            )?;
        }
    }
    Ok(())
}

// Whether a node that enters a loop is among the places that inputs reach.
fn is_entered(all: &Declarations<'_>, fed: &[bool], name: &[u8]) -> bool {
    for (node, is_fed) in all.nodes.iter().zip(fed) {
        if *is_fed && node.kind == b"enter".as_slice() && is_word(node.of, name) {
            return true;
        }
    }
    false
}

/// The texts of a run, with their names.
#[derive(Clone, Copy)]
pub(crate) struct RunTexts<'a> {
    pub(crate) flow: &'a [u8],
    pub(crate) inputs: &'a [u8],
    pub(crate) schedule: &'a [u8],
    /// The schedule's name.
    pub(crate) name: &'a str,
}

/// Which outputs have not acknowledged all epochs that the inputs have, and why.
pub(crate) fn run_warnings(
    alloc: Global,
    texts: RunTexts<'_>,
    acks: &Acks,
) -> Result<String, AllocError> {
    let flow_rows = rows(alloc, texts.flow)?;
    let all = Declarations::of(alloc, flow_rows.as_slice())?;
    let batches = rows(alloc, texts.inputs)?;
    let steps = rows(alloc, texts.schedule)?;
    let mut told = String::new(alloc);
    add_left(&all, batches.as_slice(), steps.as_slice(), acks, &mut told)?;
    if !told.is_empty() {
        add_end(texts.name, steps.as_slice(), &mut told)?;
    }
    Ok(told)
}

// Adds which outputs have not acknowledged all epochs, and why.
fn add_left(
    all: &Declarations<'_>,
    batches: &[Row<'_>],
    steps: &[Row<'_>],
    acks: &Acks,
    told: &mut String,
) -> Result<(), AllocError> {
    let epochs = most_batches(all, batches);
    for node in all.nodes.iter() {
        let is_of_epochs = node.last.bytes == b"epoch".as_slice();
        if node.kind == b"output".as_slice() && is_of_epochs {
            let acked = acks.epochs(node.name.bytes).unwrap_or(epochs);
            if acked < epochs {
                add_unacknowledged(*node, acked, epochs, told)?;
                add_why(all, batches, steps, *node, told)?;
            }
        }
    }
    Ok(())
}

// Adds how the schedule of this name is to end.
fn add_end(name: &str, steps: &[Row<'_>], told: &mut String) -> Result<(), AllocError> {
    let name = Shown(name.as_bytes());
    let recover = if ends_failed(steps) {
        "`recover` and "
    } else {
        ""
    };
    write!(
        told,
        "  to have all acknowledged, end {name} with {recover}`auto 1000000`\n"
    )
}

fn add_unacknowledged(
    node: NodeLine<'_>,
    acked: u64,
    epochs: u64,
    told: &mut String,
) -> Result<(), AllocError> {
    let output = Shown(node.name.bytes);
    write!(
        told,
        "warning: the output `{output}` has acknowledged {acked} of {epochs} epochs when the schedule ends: "
    )
}

// Adds why, as far as the texts tell it.
fn add_why(
    all: &Declarations<'_>,
    batches: &[Row<'_>],
    steps: &[Row<'_>],
    output: NodeLine<'_>,
    told: &mut String,
) -> Result<(), AllocError> {
    if ends_failed(steps) {
        return told.push_str("a node has failed, and no `recover` follows\n");
    }
    if has_verb(steps, b"auto".as_slice()) {
        return told.push_str("messages are left, or what is done is not settled\n");
    }
    for node in all.nodes.iter() {
        let given = lines_with(batches, b"batch".as_slice(), node.name.bytes);
        let injected = lines_with(steps, b"inject".as_slice(), node.name.bytes);
        if injected < given {
            let input = Shown(node.name.bytes);
            return write!(
                told,
                "it injects {injected} of the {given} batches of `{input}`\n"
            );
        }
    }
    if !has_verb(steps, b"progress".as_slice()) {
        return told.push_str("no `progress` settles what is done\n");
    }
    if lines_with(steps, b"ack".as_slice(), output.name.bytes) == 0 {
        told.push_str("no `ack ")?;
        add_shown(told, output.name.bytes)?;
        return told.push_str("` asks for it\n");
    }
    told.push_str("messages are left, or what is done is not settled\n")
}

// The most batches that an input is given.
fn most_batches(all: &Declarations<'_>, batches: &[Row<'_>]) -> u64 {
    let mut most = 0;
    for node in all.nodes.iter() {
        if node.kind == b"input".as_slice() {
            most = lines_with(batches, b"batch".as_slice(), node.name.bytes).max(most);
        }
    }
    most
}

// How many lines have this verb and this name.
fn lines_with(rows: &[Row<'_>], verb: &[u8], name: &[u8]) -> u64 {
    let mut count: u64 = 0;
    for row in rows {
        if let [first, second, ..] = row.words.as_slice()
            && first.bytes == verb
            && second.bytes == name
        {
            count = count.saturating_add(1);
        }
    }
    count
}

// Whether a line has this verb.
fn has_verb(rows: &[Row<'_>], verb: &[u8]) -> bool {
    for row in rows {
        if is_of(row, verb) {
            return true;
        }
    }
    false
}

fn is_of(row: &Row<'_>, verb: &[u8]) -> bool {
    match row.words.as_slice() {
        [first, ..] => first.bytes == verb,
        [] => false,
    }
}

// Whether a failure is followed by no recovery.
fn ends_failed(rows: &[Row<'_>]) -> bool {
    let mut failed = false;
    for row in rows {
        if is_of(row, b"fail".as_slice()) {
            failed = true;
        }
        if is_of(row, b"recover".as_slice()) {
            failed = false;
        }
    }
    failed
}
