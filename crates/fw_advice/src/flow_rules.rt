//! Which word of a flow breaks a rule, and what was expected.
use crate::declared::{Declarations, Domain, EdgeLine, LoopLine, NodeLine, is_same};
use crate::expansion::Sizes;
use crate::shown::Shown;
use crate::slip::{Slip, add_near_name};
use crate::slot::is_large;
use crate::step_rules::{Sort, names_of};
use crate::word::{Word, str_of};
use fw_lines::{Number, number};
use std::alloc::{AllocError, Global};
use std::fmt;

type Found<'a> = Result<Option<Slip<'a>>, AllocError>;

impl fmt::Display for Domain<'_> {
    fn fmt<W: fmt::Write>(&self, f: &mut fmt::Formatter<W>) -> fmt::Result {
        match self {
            Domain::Epoch => f.write_str("epochs"),
            Domain::Number => f.write_str("numbers"),
            Domain::Loop(name) => write_loop(f, name),
        }
    }
}

fn write_loop<W: fmt::Write>(f: &mut fmt::Formatter<W>, name: &[u8]) -> fmt::Result {
    let name = Shown(name);
    write!(f, "loop `{name}`")
}

/// The first number from 2^64 on.
pub(crate) fn large_slip<'a>(alloc: Global, words: &[Word<'a>]) -> Found<'a> {
    for word in words {
        if has_large(word.bytes) {
            return Ok(Some(Slip::at(
                *word,
                format!(in alloc; "expected a number up to 18446744073709551615 (2^64 - 1)")?,
            )));
        }
    }
    Ok(None)
}

// Whether a word, or a part of it before or behind a colon, is a number from 2^64 on.
fn has_large(word: &[u8]) -> bool {
    for part in word.split(|byte| *byte == b':') {
        if is_large(part) {
            return true;
        }
    }
    false
}

/// A name that an earlier line has declared already (F2).
pub(crate) fn twice_slip<'a>(
    alloc: Global,
    all: &Declarations<'a>,
    words: &[Word<'a>],
) -> Found<'a> {
    let [first, name, ..] = words else {
        return Ok(None);
    };
    let Some(line) = line_declaring(all, str_of(first.bytes), name.bytes) else {
        return Ok(None);
    };
    let thing = Shown(first.bytes);
    Ok(Some(Slip::at(
        *name,
        format!(in alloc;
            "expected a new name: line {line} declares a {thing} of this name already"
        )?,
    )))
}

// The first line that declares a node, an edge or a loop of this name.
fn line_declaring(all: &Declarations<'_>, thing: &str, name: &[u8]) -> Option<u32> {
    match thing {
        "node" => Some(all.node(name)?.number),
        "edge" => Some(all.edge(name)?.number),
        _ => Some(all.a_loop(name)?.number),
    }
}

/// A name that no line declares (F3).
pub(crate) fn undeclared_slip<'a>(alloc: Global, all: &Declarations<'a>, line: u32) -> Found<'a> {
    if let Some(edge) = edge_on(all, line) {
        return undeclared_end(alloc, all, edge);
    }
    let named = match (node_on(all, line), loop_on(all, line)) {
        (Some(node), _) => node.of,
        (None, Some(it)) => it.parent,
        _ => None,
    };
    let Some(word) = named else {
        return Ok(None);
    };
    let mut said = format!(in alloc; "no line declares a loop of this name")?;
    let names = loop_names(alloc, all)?;
    add_near_name(alloc, word.bytes, names.as_slice(), &mut said)?;
    if all.node(word.bytes).is_some() {
        said.push_str(" (there is a node of this name, and no loop)")?;
    }
    Ok(Some(Slip::at(word, said)))
}

// The names of all loops.
fn loop_names<'a>(alloc: Global, all: &Declarations<'a>) -> Result<Vec<&'a [u8]>, AllocError> {
    let mut names = Vec::new(alloc);
    for it in all.loops.iter() {
        names.push(it.name.bytes)?;
    }
    Ok(names)
}

// The end of an edge that is no node.
fn undeclared_end<'a>(alloc: Global, all: &Declarations<'a>, edge: EdgeLine<'a>) -> Found<'a> {
    let word = if all.node(edge.src.bytes).is_none() {
        edge.src
    } else {
        edge.dst
    };
    let mut said = format!(in alloc; "no line declares a node of this name")?;
    let names = names_of(alloc, all, Sort::Node)?;
    add_near_name(alloc, word.bytes, names.as_slice(), &mut said)?;
    if all.a_loop(word.bytes).is_some() {
        said.push_str(" (there is a loop of this name, and no node)")?;
    }
    Ok(Some(Slip::at(word, said)))
}

/// The node that a line declares.
pub(crate) fn node_on<'a>(all: &Declarations<'a>, line: u32) -> Option<NodeLine<'a>> {
    for node in all.nodes.iter() {
        if node.number == line {
            return Some(*node);
        }
    }
    None
}

fn edge_on<'a>(all: &Declarations<'a>, line: u32) -> Option<EdgeLine<'a>> {
    for edge in all.edges.iter() {
        if edge.number == line {
            return Some(*edge);
        }
    }
    None
}

fn loop_on<'a>(all: &Declarations<'a>, line: u32) -> Option<LoopLine<'a>> {
    for it in all.loops.iter() {
        if it.number == line {
            return Some(*it);
        }
    }
    None
}

/// A loop whose chain of loops is too long (F12).
pub(crate) fn deep_slip<'a>(alloc: Global, all: &Declarations<'a>, line: u32) -> Found<'a> {
    let Some(it) = loop_on(all, line) else {
        return Ok(None);
    };
    let mut said = format!(in alloc;
        "expected loops within each other at most three deep, and here: "
    )?;
    add_shown(&mut said, it.name.bytes)?;
    let mut at = it;
    for _ in 0..4 {
        let Some(parent) = at.parent else {
            break;
        };
        said.push_str(" in ")?;
        add_shown(&mut said, parent.bytes)?;
        let Some(next) = all.a_loop(parent.bytes) else {
            break;
        };
        at = next;
    }
    Ok(Some(Slip::at(it.name, said)))
}

/// Adds a word, as it may be shown.
pub(crate) fn add_shown(said: &mut String, word: &[u8]) -> Result<(), AllocError> {
    let word = Shown(word);
    write!(said, "{word}")
}

/// A node with another number of edges than its kind takes (F4).
pub(crate) fn edges_slip<'a>(alloc: Global, all: &Declarations<'a>, line: u32) -> Found<'a> {
    let Some(node) = node_on(all, line) else {
        return Ok(None);
    };
    let kind = Shown(node.kind);
    let wants = wanted_edges(node.kind);
    let mut said = format!(in alloc; "expected {wants} (its kind is {kind}); ")?;
    let ins = edges_at(alloc, all, node.name.bytes, true)?;
    add_edges(&mut said, "into it", ins.as_slice())?;
    if node.kind == b"output".as_slice() {
        let outs = edges_at(alloc, all, node.name.bytes, false)?;
        said.push_str(", ")?;
        add_edges(&mut said, "out of it", outs.as_slice())?;
    }
    Ok(Some(Slip::at(node.name, said)))
}

// The names of the edges that lead into a node, or out of it.
fn edges_at<'a>(
    alloc: Global,
    all: &Declarations<'a>,
    node: &[u8],
    is_into: bool,
) -> Result<Vec<&'a [u8]>, AllocError> {
    let mut names = Vec::new(alloc);
    for edge in all.edges.iter() {
        let end = if is_into { edge.dst } else { edge.src };
        if end.bytes == node {
            names.push(edge.name.bytes)?;
        }
    }
    Ok(names)
}

// How many edges a kind takes.
fn wanted_edges(kind: &[u8]) -> &'static str {
    match str_of(kind) {
        "input" => "no edge into it",
        "concat" => "at least two edges into it",
        "join" => "two edges into it",
        "output" => "one edge into it, and none out of it",
        _ => "one edge into it; a `concat` before it makes one of several",
    }
}

// Adds which edges lead there.
fn add_edges(said: &mut String, to: &str, edges: &[&[u8]]) -> Result<(), AllocError> {
    if edges.is_empty() {
        return write!(said, "none leads {to}");
    }
    let count = edges.len();
    let verb = if count == 1 { "leads" } else { "lead" };
    write!(said, "{count} {verb} {to}:")?;
    for edge in edges.iter().take(8) {
        said.push_str(" ")?;
        add_shown(said, edge)?;
    }
    Ok(())
}

/// An edge between two domains (F5).
pub(crate) fn domains_slip<'a>(alloc: Global, all: &Declarations<'a>, line: u32) -> Found<'a> {
    let Some(edge) = edge_on(all, line) else {
        return Ok(None);
    };
    let (Some(src), Some(dst)) = (all.node(edge.src.bytes), all.node(edge.dst.bytes)) else {
        return Ok(None);
    };
    let sends = all.out_domain(src);
    let takes = all.domain(dst);
    let from = Shown(edge.src.bytes);
    let to = Shown(edge.dst.bytes);
    let mut said = format!(in alloc; "`{from}` sends in {sends}, and `{to}` takes {takes}")?;
    said.push_str(bridge(sends, takes))?;
    Ok(Some(Slip::at(edge.name, said)))
}

// What leads from one domain to the other.
fn bridge(sends: Domain<'_>, takes: Domain<'_>) -> &'static str {
    match (sends, takes) {
        (Domain::Epoch, Domain::Number) => ": a `sequence` between them numbers recs",
        (Domain::Number, Domain::Epoch) => ": a `regroup` between them makes epochs of numbers",
        (Domain::Loop(_), Domain::Loop(_)) => {
            ": `leave` the one loop and `enter` the other between them"
        }
        (_, Domain::Loop(_)) => ": an `enter` of the loop between them leads into it",
        (Domain::Loop(_), _) => ": a `leave` of the loop between them leads out of it",
        _ => "",
    }
}

/// A policy that a kind may not have (F7).
pub(crate) fn policy_slip<'a>(alloc: Global, all: &Declarations<'a>, line: u32) -> Found<'a> {
    let Some(node) = node_on(all, line) else {
        return Ok(None);
    };
    let kind = Shown(node.kind);
    Ok(Some(Slip::at(
        node.last,
        format!(in alloc;
            "expected lazy, logged, eager or full: a {kind} keeps a state, and can't start again from nothing"
        )?,
    )))
}

/// A declaration too many, or a number out of its range (F8).
pub(crate) fn range_slip<'a>(alloc: Global, all: &Declarations<'a>, line: u32) -> Found<'a> {
    if let Some(it) = loop_on(all, line)
        && !is_between(it.max.bytes, 1, 1024)
    {
        return Ok(Some(Slip::at(
            it.max,
            format!(in alloc; "expected a greatest counter from 1 to 1024")?,
        )));
    }
    if let Some(node) = node_on(all, line)
        && let Some(size) = node.operand
        && node.kind == b"regroup".as_slice()
        && !is_between(size.bytes, 1, 4_294_967_295)
    {
        return Ok(Some(Slip::at(
            size,
            format!(in alloc; "expected a number from 1 to 4294967295")?,
        )));
    }
    if let Some(node) = node_on(all, line)
        && let Some(number) = node.split
        && !is_between(number.bytes, 2, 64)
    {
        return Ok(Some(Slip::at(
            number,
            format!(in alloc; "expected a number of replicas from 2 to 64")?,
        )));
    }
    too_many(alloc, all)
}

// How many nodes, edges and loops a flow has that has too many of them.
fn too_many<'a>(alloc: Global, all: &Declarations<'a>) -> Found<'a> {
    let loops = all.loops.len();
    let written = Sizes::written(all);
    if !written.is_allowed() || !is_split(all) {
        let Sizes { nodes, edges } = written;
        return Ok(Some(Slip::of_line(format!(in alloc;
            "expected at most 256 nodes, 512 edges and 64 loops; the lines declare {nodes} nodes, {edges} edges and {loops} loops"
        )?)));
    }
    let Sizes { nodes, edges } = Sizes::expanded(all);
    Ok(Some(Slip::of_line(format!(in alloc;
        "expected at most 256 nodes, 512 edges and 64 loops; with the replicas of split nodes the flow has {nodes} nodes, {edges} edges and {loops} loops"
    )?)))
}

// Whether a node is split.
fn is_split(all: &Declarations<'_>) -> bool {
    for node in all.nodes.iter() {
        if node.split.is_some() {
            return true;
        }
    }
    false
}

// Whether a word is a number of this range.
fn is_between(word: &[u8], least: u64, most: u64) -> bool {
    match number(word) {
        Number::Value(value) => least <= value && value <= most,
        _ => false,
    }
}

/// What a flow lacks as a whole (F9).
pub(crate) fn lacks(all: &Declarations<'_>) -> &'static str {
    let inputs = has_kind(all, b"input".as_slice());
    let outputs = has_kind(all, b"output".as_slice());
    match (inputs, outputs) {
        (false, false) =>
            "there is no input and no output: declare both, as `node orders input` and `node shop output epoch`",
        (false, true) => "there is no input: declare one, as `node orders input`",
        _ => "there is no output: declare one, as `node shop output epoch`",
    }
}

// Whether a node is of this kind.
fn has_kind(all: &Declarations<'_>, kind: &[u8]) -> bool {
    for node in all.nodes.iter() {
        if node.kind == kind {
            return true;
        }
    }
    false
}
