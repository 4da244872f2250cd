//! Which word of inputs or of a schedule breaks a rule, and what was expected.
use crate::declared::{Declarations, Domain, NodeLine};
use crate::shown::Shown;
use crate::slip::{Slip, add_near_name};
use crate::word::{Word, str_of};
use std::alloc::{AllocError, Global};

type Found<'a> = Result<Option<Slip<'a>>, AllocError>;

/// What a name of a line is to be.
#[derive(Clone, Copy)]
pub(crate) enum Sort {
    Input,
    Output,
    Node,
    Edge,
}

impl Sort {
    // What a step wants that begins with this verb.
    fn of(verb: &[u8]) -> Self {
        match str_of(verb) {
            "inject" | "batch" => Sort::Input,
            "ack" => Sort::Output,
            "deliver" => Sort::Edge,
            _ => Sort::Node,
        }
    }

    fn name(self) -> &'static str {
        match self {
            Sort::Input => "the name of an input",
            Sort::Output => "the name of an output",
            Sort::Node => "the name of a node",
            Sort::Edge => "the name of an edge",
        }
    }

    // Whether a node is of this sort.
    fn has(self, node: NodeLine<'_>) -> bool {
        match self {
            Sort::Input => node.kind == b"input".as_slice(),
            Sort::Output => node.kind == b"output".as_slice(),
            Sort::Node => true,
            Sort::Edge => false,
        }
    }

    // Whether it is declared.
    fn is_declared(self, all: &Declarations<'_>, name: &[u8]) -> bool {
        match self {
            Sort::Edge => all.edge(name).is_some(),
            _ => match all.node(name) {
                Some(node) => self.has(node),
                None => false,
            },
        }
    }
}

/// A name that is not that of what the line wants (I2, S2).
pub(crate) fn name_slip<'a>(
    alloc: Global,
    all: &Declarations<'_>,
    words: &[Word<'a>],
) -> Found<'a> {
    let [verb, names @ ..] = words else {
        return Ok(None);
    };
    let sort = Sort::of(verb.bytes);
    let Some(word) = first_undeclared(all, sort, names) else {
        return Ok(None);
    };
    let wanted = sort.name();
    let mut said = format!(in alloc; "expected {wanted}")?;
    add_what_it_is(all, sort, word.bytes, &mut said)?;
    let names = names_of(alloc, all, sort)?;
    add_near_name(alloc, word.bytes, names.as_slice(), &mut said)?;
    add_known(names.as_slice(), &mut said)?;
    Ok(Some(Slip::at(word, said)))
}

// The first of these names that is not that of a thing of this sort.
fn first_undeclared<'a>(
    all: &Declarations<'_>,
    sort: Sort,
    names: &[Word<'a>],
) -> Option<Word<'a>> {
    for name in names {
        if !sort.is_declared(all, name.bytes) {
            return Some(*name);
        }
    }
    None
}

/// The names of this sort.
pub(crate) fn names_of<'a>(
    alloc: Global,
    all: &Declarations<'a>,
    sort: Sort,
) -> Result<Vec<&'a [u8]>, AllocError> {
    match sort {
        Sort::Edge => edge_names(alloc, all),
        _ => node_names(alloc, all, sort),
    }
}

// The names of all edges.
fn edge_names<'a>(alloc: Global, all: &Declarations<'a>) -> Result<Vec<&'a [u8]>, AllocError> {
    let mut names = Vec::new(alloc);
    for edge in all.edges.iter() {
        names.push(edge.name.bytes)?;
    }
    Ok(names)
}

// The names of the nodes of this sort.
fn node_names<'a>(
    alloc: Global,
    all: &Declarations<'a>,
    sort: Sort,
) -> Result<Vec<&'a [u8]>, AllocError> {
    let mut names = Vec::new(alloc);
    for node in all.nodes.iter() {
        if sort.has(*node) {
            names.push(node.name.bytes)?;
        }
    }
    Ok(names)
}

// Adds what a name is, where it is another thing.
fn add_what_it_is(
    all: &Declarations<'_>,
    sort: Sort,
    name: &[u8],
    said: &mut String,
) -> Result<(), AllocError> {
    if let Some(node) = all.node(name) {
        let kind = Shown(node.kind);
        return write!(said, ", and this is a node of the kind {kind}");
    }
    if all.edge(name).is_some() {
        return said.push_str(", and this is an edge");
    }
    match sort {
        Sort::Edge => said.push_str(", and the flow declares none of this name"),
        _ => said.push_str(", and the flow declares no node of this name"),
    }
}

// Adds which names there are, where they are few.
fn add_known(names: &[&[u8]], said: &mut String) -> Result<(), AllocError> {
    if names.is_empty() || names.len() > 12 {
        return Ok(());
    }
    said.push_str(" (there are:")?;
    for name in names {
        let name = Shown(name);
        write!(said, " {name}")?;
    }
    said.push_str(")")
}

/// A stamp that is not of the domain (S3).
pub(crate) fn stamp_slip<'a>(
    alloc: Global,
    all: &Declarations<'_>,
    words: &[Word<'a>],
) -> Found<'a> {
    let [verb, name, _, stamp] = words else {
        return Ok(None);
    };
    let Some(node) = receiver(all, verb.bytes, name.bytes) else {
        return Ok(None);
    };
    let domain = all.domain(node);
    let coordinates = all.coordinates(domain);
    let receiver = Shown(node.name.bytes);
    let numbers = if coordinates == 1 {
        "number"
    } else {
        "numbers joined by dots"
    };
    let mut said = format!(in alloc;
        "expected {coordinates} {numbers}, since `{receiver}` takes {domain}"
    )?;
    match domain {
        Domain::Loop(_) => said.push_str(
            ": the epoch and a counter for each loop, none above the loop's max",
        )?,
        _ => said.push_str(", up to 4294967295")?,
    }
    Ok(Some(Slip::at(*stamp, said)))
}

// The node whose domain a stamp has to lie in.
fn receiver<'a>(all: &Declarations<'a>, verb: &[u8], name: &[u8]) -> Option<NodeLine<'a>> {
    match str_of(verb) {
        "deliver" => all.node(all.edge(name)?.dst.bytes),
        _ => all.node(name),
    }
}

/// More batches than a source may have (I5), of this line.
pub(crate) fn many_batches<'a>(alloc: Global, words: &[Word<'a>]) -> Found<'a> {
    let Some(word) = words.get(1) else {
        return Ok(None);
    };
    Ok(Some(Slip::at(
        *word,
        format!(in alloc; "expected at most 1048576 batches of one input: make two runs of it")?,
    )))
}

/// More steps than a schedule may ask for (S4), of this line.
pub(crate) fn many_steps<'a>(alloc: Global, words: &[Word<'a>]) -> Found<'a> {
    let Some(word) = words.last() else {
        return Ok(None);
    };
    Ok(Some(Slip::at(
        *word,
        format!(in alloc;
            "expected at most 4294967295 steps in all, where `auto N` counts as N: `auto 1000000` ends where nothing is left to do"
        )?,
    )))
}
