//! The expansion of a flow: each split node stands as its replicas.
use crate::circle::{MOST_EDGES, MOST_NODES};
use crate::declared::{Declarations, EdgeLine, NodeLine};
use crate::word::{Row, Word, str_of};
use fw_lines::{Number, number};
use std::alloc::{AllocError, Global};

/// How many nodes and edges a flow has.
#[derive(Clone, Copy)]
pub(crate) struct Sizes {
    pub(crate) nodes: usize,
    pub(crate) edges: usize,
}

impl Sizes {
    /// Those of the lines as they are written.
    pub(crate) fn written(all: &Declarations<'_>) -> Sizes {
        Sizes {
            nodes: all.nodes.len(),
            edges: all.edges.len(),
        }
    }

    /// Whether a flow may have so many.
    pub(crate) fn is_allowed(self) -> bool {
        self.nodes <= MOST_NODES && self.edges <= MOST_EDGES
    }

    /// Those of the expansion of so many lines as a flow may have.
    pub(crate) fn expanded(all: &Declarations<'_>) -> Sizes {
        let mut sizes = Sizes { nodes: 0, edges: 0 };
        for node in all.nodes.iter() {
            let replicas = replicas_of(*node).unwrap_or(0);
            sizes.nodes = sizes.nodes.saturating_add(replicas.saturating_add(1));
            sizes.edges = sizes.edges.saturating_add(replicas);
        }
        for edge in all.edges.iter() {
            let parts = parts_of(all, *edge).unwrap_or(1);
            sizes.edges = sizes.edges.saturating_add(parts);
        }
        sizes
    }
}

/// How many replicas a node has, if it is split.
pub(crate) fn replicas_of(node: NodeLine<'_>) -> Option<usize> {
    match number(node.split?.bytes) {
        Number::Value(count) if (2..=64).contains(&count) => Some(count as usize),
        _ => Some(2),
    }
}

// How many parts an edge has, if it leads to a split node.
fn parts_of(all: &Declarations<'_>, edge: EdgeLine<'_>) -> Option<usize> {
    replicas_of(all.node(edge.dst.bytes)?)
}

/// The text of the expansion, a line for each declaration; of a flow that is too large, the lines as they are written.
pub(crate) fn expansion(
    alloc: Global,
    rows: &[Row<'_>],
    all: &Declarations<'_>,
) -> Result<String, AllocError> {
    let is_small = Sizes::written(all).is_allowed() && Sizes::expanded(all).is_allowed();
    let mut text = String::new(alloc);
    for row in rows {
        let words = row.words.as_slice();
        match words {
            [first, name, ..] if is_small && first.bytes == b"node".as_slice() => {
                add_node(all, words, name.bytes, &mut text)?;
            }
            [first, name, ..] if is_small && first.bytes == b"edge".as_slice() => {
                add_edge(all, words, name.bytes, &mut text)?;
            }
            _ => add_words(words, &mut text)?,
        }
    }
    Ok(text)
}

// Adds a line of these words.
fn add_words(words: &[Word<'_>], text: &mut String) -> Result<(), AllocError> {
    for word in words {
        text.push_str(str_of(word.bytes))?;
        text.push(' ')?;
    }
    text.push('\n')
}

// Adds the line of a node; of a split one those of its replicas, of the node that joins them, and of the edges to there.
fn add_node(
    all: &Declarations<'_>,
    words: &[Word<'_>],
    name: &[u8],
    text: &mut String,
) -> Result<(), AllocError> {
    let Some(node) = all.node(name) else {
        return add_words(words, text);
    };
    let Some(count) = replicas_of(node) else {
        return add_words(words, text);
    };
    let name = str_of(name);
    for place in 0..count {
        write!(text, "node {name}.{place} ")?;
        add_kind(str_of(node.kind), node.of, str_of(node.last.bytes), text)?;
    }
    write!(text, "node {name} ")?;
    add_kind("concat", node.of, "none", text)?;
    add_out_edges(name, count, text)
}

// Adds the edges from the replicas of a node to the one that joins them.
fn add_out_edges(name: &str, count: usize, text: &mut String) -> Result<(), AllocError> {
    for place in 0..count {
        write!(text, "edge {name}.out.{place} {name}.{place} {name}\n")?;
    }
    Ok(())
}

// Adds what a node's line says behind the name: its kind, its loop if it stands in one, and its policy.
fn add_kind(
    kind: &str,
    of: Option<Word<'_>>,
    policy: &str,
    text: &mut String,
) -> Result<(), AllocError> {
    write!(text, "{kind} ")?;
    add_loop(of, text)?;
    write!(text, "policy {policy}\n")
}

// Adds the loop in which a node stands.
fn add_loop(of: Option<Word<'_>>, text: &mut String) -> Result<(), AllocError> {
    let Some(of) = of else {
        return Ok(());
    };
    let of = str_of(of.bytes);
    write!(text, "loop {of} ")
}

// Adds the line of an edge; of one to a split node, those of its parts.
fn add_edge(
    all: &Declarations<'_>,
    words: &[Word<'_>],
    name: &[u8],
    text: &mut String,
) -> Result<(), AllocError> {
    let Some(edge) = all.edge(name) else {
        return add_words(words, text);
    };
    let Some(count) = parts_of(all, edge) else {
        return add_words(words, text);
    };
    let name = str_of(name);
    let from = str_of(edge.src.bytes);
    let to = str_of(edge.dst.bytes);
    for place in 0..count {
        write!(text, "edge {name}.{place} {from} {to}.{place}\n")?;
    }
    Ok(())
}
