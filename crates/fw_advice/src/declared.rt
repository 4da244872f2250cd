//! What the lines of a flow declare, as far as they can be read.
use crate::word::{Row, Word, str_of};
use std::alloc::{AllocError, Global};

/// The domain of a node, or that in which it sends.
#[derive(Clone, Copy)]
pub(crate) enum Domain<'a> {
    Epoch,
    Number,
    /// The loop of this name.
    Loop(&'a [u8]),
}

/// A line that declares a loop.
#[derive(Clone, Copy)]
pub(crate) struct LoopLine<'a> {
    pub(crate) number: u32,
    pub(crate) name: Word<'a>,
    /// Its greatest counter.
    pub(crate) max: Word<'a>,
    /// The loop that it lies in.
    pub(crate) parent: Option<Word<'a>>,
}

/// A line that declares a node.
#[derive(Clone, Copy)]
pub(crate) struct NodeLine<'a> {
    pub(crate) number: u32,
    pub(crate) name: Word<'a>,
    /// The word of its kind.
    pub(crate) kind: &'a [u8],
    /// The word behind it, as the number of a regroup.
    pub(crate) operand: Option<Word<'a>>,
    /// The loop that it names.
    pub(crate) of: Option<Word<'a>>,
    /// The number by which it is split.
    pub(crate) split: Option<Word<'a>>,
    /// The last word, its policy where it has one.
    pub(crate) last: Word<'a>,
}

/// A line that declares an edge.
#[derive(Clone, Copy)]
pub(crate) struct EdgeLine<'a> {
    pub(crate) number: u32,
    pub(crate) name: Word<'a>,
    pub(crate) src: Word<'a>,
    pub(crate) dst: Word<'a>,
}

/// What a line declares.
#[derive(Clone, Copy)]
enum Line<'a> {
    Loop(LoopLine<'a>),
    Node(NodeLine<'a>),
    Edge(EdgeLine<'a>),
    Nothing,
}

/// What a flow declares, in the order of the lines.
#[derive(Drop)]
pub(crate) struct Declarations<'a> {
    pub(crate) loops: Vec<LoopLine<'a>>,
    pub(crate) nodes: Vec<NodeLine<'a>>,
    pub(crate) edges: Vec<EdgeLine<'a>>,
}

impl<'a> Declarations<'a> {
    /// What these lines declare.
    pub(crate) fn of(alloc: Global, rows: &[Row<'a>]) -> Result<Self, AllocError> {
        let mut all = Declarations {
            loops: Vec::new(alloc),
            nodes: Vec::new(alloc),
            edges: Vec::new(alloc),
        };
        for row in rows {
            match declared_on(row) {
                Line::Loop(line) => all.loops.push(line)?,
                Line::Node(line) => all.nodes.push(line)?,
                Line::Edge(line) => all.edges.push(line)?,
                Line::Nothing => {}
            }
        }
        Ok(all)
    }

    /// The node of a name.
    pub(crate) fn node(&self, name: &[u8]) -> Option<NodeLine<'a>> {
        for node in self.nodes.iter() {
            if node.name.bytes == name {
                return Some(*node);
            }
        }
        None
    }

    /// The loop of a name.
    pub(crate) fn a_loop(&self, name: &[u8]) -> Option<LoopLine<'a>> {
        for it in self.loops.iter() {
            if it.name.bytes == name {
                return Some(*it);
            }
        }
        None
    }

    /// The edge of a name.
    pub(crate) fn edge(&self, name: &[u8]) -> Option<EdgeLine<'a>> {
        for edge in self.edges.iter() {
            if edge.name.bytes == name {
                return Some(*edge);
            }
        }
        None
    }

    /// The domain in which a loop is entered.
    pub(crate) fn around(&self, name: &[u8]) -> Domain<'a> {
        match self.a_loop(name) {
            Some(
                LoopLine {
                    parent: Some(parent),
                    ..
                },
            ) => Domain::Loop(parent.bytes),
            _ => Domain::Epoch,
        }
    }

    /// The domain of a node.
    pub(crate) fn domain(&self, node: NodeLine<'a>) -> Domain<'a> {
        let Some(of) = node.of else {
            return domain_outside(node.kind, node.last.bytes);
        };
        if node.kind == b"enter".as_slice() {
            self.around(of.bytes)
        } else {
            Domain::Loop(of.bytes)
        }
    }

    /// The domain in which a node sends.
    pub(crate) fn out_domain(&self, node: NodeLine<'a>) -> Domain<'a> {
        let Some(of) = node.of else {
            return out_domain_outside(node.kind, node.last.bytes);
        };
        if node.kind == b"leave".as_slice() {
            self.around(of.bytes)
        } else {
            Domain::Loop(of.bytes)
        }
    }

    /// How many coordinates the stamps of a domain have, by the loops around it, of which there are at most three.
    pub(crate) fn coordinates(&self, domain: Domain<'a>) -> u32 {
        let mut count = 1;
        let mut at = domain;
        for more in 2..5 {
            let Domain::Loop(name) = at else {
                return count;
            };
            count = more;
            at = self.around(name);
        }
        count
    }
}

// The domain of a node that names no loop.
fn domain_outside<'a>(kind: &[u8], last: &[u8]) -> Domain<'a> {
    let counts = kind == b"output".as_slice() && last == b"number".as_slice();
    if counts || kind == b"ledger".as_slice() || kind == b"regroup".as_slice() {
        Domain::Number
    } else {
        Domain::Epoch
    }
}

// The domain in which a node sends that names no loop.
fn out_domain_outside<'a>(kind: &[u8], last: &[u8]) -> Domain<'a> {
    if kind == b"sequence".as_slice() {
        Domain::Number
    } else if kind == b"regroup".as_slice() {
        Domain::Epoch
    } else {
        domain_outside(kind, last)
    }
}

/// Whether two domains are one.
pub(crate) fn is_same(one: Domain<'_>, other: Domain<'_>) -> bool {
    match (one, other) {
        (Domain::Epoch, Domain::Epoch) | (Domain::Number, Domain::Number) => true,
        (Domain::Loop(one), Domain::Loop(other)) => one == other,
        _ => false,
    }
}

// What a line declares.
fn declared_on<'a>(row: &Row<'a>) -> Line<'a> {
    let words = row.words.as_slice();
    let [first, ..] = words else {
        return Line::Nothing;
    };
    match str_of(first.bytes) {
        "loop" => loop_line(row.number, words),
        "node" => node_line(row.number, words),
        "edge" => edge_line(row.number, words),
        _ => Line::Nothing,
    }
}

fn loop_line<'a>(number: u32, words: &[Word<'a>]) -> Line<'a> {
    match words {
        [_, name, _, max] => Line::Loop(LoopLine {
            number,
            name: *name,
            max: *max,
            parent: None,
        }),
        [_, name, _, max, _, parent] => Line::Loop(LoopLine {
            number,
            name: *name,
            max: *max,
            parent: Some(*parent),
        }),
        _ => Line::Nothing,
    }
}

fn node_line<'a>(number: u32, words: &[Word<'a>]) -> Line<'a> {
    let [_, name, kind, ..] = words else {
        return Line::Nothing;
    };
    let Some(last) = words.last().copied() else {
        return Line::Nothing;
    };
    let operand = words.get(3).copied();
    Line::Node(NodeLine {
        number,
        name: *name,
        kind: kind.bytes,
        operand,
        of: loop_of(kind.bytes, operand, words),
        split: split_of(words),
        last,
    })
}

// The loop that a node's line names.
fn loop_of<'a>(kind: &[u8], operand: Option<Word<'a>>, words: &[Word<'a>]) -> Option<Word<'a>> {
    match str_of(kind) {
        "enter" | "feedback" | "leave" => operand,
        _ => match words {
            [_, _, _, .., before, name, _, _] if before.bytes == b"loop".as_slice() => Some(*name),
            [_, _, _, .., before, name, split, _, _, _]
                if before.bytes == b"loop".as_slice() && split.bytes == b"split".as_slice() => {
                Some(*name)
            }
            _ => None,
        },
    }
}

// The number by which a node is split.
fn split_of<'a>(words: &[Word<'a>]) -> Option<Word<'a>> {
    match words {
        [_, _, _, .., before, number, _, _] if before.bytes == b"split".as_slice() => Some(*number),
        _ => None,
    }
}

fn edge_line<'a>(number: u32, words: &[Word<'a>]) -> Line<'a> {
    match words {
        [_, name, src, dst] => Line::Edge(EdgeLine {
            number,
            name: *name,
            src: *src,
            dst: *dst,
        }),
        _ => Line::Nothing,
    }
}
