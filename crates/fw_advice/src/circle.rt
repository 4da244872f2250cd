//! Walks through a flow: what is reached from where.
use crate::declared::{Declarations, Domain, NodeLine, is_same};
use crate::flow_rules::add_shown;
use crate::word::is_word;
use std::alloc::{AllocError, Global};

/// A flow has at most so many nodes; one of more is not searched.
pub(crate) const MOST_NODES: usize = 256;

/// A flow has at most so many edges; one of more is not searched.
pub(crate) const MOST_EDGES: usize = 512;

/// The edges of a flow, by the places of their nodes.
#[derive(Drop)]
pub(crate) struct Walks {
    nodes: usize,
    edges: Vec<(usize, usize)>,
}

impl Walks {
    /// The walks of a flow; those of one that is too large are none.
    pub(crate) fn of(alloc: Global, all: &Declarations<'_>) -> Result<Self, AllocError> {
        let mut edges = Vec::new(alloc);
        let nodes = all.nodes.len();
        if nodes > MOST_NODES || all.edges.len() > MOST_EDGES {
            return Ok(Walks { nodes: 0, edges });
        }
        for edge in all.edges.iter() {
            let src = place_of(all, edge.src.bytes);
            let dst = place_of(all, edge.dst.bytes);
            if let (Some(src), Some(dst)) = (src, dst) {
                edges.push((src, dst))?;
            }
        }
        Ok(Walks { nodes, edges })
    }

    /// Whether the flow is small enough to be searched.
    pub(crate) fn is_whole(&self) -> bool {
        self.nodes > 0
    }

    /// At which places a walk of one edge or more from this place ends, that passes these places alone.
    pub(crate) fn from(
        &self,
        alloc: Global,
        place: usize,
        allowed: &[bool],
    ) -> Result<Vec<bool>, AllocError> {
        let mut reached = vec![in alloc; false; self.nodes]?;
        for _ in 0..self.nodes {
            if !self.go_on(place, allowed, &mut reached) {
                break;
            }
        }
        Ok(reached)
    }

    // Reaches what one more edge leads to, and says whether there was any.
    fn go_on(&self, place: usize, allowed: &[bool], reached: &mut Vec<bool>) -> bool {
        let mut more = false;
        for (src, dst) in self.edges.iter() {
            let begins = *src == place || is_in(reached.as_slice(), *src);
            if begins && is_in(allowed, *dst) && !is_in(reached.as_slice(), *dst) {
                more |= mark(reached, *dst);
            }
        }
        more
    }
}

// Sets a place, if it is there.
fn mark(places: &mut Vec<bool>, place: usize) -> bool {
    match places.get_mut(place) {
        Some(it) => {
            *it = true;
            true
        }
        None => false,
    }
}

/// Whether a place is among these.
pub(crate) fn is_in(places: &[bool], place: usize) -> bool {
    places.get(place).copied().unwrap_or(false)
}

// The place of a node of this name.
fn place_of(all: &Declarations<'_>, name: &[u8]) -> Option<usize> {
    for (place, node) in all.nodes.iter().enumerate() {
        if node.name.bytes == name {
            return Some(place);
        }
    }
    None
}

/// Which nodes go round where they may not (F6), in words.
pub(crate) fn circle(alloc: Global, all: &Declarations<'_>) -> Result<String, AllocError> {
    let walks = Walks::of(alloc, all)?;
    circle_by(alloc, all, &walks)
}

// The same by the walks of the flow.
fn circle_by(alloc: Global, all: &Declarations<'_>, walks: &Walks) -> Result<String, AllocError> {
    let said = circle_outside(alloc, all, walks)?;
    if !said.is_empty() {
        return Ok(said);
    }
    for it in all.loops.iter() {
        let said = circle_in(alloc, all, walks, it.name.bytes)?;
        if !said.is_empty() {
            return Ok(said);
        }
    }
    format!(in alloc; "nodes stand in a circle without a `feedback`")
}

// Which nodes go round with one outside loops, in words; nothing where none do.
fn circle_outside(
    alloc: Global,
    all: &Declarations<'_>,
    walks: &Walks,
) -> Result<String, AllocError> {
    let every = vec![in alloc; true; walks.nodes]?;
    for (place, node) in all.nodes.iter().enumerate() {
        if is_outside(all, *node) {
            let round = round_of(alloc, walks, place, every.as_slice())?;
            if !round.is_empty() {
                return outside_told(alloc, all, round.as_slice());
            }
        }
    }
    Ok(String::new(alloc))
}

// A circle through nodes outside loops, in words.
fn outside_told(
    alloc: Global,
    all: &Declarations<'_>,
    round: &[usize],
) -> Result<String, AllocError> {
    let mut said = format!(in alloc; "a node outside loops stands in a circle; round go:")?;
    add_names(all, round, &mut said)?;
    Ok(said)
}

// Whether a node stands outside loops.
fn is_outside<'a>(all: &Declarations<'a>, node: NodeLine<'a>) -> bool {
    !matches!(all.domain(node), Domain::Loop(_))
}

// Which nodes of a loop go round in it without its feedback, in words; nothing where none do.
fn circle_in(
    alloc: Global,
    all: &Declarations<'_>,
    walks: &Walks,
    name: &[u8],
) -> Result<String, AllocError> {
    let mut allowed = Vec::new(alloc);
    for node in all.nodes.iter() {
        allowed.push(stays_in(all, *node, name))?;
    }
    for (place, node) in all.nodes.iter().enumerate() {
        let begins = is_same(all.domain(*node), Domain::Loop(name));
        if begins && is_in(allowed.as_slice(), place) {
            let round = round_of(alloc, walks, place, allowed.as_slice())?;
            if !round.is_empty() {
                return inside_told(alloc, all, name, round.as_slice());
            }
        }
    }
    Ok(String::new(alloc))
}

// A circle in a loop, in words.
fn inside_told(
    alloc: Global,
    all: &Declarations<'_>,
    name: &[u8],
    round: &[usize],
) -> Result<String, AllocError> {
    let mut said = format!(in alloc; "a circle in the loop `")?;
    add_shown(&mut said, name)?;
    said.push_str("` passes no `feedback` of it; round go:")?;
    add_names(all, round, &mut said)?;
    Ok(said)
}

// Whether a node stands in a loop or in one within it, and is not its feedback.
fn stays_in<'a>(all: &Declarations<'a>, node: NodeLine<'a>, name: &[u8]) -> bool {
    if node.kind == b"feedback".as_slice() && is_word(node.of, name) {
        return false;
    }
    let mut at = all.domain(node);
    for _ in 0..4 {
        let Domain::Loop(here) = at else {
            return false;
        };
        if here == name {
            return true;
        }
        at = all.around(here);
    }
    false
}

// The places of a circle through this place, none where there is no such circle.
fn round_of(
    alloc: Global,
    walks: &Walks,
    place: usize,
    allowed: &[bool],
) -> Result<Vec<usize>, AllocError> {
    let mut round = Vec::new(alloc);
    let reached = walks.from(alloc, place, allowed)?;
    if !is_in(reached.as_slice(), place) {
        return Ok(round);
    }
    for other in 0..walks.nodes {
        if is_in(reached.as_slice(), other)
            && is_in(walks.from(alloc, other, allowed)?.as_slice(), place)
        {
            round.push(other)?;
        }
    }
    Ok(round)
}

// Adds the names of the nodes at these places.
fn add_names(
    all: &Declarations<'_>,
    places: &[usize],
    said: &mut String,
) -> Result<(), AllocError> {
    for place in places {
        if let Some(node) = all.nodes.get(*place) {
            said.push_str(" ")?;
            add_shown(said, node.name.bytes)?;
        }
    }
    Ok(())
}
