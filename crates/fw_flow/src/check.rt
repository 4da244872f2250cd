//! Whether declarations are a well-formed flow, and which rule they break first.
ghost use Rattle.std.specs.Prelude.{◌≡◌, ◌↔◌, ℕ, ◌^◌, ◌<◌, List, [], ◌∷◌, ◌++◌, map, length, slice_index, Some, IsTrue, IsNone, IfSome, IfNone, OnOk, IfOk, IfErr};
ghost use Rattle.std.specs.List.{list_any};
ghost use Rattle.fw_lines.specs.Faults.{IfRefused};
ghost use Rattle.fw_flow.specs.Declaring as declaring;
ghost use Rattle.fw_flow.specs.Check as spec;
ghost use Rattle.fw_flow.specs.Check.{IsSplitNumber, IsWithinLimitsAfter, HasBorders, all_lines, IsFirstBreakIfAny};
ghost use Rattle.fw_flow.specs.Dataflow.{Dataflow, domain_of_kind, out_domain_of_kind, is_input_kind, is_output_kind};
ghost use Rattle.fw_flow.specs.Flow.{edges_at};
ghost use Rattle.fw_flow.specs.Parts.{AreCountsDeclared, places_from};
ghost use Rattle.fw_flow.specs.Raw.{names_of};
ghost use Rattle.fw_flow.specs.Walks.{AreWithin, IsMadeOf, link_of, listed_kind};
ghost use Rattle.fw_flow.specs.WellFormed.{IsGroupSize, IsInDegree, IsOutDegree, IsPolicyAllowed, HasShortChain};

use crate::kind::is_chain_short;
use crate::raw::NameSpaces;
use crate::walks::Link;
use crate::{Declaration, Declared, Edge, EdgeId, FullName, Kind, Loop, Node, Policy, RawKind};
use fw_lines::{Code, ReadFault, Refusal};
use std::alloc::{AllocError, Global};

const MAX_LOOPS: usize = 64;

const MAX_NODES: usize = 256;

const MAX_EDGES: usize = 512;

const MAX_COUNTER: u64 = 1024;

const MAX_GROUP: u64 = 4_294_967_295;

const MAX_REPLICAS: u64 = 64;

/// Refuses with the code where there is a line.
pub(crate) fn refuse(code: Code, line: Option<u32>) -> Result<(), ReadFault>
    ensures kept { OnOk result (IsNone line) }
    ensures broken { IfErr result (IfRefused (λ refusal.
        (refusal.code ≡ code) × (line ≡ Some refusal.line))) }
{
    match line {
        None => Ok(()),
        Some(line) => Err(ReadFault::Refused(Refusal { code, line })),
    }
}

/// The line of the first declaration that names a loop or a node that is not declared.
pub(crate) fn undeclared_line(names: &NameSpaces, declared: &[Declared<FullName>]) -> Option<u32>
    requires { names.now ≡ names_of declared.now }
    ensures { IsFirstBreakIfAny (spec.NamesTheDeclared declared.now) (all_lines declared.now)
        result }
{
    for one in declared {
        if !are_names_declared(names, &one.declaration) {
            return Some(one.line);
        }
    }
    None
}

// Whether what the declaration names is declared.
fn are_names_declared(names: &NameSpaces, declaration: &Declaration<FullName>) -> bool
    ensures { result ≡ spec.are_names_declared names.now declaration.now }
{
    match declaration {
        Declaration::Loop { parent, .. } => match parent {
            Some(name) => names.loops.has(name.as_bytes()),
            None => true,
        },
        Declaration::Node { kind, .. } => match kind.the_loop() {
            Some(name) => names.loops.has(name.as_bytes()),
            None => true,
        },
        Declaration::Edge {
            sender,
            receiver,
            ..
        } => names.nodes.has(sender.as_bytes()) && names.nodes.has(receiver.as_bytes()),
    }
}

/// The line of the first loop whose chain of loops, each declared in the next, does not end within three.
pub(crate) fn chain_line(loops: &[Loop], lines: &[u32]) -> Option<u32>
    requires lines { length lines.now ≡ length loops.now }
    ensures { (flow : Dataflow) → flow.loops ≡ loops.now
        → IsFirstBreakIfAny (HasShortChain flow) lines.now result }
{
    for (place, a_loop) in loops.iter().enumerate() {
        if !is_chain_short(loops, &a_loop.parent) {
            return Some(lines[place]);
        }
    }
    None
}

/// The line of the first node that has other degrees than its kind wants. These are the edges to
/// each node and from it.
pub(crate) fn degree_line(
    nodes: &[Node],
    incoming: &[Vec<EdgeId>],
    outgoing: &[Vec<EdgeId>],
    lines: &[u32],
) -> Option<u32>
    requires incoming { length incoming.now ≡ length nodes.now }
    requires outgoing { length outgoing.now ≡ length nodes.now }
    requires lines { length lines.now ≡ length nodes.now }
    ensures { IsFirstBreakIfAny (λ p.
        IsInDegree (listed_kind nodes.now p) (length (edges_at incoming.now p))
        × IsOutDegree (listed_kind nodes.now p) (length (edges_at outgoing.now p)))
        lines.now result }
{
    for (place, node) in nodes.iter().enumerate() {
        if !are_degrees(&node.kind, incoming[place].len(), outgoing[place].len()) {
            return Some(lines[place]);
        }
    }
    None
}

// Whether a node of the kind may have so many in-edges and out-edges.
fn are_degrees(kind: &Kind, incoming: usize, outgoing: usize) -> bool
    ensures { IsTrue result ↔ (IsInDegree kind.now incoming × IsOutDegree kind.now outgoing) }
{
    is_in_degree(kind, incoming) && is_out_degree(kind, outgoing)
}

// Whether a node of the kind may have so many in-edges.
fn is_in_degree(kind: &Kind, count: usize) -> bool
    ensures { IsTrue result ↔ IsInDegree kind.now count }
{
    match kind {
        Kind::Input => count == 0,
        Kind::Concat { .. } => count >= 2,
        Kind::Join { .. } => count == 2,
        _ => count == 1,
    }
}

// Whether a node of the kind may have so many out-edges.
fn is_out_degree(kind: &Kind, count: usize) -> bool
    ensures { IsTrue result ↔ IsOutDegree kind.now count }
{
    match kind {
        Kind::OutputEpoch | Kind::OutputNumber => count == 0,
        _ => true,
    }
}

/// The line of the first edge that joins two domains.
pub(crate) fn domain_line(
    loops: &[Loop],
    nodes: &[Node],
    links: &[Link],
    lines: &[u32],
) -> Option<u32>
    requires within { AreWithin (length nodes.now) links.now }
    requires lines { length lines.now ≡ length links.now }
    ensures { (flow : Dataflow) → IsMadeOf flow loops.now nodes.now links.now
        → IsFirstBreakIfAny (spec.JoinsDomains flow) lines.now result }
{
    for (place, link) in links.iter().enumerate() {
        if !can_join(loops, nodes[link.sender].kind, nodes[link.receiver].kind) {
            return Some(lines[place]);
        }
    }
    None
}

// Whether the out domain of the one kind is the domain of the other.
fn can_join(loops: &[Loop], from: Kind, to: Kind) -> bool
    ensures { (flow : Dataflow) → flow.loops ≡ loops.now
        → (IsTrue result ↔ (out_domain_of_kind flow from ≡ domain_of_kind flow to)) }
{
    from.out_domain(loops) == to.domain(loops)
}

/// The line of the first node whose policy is not allowed for its kind.
pub(crate) fn policy_line(nodes: &[Node], lines: &[u32]) -> Option<u32>
    requires lines { length lines.now ≡ length nodes.now }
    ensures { (flow : Dataflow) → flow.nodes ≡ nodes.now
        → IsFirstBreakIfAny (spec.HasAllowedPolicy flow) lines.now result }
{
    for (place, node) in nodes.iter().enumerate() {
        if !is_policy_allowed(node.kind, node.policy) {
            return Some(lines[place]);
        }
    }
    None
}

// Whether the policy is allowed for the kind.
fn is_policy_allowed(kind: Kind, policy: Policy) -> bool
    ensures { IsTrue result ↔ IsPolicyAllowed kind policy }
{
    match kind {
        Kind::Input | Kind::OutputEpoch | Kind::OutputNumber => policy == Policy::None,
        Kind::Total | Kind::Sequence | Kind::Ledger => policy != Policy::None,
        _ => true,
    }
}

/// The line of the first declaration that goes over the limits, or has a number out of range.
pub(crate) fn limit_line(declared: &[Declared<FullName>]) -> Option<u32>
    ensures { IsFirstBreakIfAny (spec.StaysWithinLimits declared.now) (all_lines declared.now)
        result }
{
    let mut counts = Counts {
        loops: 0,
        nodes: 0,
        edges: 0,
    };
    for one in declared {
        match counts.with(&one.declaration) {
            Some(more) => counts = more,
            None => return Some(one.line),
        }
    }
    None
}

// How many loops, nodes and edges were declared so far.
#[derive(Clone, Copy)]
struct Counts {
    loops: usize,
    nodes: usize,
    edges: usize,
}

impl Counts {
    // The counts with one more declaration, if that is within the limits.
    fn with(self, declaration: &Declaration<FullName>) -> Option<Counts>
        ensures within { IfSome result (λ more. (before : List declaring.Declared) → AreCountsDeclared self before
            → IsWithinLimitsAfter before declaration.now) }
        ensures counts { IfSome result (λ more. (before : List declaring.Declared) (line : ℕ)
            → AreCountsDeclared self before → AreCountsDeclared more (before
            ++ record { line = line; declaration = declaration.now } ∷ [])) }
        ensures over { IfNone result ((before : List declaring.Declared) → AreCountsDeclared self before
            → IsWithinLimitsAfter before declaration.now → ⊥) }
    {
        match declaration {
            Declaration::Loop { max, .. } => {
                if self.loops >= MAX_LOOPS || *max < 1 || *max > MAX_COUNTER {
                    return None;
                }
                Some(Counts {
                    loops: self.loops + 1,
                    ..self
                })
            }
            Declaration::Node { kind, split, .. } => {
                if self.nodes >= MAX_NODES || !is_group_size(kind) || !is_split_number(*split) {
                    return None;
                }
                Some(Counts {
                    nodes: self.nodes + 1,
                    ..self
                })
            }
            Declaration::Edge { .. } => {
                if self.edges >= MAX_EDGES {
                    return None;
                }
                Some(Counts {
                    edges: self.edges + 1,
                    ..self
                })
            }
        }
    }
}

// Whether a node may be split into so many, where a number is written.
fn is_split_number(split: Option<u64>) -> bool
    ensures { IsTrue result ↔ IsSplitNumber split }
{
    match split {
        Some(number) => (2..=MAX_REPLICAS).contains(&number),
        None => true,
    }
}

// Whether so many numbers may be grouped into one epoch.
fn is_group_size(kind: &RawKind) -> bool
    ensures { IsTrue result ↔ IsGroupSize kind.now }
{
    match kind {
        Kind::Regroup(size) => 1 <= *size && *size <= MAX_GROUP,
        _ => true,
    }
}

/// Whether there is an input and an output.
pub(crate) fn has_borders(nodes: &[Node]) -> bool
    ensures { (flow : Dataflow) → flow.nodes ≡ nodes.now → (IsTrue result ↔ HasBorders flow) }
{
    has_input(nodes) && has_output(nodes)
}

fn has_input(nodes: &[Node]) -> bool
    ensures { result ≡ list_any (λ node. is_input_kind node.kind) nodes.now }
{
    nodes.iter().any(|node| node.kind.is_input())
}

fn has_output(nodes: &[Node]) -> bool
    ensures { result ≡ list_any (λ node. is_output_kind node.kind) nodes.now }
{
    nodes.iter().any(|node| node.kind.is_output())
}

/// The links of the edges, in order.
pub(crate) fn links_of(alloc: Global, edges: &[Edge]) -> Result<Vec<Link>, AllocError>
    ensures { IfOk result (λ links. links.items ≡ map link_of edges.now) }
{
    edges.iter().map(link).collect(alloc)
}

fn link(edge: &Edge) -> Link
    ensures { result ≡ link_of edge.now }
{
    Link {
        sender: edge.sender.place() as usize,
        receiver: edge.receiver.place() as usize,
    }
}

/// For each of so many nodes the places of the ends that are it, in order.
pub(crate) fn edges_by_end(
    alloc: Global,
    nodes: usize,
    ends: &[usize],
) -> Result<Vec<Vec<EdgeId>>, AllocError>
    requires within { (e : ℕ) → e < length ends.now → slice_index ends.now e < nodes }
    requires few { length ends.now < 2 ^ 32 }
    ensures len { IfOk result (λ lists. length lists.items ≡ nodes) }
    ensures edges { IfOk result (λ lists. (p : ℕ)
        → edges_at lists.items p ≡ places_from 0 ends.now p) }
{
    let mut lists = empty_lists(alloc, nodes)?;
    for (place, end) in ends.iter().enumerate() {
        lists[*end].push(EdgeId::at(place as u32))?;
    }
    Ok(lists)
}

// So many lists without an edge.
fn empty_lists(alloc: Global, count: usize) -> Result<Vec<Vec<EdgeId>>, AllocError>
    ensures len { IfOk result (λ lists. length lists.items ≡ count) }
    ensures empty { IfOk result (λ lists. (p : ℕ) → edges_at lists.items p ≡ []) }
{
    let mut lists = Vec::new(alloc);
    for _ in 0..count {
        lists.push(Vec::new(alloc))?;
    }
    Ok(lists)
}
