//! Facts about the definitions of dataflows, each proved as a function that does nothing, or walks.
ghost use Rattle.std.specs.Prelude.{◌≡◌, ◌⊎◌, ℕ, ◌<◌, true, List, length, map};
ghost use Rattle.std.specs.List.{AllByRecursion, IsDistinct};
ghost use Rattle.std.specs.Option.{option_map_or};
ghost use Rattle.std.specs.Str.{bytes_eq};
ghost use Rattle.fw_lines.specs.declared.refusal.Refusal.{Refusal};
ghost use Rattle.fw_lines.specs.Batches.{batches_at, AreBatchesOf};
ghost use Rattle.fw_lines.specs.Spelling.{is_name};
ghost use Rattle.fw_flow.specs.Builder.{has_names};
ghost use Rattle.fw_flow.specs.Declaring as declaring;
ghost use Rattle.fw_flow.specs.Check.{IsChecked, IsFirstBroken};
ghost use Rattle.fw_time.specs.Stamp.{nest};
ghost use Rattle.fw_flow.specs.declared.kind.Domain.TheVariants.{Loop as InLoop};
ghost use Rattle.fw_flow.specs.Dataflow.{Dataflow, declared_parent, domain_within, greatest_of, max_of, parent_of, system_of};
ghost use Rattle.fw_flow.specs.FullNames.{is_full_name};
ghost use Rattle.fw_flow.specs.PlainNames.{HasPlainEdges, HasPlainNodes};
ghost use Rattle.fw_flow.specs.Raw.{loop_names, node_names, edge_names};
ghost use Rattle.fw_flow.specs.Sources.{sources_of};
ghost use Rattle.fw_flow.specs.Ranks.{RanksExist};
ghost use Rattle.fw_flow.specs.WellFormed.{IsWellFormed, IsWellFormedSystem};

use crate::builder::has_loop_named;
use crate::{Declaration, Declared, Edge, Flow, Loop, Name, Node, RawFlow};
use fw_lines::Batches;

/// The nodes of each well-formed dataflow have ranks.
pub fn ranks_exist()
    ensures { RanksExist }
{}

/// A flow is well formed.
pub fn flow_is_well_formed(flow: &Flow)
    ensures { IsWellFormed flow.now }
{
    // Where a field is read, what holds of each flow is known.
    let _ = &flow.nodes;
}

/// A flow and batches of its sources, as `read_batches` gives them, are a well-formed system.
pub fn system_is_well_formed(flow: &Flow, batches: &Batches)
    requires { AreBatchesOf (sources_of flow.now) (batches_at batches.now) }
    ensures { IsWellFormedSystem (system_of flow.now batches.now) }
{
    flow_is_well_formed(flow);
}

/// No two loops of a flow have one name, no two nodes, and no two edges.
pub fn names_are_distinct(flow: &Flow)
    ensures loops { IsDistinct bytes_eq (map (λ a_loop. a_loop.name) flow.now.loops) }
    ensures nodes { IsDistinct bytes_eq (map (λ node. node.name) flow.now.nodes) }
    ensures edges { IsDistinct bytes_eq (map (λ edge. edge.name) flow.now.edges) }
{
    flow.node_names.are_distinct();
    flow.edge_names.are_distinct();
}

/// The loops of a flow have names, its nodes and edges full names. It walks over them.
pub fn names_are_names(flow: &Flow)
    ensures loops { AllByRecursion (λ a_loop. is_name a_loop.name ≡ true) flow.now.loops }
    ensures nodes { AllByRecursion (λ node. is_full_name node.name ≡ true) flow.now.nodes }
    ensures edges { AllByRecursion (λ edge. is_full_name edge.name ≡ true) flow.now.edges }
{
    loops_have_names(flow.loops.as_slice());
    nodes_have_names(flow.nodes.as_slice());
    edges_have_names(flow.edges.as_slice());
}

/// The names of a flow are as they are written, but for those of what a split node is made of.
pub fn names_are_plain(flow: &Flow)
    ensures nodes { HasPlainNodes flow.now }
    ensures edges { HasPlainEdges flow.now }
{
    // Where a field is read, what holds of each flow is known.
    let _ = &flow.nodes;
}

fn loops_have_names(loops: &[Loop])
    ensures { AllByRecursion (λ a_loop. is_name a_loop.name ≡ true) loops.now }
{
    for a_loop in loops {
        let _ = a_loop.name.as_bytes();
    }
}

fn nodes_have_names(nodes: &[Node])
    ensures { AllByRecursion (λ node. is_full_name node.name ≡ true) nodes.now }
{
    for node in nodes {
        let _ = node.name.as_bytes();
    }
}

fn edges_have_names(edges: &[Edge])
    ensures { AllByRecursion (λ edge. is_full_name edge.name ≡ true) edges.now }
{
    for edge in edges {
        let _ = edge.name.as_bytes();
    }
}

/// No two loops that are declared have one name, no two nodes, and no two edges.
pub fn declared_names_are_distinct(raw: &RawFlow)
    ensures loops { IsDistinct bytes_eq (loop_names raw.now) }
    ensures nodes { IsDistinct bytes_eq (node_names raw.now) }
    ensures edges { IsDistinct bytes_eq (edge_names raw.now) }
{
    raw.names.loops.are_distinct();
    raw.names.nodes.are_distinct();
    raw.names.edges.are_distinct();
}

/// The names that are declared are names, and so are those beside them. It walks over them.
pub fn declared_names_are_names(raw: &RawFlow)
    ensures { AllByRecursion (λ d. has_names d.declaration ≡ true) raw.now }
{
    all_have_names(raw.declared.as_slice());
}

fn all_have_names(declared: &[Declared])
    ensures { AllByRecursion (λ d. has_names d.declaration ≡ true) declared.now }
{
    for one in declared {
        tells_names(&one.declaration);
    }
}

fn tells_names(declaration: &Declaration)
    ensures { has_names declaration.now ≡ true }
{
    match declaration {
        Declaration::Loop { name, parent, .. } => {
            let _ = name.as_bytes();
            tells_name_if_any(parent);
        }
        Declaration::Node { name, kind, .. } => {
            let _ = name.as_bytes();
            has_loop_named(kind);
        }
        Declaration::Edge {
            name,
            sender,
            receiver,
        } => {
            let _ = name.as_bytes();
            let _ = sender.as_bytes();
            let _ = receiver.as_bytes();
        }
    }
}

fn tells_name_if_any(name: &Option<Name>)
    ensures { option_map_or is_name name.now true ≡ true }
{
    if let Some(name) = name {
        let _ = name.as_bytes();
    }
}

/// Declarations are those of a well-formed dataflow or break a rule, and not both; the former have one dataflow, and the
/// latter are refused by one rule at one line: so `Flow::check` answers `Ok` exactly where the expansion is well formed, with
/// its dataflow, and else that refusal, unless memory is refused.
pub fn one_answer()
    ensures some_answer { (raw : List declaring.Declared) → ((flow : Dataflow) × IsChecked raw flow)
        ⊎ ((refusal : Refusal) × IsFirstBroken raw refusal) }
    ensures exclusive { (raw : List declaring.Declared) (flow : Dataflow) (refusal : Refusal)
        → IsChecked raw flow → IsFirstBroken raw refusal → ⊥ }
    ensures one_value { (raw : List declaring.Declared) (first second : Dataflow)
        → IsChecked raw first → IsChecked raw second → first ≡ second }
    ensures one_refusal { (raw : List declaring.Declared) (first second : Refusal)
        → IsFirstBroken raw first → IsFirstBroken raw second → first ≡ second }
{}

/// The domain of a loop has the stamps of its parent domain, each with a counter up to the loop's greatest.
pub fn loops_add_a_counter()
    ensures { (flow : Dataflow) (l : ℕ)
        → greatest_of flow (InLoop l) ≡ nest (greatest_of flow (parent_of flow l)) (max_of flow l) }
{}

/// In a well-formed dataflow the parent domain of a loop is that of the loop in which it is declared, and epochs where it is
/// in none.
pub fn parents_are_declared()
    ensures { (flow : Dataflow) (l : ℕ) → IsWellFormed flow → l < length flow.loops
        → parent_of flow l ≡ domain_within (declared_parent flow l) }
{}
