//! What names stand for in a flow.
ghost use Rattle.std.specs.Prelude.{◌≡◌, IfOk};
ghost use Rattle.std.specs.List.{list_all};
ghost use Rattle.fw_flow.specs.Dataflow.{is_input_kind, is_output_kind};
ghost use Rattle.fw_lines.specs.Lines.{bytes_at, words_at};
ghost use Rattle.fw_flow.specs.FullNames as spelled;
ghost use Rattle.fw_schedule.specs.Names as spec;
ghost use Rattle.fw_schedule.specs.Names.{node_of_kind};

use fw_flow::{Flow, NodeId, Nodes, is_full_name};
use fw_lines::Span;
use std::alloc::{AllocError, Global};

/// Whether the words are one name or more.
pub fn are_names(text: &[u8], words: &[Span]) -> bool
    ensures { result ≡ spec.are_names (words_at text.now words.now) }
{
    !words.is_empty() && are_all_names(text, words)
}

// Whether each word is a name.
fn are_all_names(text: &[u8], words: &[Span]) -> bool
    ensures { result ≡ list_all (λ word. spelled.is_full_name (bytes_at text.now word)) words.now }
{
    words.iter().all(|word| is_full_name(word.of(text)))
}

/// The nodes with these names, in their order; nothing where one of them is not that of a node.
pub fn nodes_named(
    alloc: Global,
    text: &[u8],
    names: &[Span],
    flow: &Flow,
) -> Result<Option<Nodes>, AllocError>
    ensures { IfOk result (λ nodes. nodes ≡ spec.nodes_named flow.now (words_at text.now names.now)) }
{
    let mut nodes = Vec::new(alloc);
    for name in names {
        let Some(node) = flow.node_spelled(name.of(text)) else {
            return Ok(None);
        };
        nodes.push(node)?;
    }
    Ok(Some(Nodes::new(nodes)))
}

/// The source with a name.
pub fn source_named(name: &[u8], flow: &Flow) -> Option<NodeId>
    ensures { result ≡ node_of_kind flow.now is_input_kind name.now }
{
    let node = flow.node_spelled(name)?;
    if flow.kind(node).is_input() {
        Some(node)
    } else {
        None
    }
}

/// The output with a name.
pub fn output_named(name: &[u8], flow: &Flow) -> Option<NodeId>
    ensures { result ≡ node_of_kind flow.now is_output_kind name.now }
{
    let node = flow.node_spelled(name)?;
    if flow.kind(node).is_output() {
        Some(node)
    } else {
        None
    }
}
