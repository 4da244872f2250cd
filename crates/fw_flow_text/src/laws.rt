//! Facts about the grammar of flows, each proved as a function that does nothing, or that only walks over a flow.
ghost use Rattle.std.specs.Prelude.{◌≡◌, ◌<◌, ◌≤◌, ℕ, length};
ghost use Rattle.fw_lines.specs.Batches.{batches_at};
ghost use Rattle.fw_lines.specs.Inputs.{batches_said_of, inputs_size_limit};
ghost use Rattle.fw_lines.specs.Lines.{said_lines};
ghost use Rattle.fw_flow.specs.Dataflow.{system_of};
ghost use Rattle.fw_flow.specs.Sources.{sources_of, AreInputsOf};
ghost use Rattle.fw_flow.specs.WellFormed.{IsWellFormedSystem};
ghost use Rattle.fw_flow.specs.KeyParts.{HasNoReplicas};
ghost use Rattle.fw_flow_text.specs.BatchesText.{text_of_batches};
ghost use Rattle.fw_flow_text.specs.FlowText.{text_of_flow};
ghost use Rattle.fw_flow_text.specs.Grammar.{flow_size_limit, IsAcceptedFlow};
ghost use Rattle.fw_flow_text.specs.Laws.{AcceptedTextsHaveAllowedBytes, WordsDeclareOneThing};

use crate::shown::numbers_are_small;
use fw_flow::Flow;
use fw_flow::laws::{flow_is_well_formed, names_are_distinct, names_are_names, names_are_plain};
use fw_lines::Batches;

/// An accepted text has no byte but LF and those from 32 to 126, in a comment neither.
pub fn accepted_texts_have_allowed_bytes()
    ensures { AcceptedTextsHaveAllowedBytes }
{}

/// Words are those of one declaration at most.
pub fn words_declare_one_thing()
    ensures { WordsDeclareOneThing }
{}

/// What `FlowText` prints of a flow without replicas is read as that flow, where it has no more bytes than `read_flow` takes.
pub fn flow_is_read_back(flow: &Flow)
    requires whole { HasNoReplicas flow.now }
    requires short { length (text_of_flow flow.now) ≤ flow_size_limit }
    ensures { IsAcceptedFlow (text_of_flow flow.now) flow.now }
{
    flow_is_well_formed(flow);
    names_are_distinct(flow);
    names_are_names(flow);
    names_are_plain(flow);
    numbers_are_small(flow);
}

/// What `BatchesText` prints of batches such as an engine of the flow takes is read as inputs of the flow, in which each node
/// has these batches, where it has no more bytes than `read_batches` takes.
pub fn batches_are_read_back(flow: &Flow, batches: &Batches)
    requires system { IsWellFormedSystem (system_of flow.now batches.now) }
    requires short { length (text_of_batches flow.now batches.now) ≤ inputs_size_limit }
    ensures accepted { AreInputsOf flow.now (text_of_batches flow.now batches.now) }
    ensures value { (p : ℕ) → p < length flow.now.nodes
        → batches_said_of (sources_of flow.now) (said_lines (text_of_batches flow.now batches.now)) p
        ≡ batches_at batches.now p }
{
    let _ = batches;
    names_are_distinct(flow);
    names_are_plain(flow);
}
