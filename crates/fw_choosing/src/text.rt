//! What the commands over texts of choices print.
ghost use Rattle.std.specs.Prelude.{◌≡◌, IfOk, Some, None, string_bytes};
ghost use Rattle.fw_flow.specs.Dataflow.{node_at};
ghost use Rattle.fw_certify.specs.CertificateText.{certificate_line};
ghost use Rattle.fw_choosing.specs.Choices as spec;
ghost use Rattle.fw_choosing.specs.Choices.{none_line};
ghost use Rattle.fw_choosing.specs.Status.{ending_line};
ghost use Rattle.fw_choosing.specs.declared.status.ChoosingStatus.TheVariants as Status;

use fw_certify::{CauseText, explain};
use fw_flow::{Cause, Flow, NodeId, Trail};
use fw_lines::Refusal;
use fw_monitor::Descent;
use fw_offers_text::ChoiceRefusal;
use fw_running::{Effect, Shown};
use std::alloc::{AllocError, Global};
use std::fmt;

/// The lines of a choice's cuts, of the lowerings that lead to it, and of their number.
pub(crate) fn choice_text(
    alloc: Global,
    flow: &Flow,
    descent: Descent,
) -> Result<String, AllocError>
    ensures { IfOk result (λ text. string_bytes text ≡ spec.choice_text flow.now descent.trail descent.choice.cuts) }
{
    let certificate = explain(alloc, &descent.trail)?;
    let effect = Effect::Cuts(descent.choice);
    let cuts = Shown::of(flow, Some(&effect));
    let lines = certificate.display(flow);
    let count = certificate.as_slice().len();
    format!(in alloc; "{cuts}{lines}certificate {count} yes\n")
}

/// The lines of lowerings, of the node of which no cut is left, and of their number.
pub(crate) fn none_text(
    alloc: Global,
    flow: &Flow,
    trail: &Trail,
    node: NodeId,
    by: Option<Cause>,
) -> Result<String, AllocError>
    ensures { IfOk result (λ text. string_bytes text ≡ spec.none_text flow.now trail.now node by) }
{
    let certificate = explain(alloc, trail)?;
    let lines = certificate.display(flow);
    let none = NoneLine { flow, node, by };
    let count = certificate.as_slice().len();
    format!(in alloc; "{lines}{none}certificate {count} none\n")
}

/// The line of a certificate of so many lowerings that shows its choice.
pub(crate) fn yes_line(alloc: Global, count: usize) -> Result<String, AllocError>
    ensures { IfOk result (λ text. string_bytes text ≡ certificate_line count) }
{
    format!(in alloc; "certificate {count} yes\n")
}

/// The line of one that shows that there is none.
pub(crate) fn none_count_line(alloc: Global, count: usize) -> Result<String, AllocError>
    ensures { IfOk result (λ text. string_bytes text ≡ spec.none_count_line count) }
{
    format!(in alloc; "certificate {count} none\n")
}

/// The line of a certificate of so many lowerings that is wrong there.
pub(crate) fn wrong_line(alloc: Global, count: usize, at: usize) -> Result<String, AllocError>
    ensures { IfOk result (λ text. string_bytes text ≡ spec.wrong_line count at) }
{
    format!(in alloc; "certificate {count} no at {at}\n")
}

/// The line `refused CODE line LINE` of a flow.
pub(crate) fn flow_refused_line(alloc: Global, refusal: Refusal) -> Result<String, AllocError>
    ensures { IfOk result (λ text. string_bytes text ≡ ending_line (Status.FlowRefused refusal)) }
{
    format!(in alloc; "{refusal}\n")
}

/// The line `refused CODE line LINE` of offers or of a certificate.
pub(crate) fn refused_line(alloc: Global, refusal: ChoiceRefusal) -> Result<String, AllocError>
    ensures { IfOk result (λ text. string_bytes text ≡ ending_line (Status.OffersRefused refusal)) }
{
    format!(in alloc; "{refusal}\n")
}

// The line of a node of which no cut is left.
#[derive(Drop)]
struct NoneLine<'a> {
    flow: &'a Flow,
    node: NodeId,
    by: Option<Cause>,
}

impl<'a> fmt::Display for NoneLine<'a> {
    ghost output = { λ line. Some (none_line line.flow.now line.node line.by) };

    fn fmt<W: fmt::Write>(&self, f: &mut fmt::Formatter<W>) -> fmt::Result {
        let name = name_of(self.flow, self.node);
        match self.by {
            None => writeln!(f, "none {name}"),
            Some(cause) => {
                let by = CauseText::of(self.flow, cause);
                writeln!(f, "none {name} by {by}")
            }
        }
    }
}

// The name of a node; past the last node it is empty.
fn name_of(flow: &Flow, node: NodeId) -> &str
    ensures { result.now ≡ (node_at flow.now node).name }
{
    if (node.place() as usize) < flow.nodes() {
        flow.node_name(node).as_str()
    } else {
        ""
    }
}
