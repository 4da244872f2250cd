//! What the form of a line of a certificate says of a flow.
ghost use Rattle.std.specs.Prelude.{◌≡◌, IfOk, if◌then◌else◌, Some, None};
ghost use Rattle.std.specs.Option.{ok_or};
ghost use Rattle.fw_offers_text.specs.CertificateGrammar as spec;
ghost use Rattle.fw_offers_text.specs.CertificateGrammar.{cut_spelled, is_cut_in_domain, entered};

use crate::claim::ClaimEntry;
use crate::code::ChoiceCode;
use crate::form::{CauseForm, CertificateForm, CutForm};
use crate::stamp::front_in;
use fw_flow::{Cause, Cut, Flow, Lowering, NodeId, Part};
use fw_lines::number;
use std::alloc::{AllocError, Global};

/// What a line says, or the rule that is broken: C2 of names, then C3 of stamps.
pub(crate) fn entry_of(
    alloc: Global,
    form: CertificateForm<'_>,
    flow: &Flow,
) -> Result<Result<ClaimEntry, ChoiceCode>, AllocError>
    ensures { IfOk result (λ entry. entry ≡ entered flow.now form.entry) }
{
    match form {
        CertificateForm::Cut { name, cut } => match flow.node_spelled(name.bytes()) {
            Some(node) => cut_entry(alloc, node, &cut, flow),
            None => Ok(Err(ChoiceCode::C2)),
        },
        CertificateForm::Down { name, part, to, by } => match flow.node_spelled(name.bytes()) {
            Some(node) => down_entry(alloc, node, part, &to, &by, flow),
            None => Ok(Err(ChoiceCode::C2)),
        },
        CertificateForm::NoneLeft { name, by } => match flow.node_spelled(name.bytes()) {
            Some(node) => Ok(none_entry(node, &by, flow)),
            None => Ok(Err(ChoiceCode::C2)),
        },
        CertificateForm::End { count, at_choice } => {
            Ok(Ok(ClaimEntry::End(number(count.bytes()), at_choice)))
        }
    }
}

// What a line of a cut says.
fn cut_entry(
    alloc: Global,
    node: NodeId,
    cut: &CutForm<'_>,
    flow: &Flow,
) -> Result<Result<ClaimEntry, ChoiceCode>, AllocError>
    ensures { IfOk result (λ entry. entry ≡ spec.in_its_domain flow.now (ClaimEntry.Cut node (cut_spelled cut.now))) }
{
    match cut_in(alloc, cut, node, flow)? {
        Some(cut) => Ok(Ok(ClaimEntry::Cut(node, cut))),
        None => Ok(Err(ChoiceCode::C3)),
    }
}

// What a line of a lowering says.
fn down_entry(
    alloc: Global,
    node: NodeId,
    part: Part,
    to: &CutForm<'_>,
    by: &CauseForm<'_>,
    flow: &Flow,
) -> Result<Result<ClaimEntry, ChoiceCode>, AllocError>
    ensures { IfOk result (λ entry. entry ≡ spec.entry_in_domain flow.now
        (ok_or (spec.lowering_said flow.now part to.now by.now node) ChoiceCode.C2)) }
{
    let Some(by) = cause_of(by, flow) else {
        return Ok(Err(ChoiceCode::C2));
    };
    match cut_in(alloc, to, node, flow)? {
        Some(to) => Ok(Ok(ClaimEntry::Down(Lowering { node, part, to, by }))),
        None => Ok(Err(ChoiceCode::C3)),
    }
}

// What a line says of a node of which no cut is left.
fn none_entry(
    node: NodeId,
    by: &Option<CauseForm<'_>>,
    flow: &Flow,
) -> Result<ClaimEntry, ChoiceCode>
    ensures { result ≡ spec.entry_in_domain flow.now (ok_or (spec.none_said flow.now by.now node) ChoiceCode.C2) }
{
    match by {
        None => Ok(ClaimEntry::NoneLeft(node, None)),
        Some(by) => match cause_of(by, flow) {
            Some(by) => Ok(ClaimEntry::NoneLeft(node, Some(by))),
            None => Err(ChoiceCode::C2),
        },
    }
}

// The cut that a form is, if it is one of the node's domain.
fn cut_in(
    alloc: Global,
    cut: &CutForm<'_>,
    node: NodeId,
    flow: &Flow,
) -> Result<Option<Cut>, AllocError>
    ensures { IfOk result (λ told. told
        ≡ (if is_cut_in_domain flow.now node (cut_spelled cut.now) then Some (cut_spelled cut.now) else None)) }
{
    match cut {
        CutForm::Present => Ok(Some(Cut::Present)),
        CutForm::At(stamps) => Ok(front_in(alloc, stamps, &flow.domain(node))?.map(Cut::At)),
    }
}

// The cause that a form is, if its edge is declared.
fn cause_of(by: &CauseForm<'_>, flow: &Flow) -> Option<Cause>
    ensures { result ≡ spec.cause_said flow.now by.now }
{
    match by {
        CauseForm::Delivered(name) => flow.edge_spelled(name.bytes()).map(Cause::Delivered),
        CauseForm::Discarded(name) => flow.edge_spelled(name.bytes()).map(Cause::Discarded),
        CauseForm::Notified => Some(Cause::Notified),
        CauseForm::Own => Some(Cause::Own),
        CauseForm::Note(name) => flow.edge_spelled(name.bytes()).map(Cause::Note),
    }
}
