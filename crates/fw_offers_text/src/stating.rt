//! What the form of a line says of a flow.
ghost use Rattle.std.specs.Prelude.{◌≡◌, Some, None, IfOk, if◌then◌else◌};
ghost use Rattle.std.specs.List.{list_all, filter_map};
ghost use Rattle.std.specs.Option.{is_some, ok_or};
ghost use Rattle.fw_flow.specs.Dataflow.{Dataflow};
ghost use Rattle.fw_model.specs.Inclusions.{side_bounds};
ghost use Rattle.fw_offers_text.specs.Statements.{stated, in_domains, in_its_domains, side_said, cover_said, record_statement, is_cover_in_domain, counts_spelled, stamps_spelled};

use crate::code::ChoiceCode;
use crate::form::{CoverForm, OfferForm, SideForm};
use crate::stamp::{counts_in, front_in, stamps_in};
use crate::statement::{RecordCover, RecordCovers, Statement};
use crate::words::{CountWords, StampWords};
use fw_flow::{EdgeId, Flow, NodeId, Side};
use fw_time::Bounds;
use std::alloc::{AllocError, Global};

/// What a line says, or the rule that is broken: O2 of names, then O3 of stamps and numbers.
pub(crate) fn statement_of(
    alloc: Global,
    form: OfferForm<'_>,
    flow: &Flow,
) -> Result<Result<Statement, ChoiceCode>, AllocError>
    ensures { IfOk result (λ said. said ≡ stated flow.now form.entry) }
{
    match form {
        OfferForm::Node { name, present } => match flow.node_spelled(name.bytes()) {
            Some(node) => Ok(Ok(Statement::Node { node, present })),
            None => Ok(Err(ChoiceCode::O2)),
        },
        OfferForm::Record {
            name,
            front,
            covers,
        } => match flow.node_spelled(name.bytes()) {
            Some(node) => record_of(alloc, node, &front, &covers.covers, flow),
            None => Ok(Err(ChoiceCode::O2)),
        },
        OfferForm::Range {
            name,
            least,
            greatest,
            and_all,
        } => match flow.node_spelled(name.bytes()) {
            Some(node) => range_of(alloc, node, &least, &greatest, and_all, flow),
            None => Ok(Err(ChoiceCode::O2)),
        },
        OfferForm::Delivered { name, stamps } => match flow.edge_spelled(name.bytes()) {
            Some(edge) => arrivals_of(alloc, edge, &stamps, flow),
            None => Ok(Err(ChoiceCode::O2)),
        },
        OfferForm::Sent { name, stamps } => match flow.edge_spelled(name.bytes()) {
            Some(edge) => sent_of(alloc, edge, &stamps, flow),
            None => Ok(Err(ChoiceCode::O2)),
        },
        OfferForm::Notified { name, stamps } => match flow.node_spelled(name.bytes()) {
            Some(node) => notices_of(alloc, node, &stamps, flow),
            None => Ok(Err(ChoiceCode::O2)),
        },
        OfferForm::Counts { name, counts } => match flow.node_spelled(name.bytes()) {
            Some(node) => counts_of(alloc, node, &counts),
            None => Ok(Err(ChoiceCode::O2)),
        },
    }
}

// What a line of stamps of what came on an edge says.
fn arrivals_of(
    alloc: Global,
    edge: EdgeId,
    stamps: &StampWords<'_>,
    flow: &Flow,
) -> Result<Result<Statement, ChoiceCode>, AllocError>
    ensures { IfOk result (λ said. said ≡ in_its_domains flow.now (Statement.Delivered edge (stamps_spelled stamps.now))) }
{
    match stamps_in(alloc, stamps, &flow.domain(flow.dst(edge)))? {
        Some(stamps) => Ok(Ok(Statement::Delivered { edge, stamps })),
        None => Ok(Err(ChoiceCode::O3)),
    }
}

// What a line of stamps of what was sent on an edge says.
fn sent_of(
    alloc: Global,
    edge: EdgeId,
    stamps: &StampWords<'_>,
    flow: &Flow,
) -> Result<Result<Statement, ChoiceCode>, AllocError>
    ensures { IfOk result (λ said. said ≡ in_its_domains flow.now (Statement.Sent edge (stamps_spelled stamps.now))) }
{
    match stamps_in(alloc, stamps, &flow.domain(flow.dst(edge)))? {
        Some(stamps) => Ok(Ok(Statement::Sent { edge, stamps })),
        None => Ok(Err(ChoiceCode::O3)),
    }
}

// What a line of stamps of which a node was notified says.
fn notices_of(
    alloc: Global,
    node: NodeId,
    stamps: &StampWords<'_>,
    flow: &Flow,
) -> Result<Result<Statement, ChoiceCode>, AllocError>
    ensures { IfOk result (λ said. said ≡ in_its_domains flow.now (Statement.Notified node (stamps_spelled stamps.now))) }
{
    match stamps_in(alloc, stamps, &flow.domain(node))? {
        Some(stamps) => Ok(Ok(Statement::Notified { node, stamps })),
        None => Ok(Err(ChoiceCode::O3)),
    }
}

// What a line of counts says.
fn counts_of(
    alloc: Global,
    node: NodeId,
    counts: &CountWords<'_>,
) -> Result<Result<Statement, ChoiceCode>, AllocError>
    ensures { (flow : Dataflow) → IfOk result (λ said. said
        ≡ in_its_domains flow (Statement.Counts node (counts_spelled counts.now))) }
{
    match counts_in(alloc, counts)? {
        Some(counts) => Ok(Ok(Statement::Counts { node, counts })),
        None => Ok(Err(ChoiceCode::O3)),
    }
}

// What a line of a range says.
fn range_of(
    alloc: Global,
    node: NodeId,
    least: &StampWords<'_>,
    greatest: &StampWords<'_>,
    and_all: bool,
    flow: &Flow,
) -> Result<Result<Statement, ChoiceCode>, AllocError>
    ensures { IfOk result (λ said. said ≡ in_its_domains flow.now
        (Statement.Range node (stamps_spelled least.now) (stamps_spelled greatest.now) and_all)) }
{
    let bounds = flow.domain(node);
    let Some(least) = front_in(alloc, least, &bounds)? else {
        return Ok(Err(ChoiceCode::O3));
    };
    match front_in(alloc, greatest, &bounds)? {
        Some(greatest) => Ok(Ok(Statement::Range {
            node,
            least,
            greatest,
            and_all,
        })),
        None => Ok(Err(ChoiceCode::O3)),
    }
}

// What a line of a record says.
fn record_of(
    alloc: Global,
    node: NodeId,
    front: &StampWords<'_>,
    covers: &[CoverForm<'_>],
    flow: &Flow,
) -> Result<Result<Statement, ChoiceCode>, AllocError>
    ensures { IfOk result (λ said. said
        ≡ in_domains flow.now (ok_or (record_statement flow.now front.now covers.now node) ChoiceCode.O2)) }
{
    if !are_sides_of(covers, node, flow) {
        return Ok(Err(ChoiceCode::O2));
    }
    let Some(front) = front_in(alloc, front, &flow.domain(node))? else {
        return Ok(Err(ChoiceCode::O3));
    };
    match covers_of(alloc, covers, node, flow)? {
        Some(covers) => Ok(Ok(Statement::Record {
            node,
            front,
            covers,
        })),
        None => Ok(Err(ChoiceCode::O3)),
    }
}

// Whether each cover is of a side of the node.
fn are_sides_of(covers: &[CoverForm<'_>], node: NodeId, flow: &Flow) -> bool
    ensures { result ≡ list_all (λ cover. is_some (side_said flow.now node cover.of)) covers.now }
{
    covers
        .iter()
        .all(|cover| side_of(&cover.of, node, flow).is_some())
}

// The covers of sides of the node, if each is of its side's domain.
fn covers_of(
    alloc: Global,
    covers: &[CoverForm<'_>],
    node: NodeId,
    flow: &Flow,
) -> Result<Option<RecordCovers>, AllocError>
    ensures { IfOk result (λ told. told
        ≡ (if list_all (is_cover_in_domain flow.now) (filter_map (cover_said flow.now node) covers.now)
        then Some (filter_map (cover_said flow.now node) covers.now) else None)) }
{
    let mut told = Vec::new(alloc);
    for cover in covers {
        let Some(side) = side_of(&cover.of, node, flow) else {
            continue;
        };
        let Some(front) = front_in(alloc, &cover.front, &domain_of(&side, flow))? else {
            return Ok(None);
        };
        told.push(RecordCover { side, front })?;
    }
    Ok(Some(RecordCovers { covers: told }))
}

// The domain in which a side is.
fn domain_of(side: &Side, flow: &Flow) -> Bounds
    ensures { result ≡ side_bounds flow.now side.now }
{
    match side {
        Side::Delivered(edge) | Side::Discarded(edge) => flow.domain(flow.dst(*edge)),
        Side::Notified(node) => flow.domain(*node),
    }
}

// The side that a cover is of, if its edge is declared and is one of the node's.
fn side_of(of: &SideForm<'_>, node: NodeId, flow: &Flow) -> Option<Side>
    ensures { result ≡ side_said flow.now node of.now }
{
    match of {
        SideForm::Notified => Some(Side::Notified(node)),
        SideForm::Delivered(name) => {
            let edge = flow.edge_spelled(name.bytes())?;
            if flow.dst(edge) == node {
                Some(Side::Delivered(edge))
            } else {
                None
            }
        }
        SideForm::Discarded(name) => {
            let edge = flow.edge_spelled(name.bytes())?;
            if flow.src(edge) == node {
                Some(Side::Discarded(edge))
            } else {
                None
            }
        }
    }
}
