//! To what the nodes of a flow are restored, from what they offer.
ghost use Rattle.std.specs.Prelude.{◌≡◌, true, IfOk};
ghost use Rattle.std.specs.List.{AllByRecursion};
ghost use Rattle.std.specs.Option.{IfSome};
ghost use Rattle.fw_time.specs.Stamp.{in_domain};
ghost use Rattle.fw_frontier.specs.Front.{IsCanonical};
ghost use Rattle.fw_flow.specs.Dataflow.{bounds_of};
ghost use Rattle.fw_flow.specs.declared.restoring.Restoring.TheVariants as ways;
ghost use Rattle.fw_model.specs.Offers.{AreFrontsOfEdges, AreOffersOf, IsRecordOf, is_by_range};
ghost use Rattle.flow_rows.specs.Written.{IsMessageOf, IsOfferOf, IsOfferedBy};

use crate::trail::tell_trail;
use fw_flow::{
    Causes, Choice, Counted, CountedMessages, Cut, EdgeId, Flow, NodeId, Notices, OfEdge, OfEdges,
    Offer, Offered, Recorded, Records, Restoring, SentTable, Stamps, Trail,
};
use fw_frontier::Front;
use fw_monitor::descent_to_largest;
use fw_time::Stamp;
use row_words::{
    NoAnswer, after, columns, edge_of, front_outside, part, stamp_of, stamps_of, table_of,
};
use std::alloc::{AllocError, Global};
use std::fmt::Write;

// The text of one of the edges, where `&` stands between them; the last one is that of all that follow.
fn text_of_edge<'a>(edges: &[EdgeId], edge: EdgeId, text: &'a str) -> &'a str {
    for (other, own) in edges.iter().zip(text.split('&')) {
        if *other == edge {
            return own;
        }
    }
    match text.rsplit_once('&') {
        Some((_, last)) => last,
        None => text,
    }
}

// The frontier of each of the edges.
fn of_edges(
    alloc: Global,
    flow: &Flow,
    edges: &[EdgeId],
    text: &str,
) -> Result<Vec<OfEdge>, NoAnswer>
    ensures { IfOk result (λ fronts. AreFrontsOfEdges flow.now fronts.items) }
{
    let mut fronts = Vec::new(alloc);
    for edge in edges {
        let edge = *edge;
        let own = text_of_edge(edges, edge, text);
        let front = front_outside(alloc, own, &flow.domain(flow.dst(edge)))?;
        fronts.push(OfEdge { edge, front })?;
    }
    Ok(fronts)
}

// A record by its outside stamps; after a stroke those of what was delivered to the node, if that is less; after another those
// of what it sent and cannot send again, if that is another; and after another those of what it was notified of, if that is not
// what was delivered.
fn record(alloc: Global, flow: &Flow, node: NodeId, word: &str) -> Result<Recorded, NoAnswer>
    ensures { IfOk result (λ r. IsRecordOf flow.now node r) }
{
    let (outside, rest) = both_sides(word);
    let (delivered, rest) = both_sides(rest);
    let (discarded, notified) = rest.split_once('/').unwrap_or((rest, delivered));
    let domain = flow.domain(node);
    let front = front_outside(alloc, outside, &domain)?;
    let notified = front_outside(alloc, notified, &domain)?;
    let delivered = of_edges(alloc, flow, flow.in_edges(node), delivered)?;
    let discarded = of_edges(alloc, flow, flow.out_edges(node), discarded)?;
    Ok(Recorded {
        front,
        notified,
        delivered: OfEdges::of(delivered),
        discarded: OfEdges::of(discarded),
    })
}

// What stands before a stroke and after it; without one all of it, twice.
fn both_sides(word: &str) -> (&str, &str) {
    word.split_once('/').unwrap_or((word, word))
}

fn records(alloc: Global, flow: &Flow, node: NodeId, text: &str) -> Result<Vec<Recorded>, NoAnswer>
    ensures { IfOk result (λ records. AllByRecursion (IsRecordOf flow.now node) records.items) }
{
    let mut records = Vec::new(alloc);
    for word in text.split_whitespace() {
        let record = record(alloc, flow, node, word)?;
        records.push(record)?;
    }
    Ok(records)
}

// Whether a node that is restored so offers all between two frontiers.
fn is_by_range(way: Restoring) -> bool
    ensures { result ≡ is_by_range way }
{
    match way {
        Restoring::Batches | Restoring::Checkpoints => false,
        Restoring::Bound | Restoring::Anything | Restoring::Events => true,
    }
}

// Whether a node that is restored so is a source.
fn is_source(way: Restoring) -> bool
    ensures { result ≡ true → way ≡ ways.Batches }
{
    match way {
        Restoring::Batches => true,
        Restoring::Bound | Restoring::Anything | Restoring::Checkpoints | Restoring::Events =>
            false,
    }
}

// The frontiers of a node: its records, or the least and the greatest with `to` between them; of an exhausted source `and all`
// follows these.
fn offered(alloc: Global, flow: &Flow, node: NodeId, text: &str) -> Result<Offered, NoAnswer>
    ensures { IfOk result (λ o. IsOfferedBy flow.now node o) }
{
    let way = flow.restoring(node);
    let domain = flow.domain(node);
    if is_by_range(way) {
        let (least, greatest) = text.split_once("to").unwrap_or((text, text));
        return Ok(Offered::Between {
            least: front_outside(alloc, least, &domain)?,
            greatest: front_outside(alloc, greatest, &domain)?,
        });
    }
    if is_source(way) {
        if let Some((least, rest)) = text.split_once("to") {
            let (greatest, all) = rest.split_once("and").unwrap_or((rest, ""));
            return Ok(Offered::Batches {
                least: front_outside(alloc, least, &domain)?,
                greatest: front_outside(alloc, greatest, &domain)?,
                exhausted: all.trim() == "all",
            });
        }
    }
    Ok(Offered::Listed(Records::of(records(alloc, flow, node, text)?)))
}

// A message by its edge, its stamp and its cause, which is its stamp if none is written.
fn message(alloc: Global, flow: &Flow, word: &str) -> Result<Counted, NoAnswer>
    ensures { IfOk result (λ message. IsMessageOf flow.now message) }
{
    let (edge, rest) = columns(word, ":");
    let (at, cause) = rest.split_once(':').unwrap_or((rest, rest));
    let edge = edge_of(flow, edge)?;
    let at = stamp_of(alloc, at)?;
    if !at.in_domain(&flow.domain(flow.dst(edge))) {
        return Err(NoAnswer::NotSpelled);
    }
    Ok(Counted {
        edge,
        at,
        causes: Causes::of(stamp_of(alloc, cause)?),
        count: 1,
    })
}

fn messages(alloc: Global, flow: &Flow, text: &str) -> Result<Vec<Counted>, NoAnswer>
    ensures { IfOk result (λ messages. AllByRecursion (IsMessageOf flow.now) messages.items) }
{
    let mut messages = Vec::new(alloc);
    for word in text.split_whitespace() {
        let message = message(alloc, flow, word)?;
        messages.push(message)?;
    }
    Ok(messages)
}

// Of what a node was notified.
fn notified(alloc: Global, flow: &Flow, node: NodeId, text: &str) -> Result<Vec<Stamp>, NoAnswer>
    ensures { IfOk result
        (λ stamps. AllByRecursion (λ t. in_domain (bounds_of flow.now node) t ≡ true) stamps.items) }
{
    let stamps = stamps_of(alloc, text)?;
    if Front::checked_until(alloc, &stamps, &flow.domain(node))?.is_none() {
        return Err(NoAnswer::NotSpelled);
    }
    Ok(stamps)
}

// Where the events of a node are, by columns: what was delivered to it, of what it was notified, and what it sent.
fn stamps(alloc: Global, flow: &Flow, node: NodeId, text: &str) -> Result<Stamps, NoAnswer>
    ensures delivered { IfOk result (λ s. AllByRecursion (IsMessageOf flow.now) s.delivered) }
    ensures notified { IfOk result
        (λ s. AllByRecursion (λ t. in_domain (bounds_of flow.now node) t ≡ true) s.notified) }
    ensures sent { IfOk result (λ s. AllByRecursion (IsMessageOf flow.now) s.sent) }
{
    let (delivered, rest) = columns(text, "|");
    let (noted, sent_words) = columns(rest, "|");
    let delivered = messages(alloc, flow, delivered)?;
    let notified = notified(alloc, flow, node, noted)?;
    let sent = messages(alloc, flow, sent_words)?;
    Ok(Stamps {
        delivered: CountedMessages::of(delivered),
        notified: Notices::of(notified),
        sent: CountedMessages::of(sent),
    })
}

// What a node offers, by its line: whether it failed, its frontiers, what was delivered to it, of what it was notified, and
// what it sent; a sequence also by its table.
fn offer(
    alloc: Global,
    flow: &Flow,
    node: NodeId,
    line: &str,
    table: SentTable,
) -> Result<Offer, NoAnswer>
    ensures { IfOk result (λ o. IsOfferOf flow.now node o) }
{
    let (state, rest) = columns(line, "|");
    let (fronts, rest) = columns(rest, "|");
    let offered = offered(alloc, flow, node, fronts)?;
    let stamps = stamps(alloc, flow, node, rest)?;
    Ok(Offer {
        present: !state.contains("failed"),
        offered,
        stamps,
        table,
    })
}

// What the lines say that a node offers.
fn line_of<'a>(lines: &'a str, name: &[u8]) -> &'a str {
    for line in lines.lines() {
        if let ("offer", rest) = part(line) {
            let (word, columns) = part(rest);
            if word.as_bytes() == name {
                return columns;
            }
        }
    }
    ""
}

/// What the nodes offer, by a line each.
pub fn offers(alloc: Global, flow: &Flow, lines: &str) -> Result<Vec<Offer>, NoAnswer>
    ensures { IfOk result (λ offers. AreOffersOf flow.now offers.items) }
{
    let mut offers = Vec::new(alloc);
    for place in 0..flow.nodes() {
        let node = NodeId::at(place as u32);
        let line = line_of(lines, flow.node_name(node).as_bytes());
        let table = table_of(alloc, after(lines, "sent").unwrap_or(""))?;
        let offer = offer(alloc, flow, node, line, table)?;
        offers.push(offer)?;
    }
    Ok(offers)
}

// Tells a line for each node, its cut and its notification frontier.
fn tell_cuts(choice: &Choice, told: &mut String) -> Result<(), AllocError> {
    let cuts = choice.cuts.as_slice();
    let notices = choice.notices.as_slice();
    for (cut, notice) in cuts.iter().zip(notices.iter()) {
        tell_cut(cut, told)?;
        writeln!(told, ", {notice}")?;
    }
    Ok(())
}

// Tells a cut.
fn tell_cut(cut: &Cut, told: &mut String) -> Result<(), AllocError> {
    match cut {
        Cut::Present => told.push_str("present"),
        Cut::At(front) => write!(told, "{front}"),
    }
}

/// Tells to what the nodes of a flow are restored that offer what the lines say, and how that was found, if a line `trail`
/// asks for it.
pub fn tell_choice(
    alloc: Global,
    flow: &Flow,
    lines: &str,
    told: &mut String,
) -> Result<(), AllocError> {
    match offers(alloc, flow, lines) {
        Ok(offers) => tell_largest(alloc, flow, &offers, lines, told),
        Err(_) => told.push_str("no offers\n"),
    }
}

// Tells to what the nodes are restored.
fn tell_largest(
    alloc: Global,
    flow: &Flow,
    offers: &[Offer],
    lines: &str,
    told: &mut String,
) -> Result<(), AllocError>
    requires { AreOffersOf flow.now offers.now }
{
    let descent = descent_to_largest(alloc, flow, offers)?;
    tell_found(flow, &descent.choice, &descent.trail, lines, told)
}

// Tells a choice, and how it was found, if that is asked for.
fn tell_found(
    flow: &Flow,
    choice: &Choice,
    trail: &Trail,
    lines: &str,
    told: &mut String,
) -> Result<(), AllocError> {
    tell_cuts(choice, told)?;
    if after(lines, "trail").is_some() {
        tell_trail(flow, lines, trail, told)?;
    }
    Ok(())
}
