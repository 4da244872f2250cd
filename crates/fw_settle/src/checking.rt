//! Whether a checkpoint can be written.
ghost use Rattle.std.specs.Prelude.{◌↔◌, ◌<◌, ◌^◌, IsTrue};
ghost use Rattle.fw_frontier.specs.Front.{IsCanonical, IsLeastBefore};
ghost use Rattle.fw_model.specs.Offers.{IsRecordOf, AreFrontsOfEdges};
ghost use Rattle.fw_record.specs.Spelling.{HasCountableLists, HasCountableEdges};
ghost use Rattle.fw_settle.specs.Checkpoints.{Precedes};

use fw_flow::{Flow, NodeId, OfEdge, Recorded};
use fw_frontier::Front;
use fw_record::Checkpoint;
use fw_time::{Bounds, Stamp};

/// Whether each front that is recorded of a node is the one list that names its frontier in its domain.
pub(crate) fn is_of_domains(flow: &Flow, node: NodeId, recorded: &Recorded) -> bool
    ensures { IsTrue result ↔ IsRecordOf flow.now node recorded.now }
{
    let domain = flow.domain(node);
    is_canonical(&recorded.front, &domain)
        && is_canonical(&recorded.notified, &domain)
        && are_canonical(flow, recorded.delivered.as_slice())
        && are_canonical(flow, recorded.discarded.as_slice())
}

// The same of the fronts of edges.
fn are_canonical(flow: &Flow, fronts: &[OfEdge]) -> bool
    ensures { IsTrue result ↔ AreFrontsOfEdges flow.now fronts.now }
{
    for of_edge in fronts {
        let domain = flow.domain(flow.dst(of_edge.edge));
        if !is_canonical(&of_edge.front, &domain) {
            return false;
        }
    }
    true
}

// Whether a front is the one list that names its frontier in a domain.
fn is_canonical(front: &Front, domain: &Bounds) -> bool
    ensures { IsTrue result ↔ IsCanonical domain.now front.now }
{
    let mut rest = front.outside();
    while let Some((first, later)) = rest.split_first() {
        if !is_least(first, later, domain) {
            return false;
        }
        rest = later;
    }
    true
}

// Whether a stamp is a domain's, comes before each of these in order and is not comparable with one.
fn is_least(first: &Stamp, later: &[Stamp], domain: &Bounds) -> bool
    ensures { IsTrue result ↔ IsLeastBefore domain.now first.now later.now }
{
    if !first.in_domain(domain) {
        return false;
    }
    for stamp in later {
        if !precedes(first, stamp) {
            return false;
        }
    }
    true
}

// Whether a stamp comes before another one in order and is not comparable with it.
fn precedes(first: &Stamp, stamp: &Stamp) -> bool
    ensures { IsTrue result ↔ Precedes first.now stamp.now }
{
    first.compare(stamp).is_lt() && !first.leq(stamp) && !stamp.leq(first)
}

/// Whether no list of a checkpoint has more parts than its count can say.
pub(crate) fn is_countable(checkpoint: &Checkpoint) -> bool
    ensures { IsTrue result ↔ HasCountableLists checkpoint.now }
{
    let recorded = &checkpoint.recorded;
    is_short(recorded.front.outside().len())
        && is_short(recorded.notified.outside().len())
        && are_countable(recorded.delivered.as_slice())
        && are_countable(recorded.discarded.as_slice())
        && is_short(checkpoint.state.sends.as_slice().len())
}

// The same of the fronts of edges.
fn are_countable(fronts: &[OfEdge]) -> bool
    ensures { IsTrue result ↔ HasCountableEdges fronts.now }
{
    for of_edge in fronts {
        if !is_short(of_edge.front.outside().len()) {
            return false;
        }
    }
    is_short(fronts.len())
}

// Whether a count of four bytes can say how many parts there are.
fn is_short(count: usize) -> bool
    ensures { IsTrue result ↔ (count < 2 ^ 32) }
{
    u32::try_from(count).is_ok()
}
