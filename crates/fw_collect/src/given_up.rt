//! Which events are given up.
ghost use Rattle.std.specs.Prelude.{◌≡◌, [], true, unwrap_or};
ghost use Rattle.std.specs.Option.{option_copied};
ghost use Rattle.fw_time.specs.Stamp.{in_domain};
ghost use Rattle.fw_flow.specs.Dataflow.{bounds_of, node_frontier, out_edges};
ghost use Rattle.fw_flow.specs.WellFormed as well_formed;
ghost use Rattle.fw_model.specs.Machine.{front_of};
ghost use Rattle.fw_model.specs.Steps as steps;
ghost use Rattle.fw_collect.specs.Drops.{watermark, without_batches};

use fw_flow::{Choice, Cut, Flow, Kind, NodeId};
use fw_frontier::Front;
use fw_time::Stamp;

/// The front of a node's cut; none where it is all.
pub(crate) fn front_of(choice: &Choice, node: NodeId) -> Option<&Front>
    ensures { unwrap_or (option_copied result) [] ≡ front_of (watermark choice.now) node }
{
    match choice.cuts.as_slice().get(node.place() as usize) {
        Some(Cut::At(front)) => Some(front),
        _ => None,
    }
}

/// Whether the logged events of a node at the stamp are given up: its kind may keep nothing, the stamp lies below the node's
/// watermark, and what it sends from there lies below the receivers'.
pub(crate) fn is_given_up(flow: &Flow, choice: &Choice, node: NodeId, at: &Stamp) -> bool
    ensures { result ≡ steps.is_given_up (without_batches flow.now) (watermark choice.now) node at.now }
{
    may_keep_nothing(flow.kind(node))
        && is_inside(flow, choice, node, at)
        && sends_inside(flow, choice, node, at)
}

/// Whether a node of the kind may keep nothing.
fn may_keep_nothing(kind: Kind) -> bool
    ensures { result ≡ well_formed.may_keep_nothing kind }
{
    !matches!(kind, Kind::Total | Kind::Sequence | Kind::Ledger)
}

/// Whether the stamp lies below the watermark of the node.
fn is_inside(flow: &Flow, choice: &Choice, node: NodeId, at: &Stamp) -> bool
    ensures { result ≡ node_frontier flow.now node (front_of (watermark choice.now) node) at.now }
{
    if !at.in_domain(&flow.domain(node)) {
        return false;
    }
    match front_of(choice, node) {
        Some(front) => front.contains(at),
        None => true,
    }
}

/// Whether what an event of a node at the stamp sends, if it sends, lies below the watermarks of its receivers.
fn sends_inside(flow: &Flow, choice: &Choice, node: NodeId, at: &Stamp) -> bool
    requires { in_domain (bounds_of flow.now node) at.now ≡ true }
    ensures { result ≡ steps.sends_inside (without_batches flow.now) (watermark choice.now) node at.now (out_edges flow.now node) }
{
    let sent = flow.send_stamp(node, at);
    flow.out_edges(node).iter().all(|edge| is_inside_if_some(flow, choice, flow.dst(*edge), &sent))
}

/// Whether the stamp, if there is one, lies below the watermark of the node.
fn is_inside_if_some(flow: &Flow, choice: &Choice, node: NodeId, at: &Option<Stamp>) -> bool
    ensures { result ≡ steps.inside_if_some (node_frontier flow.now node (front_of (watermark choice.now) node)) at.now }
{
    match at {
        Some(at) => is_inside(flow, choice, node, at),
        None => true,
    }
}
