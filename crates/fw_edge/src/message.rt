//! Single messages.
ghost use Rattle.std.specs.Prelude.{◌≡◌, ◌↔◌, IsTrue};
ghost use Rattle.std.specs.List.{list_all, list_any};
ghost use Rattle.fw_time.specs.Stamp.{leq};
ghost use Rattle.fw_frontier.specs.Front.{inside};
ghost use Rattle.fw_flow.specs.Projection.{all_inside};
ghost use Rattle.fw_edge.specs.Causes.{ComesNoLater};

use fw_flow::Message;
use fw_frontier::Front;
use fw_time::Stamp;

/// Whether all its causes are inside the frontier.
pub fn comes_from(message: &Message, f: &Front) -> bool
    ensures { result ≡ all_inside (inside f.now) message.now.causes }
{
    message
        .causes
        .stamps()
        .iter()
        .all(|cause| f.contains(cause))
}

/// Whether each of its causes is at most one of another message's: where so, and nowhere else, it comes no later.
pub fn comes_no_later(message: &Message, other: &Message) -> bool
    ensures { IsTrue result ↔ ComesNoLater message.now other.now }
{
    are_at_most(message.causes.stamps(), other.causes.stamps())
}

// Whether each of the stamps is at most one of others.
fn are_at_most(stamps: &[Stamp], others: &[Stamp]) -> bool
    ensures { result ≡ list_all (λ s. list_any (leq s) others.now) stamps.now }
{
    stamps.iter().all(|stamp| is_at_most(stamp, others))
}

// Whether a stamp is at most one of others.
fn is_at_most(stamp: &Stamp, others: &[Stamp]) -> bool
    ensures { result ≡ list_any (leq stamp.now) others.now }
{
    others.iter().any(|other| stamp.leq(other))
}
