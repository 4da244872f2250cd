//! What a table keeps, as a state.
ghost use Rattle.std.specs.Prelude.{◌≡◌, []};
ghost use Rattle.fw_frontier.specs.declared.state.Entries.TheVariants.{Totals};

use fw_bag::Recs;
use fw_frontier::{Entries, SentCounts, State};
use std::alloc::Global;

/// The state with these totals, of a node that sent so many messages. At which stamps it sent them it does not tell.
pub fn state_of(alloc: Global, sent: u64, totals: Recs) -> State
    ensures { result ≡ record { sent = sent; sends = []; entries = Totals totals } }
{
    State {
        sent,
        sends: SentCounts::of(Vec::new(alloc)),
        entries: Entries::Totals(totals),
    }
}

/// The state of a table that keeps nothing over time. It takes no memory.
pub fn empty_state(alloc: Global) -> State
    ensures { result ≡ record { sent = 0; sends = []; entries = Totals [] } }
{
    state_of(alloc, 0, Recs::of(Vec::new(alloc)))
}
