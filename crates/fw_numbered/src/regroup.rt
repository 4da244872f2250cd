//! The kind that makes epochs of numbers.
ghost use Rattle.std.specs.Prelude.{◌≡◌, ◌<◌, ◌∷◌, []};
ghost use Rattle.fw_time.specs.Sending.{regrouped_stamp};
ghost use Rattle.fw_frontier.specs.declared.state.Entries.TheVariants.{Totals};
ghost use Rattle.fw_table.specs.Sent.{stamped, sent_if_at};

use fw_bag::Rec;
use fw_frontier::{Below, State};
use fw_table::{Sent, empty_state};
use fw_time::{Epoch, SeqNo, Time};
use std::alloc::Global;

/// Sends the recs of so many numbers at one epoch.
#[derive(Clone, Copy, Debug)]
pub struct Regroup {
    size: u32,
    ghost some: { 0 < size },
}

impl Regroup {
    /// The node that makes epochs of `size` numbers.
    pub fn new(size: u32) -> Self
        requires { 0 < size }
        ensures { result.size ≡ size }
    {
        Regroup { size }
    }

    /// Sends the rec at its number divided by the size, rounded down.
    pub fn on_message(&self, t: SeqNo, rec: Rec) -> Sent<Epoch>
        ensures { stamped ⟦<Epoch as Time>⟧.coords result
            ≡ sent_if_at (regrouped_stamp self.now.size (⟦<SeqNo as Time>⟧.coords t)) (rec ∷ []) }
    {
        Sent::of(Epoch(t.0 / self.size), Some(rec))
    }

    /// The state at f as it changed since g: it keeps nothing. It takes no memory.
    pub fn state_since(&self, alloc: Global, _g: &Below, _f: &Below) -> State
        ensures { result ≡ record { sent = 0; sends = []; entries = Totals [] } }
    {
        empty_state(alloc)
    }
}
