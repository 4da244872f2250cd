//! The kinds that lead into a loop, round it and out of it.
ghost use Rattle.std.specs.Prelude.{◌≡◌, ◌∷◌, []};
ghost use Rattle.fw_time.specs.Sending.{entered_stamp, fed_back_stamp, left_stamp};
ghost use Rattle.fw_table.specs.Sent.{stamped, sent_if_at};

use fw_bag::Rec;
use fw_frontier::Logical;
use fw_table::Sent;
use fw_time::{Nest, Time};
use std::marker::PhantomData;

/// Leads into a loop, at its counter 0.
#[derive(Clone, Copy, Debug)]
pub struct Enter<T> {
    times: PhantomData<T>,
}

impl<T: Logical> Enter<T> {
    /// The node that leads into a loop of the times `T`.
    pub fn new() -> Self {
        Enter { times: PhantomData }
    }

    /// Sends the rec at counter 0 of the time at which it came.
    pub fn on_message(&self, t: T, rec: Rec) -> Sent<Nest<T>>
        ensures { stamped ⟦<Nest<T> as Time>⟧.coords result ≡ sent_if_at (entered_stamp (T.coords t)) (rec ∷ []) }
    {
        Sent::of(
            Nest {
                outer: t,
                counter: 0,
            },
            Some(rec),
        )
    }
}

/// Leads to the next counter of a loop, up to its greatest one.
#[derive(Clone, Copy, Debug)]
pub struct Feedback<T> {
    /// The greatest counter of the loop.
    pub max: u32,
    times: PhantomData<T>,
}

impl<T: Logical> Feedback<T> {
    /// The node that leads round a loop with this greatest counter.
    pub fn new(max: u32) -> Self
        ensures { result.max ≡ max }
    {
        Feedback {
            max,
            times: PhantomData,
        }
    }

    /// Sends the rec at the next counter, and nothing past the greatest one.
    #[tactic(auto, using(crate::proofs::LoopLaws::fed_back_next, crate::proofs::LoopLaws::fed_back_none))]
    pub fn on_message(&self, t: Nest<T>, rec: Rec) -> Sent<Nest<T>>
        ensures { stamped ⟦<Nest<T> as Time>⟧.coords result
            ≡ sent_if_at (fed_back_stamp self.now.max (⟦<Nest<T> as Time>⟧.coords t)) (rec ∷ []) }
    {
        if t.counter >= self.max {
            return Sent::of(t, None);
        }
        let next = Nest {
            outer: t.outer,
            counter: t.counter + 1,
        };
        Sent::of(next, Some(rec))
    }
}

/// Leads out of a loop.
#[derive(Clone, Copy, Debug)]
pub struct Leave<T> {
    times: PhantomData<T>,
}

impl<T: Logical> Leave<T> {
    /// The node that leads out of a loop to the times `T`.
    pub fn new() -> Self {
        Leave { times: PhantomData }
    }

    /// Sends the rec at the time outside of the loop.
    #[tactic(auto, using(crate::proofs::LoopLaws::left_outer))]
    pub fn on_message(&self, t: Nest<T>, rec: Rec) -> Sent<T>
        ensures { stamped T.coords result ≡ sent_if_at (left_stamp (⟦<Nest<T> as Time>⟧.coords t)) (rec ∷ []) }
    {
        Sent::of(t.outer, Some(rec))
    }
}
