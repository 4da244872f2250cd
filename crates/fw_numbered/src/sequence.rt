//! The recs of each epoch in order, at the next numbers.
ghost use Rattle.std.specs.Prelude.{◌≡◌, ◌≤◌, ◌+◌, ◌^◌, ◌||◌, ℕ, Bool, List, [], ◌∷◌, length, false, IfOk, OnOk, OnErr, IsTrue, IsErr, true};
ghost use Rattle.fw_time.specs.Stamp.{same};
ghost use Rattle.fw_bag.specs.Arrivals.{Arrival, arrival, recs_arrived_at, AreInside};
ghost use Rattle.fw_bag.specs.Keyed.{sorted_recs};
ghost use Rattle.fw_frontier.specs.Below.{is_below};
ghost use Rattle.fw_frontier.specs.declared.state.Entries.TheVariants.{Totals};
ghost use Rattle.fw_numbered.specs.Numbers.{at_numbers, recs_numbered};

use fw_bag::{Bag, Rec, Recs};
use fw_frontier::{Below, State};
use fw_table::{Content, SentRecs, keep_outside, put_at, state_of};
use fw_time::Epoch;
use std::alloc::{AllocError, Global};
use std::collections::BTreeMap;

// The greatest number of an edge that numbers its messages.
const LAST: u64 = 4_294_967_295;

/// The recs that came at one epoch.
#[derive(Drop)]
pub(crate) struct Held {
    bag: Bag,
}

impl Content for Held {
    ghost use Rattle.std.specs.Prelude.{◌≡◌};
    ghost use Rattle.fw_bag.specs.Keyed.{sorted_recs};
    ghost use Rattle.fw_bag.specs.Arrivals.{recs_of};

    ghost holds = { λ h came. h.bag.recs ≡ sorted_recs (recs_of came) };

    fn empty(alloc: Global) -> Self {
        Held {
            bag: Bag::new(alloc),
        }
    }

    fn put(&mut self, _side: usize, rec: Rec) -> Result<(), AllocError> {
        self.bag.add(rec)
    }
}

/// What a notification makes a sequence send: recs at consecutive numbers, none past 2^32 - 1.
#[derive(Debug, Drop)]
pub struct Numbered {
    /// The number of the first rec. Where there are none, it is the number of the next one.
    pub first: u64,
    /// The recs, each at the number after that of the one before.
    pub recs: SentRecs,
    ghost few: { first + length recs ≤ 2 ^ 32 },
}

// The recs of a bag in order, as long as there are numbers, from one on.
fn recs_to_send(alloc: Global, bag: &Bag, first: u64) -> Result<SentRecs, AllocError>
    requires { first ≤ 2 ^ 32 }
    ensures recs { IfOk result (λ recs. at_numbers first recs ≡ recs_numbered first bag.now.recs) }
    ensures few { IfOk result (λ recs. first + length recs ≤ 2 ^ 32) }
{
    let mut recs = SentRecs::of(None);
    let mut next = first;
    for rec in bag {
        if next > LAST {
            return Ok(recs);
        }
        recs.push(alloc, rec)?;
        next += 1;
    }
    Ok(recs)
}

/// Once an epoch is complete, sends its recs in ascending order at the next numbers, from 0 on.
///
/// It keeps what came at each epoch that is not gone: of which it was not notified, and which is not settled.
#[derive(Drop)]
pub struct Sequence {
    held: BTreeMap<Epoch, Held>,
    next: u64,
    alloc: Global,
    refused: bool,
    ghost few: { next ≤ 2 ^ 32 },
}

impl Sequence {
    ghost use Rattle.fw_numbered.specs.Sequence.{IsSequence};

    /// The table to which nothing came, whatever is gone.
    pub fn new(alloc: Global) -> Self
        ensures table { (gone : List ℕ → Bool) → IsSequence gone result [] 0 }
        ensures live { result.refused ≡ false }
    {
        Sequence {
            held: BTreeMap::new(alloc),
            next: 0,
            alloc,
            refused: false,
        }
    }

    /// The table that sent so many messages, where all that came is gone. It takes no memory.
    pub fn from_state(alloc: Global, sent: u64) -> Self
        requires { sent ≤ 2 ^ 32 }
        ensures table { (gone : List ℕ → Bool) (came : List Arrival) → AreInside gone came → IsSequence gone result came sent }
        ensures live { result.refused ≡ false }
    {
        Sequence {
            held: BTreeMap::new(alloc),
            next: sent,
            alloc,
            refused: false,
        }
    }

    /// Takes in a rec that came on an in-edge, by its place, at an epoch that is not gone. It sends nothing.
    ///
    /// It costs the logarithm of what the table holds. It fails where memory is refused, now or earlier.
    pub fn on_message(&mut self, side: usize, t: Epoch, rec: Rec) -> Result<Numbered, AllocError>
        ensures ok { (gone : List ℕ → Bool) (came : List Arrival) (n : ℕ)
            → gone (t.0 ∷ []) ≡ false → IsSequence gone self.old came n
            → OnOk result (IsSequence gone self.new (arrival side (t.0 ∷ []) rec ∷ came) n) }
        ensures sent { IfOk result (λ sent. sent.recs ≡ []) }
        ensures err { (gone : List ℕ → Bool) (came : List Arrival) (n : ℕ) → IsSequence gone self.old came n
            → OnErr result (IsSequence gone self.new came n) }
        ensures live { OnOk result (self.new.refused ≡ false) }
        ensures refused { OnErr result (self.new.refused ≡ true) }
        ensures stays { IsTrue self.old.refused → IsErr result }
    {
        if self.refused {
            return Err(AllocError);
        }
        self.refused = true;
        put_at(&mut self.held, self.alloc, side, t, rec)?;
        self.refused = false;
        Ok(Numbered {
            first: self.next,
            recs: SentRecs::of(None),
        })
    }

    /// Sends the recs of the epoch in ascending order at the next numbers, and forgets them.
    ///
    /// It costs the recs of the epoch. It fails where memory is refused, now or earlier.
    pub fn on_notify(&mut self, t: Epoch) -> Result<Numbered, AllocError>
        ensures ok { (gone : List ℕ → Bool) (came : List Arrival) (n : ℕ)
            → gone (t.0 ∷ []) ≡ false → IsSequence gone self.old came n
            → IfOk result (λ sent. IsSequence (λ s. same s (t.0 ∷ []) || gone s) self.new came (n + length sent.recs)) }
        ensures sent { (gone : List ℕ → Bool) (came : List Arrival) (n : ℕ)
            → gone (t.0 ∷ []) ≡ false → IsSequence gone self.old came n
            → IfOk result (λ sent. at_numbers sent.first sent.recs ≡ recs_numbered n (sorted_recs (recs_arrived_at (t.0 ∷ []) came))) }
        ensures err { (gone : List ℕ → Bool) (came : List Arrival) (n : ℕ) → IsSequence gone self.old came n
            → OnErr result (IsSequence gone self.new came n) }
        ensures live { OnOk result (self.new.refused ≡ false) }
        ensures refused { OnErr result (self.new.refused ≡ true) }
        ensures stays { IsTrue self.old.refused → IsErr result }
    {
        if self.refused {
            return Err(AllocError);
        }
        let first = self.next;
        let Some(held) = self.held.get(&t) else {
            return Ok(Numbered {
                first,
                recs: SentRecs::of(None),
            });
        };
        self.refused = true;
        let recs = recs_to_send(self.alloc, &held.bag, first)?;
        self.held.remove(&t);
        self.next = first + recs.len() as u64;
        self.refused = false;
        Ok(Numbered { first, recs })
    }

    /// Forgets what came inside, to which nothing comes any more. It takes no memory.
    pub fn settle(&mut self, f: &Below)
        ensures table { (gone after : List ℕ → Bool) (came : List Arrival) (n : ℕ)
            → ((t : ℕ) → after (t ∷ []) ≡ is_below f.now.until t)
            → IsSequence gone self.old came n → IsSequence (λ s. after s || gone s) self.new came n }
        ensures live { self.new.refused ≡ self.old.refused }
    {
        keep_outside(&mut self.held, f);
    }

    /// The state at f as it changed since g: how many messages it sent in all. That is the state at f where it was notified of no
    /// epoch outside f. How many it sent at each epoch it does not tell. It takes no memory.
    pub fn state_since(&self, _g: &Below, _f: &Below) -> State
        ensures state { (gone : List ℕ → Bool) (came : List Arrival) (n : ℕ) → IsSequence gone self.now came n
            → result ≡ record { sent = n; sends = []; entries = Totals [] } }
        ensures no_counts { result.sends ≡ [] }
    {
        state_of(self.alloc, self.next, Recs::of(Vec::new(self.alloc)))
    }
}
