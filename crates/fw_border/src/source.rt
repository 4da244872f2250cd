//! The batches of one input.
ghost use Rattle.std.specs.Prelude.{◌≡◌, ◌+◌, ◌^◌, ◌<◌, ◌≤◌, not, length, filter, IfOk, IsErr, OnOk};
ghost use Rattle.std.specs.Option.{option_map};
ghost use Rattle.std.specs.List.{enumerate_from};
ghost use Rattle.fw_lines.specs.Batches.{recs_of_bags};
ghost use Rattle.fw_border.specs.Numbers as numbers;
ghost use Rattle.fw_border.specs.Sources.{epochs_inside, unused_source, next_batch, advanced, rolled_source, given_up, can_be_fed, fed_batch};

use crate::number::{first_outside, is_below};
use fw_bag::Bag;
use fw_flow::Cut;
use fw_frontier::Front;
use std::alloc::{AllocError, Global};
use std::collections::VecDeque;
use std::marker::Model;

/// The batches of an input.
#[derive(Debug, Drop)]
pub struct Source {
    given: u64,
    injected: u64,
    // The epoch of the first batch that is held.
    first: u64,
    held: VecDeque<Bag>,
}

impl Model for Source {
    ghost use Rattle.std.specs.Prelude.{◌≡◌, ◌≤◌, ◌+◌, length};
    ghost use Rattle.std.specs.List.{enumerate_from};
    ghost use Rattle.fw_lines.specs.Batches.{recs_of_bags};
    ghost use Rattle.fw_border.specs.Sources.{SourceState};

    ghost Value = { SourceState };

    ghost view = { λ source. record { given = source.given; injected = source.injected; held = enumerate_from source.first (recs_of_bags source.held.items) } };

    ghost invariant = { λ source. (source.given ≡ source.first + length source.held.items) × (source.injected ≤ source.given) };
}

impl Source {
    /// An input with copies of these batches.
    pub fn new(alloc: Global, batches: &[Bag]) -> Result<Self, AllocError>
        ensures { IfOk result (λ source. source ≡ unused_source (recs_of_bags batches.now)) }
    {
        Ok(Source {
            given: batches.len() as u64,
            injected: 0,
            first: 0,
            held: copies(alloc, batches)?,
        })
    }

    /// The batch that is injected next, if it is held.
    pub fn next(&self) -> Option<&Bag>
        ensures { option_map (λ b. b.now.recs) result ≡ next_batch self.now }
    {
        let place = self.injected.checked_sub(self.first)?;
        self.held.get(place as usize)
    }

    /// Counts one batch more as injected, if there is one.
    pub fn advance(&mut self)
        ensures { self.new ≡ advanced self.old }
    {
        if self.injected < self.given {
            self.injected += 1;
        }
    }

    /// The batch takes the place of the last one, and an empty one is behind it, if the last one is held and there can be one more: whether
    /// that is so is told. The error is want of memory; then nothing changes.
    pub fn feed(&mut self, alloc: Global, batch: Bag) -> Result<bool, AllocError>
        ensures told { IfOk result (λ was_fed. was_fed ≡ can_be_fed self.old) }
        ensures fed { OnOk result (self.new ≡ fed_batch batch.recs self.old) }
        ensures stays { IsErr result → self.new ≡ self.old }
    {
        if self.held.is_empty() || self.given == u64::MAX {
            return Ok(false);
        }
        let last = self.held.len() - 1;
        self.held.push_back(Bag::new(alloc))?;
        self.held[last] = batch;
        self.given += 1;
        Ok(true)
    }

    /// How many batches were injected.
    pub fn injected(&self) -> u64
        ensures count { result ≡ self.now.injected }
        ensures given { result ≤ self.now.given }
    {
        self.injected
    }

    /// How many batches there are, those given up too.
    pub fn given(&self) -> u64
        ensures { result ≡ self.now.given }
    {
        self.given
    }

    /// Counts those injections alone that lie within the cut.
    pub fn roll_to(&mut self, cut: &Cut)
        ensures { self.new ≡ rolled_source cut.now self.old }
    {
        if let Cut::At(f) = cut {
            self.injected = count_inside(f, self.injected);
        }
    }

    /// Drops the batches of the epochs inside.
    pub fn acknowledge(&mut self, f: &Front)
        ensures { self.new ≡ given_up f.now self.old }
    {
        drop_below(&mut self.held, &mut self.first, first_outside(f));
    }
}

// A bag once more.
fn copied(alloc: Global, bag: &Bag) -> Result<Bag, AllocError>
    ensures { IfOk result (λ copy. copy.recs ≡ bag.now.recs) }
{
    let mut copy = Bag::new(alloc);
    copy.union(bag)?;
    // Its recs ascend, so that they are the sum with nothing.
    let _len = bag.len();
    Ok(copy)
}

// These bags once more.
fn copies(alloc: Global, bags: &[Bag]) -> Result<VecDeque<Bag>, AllocError>
    ensures { IfOk result (λ all. recs_of_bags all.items ≡ recs_of_bags bags.now) }
{
    let mut all = VecDeque::new(alloc);
    for bag in bags {
        all.push_back(copied(alloc, bag)?)?;
    }
    Ok(all)
}

// How many of the first epochs are inside.
fn count_inside(f: &Front, epochs: u64) -> u64
    ensures count { result ≡ epochs_inside f.now epochs }
    ensures few { result ≤ epochs }
{
    match first_outside(f) {
        Some(bound) => epochs.min(u64::from(bound)),
        None => epochs,
    }
}

// Drops the bags of the epochs below the bound, or all where there is none; `first` is the epoch of the first bag.
fn drop_below(held: &mut VecDeque<Bag>, first: &mut u64, bound: Option<u32>)
    requires { first.old + length held.old.items < 2 ^ 64 }
    ensures end { first.new + length held.new.items ≡ first.old + length held.old.items }
    ensures left { enumerate_from first.new (recs_of_bags held.new.items)
        ≡ filter (λ batch. not (numbers.is_number_below bound batch.0)) (enumerate_from first.old (recs_of_bags held.old.items)) }
{
    while is_below(bound, *first) && !held.is_empty() {
        let _bag = held.pop_front();
        *first += 1;
    }
}
