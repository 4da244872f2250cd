//! The recs of one output.
ghost use Rattle.std.specs.Prelude.{◌≡◌, ◌↔◌, ◌+◌, ◌^◌, ◌<◌, [], ◌∷◌, length, None, filter, IsTrue, IsSome, OnOk, OnErr};
ghost use Rattle.std.specs.Option.{option_map};
ghost use Rattle.std.specs.BTreeMap.{insert_entry, is_at};
ghost use Rattle.std.specs.Map.{lookup, remove_entry};
ghost use Rattle.std.specs.Ordering.{nat_cmp};
ghost use Rattle.fw_bag.specs.Bag.{with_rec};
ghost use Rattle.fw_border.specs.Numbers as numbers;
ghost use Rattle.fw_border.specs.Numbers.{recs_by_number};
ghost use Rattle.fw_border.specs.Outputs.{recs_at_number, next_recs, with_rec_at, acknowledged, rolled_output, cleared, new_output, AreByNumber};

use crate::number::{first_outside, is_below};
use fw_bag::{Bag, Rec};
use fw_flow::Cut;
use std::alloc::{AllocError, Global};
use std::collections::BTreeMap;
use std::marker::Model;

/// The recs of an output by number, but for those acknowledged.
#[derive(Debug, Drop)]
pub struct Output {
    alloc: Global,
    bound: u64,
    recs: BTreeMap<u64, Bag>,
}

impl Model for Output {
    ghost use Rattle.fw_border.specs.Numbers.{recs_by_number};
    ghost use Rattle.fw_border.specs.Outputs.{OutputState, AreByNumber};

    ghost Value = { OutputState };

    ghost view = { λ output. record { bound = output.bound; recs = recs_by_number output.recs.entries } };

    ghost invariant = { λ output. AreByNumber (recs_by_number output.recs.entries) };
}

impl Output {
    /// An output without recs, which takes its memory from `alloc`.
    pub fn new(alloc: Global) -> Self
        ensures { result ≡ new_output }
    {
        Output {
            alloc,
            bound: 0,
            recs: BTreeMap::new(alloc),
        }
    }

    /// Keeps a rec at a number, if that is not acknowledged.
    pub fn put(&mut self, x: u64, rec: Rec) -> Result<(), AllocError>
        ensures ok { OnOk result (self.new ≡ with_rec_at x rec self.old) }
        ensures err { OnErr result (self.new ≡ self.old) }
    {
        if x < self.bound {
            return Ok(());
        }
        put_at(self.alloc, &mut self.recs, x, rec)
    }

    /// The recs at a number, if any are kept.
    pub fn at(&self, x: u64) -> Option<&Bag>
        ensures { option_map (λ b. b.now.recs) result ≡ lookup (is_at (nat_cmp x)) self.now.recs }
    {
        found_at(&self.recs, x)
    }

    /// Whether a rec is kept.
    pub fn has_any(&self) -> bool
        ensures any { IsTrue result ↔ (0 < length self.now.recs) }
        ensures by_number { AreByNumber self.now.recs }
    {
        !self.recs.is_empty()
    }

    /// How many stamps were acknowledged.
    pub fn bound(&self) -> u64
        ensures { result ≡ self.now.bound }
    {
        self.bound
    }

    /// Takes out the recs at the bound, and raises it by one, as it must be able to.
    pub fn acknowledge(&mut self) -> Bag
        requires { self.old.bound + 1 < 2 ^ 64 }
        ensures recs { result.recs ≡ next_recs self.old }
        ensures left { self.new ≡ acknowledged self.old }
    {
        let recs = take_at(self.alloc, &mut self.recs, self.bound);
        self.bound += 1;
        recs
    }

    /// Keeps the recs alone that lie within the cut.
    pub fn roll_to(&mut self, cut: &Cut)
        ensures { self.new ≡ rolled_output cut.now self.old }
    {
        if let Cut::At(f) = cut {
            keep_below(&mut self.recs, first_outside(f));
        }
    }

    /// Drops all recs.
    pub fn clear(&mut self)
        ensures { self.new ≡ cleared self.old }
    {
        self.recs.clear();
    }
}

// The recs at a number, if any are kept.
fn found_at(recs: &BTreeMap<u64, Bag>, x: u64) -> Option<&Bag>
    ensures { option_map (λ b. b.now.recs) result ≡ lookup (is_at (nat_cmp x)) (recs_by_number recs.now.entries) }
{
    recs.get(&x)
}

// Takes out the recs at a number.
fn take_at(alloc: Global, recs: &mut BTreeMap<u64, Bag>, x: u64) -> Bag
    requires { AreByNumber (recs_by_number recs.old.entries) }
    ensures by_number { AreByNumber (recs_by_number recs.new.entries) }
    ensures taken { result.recs ≡ recs_at_number (recs_by_number recs.old.entries) x }
    ensures left { recs_by_number recs.new.entries ≡ remove_entry (is_at (nat_cmp x)) (recs_by_number recs.old.entries) }
{
    match recs.remove(&x) {
        Some(bag) => bag,
        None => Bag::new(alloc),
    }
}

// Keeps one more rec at a number.
fn put_at(alloc: Global, recs: &mut BTreeMap<u64, Bag>, x: u64, rec: Rec) -> Result<(), AllocError>
    requires { AreByNumber (recs_by_number recs.old.entries) }
    ensures by_number { AreByNumber (recs_by_number recs.new.entries) }
    ensures ok { OnOk result (recs_by_number recs.new.entries
        ≡ insert_entry nat_cmp (recs_by_number recs.old.entries) x (with_rec rec (recs_at_number (recs_by_number recs.old.entries) x))) }
    ensures err { OnErr result (recs_by_number recs.new.entries ≡ recs_by_number recs.old.entries) }
{
    if recs.contains_key(&x) {
        return put_more(recs, x, rec);
    }
    put_new(alloc, recs, x, rec)
}

// Puts a rec into the bag of a number.
fn put_more(recs: &mut BTreeMap<u64, Bag>, x: u64, rec: Rec) -> Result<(), AllocError>
    requires by_number { AreByNumber (recs_by_number recs.old.entries) }
    requires there { IsSome (lookup (is_at (nat_cmp x)) recs.old.entries) }
    ensures by_number { AreByNumber (recs_by_number recs.new.entries) }
    ensures ok { OnOk result (recs_by_number recs.new.entries
        ≡ insert_entry nat_cmp (recs_by_number recs.old.entries) x (with_rec rec (recs_at_number (recs_by_number recs.old.entries) x))) }
    ensures err { OnErr result (recs_by_number recs.new.entries ≡ recs_by_number recs.old.entries) }
{
    let Some(bag) = recs.get_mut(&x) else {
        unreachable!()
    };
    bag.add(rec)?;
    Ok(())
}

// Makes the bag of a number.
fn put_new(alloc: Global, recs: &mut BTreeMap<u64, Bag>, x: u64, rec: Rec) -> Result<(), AllocError>
    requires by_number { AreByNumber (recs_by_number recs.old.entries) }
    requires absent { lookup (is_at (nat_cmp x)) recs.old.entries ≡ None }
    ensures by_number { AreByNumber (recs_by_number recs.new.entries) }
    ensures ok { OnOk result (recs_by_number recs.new.entries
        ≡ insert_entry nat_cmp (recs_by_number recs.old.entries) x (with_rec rec (recs_at_number (recs_by_number recs.old.entries) x))) }
    ensures err { OnErr result (recs_by_number recs.new.entries ≡ recs_by_number recs.old.entries) }
{
    let mut bag = Bag::new(alloc);
    bag.add(rec)?;
    recs.insert(x, bag)?;
    Ok(())
}

// Keeps the bags of the numbers below the bound, or all where there is none.
fn keep_below(recs: &mut BTreeMap<u64, Bag>, bound: Option<u32>)
    requires { AreByNumber (recs_by_number recs.old.entries) }
    ensures by_number { AreByNumber (recs_by_number recs.new.entries) }
    ensures kept { recs_by_number recs.new.entries
        ≡ filter (λ e. numbers.is_number_below bound e.0) (recs_by_number recs.old.entries) }
{
    recs.retain(|x, _| is_below(bound, *x));
}
