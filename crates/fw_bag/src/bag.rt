//! Bags of recs.
ghost use Rattle.std.specs.Prelude.{◌≡◌, ◌+◌, ◌^◌, ◌<◌, ◌↔◌, [], ◌∷◌, length, unwrap_or, true, false, IsTrue, IsNone, IfSome, IfNone, IfOk, IsErr, OnOk, OnErr, OnSome};
ghost use Rattle.std.specs.BTreeMap as tree;
ghost use Rattle.std.specs.BTreeMap.{insert_entry};
ghost use Rattle.fw_bag.specs.Rec.{rec_cmp, IsAscending};
ghost use Rattle.fw_bag.specs.Bag.{with_rec, without_rec, how_often, bag_sum, with_copies, expand, IsTally};

use crate::{Iter, Rec};
use std::alloc::{AllocError, Global};
use std::collections::BTreeMap;
use std::marker::Model;

/// A bag of recs, which holds each rec any number of times and gives them out in ascending order.
///
/// Its memory is that of its different recs. A bag to which memory was once refused takes in no more recs, and says so
/// by an error each time.
#[derive(Debug, Drop)]
pub struct Bag {
    counts: BTreeMap<Rec, usize>,
    len: usize,
    refused: bool,
}

impl Model for Bag {
    ghost use Rattle.std.specs.Prelude.{◌≡◌, length};
    ghost use Rattle.fw_bag.specs.Bag.{BagState, expand, IsTally};

    ghost Value = { BagState };

    ghost view = { λ b. record { recs = expand b.counts.entries; refused = b.refused } };

    ghost invariant = { λ b. IsTally b.counts.entries × (b.len ≡ length (expand b.counts.entries)) };
}

impl Bag {
    /// An empty bag, which takes its memory from `alloc`.
    pub fn new(alloc: Global) -> Self
        ensures { result ≡ record { recs = []; refused = false } }
    {
        Bag {
            counts: BTreeMap::new(alloc),
            len: 0,
            refused: false,
        }
    }

    /// Puts a rec in.
    ///
    /// It fails where memory is refused, now or earlier, and where the number of recs would not fit a `usize`.
    pub fn add(&mut self, rec: Rec) -> Result<(), AllocError>
        ensures ok { OnOk result (self.new ≡ record { recs = with_rec rec self.old.recs; refused = false }) }
        ensures err { OnErr result (self.new ≡ record { recs = self.old.recs; refused = true }) }
        ensures refused { IsTrue self.old.refused → IsErr result }
    {
        if self.refused {
            return Err(AllocError);
        }
        let added = add_one(&mut self.counts, &mut self.len, rec);
        self.refused = added.is_err();
        added
    }

    /// Puts all recs of another bag in, or none of them.
    ///
    /// It works on a copy of the counts, and so takes the memory of the sum beside that of this bag while it runs.
    /// It fails where memory is refused, now or earlier, and where the number of recs would not fit a `usize`.
    pub fn union(&mut self, other: &Bag) -> Result<(), AllocError>
        ensures ok { OnOk result
            (self.new ≡ record { recs = bag_sum other.now.recs self.old.recs; refused = false }) }
        ensures err { OnErr result (self.new ≡ record { recs = self.old.recs; refused = true }) }
        ensures refused { IsTrue self.old.refused → IsErr result }
    {
        if self.refused {
            return Err(AllocError);
        }
        let joined = add_all(&mut self.counts, &mut self.len, &other.counts, other.len);
        self.refused = joined.is_err();
        joined
    }

    /// Takes the least rec out. It takes no memory.
    pub fn take_least(&mut self) -> Option<Rec>
        ensures none { IsNone result ↔ (self.old.recs ≡ []) }
        ensures least { IfSome result (λ r. self.old.recs ≡ r ∷ self.new.recs) }
        ensures unchanged { IfNone result (self.new ≡ self.old) }
        ensures refused { self.new.refused ≡ self.old.refused }
    {
        let rec = first_rec(&self.counts)?;
        take_one(&mut self.counts, &mut self.len, rec);
        Some(rec)
    }

    /// Takes one rec out that equals this one, and says whether there was one. It takes no memory.
    pub fn take(&mut self, rec: Rec) -> bool
        ensures found { IsTrue result ↔ (0 < how_often rec self.old.recs) }
        ensures taken { self.new ≡ record self.old { recs = without_rec rec self.old.recs } }
    {
        take_one(&mut self.counts, &mut self.len, rec)
    }

    /// How many recs of the bag equal this one.
    pub fn count(&self, rec: Rec) -> usize
        ensures { result ≡ how_often rec self.now.recs }
    {
        count_of(&self.counts, rec)
    }

    /// The number of recs in the bag, equal ones each counted, in constant time.
    pub fn len(&self) -> usize
        ensures len { result ≡ length self.now.recs }
        ensures ascending { IsAscending self.now.recs }
    {
        self.len
    }

    /// Whether the bag holds no rec.
    pub fn is_empty(&self) -> bool
        ensures { IsTrue result ↔ (self.now.recs ≡ []) }
    {
        self.len == 0
    }

    /// Goes over its recs in ascending order, and gives each as often as it is in the bag. It takes no memory.
    pub fn iter(&self) -> Iter<'_>
        ensures { result ≡ self.now.recs }
    {
        Iter::over(&self.counts, self.len)
    }
}

impl<'a> IntoIterator for &'a Bag {
    type Item = Rec;

    type IntoIter = Iter<'a>;

    ghost into_iter_gives = { λ bag rest. rest ≡ bag.now.recs };

    fn into_iter(self) -> Iter<'a> {
        self.iter()
    }
}

// How often the recs of the counts have this one.
fn count_of(counts: &BTreeMap<Rec, usize>, rec: Rec) -> usize
    requires { IsTally counts.now.entries }
    ensures { result ≡ how_often rec (expand counts.now.entries) }
{
    counts.get(&rec).copied().unwrap_or(0)
}

// The least rec of the counts.
fn first_rec(counts: &BTreeMap<Rec, usize>) -> Option<Rec>
    requires { IsTally counts.now.entries }
    ensures none { IsNone result ↔ (expand counts.now.entries ≡ []) }
    ensures first { IfSome result
        (λ r. expand counts.now.entries ≡ r ∷ without_rec r (expand counts.now.entries)) }
{
    let (rec, _) = counts.first_key_value()?;
    Some(*rec)
}

// Raises the count of a rec by `copies`.
fn add_copies(counts: &mut BTreeMap<Rec, usize>, rec: Rec, copies: usize) -> Result<(), AllocError>
    requires tally { IsTally counts.old.entries }
    requires some { 0 < copies }
    ensures tally { IsTally counts.new.entries }
    ensures ok { OnOk result
        (expand counts.new.entries ≡ with_copies copies rec (expand counts.old.entries)) }
    ensures err { OnErr result (counts.new.entries ≡ counts.old.entries) }
{
    let raised = count_of(counts, rec).checked_add(copies).ok_or(AllocError)?;
    counts.insert(rec, raised)?;
    Ok(())
}

// The count of a rec is one more from now on, by one look-up.
fn count_one(counts: &mut BTreeMap<Rec, usize>, rec: Rec) -> Result<(), AllocError>
    requires { unwrap_or (tree.get rec_cmp counts.old rec) 0 + 1 < 2 ^ 64 }
    ensures ok { OnOk result (counts.new.entries
        ≡ insert_entry rec_cmp counts.old.entries rec (unwrap_or (tree.get rec_cmp counts.old rec) 0 + 1)) }
    ensures ordered { OnOk result (tree.IsOrdered rec_cmp counts.new) }
    ensures err { OnErr result (counts.new.entries ≡ counts.old.entries) }
{
    *counts.entry(rec)?.or_insert(0) += 1;
    Ok(())
}

// Raises the count of a rec by one.
fn raise(counts: &mut BTreeMap<Rec, usize>, rec: Rec) -> Result<(), AllocError>
    requires tally { IsTally counts.old.entries }
    requires room { length (expand counts.old.entries) + 1 < 2 ^ 64 }
    ensures tally { IsTally counts.new.entries }
    ensures ok { OnOk result (expand counts.new.entries ≡ with_rec rec (expand counts.old.entries)) }
    ensures err { OnErr result (counts.new.entries ≡ counts.old.entries) }
{
    count_one(counts, rec)?;
    Ok(())
}

// Puts a rec in, where `len` is the number of recs.
fn add_one(counts: &mut BTreeMap<Rec, usize>, len: &mut usize, rec: Rec) -> Result<(), AllocError>
    requires tally { IsTally counts.old.entries }
    requires len { len.old ≡ length (expand counts.old.entries) }
    ensures tally { IsTally counts.new.entries }
    ensures len { len.new ≡ length (expand counts.new.entries) }
    ensures ok { OnOk result
        (expand counts.new.entries ≡ with_rec rec (expand counts.old.entries)) }
    ensures err { OnErr result (expand counts.new.entries ≡ expand counts.old.entries) }
{
    let total = len.checked_add(1).ok_or(AllocError)?;
    raise(counts, rec)?;
    *len = total;
    Ok(())
}

// The counts of the recs of both.
fn sum_of(
    counts: &BTreeMap<Rec, usize>,
    others: &BTreeMap<Rec, usize>,
) -> Result<BTreeMap<Rec, usize>, AllocError>
    requires tally { IsTally counts.now.entries }
    requires others_tally { IsTally others.now.entries }
    ensures tally { IfOk result (λ sum. IsTally sum.entries) }
    ensures ok { IfOk result
        (λ sum. expand sum.entries ≡ bag_sum (expand others.now.entries) (expand counts.now.entries)) }
{
    let mut sum = counts.clone()?;
    for (rec, copies) in others {
        add_copies(&mut sum, *rec, *copies)?;
    }
    Ok(sum)
}

// Puts the recs of other counts in, or none of them, where `len` and `others_len` are the numbers of recs.
fn add_all(
    counts: &mut BTreeMap<Rec, usize>,
    len: &mut usize,
    others: &BTreeMap<Rec, usize>,
    others_len: usize,
) -> Result<(), AllocError>
    requires tally { IsTally counts.old.entries }
    requires others_tally { IsTally others.now.entries }
    requires len { len.old ≡ length (expand counts.old.entries) }
    requires others_len { others_len ≡ length (expand others.now.entries) }
    ensures tally { IsTally counts.new.entries }
    ensures len { len.new ≡ length (expand counts.new.entries) }
    ensures ok { OnOk result (expand counts.new.entries
        ≡ bag_sum (expand others.now.entries) (expand counts.old.entries)) }
    ensures err { OnErr result (expand counts.new.entries ≡ expand counts.old.entries) }
{
    let total = len.checked_add(others_len).ok_or(AllocError)?;
    *counts = sum_of(counts, others)?;
    *len = total;
    Ok(())
}

// Lowers the count of a rec by one, if it has one.
fn take_copy(counts: &mut BTreeMap<Rec, usize>, rec: Rec) -> bool
    requires { IsTally counts.old.entries }
    ensures tally { IsTally counts.new.entries }
    ensures found { IsTrue result ↔ (0 < how_often rec (expand counts.old.entries)) }
    ensures taken { expand counts.new.entries ≡ without_rec rec (expand counts.old.entries) }
{
    let Some(count) = counts.get_mut(&rec) else {
        return false;
    };
    if *count > 1 {
        *count -= 1;
    } else {
        counts.remove(&rec);
    }
    true
}

// Takes a rec out, if it is there, where `len` is the number of recs.
fn take_one(counts: &mut BTreeMap<Rec, usize>, len: &mut usize, rec: Rec) -> bool
    requires tally { IsTally counts.old.entries }
    requires len { len.old ≡ length (expand counts.old.entries) }
    ensures tally { IsTally counts.new.entries }
    ensures len { len.new ≡ length (expand counts.new.entries) }
    ensures found { IsTrue result ↔ (0 < how_often rec (expand counts.old.entries)) }
    ensures taken { expand counts.new.entries ≡ without_rec rec (expand counts.old.entries) }
{
    let found = take_copy(counts, rec);
    if found {
        *len -= 1;
    }
    found
}
