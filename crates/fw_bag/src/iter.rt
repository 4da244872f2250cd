//! What goes over the recs of a bag.
ghost use Rattle.std.specs.Prelude.{◌≡◌, ◌<◌, [], length, IfSome, IfNone};
ghost use Rattle.std.specs.Iterator.{YieldsFirst, item_count};
ghost use Rattle.fw_bag.specs.Bag.{copies_before, expand, IsPositive, IsTally};

use crate::Rec;
use std::collections::{BTreeMap, btree_map};
use std::iter::FusedIterator;
use std::marker::Model;

/// The recs of a bag in ascending order, each as often as it is in the bag. Contracts see the list of those that are left.
#[derive(Drop)]
pub struct Iter<'a> {
    counts: btree_map::Iter<'a, Rec, usize>,
    // The rec that comes next, and how often it comes before the counts go on.
    rec: Rec,
    copies: usize,
    len: usize,
}

impl<'a> Model for Iter<'a> {
    ghost use Rattle.std.specs.Prelude.{◌≡◌, List, length};
    ghost use Rattle.fw_bag.specs.declared.rec.Rec.{Rec};
    ghost use Rattle.fw_bag.specs.Bag.{copies_before, expand, IsPositive};

    ghost Value = { List Rec };

    ghost view = { λ left. copies_before left.copies left.rec (expand left.counts) };

    ghost invariant = { λ left. IsPositive left.counts
        × (left.len ≡ length (copies_before left.copies left.rec (expand left.counts))) };
}

impl<'a> Iter<'a> {
    /// What goes over the recs of these counts, where `len` is their number.
    pub(crate) fn over(counts: &'a BTreeMap<Rec, usize>, len: usize) -> Self
        requires tally { IsTally counts.now.entries }
        requires len { len ≡ length (expand counts.now.entries) }
        ensures { result ≡ expand counts.now.entries }
    {
        Iter {
            counts: counts.iter(),
            rec: Rec { key: 0, value: 0 },
            copies: 0,
            len,
        }
    }
}

impl<'a> Iterator for Iter<'a> {
    type Item = Rec;

    ghost next_gives = { YieldsFirst (λ left. left) };

    ghost remaining = { item_count (λ left. left) };

    #[tactic(auto, using(crate::proofs::IterLaws::first_of_copies))]
    fn next(&mut self) -> Option<Rec> {
        let (rec, copies) = front(&mut self.counts, self.rec, self.copies)?;
        self.rec = rec;
        self.copies = copies - 1;
        self.len -= 1;
        Some(rec)
    }

    fn size_hint(&self) -> (usize, Option<usize>) {
        (self.len, Some(self.len))
    }
}

impl<'a> ExactSizeIterator for Iter<'a> {
    fn len(&self) -> usize {
        self.len
    }
}

impl<'a> FusedIterator for Iter<'a> {}

// The rec that comes next and how often, where so many copies of one come before the counts go on.
fn front(
    counts: &mut btree_map::Iter<'_, Rec, usize>,
    rec: Rec,
    copies: usize,
) -> Option<(Rec, usize)>
    requires { IsPositive counts.old }
    ensures positive { IsPositive counts.new }
    ensures some { IfSome result (λ first. 0 < first.1) }
    ensures same { IfSome result (λ first. copies_before first.1 first.0 (expand counts.new)
        ≡ copies_before copies rec (expand counts.old)) }
    ensures none { IfNone result ((copies ≡ 0) × (counts.old ≡ []) × (counts.new ≡ [])) }
{
    if copies > 0 {
        return Some((rec, copies));
    }
    let (rec, copies) = counts.next()?;
    Some((*rec, *copies))
}
