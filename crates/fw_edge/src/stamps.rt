//! The stamps at which messages are pending.
ghost use Rattle.std.specs.Prelude.{◌≡◌, ◌++◌, length, map};
ghost use Rattle.std.specs.Iterator.{YieldsFirstBy, item_count};
ghost use Rattle.fw_edge.specs.Piles.{piled_messages, AreApart};
ghost use Rattle.fw_edge.specs.Stamps.{counted_stamps};

use crate::pile::Pile;
use fw_time::Stamp;
use std::collections::{BTreeMap, btree_map};
use std::iter::FusedIterator;
use std::marker::Model;

/// The stamps at which messages are pending, in order, with how many are at each. Contracts see the list of those that are
/// left.
#[derive(Drop)]
pub struct PendingStamps<'a> {
    head: Option<(&'a Stamp, usize)>,
    piles: btree_map::Iter<'a, Stamp, Pile>,
}

impl<'a> Model for PendingStamps<'a> {
    ghost use Rattle.std.specs.Prelude.{ℕ, List, ◌++◌, length, map};
    ghost use Rattle.fw_edge.specs.Stamps.{counted_first};

    ghost Value = { List (List ℕ × ℕ) };

    ghost view = { λ left. counted_first left.head ++ map (λ pile. (pile.0, length pile.1)) left.piles };
}

impl<'a> PendingStamps<'a> {
    /// What goes over the least stamp and those of these piles.
    pub(crate) fn over(at: &'a Stamp, head: &'a Pile, piles: &'a BTreeMap<Stamp, Pile>) -> Self
        requires { AreApart at.now head.now piles.now.entries }
        ensures { result ≡ counted_stamps (head.now ++ piled_messages piles.now.entries) }
    {
        let len = head.len();
        PendingStamps {
            head: (len > 0).then_some((at, len)),
            piles: piles.iter(),
        }
    }
}

impl<'a> Iterator for PendingStamps<'a> {
    type Item = (&'a Stamp, usize);

    ghost next_gives = { YieldsFirstBy (λ item. (item.0.now, item.1)) (λ left. left) };

    ghost remaining = { item_count (λ left. left) };

    fn next(&mut self) -> Option<(&'a Stamp, usize)> {
        if let Some(head) = self.head.take() {
            return Some(head);
        }
        let (at, pile) = self.piles.next()?;
        Some((at, pile.len()))
    }
}

impl<'a> FusedIterator for PendingStamps<'a> {}
