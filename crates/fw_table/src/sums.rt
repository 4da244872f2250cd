//! The sums of the values of each key.
ghost use Rattle.std.specs.Prelude.{◌≡◌, List, ◌∷◌, IfOk, OnOk, OnErr};
ghost use Rattle.std.specs.List.Sorted.{IsStrictlySortedBy};
ghost use Rattle.std.specs.Map.{keys_of};
ghost use Rattle.std.specs.Ordering.{nat_cmp};
ghost use Rattle.fw_bag.specs.declared.rec.Rec.{Rec};
ghost use Rattle.fw_table.specs.Sums.{HasSums, entry_recs, sums_by_key};

use crate::{Content, SentRecs};
use fw_bag::Rec;
use std::alloc::{AllocError, Global};
use std::collections::BTreeMap;

/// The sum of the values of each key, modulo 2^64, of what came at one time.
#[derive(Drop)]
pub struct Sums {
    /// At each key.
    pub by_key: BTreeMap<u64, u64>,
}

impl Content for Sums {
    ghost use Rattle.fw_table.specs.Sums.{HasSums};
    ghost use Rattle.fw_bag.specs.Arrivals.{recs_of};

    ghost holds = { λ s came. HasSums s.by_key (recs_of came) };

    fn empty(alloc: Global) -> Self {
        Sums {
            by_key: BTreeMap::new(alloc),
        }
    }

    fn put(&mut self, _side: usize, rec: Rec) -> Result<(), AllocError> {
        add_to(&mut self.by_key, rec)
    }
}

impl Sums {
    /// For each key the sum of its values, in ascending order.
    ///
    /// It fails where memory is refused.
    pub fn recs(&self, alloc: Global) -> Result<SentRecs, AllocError>
        ensures { (rs : List Rec) → HasSums self.now.by_key rs → IfOk result (λ recs. recs ≡ sums_by_key rs) }
    {
        recs_of_entries(alloc, &self.by_key)
    }
}

// The entries as recs.
fn recs_of_entries(alloc: Global, sums: &BTreeMap<u64, u64>) -> Result<SentRecs, AllocError>
    ensures recs { IfOk result (λ recs. recs ≡ entry_recs sums.now.entries) }
    ensures ordered { IsStrictlySortedBy nat_cmp (keys_of sums.now.entries) }
{
    let mut recs = SentRecs::of(None);
    for (key, sum) in sums {
        recs.push(
            alloc,
            Rec {
                key: *key,
                value: *sum,
            },
        )?;
    }
    Ok(recs)
}

// Adds the value of a rec to the sum of its key.
fn add_to(sums: &mut BTreeMap<u64, u64>, rec: Rec) -> Result<(), AllocError>
    ensures ok { (rs : List Rec) → HasSums sums.old rs → OnOk result (HasSums sums.new (rec ∷ rs)) }
    ensures err { OnErr result (sums.new.entries ≡ sums.old.entries) }
{
    let sum = sums.get(&rec.key).copied().unwrap_or(0);
    sums.insert(rec.key, rec.value.wrapping_add(sum))?;
    Ok(())
}
