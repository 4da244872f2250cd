//! The recs of two in-edges, number by number.
ghost use Rattle.std.specs.Prelude.{◌≡◌, ℕ, Bool, List, [], ◌∷◌, true, false, not, IfOk, OnOk, OnErr, IsTrue, IsErr, Some, None};
ghost use Rattle.std.specs.Ordering.{nat_cmp};
ghost use Rattle.std.specs.BTreeMap.{get};
ghost use Rattle.fw_time.specs.Sending.{side_stamp};
ghost use Rattle.fw_bag.specs.Arrivals.{Arrival, arrival};
ghost use Rattle.fw_frontier.specs.Frontier.{Within};
ghost use Rattle.fw_numbered.specs.Zip.{AreSettledBelow, IsZip, goes_below, are_both, partners_at, partners_in, with_partner, zipped};

use fw_bag::Rec;
use fw_frontier::{Below, Frontier};
use fw_time::SeqNo;
use std::alloc::{AllocError, Global};
use std::collections::BTreeMap;

/// The recs of a number, of those of its two in-edges that came.
#[derive(Clone, Copy, Debug)]
pub(crate) struct Partners {
    first: Option<Rec>,
    second: Option<Rec>,
}

impl Partners {
    // No rec.
    fn none() -> Self
        ensures { result ≡ record { first = None; second = None } }
    {
        Partners {
            first: None,
            second: None,
        }
    }

    // With a rec that comes on an in-edge, by its place.
    fn with(self, side: usize, rec: Rec) -> Self
        ensures { result ≡ with_partner side rec self }
    {
        if side == 0 {
            return Partners {
                first: Some(rec),
                second: self.second,
            };
        }
        Partners {
            first: self.first,
            second: Some(rec),
        }
    }

    // Whether both came.
    fn are_both(&self) -> bool
        ensures { result ≡ are_both self.now }
    {
        self.first.is_some() && self.second.is_some()
    }

    // The key of the first one with the sum of both values, if both came.
    fn zipped(&self) -> Option<Rec>
        ensures { result ≡ zipped self.now }
    {
        match (self.first, self.second) {
            (Some(first), Some(second)) => Some(Rec {
                key: first.key,
                value: first.value.wrapping_add(second.value),
            }),
            _ => None,
        }
    }
}

/// Sends for each number that both in-edges brought one rec: the key of that on the first one, and the sum of their values.
///
/// It keeps what came at each number, until both its recs are there and both their stamps are settled: till then the message of
/// the two may be asked for once more.
#[derive(Drop)]
pub struct Zip {
    by_number: BTreeMap<u32, Partners>,
    refused: bool,
}

impl Zip {
    /// The table to which nothing came, whatever is settled.
    pub fn new(alloc: Global) -> Self
        ensures table { (settled : List ℕ → Bool) → IsZip settled result [] }
        ensures live { result.refused ≡ false }
    {
        Zip {
            by_number: BTreeMap::new(alloc),
            refused: false,
        }
    }

    // What it keeps of a number.
    fn at(&self, n: u32) -> Partners
        ensures { result ≡ partners_in (get nat_cmp self.now.by_number n) }
    {
        match self.by_number.get(&n) {
            Some(partners) => *partners,
            None => Partners::none(),
        }
    }

    /// Takes in a rec that came at the stamp of a number on one of two sides, 0 or 1, which is not settled, and gives what the number
    /// makes it send, if its other rec is there. Of two recs at one stamp it keeps the later one.
    ///
    /// It looks up the number twice. It fails where memory is refused, now or earlier.
    #[tactic(auto, using(crate::proofs::ZipLaws::zip_more, crate::proofs::ZipLaws::zip_sent))]
    pub fn on_message(&mut self, side: usize, n: u32, rec: Rec) -> Result<Option<Rec>, AllocError>
        ensures ok { (settled : List ℕ → Bool) (came : List Arrival) (place : ℕ)
            → settled (side_stamp side n) ≡ false → IsZip settled self.old came
            → OnOk result (IsZip settled self.new (arrival place (side_stamp side n) rec ∷ came)) }
        ensures sent { (settled : List ℕ → Bool) (came : List Arrival) (place : ℕ)
            → settled (side_stamp side n) ≡ false → IsZip settled self.old came
            → IfOk result (λ sent. sent ≡ zipped (partners_at n (arrival place (side_stamp side n) rec ∷ came))) }
        ensures err { (settled : List ℕ → Bool) (came : List Arrival) → IsZip settled self.old came
            → OnErr result (IsZip settled self.new came) }
        ensures live { OnOk result (self.new.refused ≡ false) }
        ensures refused { OnErr result (self.new.refused ≡ true) }
        ensures stays { IsTrue self.old.refused → IsErr result }
    {
        if self.refused {
            return Err(AllocError);
        }
        self.refused = true;
        let partners = self.at(n).with(side, rec);
        self.by_number.insert(n, partners)?;
        self.refused = false;
        Ok(partners.zipped())
    }

    /// Settles what came inside, which holds what was settled: the numbers of which both stamps are inside are those below the
    /// limit. Those of them with both recs are forgotten. It takes no memory.
    pub fn settle(&mut self, f: &Below)
        ensures table { (settled after : List ℕ → Bool) (came : List Arrival)
            → AreSettledBelow f.now.until after → Within settled after
            → IsZip settled self.old came → IsZip after self.new came }
        ensures live { self.new.refused ≡ self.old.refused }
    {
        self.by_number.retain(
            |n: &u32, partners: &mut Partners| -> bool
                ensures whole { result ≡ not (goes_below f.entry.now.until n.now partners.old) }
                ensures stays { partners.new ≡ partners.old }
            { !(partners.are_both() && f.contains(&SeqNo(*n))) },
        );
    }
}
