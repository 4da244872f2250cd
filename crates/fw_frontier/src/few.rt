//! The outside stamps of a front. One alone takes no memory where it is made alone.
ghost use Rattle.std.specs.Prelude.{◌≡◌, true, ℕ, List, [], ◌∷◌, length, IfSome, IfOk};
ghost use Rattle.std.specs.List.{AllByRecursion};
ghost use Rattle.fw_time.specs.Stamp.{leq, in_domain, up_to};
ghost use Rattle.fw_frontier.specs.Few.{stamps_of_few};
ghost use Rattle.fw_frontier.specs.Front.{frontier_of, least_stamps, IsFrontOf};
ghost use Rattle.fw_frontier.specs.Frontier.{join, cover};
ghost use Rattle.fw_frontier.specs.Outside.{front_without, front_without_all, below_at};

use crate::outside;
use fw_time::{Bounds, Stamp};
use std::alloc::{AllocError, Global};
use std::slice;

// The stamps: one in place, or any number in a vector.
#[derive(Debug, Drop)]
pub enum Few {
    One(Global, Stamp),
    Many(Vec<Stamp>),
}

impl Few {
    // These stamps made outside ones.
    pub fn until(alloc: Global, stamps: &[Stamp]) -> Result<Self, AllocError>
        ensures { IfOk result (λ few. stamps_of_few few ≡ front_without_all stamps.now []) }
    {
        if let [only] = stamps {
            return Ok(Few::One(alloc, only.copy()));
        }
        let mut outside = Vec::new(alloc);
        outside::exclude_all(&mut outside, stamps)?;
        Ok(Few::Many(outside))
    }

    // The least stamps of a domain.
    pub fn least(alloc: Global, bounds: &Bounds) -> Result<Self, AllocError>
        ensures { IfOk result (λ few. stamps_of_few few ≡ least_stamps bounds.now) }
    {
        if !bounds.sides {
            return Ok(Few::One(alloc, bounds.origin()));
        }
        let mut least = Vec::new(alloc);
        least.push(Stamp::new(&[0, 1]))?;
        least.push(Stamp::new(&[1, 0]))?;
        outside::keep_in_domain(&mut least, bounds);
        Ok(Few::Many(least))
    }

    // The outside stamps of what is at most one of these stamps of a domain.
    pub fn covering(alloc: Global, stamps: &[Stamp], bounds: &Bounds) -> Result<Self, AllocError>
        ensures { AllByRecursion (λ s. in_domain bounds.now s ≡ true) stamps.now
            → IfOk result (λ few. IsFrontOf bounds.now (stamps_of_few few) (cover bounds.now stamps.now)) }
    {
        let mut covered = Few::least(alloc, bounds)?;
        for s in stamps {
            let under = Few::below(alloc, s, &bounds.greatest)?;
            covered = covered.joined(&under, bounds)?;
        }
        Ok(covered)
    }

    // The same of one stamp. In a domain of one coordinate there is one at most.
    #[tactic(auto, using(crate::proofs::FewLaws::below_one, crate::proofs::FewLaws::below_greatest))]
    fn below(alloc: Global, s: &Stamp, greatest: &Stamp) -> Result<Self, AllocError>
        ensures { IfOk result
            (λ few. stamps_of_few few ≡ below_at s.now greatest.now (length s.now)) }
    {
        if s.len() != 1 || greatest.len() != 1 {
            let outside = outside::below(alloc, s, greatest)?;
            return Ok(Few::Many(outside));
        }
        if s.at(0) < greatest.at(0) {
            return Ok(Few::One(alloc, s.raised(0)));
        }
        Ok(Few::Many(Vec::new(alloc)))
    }

    // The same stamps once more.
    pub fn copy(&self) -> Result<Self, AllocError>
        ensures { IfOk result (λ few. stamps_of_few few ≡ stamps_of_few self.now) }
    {
        match self {
            Few::One(alloc, stamp) => Ok(Few::One(*alloc, stamp.copy())),
            Few::Many(stamps) => {
                let stamps = outside::copied(*stamps.allocator(), stamps)?;
                Ok(Few::Many(stamps))
            }
        }
    }

    // The stamps, in order.
    pub fn as_slice(&self) -> &[Stamp]
        ensures { result.now ≡ stamps_of_few self.now }
    {
        match self {
            Few::One(_, stamp) => slice::from_ref(stamp),
            Few::Many(stamps) => stamps,
        }
    }

    // With these stamps made outside ones too.
    pub fn without_all(&self, stamps: &[Stamp]) -> Result<Self, AllocError>
        ensures { IfOk result
            (λ few. stamps_of_few few ≡ front_without_all stamps.now (stamps_of_few self.now)) }
    {
        if let [only] = stamps {
            return self.without(only);
        }
        let mut outside = outside::copied(self.allocator(), self.as_slice())?;
        outside::exclude_all(&mut outside, stamps)?;
        Ok(Few::Many(outside))
    }

    // With one stamp more made an outside one.
    pub fn without(&self, stamp: &Stamp) -> Result<Self, AllocError>
        ensures { IfOk result (λ few. stamps_of_few few ≡ front_without stamp.now (stamps_of_few self.now)) }
    {
        if let Few::One(alloc, mine) = self {
            if let Some(least) = least_of_two(mine, stamp) {
                return Ok(Few::One(*alloc, least));
            }
        }
        let mut outside = outside::copied(self.allocator(), self.as_slice())?;
        outside::exclude(&mut outside, stamp.copy())?;
        Ok(Few::Many(outside))
    }

    // The outside stamps of what of a domain is inside one of two frontiers. Where it has sides, a bound of two stamps that is
    // of no side is at most none of its stamps.
    pub fn joined(&self, other: &Self, bounds: &Bounds) -> Result<Self, AllocError>
        ensures { AllByRecursion (λ s. in_domain bounds.now s ≡ true) (stamps_of_few self.now)
            → AllByRecursion (λ s. in_domain bounds.now s ≡ true) (stamps_of_few other.now)
            → IfOk result (λ few. IsFrontOf bounds.now (stamps_of_few few)
            (join (frontier_of bounds.now (stamps_of_few self.now)) (frontier_of bounds.now (stamps_of_few other.now)))) }
    {
        if !bounds.sides {
            return self.bounds_with(other);
        }
        let mut outside = outside::joined(self.allocator(), self.as_slice(), other.as_slice())?;
        outside::keep_in_domain(&mut outside, bounds);
        Ok(Few::Many(outside))
    }

    // The same of a domain without sides.
    #[tactic(auto, using(crate::proofs::FewLaws::one_join))]
    fn bounds_with(&self, other: &Self) -> Result<Self, AllocError>
        ensures { (greatest : List ℕ) → AllByRecursion (λ s. leq s greatest ≡ true) (stamps_of_few self.now)
            → AllByRecursion (λ s. leq s greatest ≡ true) (stamps_of_few other.now)
            → IfOk result (λ few. IsFrontOf (up_to greatest) (stamps_of_few few)
            (join (frontier_of (up_to greatest) (stamps_of_few self.now)) (frontier_of (up_to greatest) (stamps_of_few other.now)))) }
    {
        if let Few::One(alloc, mine) = self {
            if let Few::One(_, others) = other {
                return Ok(Few::One(*alloc, mine.lub(others)));
            }
        }
        let outside = outside::joined(self.allocator(), self.as_slice(), other.as_slice())?;
        Ok(Few::Many(outside))
    }

    // Where more of them are kept.
    pub fn allocator(&self) -> Global {
        match self {
            Few::One(alloc, _) => *alloc,
            Few::Many(stamps) => *stamps.allocator(),
        }
    }
}

// The stamp that is outside of both, if one of the two is at most the other.
#[tactic(auto, using(crate::proofs::FewLaws::one_stays, crate::proofs::FewLaws::one_goes))]
fn least_of_two(mine: &Stamp, stamp: &Stamp) -> Option<Stamp>
    ensures { IfSome result (λ least. least ∷ [] ≡ front_without stamp.now (mine.now ∷ [])) }
{
    if mine.leq(stamp) {
        return Some(mine.copy());
    }
    if stamp.leq(mine) {
        return Some(stamp.copy());
    }
    None
}
