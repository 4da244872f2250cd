//! The frontier of any domain, by its least outside stamps.
ghost use Rattle.std.specs.Prelude.{◌≡◌, ◌↔◌, ◌&&◌, ◌++◌, ℕ, List, true, false, not, [], ◌∷◌, IsTrue, IsSome, IfSome, IfOk};
ghost use Rattle.std.specs.List.{AllByRecursion};
ghost use Rattle.fw_time.specs.declared.stamp.Bounds.{Bounds as Domain};
ghost use Rattle.fw_time.specs.Stamp.{leq, lesser, in_domain};
ghost use Rattle.fw_frontier.specs.Frontier.{nothing, meet, join, cover, without_above, Within};
ghost use Rattle.fw_frontier.specs.Front.{inside, frontier_of, same_front, is_within, IsCanonical, IsFrontOf};
ghost use Rattle.fw_frontier.specs.Least.{AreLeastOf};
ghost use Rattle.fw_frontier.specs.Tops.{AreIncomparable};

use crate::few::Few;
use crate::{outside, tops};
use fw_time::{Bounds, Stamp};
use std::alloc::{AllocError, Global};
use std::fmt;
use std::marker::Model;

/// A frontier of any domain. Contracts see it as the ascending list of its least outside stamps; it has all stamps
/// where there is none.
///
/// It does not hold the bounds of its domain. `until`, `meet` and `cut_above` name what they say for each domain that has the
/// stamps. Whatever the stamps are, the list of `until` has the least of them, and so do those of `meet` and `cut_above`
/// of all that are to be outside, from a front whose list has the least of its own. `join` and `cover_of` speak of stamps
/// of one domain alone; there all lists have the least of their own.
///
/// The calls that make a frontier need memory for its outside stamps, and fail where memory is refused. One outside stamp
/// alone, as `until` and `empty` make it of a domain of one coordinate, takes no memory.
#[derive(Debug, Drop)]
pub struct Front {
    outside: Few,
}

impl Model for Front {
    ghost use Rattle.std.specs.Prelude.{ℕ, List};
    ghost use Rattle.fw_frontier.specs.Few.{stamps_of_few};

    ghost Value = { List (List ℕ) };

    ghost view = { λ front. stamps_of_few front.outside };
}

impl Front {
    /// The frontier of all stamps.
    pub fn all(alloc: Global) -> Self
        ensures { result ≡ [] }
    {
        Front {
            outside: Few::Many(Vec::new(alloc)),
        }
    }

    /// The frontier that is known by these stamps outside. Its list is canonical where they are the least, in ascending order.
    pub fn of_outside(outside: Vec<Stamp>) -> Self
        ensures { result ≡ outside.items }
    {
        Front {
            outside: Few::Many(outside),
        }
    }

    /// The frontier without stamps.
    pub fn empty(alloc: Global, bounds: &Bounds) -> Result<Self, AllocError>
        ensures { IfOk result (λ f. IsFrontOf bounds.now f nothing) }
    {
        let outside = Few::least(alloc, bounds)?;
        Ok(Front { outside })
    }

    /// The frontier that has these stamps of the domain outside, and with each the greater ones.
    pub fn until(alloc: Global, stamps: &[Stamp]) -> Result<Self, AllocError>
        ensures names { (bounds : Domain) → AllByRecursion (λ s. in_domain bounds s ≡ true) stamps.now
            → IfOk result (λ f. IsFrontOf bounds f (frontier_of bounds stamps.now)) }
        ensures list { IfOk result (λ f. AreLeastOf stamps.now f) }
    {
        let outside = Few::until(alloc, stamps)?;
        Ok(Front { outside })
    }

    /// The frontier that has these stamps outside, and with each the greater ones; none where one of them is not the
    /// domain's.
    pub fn checked_until(
        alloc: Global,
        stamps: &[Stamp],
        bounds: &Bounds,
    ) -> Result<Option<Self>, AllocError>
        ensures some { IfOk result
            (λ front. IsSome front ↔ AllByRecursion (λ s. in_domain bounds.now s ≡ true) stamps.now) }
        ensures names { IfOk result
            (λ front. IfSome front (λ f. IsFrontOf bounds.now f (frontier_of bounds.now stamps.now))) }
    {
        if !outside::are_in_domain(stamps, bounds) {
            return Ok(None);
        }
        Ok(Some(Self::until(alloc, stamps)?))
    }

    /// What is at most one of these stamps of the domain.
    pub fn cover_of(alloc: Global, stamps: &[Stamp], bounds: &Bounds) -> Result<Self, AllocError>
        ensures { AllByRecursion (λ s. in_domain bounds.now s ≡ true) stamps.now
            → IfOk result (λ f. IsFrontOf bounds.now f (cover bounds.now stamps.now)) }
    {
        let outside = Few::covering(alloc, stamps, bounds)?;
        Ok(Front { outside })
    }

    /// The same frontier once more.
    pub fn copy(&self) -> Result<Self, AllocError>
        ensures { IfOk result (λ f. f ≡ self.now) }
    {
        let outside = self.outside.copy()?;
        Ok(Front { outside })
    }

    /// The stamps outside by which the front is known: of a canonical one the least, in ascending order.
    pub fn outside(&self) -> &[Stamp]
        ensures { result.now ≡ self.now }
    {
        self.outside.as_slice()
    }

    /// Whether its outside stamps are the domain's.
    pub fn is_in_domain(&self, bounds: &Bounds) -> bool
        ensures { IsTrue result ↔ AllByRecursion (λ o. in_domain bounds.now o ≡ true) self.now }
    {
        outside::are_in_domain(self.outside(), bounds)
    }

    /// Whether a stamp of the domain is inside.
    pub fn contains(&self, t: &Stamp) -> bool
        ensures { result ≡ inside self.now t.now }
    {
        outside::has_inside(self.outside(), t)
    }

    /// Whether it has the same outside stamps as the other frontier.
    pub fn same(&self, other: &Self) -> bool
        ensures test { result ≡ same_front self.now other.now }
        ensures one { IsTrue result ↔ (self.now ≡ other.now) }
    {
        self.outside().cmp(other.outside()).is_eq()
    }

    /// Whether each stamp inside is inside the other frontier.
    pub fn subset(&self, other: &Self) -> bool
        ensures test { result ≡ is_within self.now other.now }
        ensures within { IsTrue result ↔ Within (inside self.now) (inside other.now) }
        ensures domain { (bounds : Domain) → IsCanonical bounds other.now
            → (IsTrue result ↔ Within (frontier_of bounds self.now) (frontier_of bounds other.now)) }
    {
        outside::has_none_inside(self.outside(), other.outside())
    }

    /// What is inside both.
    pub fn meet(&self, other: &Self) -> Result<Self, AllocError>
        ensures names { (bounds : Domain) → IsCanonical bounds self.now → IsCanonical bounds other.now
            → IfOk result (λ f. IsFrontOf bounds f
            (meet (frontier_of bounds self.now) (frontier_of bounds other.now))) }
        ensures inside { IfOk result
            (λ f. (t : List ℕ) → inside f t ≡ (inside self.now t && inside other.now t)) }
        ensures list { AreLeastOf self.now self.now
            → IfOk result (λ f. AreLeastOf (self.now ++ other.now) f) }
    {
        let outside = self.outside.without_all(other.outside())?;
        Ok(Front { outside })
    }

    /// What of a domain is inside one of the two.
    pub fn join(&self, other: &Self, bounds: &Bounds) -> Result<Self, AllocError>
        ensures { IsCanonical bounds.now self.now → IsCanonical bounds.now other.now
            → IfOk result (λ f. IsFrontOf bounds.now f
            (join (frontier_of bounds.now self.now) (frontier_of bounds.now other.now))) }
    {
        let outside = self.outside.joined(&other.outside, bounds)?;
        Ok(Front { outside })
    }

    /// The largest frontier inside that is without this stamp of the domain.
    pub fn cut_above(&self, t: &Stamp) -> Result<Self, AllocError>
        ensures names { (bounds : Domain) → IsCanonical bounds self.now → in_domain bounds t.now ≡ true
            → IfOk result (λ f. IsFrontOf bounds f (without_above t.now (frontier_of bounds self.now))) }
        ensures inside { IfOk result
            (λ f. (u : List ℕ) → inside f u ≡ (inside self.now u && not (leq t.now u))) }
        ensures list { AreLeastOf self.now self.now
            → IfOk result (λ f. AreLeastOf (t.now ∷ self.now) f) }
    {
        let outside = self.outside.without(t)?;
        Ok(Front { outside })
    }

    /// The greatest stamps of a domain inside it: what is at most one of them is all that is inside.
    pub fn greatest(&self, bounds: &Bounds) -> Result<Vec<Stamp>, AllocError>
        ensures cover { IfOk result
            (λ tops. (t : List ℕ) → cover bounds.now tops.items t ≡ frontier_of bounds.now self.now t) }
        ensures domain { IfOk result
            (λ tops. AllByRecursion (λ s. in_domain bounds.now s ≡ true) tops.items) }
        ensures apart { IfOk result (λ tops. AreIncomparable tops.items) }
        ensures greatest { IfOk result
            (λ tops. AllByRecursion (λ s. AllByRecursion (λ t. lesser s t ≡ false) tops.items) tops.items) }
    {
        tops::inside(self.outside.allocator(), self.outside(), bounds)
    }
}

impl fmt::Display for Front {
    ghost use Rattle.std.specs.Prelude.{Some};
    ghost use Rattle.fw_frontier.specs.FrontText.{front_text};

    ghost output = { λ front. Some (front_text front) };

    fn fmt<W: fmt::Write>(&self, f: &mut fmt::Formatter<W>) -> fmt::Result {
        let stamps = self.outside();
        if stamps.is_empty() {
            return write!(f, "all");
        }
        write!(f, "until")?;
        for o in stamps {
            write!(f, " {o}")?;
        }
        Ok(())
    }
}
