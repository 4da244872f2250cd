//! The calls that the frontiers of every type of times have.
ghost use Rattle.std.specs.Prelude.{◌≡◌, ℕ, Bool, true, false, not, ◌&&◌, ◌||◌, ◌↔◌, length, map, IsTrue, IfOk};
ghost use Rattle.std.specs.List.{AllByRecursion};
ghost use Rattle.fw_time.specs.Stamp.{leq, glb, in_domain};
ghost use Rattle.fw_frontier.specs.Frontier.{some_above};
ghost use Rattle.fw_frontier.specs.Front.{inside as inside_front, IsFrontOf};

use crate::Front;
use fw_time::{Bounds, Time};
use std::alloc::{AllocError, Global};

/// A time that has frontiers of a type of its own.
pub trait Logical: Time {
    /// Its frontiers: sets of such times.
    type Frontier: Frontier<Self>;
}

/// A set of times that holds with a time each lesser one, which contracts see by its test.
///
/// Bounds have as many coordinates as the times. Past the greatest stamp of its domain a frontier goes on as at the
/// domain's last stamps, as long as it is made from times of the domain: then no outside time lies past the domain.
pub trait Frontier<T: Time>: Drop {
    // whether a time is inside
    ghost inside: { Self → T → Bool };

    /// The frontier without times.
    fn empty(alloc: Global, bounds: &Bounds) -> Result<Self, AllocError>
        requires { length bounds.now.greatest ≡ T.dimension }
        ensures { IfOk result (λ f. (t : T) → inside f t ≡ false) };

    /// The frontier of all times.
    fn all(alloc: Global, bounds: &Bounds) -> Result<Self, AllocError>
        requires { length bounds.now.greatest ≡ T.dimension }
        ensures { IfOk result (λ f. (t : T) → inside f t ≡ true) };

    /// The same frontier once more.
    fn copy(&self) -> Result<Self, AllocError>
        ensures { IfOk result (λ f. (t : T) → inside f t ≡ inside self.now t) };

    /// Whether a time is inside. It takes no memory.
    fn contains(&self, t: &T) -> bool
        ensures { result ≡ inside self.now t.now };

    /// Whether each time inside is inside the other frontier. It takes no memory.
    fn subset(&self, other: &Self) -> bool
        ensures { IsTrue result ↔ ((t : T) → inside self.now t ≡ true → inside other.now t ≡ true) };

    /// What is inside both.
    fn meet(&self, other: &Self) -> Result<Self, AllocError>
        ensures { IfOk result (λ f. (t : T) → inside f t ≡ (inside self.now t && inside other.now t)) };

    /// What is inside one of the two.
    fn join(&self, other: &Self) -> Result<Self, AllocError>
        ensures { IfOk result (λ f. (t : T) → inside f t ≡ (inside self.now t || inside other.now t)) };

    /// What is at most a time of the domain.
    fn below(alloc: Global, top: &T, bounds: &Bounds) -> Result<Self, AllocError>
        requires { length bounds.now.greatest ≡ T.dimension }
        ensures { IfOk result
            (λ f. (t : T) → inside f t ≡ leq (glb (T.coords t) bounds.now.greatest) (T.coords top.now)) };

    /// The largest frontier inside that is without this time.
    fn cut_above(&self, t: &T) -> Result<Self, AllocError>
        ensures { IfOk result
            (λ f. (s : T) → inside f s ≡ (inside self.now s && not (leq (T.coords t.now) (T.coords s)))) };

    /// What of the domain is inside, by its least outside stamps, where the domain has no sides.
    fn to_front(&self, alloc: Global, bounds: &Bounds) -> Result<Front, AllocError>
        requires { length bounds.now.greatest ≡ T.dimension }
        ensures { bounds.now.sides ≡ false → IfOk result (λ f. IsFrontOf bounds.now f
            (λ t. in_domain bounds.now t && inside self.now (T.of_coords t))) };

    /// What is at most one of these times of the domain.
    fn cover_of(alloc: Global, tops: &[T], bounds: &Bounds) -> Result<Self, AllocError>
        requires { length bounds.now.greatest ≡ T.dimension }
        ensures { IfOk result
            (λ f. (t : T) → inside f t ≡ some_above (map T.coords tops.now) (glb (T.coords t) bounds.now.greatest)) }
    {
        let mut cover = Self::empty(alloc, bounds)?;
        for top in tops {
            let under = Self::below(alloc, top, bounds)?;
            cover = cover.join(&under)?;
        }
        Ok(cover)
    }

    /// What a front has inside, whose outside stamps are the domain's.
    fn from_front(alloc: Global, front: &Front, bounds: &Bounds) -> Result<Self, AllocError>
        requires shape { length bounds.now.greatest ≡ T.dimension }
        requires in_domain { AllByRecursion (λ o. in_domain bounds.now o ≡ true) front.now }
        ensures { IfOk result (λ f. (t : T) → inside f t ≡ inside_front front.now (T.coords t)) }
    {
        let mut kept = Self::all(alloc, bounds)?;
        for o in front.outside() {
            kept = kept.cut_above(&T::from_coords(o))?;
        }
        Ok(kept)
    }

    // with a time each lesser one is inside
    ghost closed: { (f : Self) (s t : T) → leq (T.coords s) (T.coords t) ≡ true → inside f t ≡ true → inside f s ≡ true };
}
