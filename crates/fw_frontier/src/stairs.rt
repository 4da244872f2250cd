//! The frontier of a loop's times: a frontier of the outer times for each counter.
ghost use Rattle.std.specs.Prelude.{◌≡◌, ℕ, ◌+◌, ◌<◌, ◌≤◌, ◌↔◌, Bool, true, false, not, ◌&&◌, ◌||◌, max, nat_le, List, length, slice_index_or, map, ◌++◌, IsTrue, IfOk, OnOk, Ok};
ghost use Rattle.std.specs.List.{AllByRecursion};
ghost use Rattle.fw_time.specs.Stamp.{leq, in_domain, nest, outer, counter};
ghost use Rattle.fw_frontier.specs.Front.{inside};
ghost use Rattle.fw_frontier.specs.Stairs.{IsDescending};

use crate::{Front, Frontier, Logical};
use fw_time::{Bounds, Nest, Stamp};
use std::alloc::{AllocError, Global};

/// A frontier of a loop: for each counter the outer times that are inside, fewer from step to step. The last step stands
/// for all later counters.
#[derive(Drop)]
pub struct Stairs<T: Logical> {
    steps: Vec<T::Frontier>,
    last: T::Frontier,
    ghost descending: { IsDescending T.Frontier.inside steps.items last },
}

impl<T: Logical> Logical for Nest<T> {
    type Frontier = Stairs<T>;
}

impl<T: Logical> Stairs<T> {
    // The step of a counter.
    fn at(&self, counter: usize) -> &T::Frontier
        ensures { result.now ≡ slice_index_or self.now.steps.items counter self.now.last }
    {
        self.steps.get(counter).unwrap_or(&self.last)
    }

    // How many first counters have a step of their own.
    fn len(&self) -> usize
        ensures { result ≡ length self.now.steps.items }
    {
        self.steps.len()
    }

    // Stamps of the domain outside of which, with the greater ones, its times are inside.
    fn nested(&self, alloc: Global, bounds: &Bounds) -> Result<Vec<Stamp>, AllocError>
        requires { length bounds.now.greatest ≡ T.dimension + 1 }
        ensures in_domain { IfOk result (λ stamps. AllByRecursion (λ s. leq s bounds.now.greatest ≡ true) stamps.items) }
        ensures test { IfOk result (λ stamps. (t : List ℕ) → leq t bounds.now.greatest ≡ true → inside stamps.items t
            ≡ T.Frontier.inside (slice_index_or self.now.steps.items (counter t) self.now.last) (T.of_coords (outer t))) }
    {
        let outer = outer_of(bounds);
        let mut stamps = Vec::new(alloc);
        for c in 0..self.len().min(bounds.greatest.counter() as usize) + 1 {
            let front = self.at(c).to_front(alloc, &outer)?;
            push_nested(&mut stamps, front.outside(), c as u32)?;
        }
        Ok(stamps)
    }
}

// So many steps, each made for its counter.
fn made_steps<F: Drop, M: Fn(usize) -> Result<F, AllocError>>(
    alloc: Global,
    len: usize,
    make: M,
) -> Result<Vec<F>, AllocError>
    requires { M.IsAlwaysCallable make }
    ensures { IfOk result (λ steps. (length steps.items ≡ len)
        × ((c : ℕ) (d : F) → c < length steps.items → M.post make c (Ok (slice_index_or steps.items c d)))) }
{
    let mut steps = Vec::new(alloc);
    for c in 0..len {
        steps.push(make(c)?)?;
    }
    Ok(steps)
}

impl<T: Logical> Frontier<Nest<T>> for Stairs<T> {
    ghost use Rattle.fw_frontier.specs.StairsLaw.{stairs-closed};

    ghost inside = { λ f t. T.Frontier.inside (slice_index_or f.steps.items t.counter f.last) t.outer };

    fn empty(alloc: Global, bounds: &Bounds) -> Result<Self, AllocError> {
        let last = T::Frontier::empty(alloc, &outer_of(bounds))?;
        Ok(Stairs {
            steps: Vec::new(alloc),
            last,
        })
    }

    fn all(alloc: Global, bounds: &Bounds) -> Result<Self, AllocError> {
        let last = T::Frontier::all(alloc, &outer_of(bounds))?;
        Ok(Stairs {
            steps: Vec::new(alloc),
            last,
        })
    }

    fn copy(&self) -> Result<Self, AllocError> {
        let make = |c: usize| -> Result<T::Frontier, AllocError>
            ensures { IfOk result (λ f. (t : T) → T.Frontier.inside f t
                ≡ T.Frontier.inside (slice_index_or self.entry.now.steps.items c self.entry.now.last) t) }
        { self.at(c).copy() };
        let steps = made_steps(*self.steps.allocator(), self.len(), make)?;
        let last = self.last.copy()?;
        Ok(Stairs { steps, last })
    }

    fn contains(&self, t: &Nest<T>) -> bool {
        self.at(t.counter as usize).contains(&t.outer)
    }

    fn subset(&self, other: &Self) -> bool {
        for c in 0..self.len().max(other.len()) {
            if !self.at(c).subset(other.at(c)) {
                return false;
            }
        }
        self.last.subset(&other.last)
    }

    fn meet(&self, other: &Self) -> Result<Self, AllocError> {
        let make = |c: usize| -> Result<T::Frontier, AllocError>
            ensures { IfOk result (λ f. (t : T) → T.Frontier.inside f t
                ≡ (T.Frontier.inside (slice_index_or self.entry.now.steps.items c self.entry.now.last) t
                && T.Frontier.inside (slice_index_or other.entry.now.steps.items c other.entry.now.last) t)) }
        { self.at(c).meet(other.at(c)) };
        let steps = made_steps(*self.steps.allocator(), self.len().max(other.len()), make)?;
        let last = self.last.meet(&other.last)?;
        Ok(Stairs { steps, last })
    }

    fn join(&self, other: &Self) -> Result<Self, AllocError> {
        let make = |c: usize| -> Result<T::Frontier, AllocError>
            ensures { IfOk result (λ f. (t : T) → T.Frontier.inside f t
                ≡ (T.Frontier.inside (slice_index_or self.entry.now.steps.items c self.entry.now.last) t
                || T.Frontier.inside (slice_index_or other.entry.now.steps.items c other.entry.now.last) t)) }
        { self.at(c).join(other.at(c)) };
        let steps = made_steps(*self.steps.allocator(), self.len().max(other.len()), make)?;
        let last = self.last.join(&other.last)?;
        Ok(Stairs { steps, last })
    }

    fn below(alloc: Global, top: &Nest<T>, bounds: &Bounds) -> Result<Self, AllocError> {
        let outer = outer_of(bounds);
        let under = T::Frontier::below(alloc, &top.outer, &outer)?;
        if top.counter >= bounds.greatest.counter() {
            return Ok(Stairs {
                steps: Vec::new(alloc),
                last: under,
            });
        }
        let make = |_: usize| -> Result<T::Frontier, AllocError>
            ensures { IfOk result (λ f. (t : T) → T.Frontier.inside f t ≡ T.Frontier.inside under t) }
        { under.copy() };
        let steps = made_steps(alloc, top.counter as usize + 1, make)?;
        let last = T::Frontier::empty(alloc, &outer)?;
        Ok(Stairs { steps, last })
    }

    fn cut_above(&self, t: &Nest<T>) -> Result<Self, AllocError> {
        let from = t.counter as usize;
        let make = |c: usize| -> Result<T::Frontier, AllocError>
            ensures { IfOk result (λ f. (s : T) → T.Frontier.inside f s
                ≡ (T.Frontier.inside (slice_index_or self.entry.now.steps.items c self.entry.now.last) s
                && not (nat_le from c && leq (T.coords t.entry.now.outer) (T.coords s)))) }
        { cut_step::<T>(self.at(c), &t.outer, from <= c) };
        let steps = made_steps(*self.steps.allocator(), self.len().max(from), make)?;
        let last = self.last.cut_above(&t.outer)?;
        Ok(Stairs { steps, last })
    }

    fn to_front(&self, alloc: Global, bounds: &Bounds) -> Result<Front, AllocError> {
        let stamps = self.nested(alloc, bounds)?;
        let front = Front::until(alloc, &stamps)?;
        Ok(front)
    }

    ghost closed = { λ f s t.
        stairs-closed T.coords T.Frontier.inside T.dimension T.same_dimension T.Frontier.closed f.steps.items f.last f.descending s.outer t.outer s.counter t.counter };
}

// The domain outside of the loop.
fn outer_of(bounds: &Bounds) -> Bounds
    requires { 0 < length bounds.now.greatest }
    ensures value { result.greatest ≡ outer bounds.now.greatest }
    ensures plain { result.sides ≡ false }
    ensures few { length result.greatest < 4 }
{
    Bounds {
        greatest: bounds.greatest.outer(),
        sides: false,
    }
}

// A step without what is at least `t`, if it is cut.
fn cut_step<T: Logical>(step: &T::Frontier, t: &T, is_cut: bool) -> Result<T::Frontier, AllocError>
    ensures { IfOk result (λ cut. (s : T) → T.Frontier.inside cut s
        ≡ (T.Frontier.inside step.now s && not (is_cut && leq (T.coords t.now) (T.coords s)))) }
{
    if is_cut {
        return step.cut_above(t);
    }
    step.copy()
}

// These stamps with a counter, after others.
fn push_nested(stamps: &mut Vec<Stamp>, outer: &[Stamp], counter: u32) -> Result<(), AllocError>
    requires { AllByRecursion (λ o. length o < 4) outer.now }
    ensures { OnOk result (stamps.new.items ≡ stamps.old.items ++ map (λ o. nest o counter) outer.now) }
{
    for o in outer {
        stamps.push(o.nest(counter))?;
    }
    Ok(())
}
