//! The frontier of times of one coordinate.
ghost use Rattle.std.specs.Prelude.{◌≡◌, ℕ, true, false, not, ◌&&◌, ◌||◌, ◌↔◌, ◌∷◌, [], IsTrue, IfOk, nat_le, min, length, slice_index};
ghost use Rattle.fw_time.specs.Stamp.{in_domain};
ghost use Rattle.fw_frontier.specs.Below.{is_below};
ghost use Rattle.fw_frontier.specs.Front.{IsFrontOf};

use crate::{Front, Frontier, Logical};
use fw_time::{Bounds, Epoch, Scalar, SeqNo, Stamp};
use std::alloc::{AllocError, Global};

/// The times below a first one that is outside, or all times.
#[derive(Clone, Copy, Debug)]
pub struct Below {
    /// The first time outside. Where there is none, all times are inside.
    pub until: Option<u32>,
}

impl Logical for Epoch {
    type Frontier = Below;
}

impl Logical for SeqNo {
    type Frontier = Below;
}

impl<N: Scalar> Frontier<N> for Below {
    ghost use Rattle.fw_frontier.specs.BelowLaw.{is_below-closed};

    ghost inside = { λ f t. is_below f.until (N.coordinate t) };

    fn empty(_alloc: Global, _bounds: &Bounds) -> Result<Self, AllocError> {
        Ok(Below { until: Some(0) })
    }

    fn all(_alloc: Global, _bounds: &Bounds) -> Result<Self, AllocError> {
        Ok(Below { until: None })
    }

    fn copy(&self) -> Result<Self, AllocError> {
        Ok(*self)
    }

    fn contains(&self, t: &N) -> bool {
        is_within(self.until, t.coordinate())
    }

    fn subset(&self, other: &Self) -> bool {
        is_at_most(self.until, other.until)
    }

    fn meet(&self, other: &Self) -> Result<Self, AllocError> {
        Ok(Below {
            until: lower(self.until, other.until),
        })
    }

    fn join(&self, other: &Self) -> Result<Self, AllocError> {
        Ok(Below {
            until: upper(self.until, other.until),
        })
    }

    fn below(_alloc: Global, top: &N, bounds: &Bounds) -> Result<Self, AllocError> {
        Ok(Below {
            until: limit_above(top.coordinate(), greatest_of(bounds)),
        })
    }

    fn cut_above(&self, t: &N) -> Result<Self, AllocError> {
        Ok(Below {
            until: lower(self.until, Some(t.coordinate())),
        })
    }

    fn to_front(&self, alloc: Global, bounds: &Bounds) -> Result<Front, AllocError> {
        front_until(alloc, self.until, bounds)
    }

    ghost closed = { λ f s t.
        is_below-closed f.until (N.coords s) (N.coords t) (N.coordinate s) (N.coordinate t) (N.one_coord s) (N.one_coord t) };
}

// The numbers of a domain that are below the limit, by their least outside stamps.
fn front_until(alloc: Global, until: Option<u32>, bounds: &Bounds) -> Result<Front, AllocError>
    requires { length bounds.now.greatest ≡ 1 }
    ensures { bounds.now.sides ≡ false → IfOk result (λ f. IsFrontOf bounds.now f
        (λ t. in_domain bounds.now t && is_below until (slice_index t 0))) }
{
    let Some(limit) = until else {
        return Ok(Front::all(alloc));
    };
    if limit > greatest_of(bounds) {
        return Ok(Front::all(alloc));
    }
    let front = Front::until(alloc, &[Stamp::new(&[limit])])?;
    Ok(front)
}

// The greatest coordinate of a domain of one.
fn greatest_of(bounds: &Bounds) -> u32
    requires { length bounds.now.greatest ≡ 1 }
    ensures { bounds.now.greatest ≡ result ∷ [] }
{
    bounds.greatest.at(0)
}

// Whether a number is below the limit.
pub(crate) fn is_within(until: Option<u32>, n: u32) -> bool
    ensures { result ≡ is_below until n }
{
    match until {
        None => true,
        Some(limit) => n < limit,
    }
}

// The lower limit.
pub(crate) fn lower(one: Option<u32>, other: Option<u32>) -> Option<u32>
    ensures { (n : ℕ) → is_below result n ≡ (is_below one n && is_below other n) }
{
    match (one, other) {
        (None, other) => other,
        (one, None) => one,
        (Some(one), Some(other)) => Some(one.min(other)),
    }
}

// The upper limit.
pub(crate) fn upper(one: Option<u32>, other: Option<u32>) -> Option<u32>
    ensures { (n : ℕ) → is_below result n ≡ (is_below one n || is_below other n) }
{
    match (one, other) {
        (None, _) => None,
        (_, None) => None,
        (Some(one), Some(other)) => Some(one.max(other)),
    }
}

// Whether each number below the one limit is below the other.
pub(crate) fn is_at_most(one: Option<u32>, other: Option<u32>) -> bool
    ensures { IsTrue result ↔ ((n : ℕ) → is_below one n ≡ true → is_below other n ≡ true) }
{
    match (one, other) {
        (_, None) => true,
        (None, Some(_)) => false,
        (Some(one), Some(other)) => one <= other,
    }
}

// The limit of the numbers up to `top` in a domain up to `greatest`.
fn limit_above(top: u32, greatest: u32) -> Option<u32>
    ensures { (n : ℕ) → is_below result n ≡ nat_le (min n greatest) top }
{
    if top < greatest { Some(top + 1) } else { None }
}
