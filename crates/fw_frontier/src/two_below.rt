//! The frontier of times of a domain with sides.
ghost use Rattle.std.specs.Prelude.{◌≡◌, ℕ, true, false, not, ◌&&◌, ◌||◌, ◌↔◌, ◌∷◌, [], IsTrue};
ghost use Rattle.std.specs.List.{AllByRecursion};
ghost use Rattle.fw_time.specs.Stamp.{leq, is_of_side};
ghost use Rattle.fw_frontier.specs.Below.{is_below};
ghost use Rattle.fw_frontier.specs.Front.{inside};
ghost use Rattle.fw_frontier.specs.Sides.{is_below_side};

use crate::below::{is_at_most, is_within, lower, upper};
use crate::{Below, Front};
use fw_time::{Both, Time};

/// The times of two sides: on each those whose numbers are below a first one that is outside, or all.
#[derive(Clone, Copy, Debug)]
pub struct TwoBelow {
    /// The limit of the numbers of the first side.
    pub first: Below,
    /// That of the second.
    pub second: Below,
}

impl TwoBelow {
    /// The frontier without times.
    pub fn empty() -> Self
        ensures { (t : Both) → is_below_side result.first.until result.second.until t.first t.second ≡ false }
    {
        TwoBelow {
            first: Below { until: Some(0) },
            second: Below { until: Some(0) },
        }
    }

    /// The frontier of all times.
    pub fn all() -> Self
        ensures { (t : Both) → is_below_side result.first.until result.second.until t.first t.second ≡ true }
    {
        TwoBelow {
            first: Below { until: None },
            second: Below { until: None },
        }
    }

    /// Whether a time is inside.
    pub fn contains(&self, t: &Both) -> bool
        ensures { result ≡ is_below_side self.now.first.until self.now.second.until t.now.first t.now.second }
    {
        if t.second == 0 {
            return is_within(self.first.until, t.first.saturating_sub(1));
        }
        is_within(self.second.until, t.second - 1)
    }

    /// The numbers of which the times of both sides are inside.
    pub fn both(&self) -> Below
        ensures { (n : ℕ) → is_below result.until n ≡ (is_below self.now.first.until n && is_below self.now.second.until n) }
    {
        Below {
            until: lower(self.first.until, self.second.until),
        }
    }

    /// Whether each time inside is inside the other frontier.
    pub fn subset(&self, other: &Self) -> bool
        ensures { IsTrue result ↔ ((t : Both) → is_below_side self.now.first.until self.now.second.until t.first t.second ≡ true
            → is_below_side other.now.first.until other.now.second.until t.first t.second ≡ true) }
    {
        is_at_most(self.first.until, other.first.until)
            && is_at_most(self.second.until, other.second.until)
    }

    /// What is inside both.
    pub fn meet(&self, other: &Self) -> Self
        ensures { (t : Both) → is_below_side result.first.until result.second.until t.first t.second
            ≡ (is_below_side self.now.first.until self.now.second.until t.first t.second
            && is_below_side other.now.first.until other.now.second.until t.first t.second) }
    {
        TwoBelow {
            first: Below {
                until: lower(self.first.until, other.first.until),
            },
            second: Below {
                until: lower(self.second.until, other.second.until),
            },
        }
    }

    /// What is inside one of the two.
    pub fn join(&self, other: &Self) -> Self
        ensures { (t : Both) → is_below_side result.first.until result.second.until t.first t.second
            ≡ (is_below_side self.now.first.until self.now.second.until t.first t.second
            || is_below_side other.now.first.until other.now.second.until t.first t.second) }
    {
        TwoBelow {
            first: Below {
                until: upper(self.first.until, other.first.until),
            },
            second: Below {
                until: upper(self.second.until, other.second.until),
            },
        }
    }

    /// The largest frontier inside that is without this time of a side.
    pub fn cut_above(&self, t: &Both) -> Self
        requires { is_of_side (t.now.first ∷ t.now.second ∷ []) ≡ true }
        ensures { (s : Both) → is_of_side (s.first ∷ s.second ∷ []) ≡ true
            → is_below_side result.first.until result.second.until s.first s.second
            ≡ (is_below_side self.now.first.until self.now.second.until s.first s.second
            && not (leq (t.now.first ∷ t.now.second ∷ []) (s.first ∷ s.second ∷ []))) }
    {
        if t.second == 0 {
            return TwoBelow {
                first: Below {
                    until: lower(self.first.until, Some(t.first - 1)),
                },
                second: self.second,
            };
        }
        TwoBelow {
            first: self.first,
            second: Below {
                until: lower(self.second.until, Some(t.second - 1)),
            },
        }
    }

    /// What is at most a time of a side.
    pub fn below(top: &Both) -> Self
        requires { is_of_side (top.now.first ∷ top.now.second ∷ []) ≡ true }
        ensures { (s : Both) → is_of_side (s.first ∷ s.second ∷ []) ≡ true
            → is_below_side result.first.until result.second.until s.first s.second
            ≡ leq (s.first ∷ s.second ∷ []) (top.now.first ∷ top.now.second ∷ []) }
    {
        if top.second == 0 {
            return TwoBelow {
                first: Below {
                    until: Some(top.first),
                },
                second: Below { until: Some(0) },
            };
        }
        TwoBelow {
            first: Below { until: Some(0) },
            second: Below {
                until: Some(top.second),
            },
        }
    }

    /// What a front has inside whose outside stamps are of a side.
    pub fn from_front(front: &Front) -> Self
        requires { AllByRecursion (λ o. is_of_side o ≡ true) front.now }
        ensures { (s : Both) → is_of_side (s.first ∷ s.second ∷ []) ≡ true
            → is_below_side result.first.until result.second.until s.first s.second ≡ inside front.now (s.first ∷ s.second ∷ []) }
    {
        let mut kept = Self::all();
        for o in front.outside() {
            kept = kept.cut_above(&Both::from_coords(o));
        }
        kept
    }
}
