//! Frontiers of epochs and numbers.
ghost use Rattle.std.specs.Prelude.{◌≡◌, ℕ, ◌∷◌, [], not, ◌&&◌};
ghost use Rattle.fw_time.specs.Stamp.{leq};
ghost use Rattle.fw_frontier.specs.Front.{inside};
ghost use Rattle.fw_flow.specs.Projection.{first_coordinate};
ghost use Rattle.fw_border.specs.Numbers as numbers;

use fw_frontier::Front;
use fw_time::Stamp;

/// The least number outside: those inside are below it; all are inside where there is none.
pub fn first_outside(f: &Front) -> Option<u32>
    ensures { (x : ℕ) → inside f.now (x ∷ []) ≡ numbers.is_number_below result x }
{
    let mut first = None;
    for o in f.outside() {
        first = lowered(first, o);
    }
    first
}

// The lesser of a bound and the stamp's number, if it has one coordinate.
fn lowered(first: Option<u32>, o: &Stamp) -> Option<u32>
    ensures { (x : ℕ) → numbers.is_number_below result x ≡ (not (leq o.now (x ∷ [])) && numbers.is_number_below first x) }
{
    if o.len() != 1 {
        return first;
    }
    match first {
        Some(number) => Some(number.min(o.at(0))),
        None => Some(o.at(0)),
    }
}

/// Whether a number is below the bound, if there is one.
pub fn is_below(bound: Option<u32>, x: u64) -> bool
    ensures { result ≡ numbers.is_number_below bound x }
{
    match bound {
        Some(bound) => x < u64::from(bound),
        None => true,
    }
}

/// The number of a stamp: its first coordinate.
pub fn number_of(at: &Stamp) -> u64
    ensures { result ≡ first_coordinate at.now }
{
    if at.len() == 0 {
        return 0;
    }
    u64::from(at.at(0))
}
