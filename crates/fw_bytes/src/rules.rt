//! What may stand after what.
ghost use Rattle.std.specs.Prelude.{◌≡◌};
ghost use Rattle.fw_bytes.specs.Sound.{stands_before, may_follow_stamps, may_follow_counts};

use fw_frontier::SentCount;
use fw_time::Stamp;

/// Whether one stamp may stand before another in a front.
fn is_before(o: &Stamp, s: &Stamp) -> bool
    ensures { result ≡ stands_before o.now s.now }
{
    o.len() == s.len() && o.compare(s).is_lt() && !(o.leq(s) || s.leq(o))
}

/// Whether a stamp may come next in a front.
pub fn follows_stamps(before: &[Stamp], s: &Stamp) -> bool
    ensures { result ≡ may_follow_stamps before.now s.now }
{
    for o in before {
        if !is_before(o, s) {
            return false;
        }
    }
    true
}

/// Whether a count of what was sent may come next.
pub fn follows_counts(before: &[SentCount], next: &SentCount) -> bool
    ensures { result ≡ may_follow_counts before.now next.now }
{
    if next.count == 0 {
        return false;
    }
    match before.last() {
        None => true,
        Some(last) => last.cause.compare(&next.cause).is_lt(),
    }
}
