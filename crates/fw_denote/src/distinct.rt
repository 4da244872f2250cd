//! What a distinct sends.
ghost use Rattle.std.specs.Prelude.{◌≡◌, IfOk};
ghost use Rattle.std.specs.BTreeSet.{contains};
ghost use Rattle.std.specs.List.Sorted.{IsStrictlySortedBy};
ghost use Rattle.fw_flow.specs.WholeBags as whole;

use crate::Timed;
use std::alloc::{AllocError, Global};
use std::collections::BTreeSet;

/// The different timed recs.
#[tactic(auto, using(crate::proofs::SeenLaws::seen_all))]
fn seen(alloc: Global, rs: &[Timed]) -> Result<BTreeSet<Timed>, AllocError>
    ensures { IfOk result (λ seen. (r : whole.Timed) → contains whole.timed_cmp seen r ≡ whole.is_among_timed r rs.now) }
{
    let mut seen = BTreeSet::new(alloc);
    for r in rs {
        seen.insert(r.copy())?;
    }
    Ok(seen)
}

/// The timed recs of the set, in order.
fn listed(alloc: Global, seen: &BTreeSet<Timed>) -> Result<Vec<Timed>, AllocError>
    ensures recs { IfOk result (λ recs. recs.items ≡ seen.now.keys) }
    ensures ordered { IsStrictlySortedBy whole.timed_cmp seen.now.keys }
{
    let mut recs = Vec::with_capacity(alloc, seen.len())?;
    for r in seen {
        recs.push(r.copy())?;
    }
    Ok(recs)
}

/// What a distinct sends: each timed rec once. The error is want of memory.
#[tactic(auto, using(crate::proofs::SeenLaws::seen_sent))]
pub(crate) fn distinct(alloc: Global, rs: &[Timed]) -> Result<Vec<Timed>, AllocError>
    ensures { IfOk result (λ sent. whole.in_order sent.items ≡ whole.in_order (whole.distinct_timed rs.now)) }
{
    let seen = seen(alloc, rs)?;
    listed(alloc, &seen)
}
