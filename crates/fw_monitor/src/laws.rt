//! The laws of the trail of a descent: each function's `ensures` is one law, and its body is empty.
ghost use Rattle.fw_monitor.specs.Trail.{TrailEndsAtLargest, TrailIsByOffers, TrailIsOne};

/// There is at most one trail of a descent, where records ascend and some choice is consistent.
pub fn trail_is_one()
    ensures { TrailIsOne }
{}

/// A trail shows that it ends at the largest choice, where records ascend and the cuts at which it ends are offered.
pub fn trail_ends_at_largest()
    ensures { TrailEndsAtLargest }
{}

/// Where records ascend and some choice is consistent, a trail begins with the greatest cuts that are offered.
pub fn trail_is_by_offers()
    ensures { TrailIsByOffers }
{}
