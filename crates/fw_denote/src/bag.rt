//! Bags of timed recs.
ghost use Rattle.std.specs.Prelude.{◌≡◌, [], IfOk};
ghost use Rattle.fw_flow.specs.WholeBags.{in_order};

use crate::Timed;
use std::alloc::{AllocError, Global};
use std::marker::Model;

/// A bag of timed recs, in ascending order. Contracts see their list.
#[derive(Debug, Drop)]
pub(crate) struct TimedBag {
    recs: Vec<Timed>,
}

impl Model for TimedBag {
    ghost use Rattle.std.specs.Prelude.{◌≡◌, List};
    ghost use Rattle.fw_flow.specs.WholeBags.{Timed, in_order};

    ghost Value = { List Timed };

    ghost view = { λ bag. bag.recs.items };

    ghost invariant = { λ bag. in_order bag.recs.items ≡ bag.recs.items };
}

impl TimedBag {
    /// The bag that holds nothing.
    pub(crate) fn empty(alloc: Global) -> Self
        ensures { result ≡ [] }
    {
        TimedBag {
            recs: Vec::new(alloc),
        }
    }

    /// The bag of these timed recs, which stand in any order. The error is want of memory.
    #[tactic(auto, using(crate::proofs::Counts::sorted_list, crate::proofs::Counts::in_order_again))]
    pub(crate) fn of(mut recs: Vec<Timed>) -> Result<Self, AllocError>
        ensures { IfOk result (λ bag. bag ≡ in_order recs.items) }
    {
        recs.sort()?;
        Ok(TimedBag { recs })
    }

    /// Its timed recs, in ascending order.
    pub(crate) fn as_slice(&self) -> &[Timed]
        ensures value { result.now ≡ self.now }
        ensures in_order { in_order self.now ≡ self.now }
    {
        &self.recs
    }
}
