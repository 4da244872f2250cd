//! What happens in a run, and what is sent.
ghost use Rattle.std.specs.Prelude.{◌≡◌, [], ◌∷◌, Some, nat_eq, refl};
ghost use Rattle.std.specs.Cmp.{partial_equiv_from_equiv};
ghost use Rattle.std.specs.Cmp.Lexicographic.{pointwise, slice_cmp, texts_ties, lists_ties, lists_total, lists_equiv, nat_list_eq_equiv, nat_list_cmp_total};
ghost use Rattle.fw_time.specs.Stamp.{stamp_cmp};
ghost use Rattle.fw_flow.specs.TwoPlaces.{stamps_po};

use crate::{EdgeId, NodeId};
use fw_bag::Rec;
use fw_time::Stamp;
use std::cmp::Ordering;
use std::marker::Model;

/// The stamps of the events that a message comes from: one, or two of a kind that joins across stamps. They lie in the value
/// itself, so that no call takes memory, and are copied whole: stamps without coordinates stand behind the last one. Contracts see
/// their list.
#[derive(Debug, Drop)]
pub struct Causes {
    stamps: [Stamp; 2],
    len: u32,
}

impl Model for Causes {
    ghost use Rattle.std.specs.Prelude.{ℕ, ◌≡◌, ◌≤◌, List, length, take};
    ghost use Rattle.std.proofs.Common.{sym};
    ghost use Rattle.fw_flow.specs.TwoPlaces.{in_two, two_at};

    ghost Value = { List (List ℕ) };

    ghost view = { λ causes. take causes.len causes.stamps };

    // at most two stamps, and none behind them
    ghost invariant = { λ causes. (causes.len ≤ 2) × (causes.stamps ≡ in_two (take causes.len causes.stamps)) };

    ghost inverse = { λ stamps. record { stamps = in_two stamps; len = length stamps } };

    ghost inverse_ok = { λ causes h i. record { stamps = sym h.1 i; len = two_at causes.len causes.stamps h.0 h.1 i } };
}

impl PartialEq for Causes {
    ghost eq = { pointwise (pointwise nat_eq) };

    ghost laws = { partial_equiv_from_equiv (lists_equiv nat_list_eq_equiv) };

    fn eq(&self, other: &Causes) -> bool {
        self.stamps() == other.stamps()
    }
}

impl Eq for Causes {
    ghost laws = { lists_equiv nat_list_eq_equiv };
}

impl PartialOrd for Causes {
    ghost partial_cmp = { λ s t. Some (slice_cmp stamp_cmp s t) };

    ghost laws = { stamps_po };

    fn partial_cmp(&self, other: &Causes) -> Option<Ordering> {
        Some(self.cmp(other))
    }
}

impl Ord for Causes {
    ghost cmp = { slice_cmp stamp_cmp };

    ghost total = { lists_total nat_list_cmp_total };

    ghost matches_partial_cmp = { λ s t. refl };

    ghost matches_eq = { lists_ties stamp_cmp texts_ties };

    fn cmp(&self, other: &Causes) -> Ordering {
        self.stamps().cmp(other.stamps())
    }
}

impl Causes {
    /// One cause alone.
    #[inline]
    pub fn of(stamp: Stamp) -> Self
        ensures { result ≡ stamp ∷ [] }
    {
        Causes {
            stamps: [stamp, Stamp::default()],
            len: 1,
        }
    }

    /// The same causes once more.
    #[inline]
    pub fn copy(&self) -> Self
        ensures { result ≡ self.now }
    {
        let [first, second] = &self.stamps;
        Causes {
            stamps: [first.copy(), second.copy()],
            len: self.len,
        }
    }

    /// The stamps.
    #[inline]
    pub fn stamps(&self) -> &[Stamp]
        ensures { result.now ≡ self.now }
    {
        &self.stamps[..self.len as usize]
    }
}

/// A message on an edge. Messages are ordered by stamp, rec and causes.
#[derive(Debug, PartialEq, Eq, PartialOrd, Ord, Drop)]
pub struct Message {
    /// Its stamp, in the receiver's domain.
    pub at: Stamp,
    /// What is sent: one rec.
    pub rec: Rec,
    /// The stamps of the sender's events that it comes from.
    pub causes: Causes,
}

impl Message {
    /// The same message once more, as where it goes into a queue and into a log.
    #[inline]
    pub fn copy(&self) -> Self
        ensures { result ≡ self.now }
    {
        Message {
            at: self.at.copy(),
            rec: self.rec,
            causes: self.causes.copy(),
        }
    }
}

/// An event of a run.
#[derive(Debug, Drop)]
pub enum Event {
    /// The input sent its batch of the epoch.
    Inject { source: NodeId, epoch: u32 },
    /// The message was delivered on the edge.
    Deliver { edge: EdgeId, message: Message },
    /// The node was notified of the stamp.
    Notify { node: NodeId, at: Stamp },
}
