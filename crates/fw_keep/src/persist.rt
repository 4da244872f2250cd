//! The oldest write in flight is acknowledged.
ghost use Rattle.std.specs.Prelude.{◌≡◌, ℕ};
ghost use Rattle.fw_keep.specs.Catalogue.{IsAcknowledgedUpTo, oldest, persisted};

use crate::Entry;

/// Acknowledges the first write in flight, where so many of the first entries are acknowledged and the others are not.
#[tactic(auto, using(crate::proofs::InFlightLaws::oldest_at, crate::proofs::InFlightLaws::oldest_none, crate::proofs::InFlightLaws::persisted_at, crate::proofs::InFlightLaws::persisted_none))]
pub(crate) fn persist_first(entries: &mut Vec<Entry>, known: &mut usize) -> Option<u64>
    requires { IsAcknowledgedUpTo known.old entries.old.items }
    ensures oldest { result ≡ oldest entries.old.items }
    ensures acknowledged { entries.new.items ≡ persisted entries.old.items }
    ensures known { IsAcknowledgedUpTo known.new entries.new.items }
{
    let place = *known;
    if place < entries.len() {
        let id = entries[place].id;
        entries[place].acknowledged = true;
        *known = place + 1;
        return Some(id);
    }
    None
}

/// How many entries are acknowledged, which are the first ones.
pub(crate) fn acknowledged(entries: &[Entry]) -> usize
    requires { (known : ℕ) × IsAcknowledgedUpTo known entries.now }
    ensures { IsAcknowledgedUpTo result entries.now }
{
    entries.partition_point(|entry| entry.acknowledged)
}
