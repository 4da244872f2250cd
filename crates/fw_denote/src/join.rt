//! What a join sends.
ghost use Rattle.std.specs.Prelude.{◌≡◌, ◌==◌, ◌++◌, map, filter, IfOk, OnOk};
ghost use Rattle.fw_time.specs.Stamp.{same};
ghost use Rattle.fw_flow.specs.WholeBags as whole;
ghost use Rattle.fw_denote.specs.Pairs.{pair_recs};

use crate::Timed;
use crate::keyed::Slot;
use fw_bag::Rec;
use std::alloc::{AllocError, Global};

/// Those of the timed recs, which are in order, that have this stamp and key.
#[tactic(auto, using(crate::proofs::JoinLaws::parted_below, crate::proofs::JoinLaws::parted_at))]
fn those_at<'a>(rs: &'a [Timed], slot: &Slot) -> &'a [Timed]
    requires { whole.in_order rs.now ≡ rs.now }
    ensures { map (λ r. r.rec) result.now ≡ filter (λ r. slot.now.key == r.key) (whole.timed_where (same slot.now.at) rs.now) }
{
    let from = rs.partition_point(|r| slot.is_above(r));
    let rest = &rs[from..];
    let count = rest.partition_point(|r| slot.is_of(r));
    &rest[..count]
}

/// Puts the rec with each of the others at the end of what is sent: its stamp and key, and the sum of both values.
fn put_pairs(sent: &mut Vec<Timed>, left: &Timed, others: &[Timed]) -> Result<(), AllocError>
    ensures { OnOk result (sent.new.items ≡ sent.old.items ++ pair_recs left.now others.now) }
{
    for right in others {
        sent.push(Timed::new(
            left.at().copy(),
            Rec {
                key: left.rec().key,
                value: left.rec().value.wrapping_add(right.rec().value),
            },
        ))?;
    }
    Ok(())
}

/// What a join sends: each rec of the first bag with each of the second, which is in order, of its stamp and key. The error
/// is want of memory.
pub(crate) fn joined(
    alloc: Global,
    lefts: &[Timed],
    rights: &[Timed],
) -> Result<Vec<Timed>, AllocError>
    requires { whole.in_order rights.now ≡ rights.now }
    ensures { IfOk result (λ sent. sent.items ≡ whole.joined_timed lefts.now rights.now) }
{
    let mut sent = Vec::new(alloc);
    for left in lefts {
        let others = those_at(rights, &Slot::of(left));
        put_pairs(&mut sent, left, others)?;
    }
    Ok(sent)
}
