//! What inputs and sequences send.
ghost use Rattle.std.specs.Prelude.{◌≡◌, ◌++◌, ◌≤◌, ◌^◌, length, map, IfOk, OnOk};
ghost use Rattle.fw_flow.specs.WholeBags as whole;

use crate::Timed;
use fw_bag::Bag;
use fw_time::Stamp;
use std::alloc::{AllocError, Global};

/// How many numbers there are.
const NUMBERS: usize = 4_294_967_296;

/// Puts the recs of the bag at the end, at one stamp.
fn put_at(sent: &mut Vec<Timed>, at: &Stamp, bag: &Bag) -> Result<(), AllocError>
    ensures { OnOk result (sent.new.items ≡ sent.old.items ++ whole.timed_recs at.now bag.now.recs) }
{
    for rec in bag {
        sent.push(Timed::new(at.copy(), rec))?;
    }
    Ok(())
}

/// What an input sends: its batches at their epochs. The error is want of memory.
pub(crate) fn batched(alloc: Global, batches: &[Bag]) -> Result<Vec<Timed>, AllocError>
    requires { length batches.now ≤ 2 ^ 32 }
    ensures { IfOk result (λ sent. sent.items ≡ whole.timed_batches 0 (map (λ b. b.recs) batches.now)) }
{
    let mut sent = Vec::new(alloc);
    for (epoch, batch) in batches.iter().enumerate() {
        put_at(&mut sent, &Stamp::new(&[epoch as u32]), batch)?;
    }
    Ok(sent)
}

/// What a sequence sends: the recs at the numbers from 0 on, none past the greatest number. The error is want of memory.
#[tactic(auto, using(crate::proofs::NumberedLaws::numbered_more, crate::proofs::NumberedLaws::numbered_past))]
pub(crate) fn numbered(alloc: Global, rs: &[Timed]) -> Result<Vec<Timed>, AllocError>
    ensures { IfOk result (λ sent. sent.items ≡ whole.numbered_recs 0 rs.now) }
{
    let mut sent = Vec::with_capacity(alloc, rs.len())?;
    let mut number = 0;
    let mut rest = rs;
    while let Some((r, later)) = rest.split_first() {
        if number >= NUMBERS {
            return Ok(sent);
        }
        sent.push(Timed::new(Stamp::new(&[number as u32]), r.rec()))?;
        number += 1;
        rest = later;
    }
    Ok(sent)
}
