//! Single fields: what stands at the front of the bytes, and the bytes after it; nothing where the bytes end inside.
ghost use Rattle.fw_bytes.specs.Reading.{IsField};
ghost use Rattle.fw_record.specs.Fields.{rec_of, logged_of};

use crate::Logged;
use fw_bag::Rec;
use fw_bytes::{stamp_at, u32_at, u64_at};
use fw_flow::{Causes, EdgeId, Message};

/// A key and a value.
#[tactic(auto, unfolding(crate::specs::Fields::rec_of))]
pub fn rec_at(bytes: &[u8]) -> Option<(Rec, &[u8])>
    ensures { IsField (λ x. (x.0, x.1.now)) result (rec_of bytes.now) }
{
    let (key, rest) = u64_at(bytes)?;
    let (value, rest) = u64_at(rest)?;
    Some((Rec { key, value }, rest))
}

/// A logged message, of one cause.
#[tactic(auto, unfolding(crate::specs::Fields::logged_of))]
pub fn logged_at(bytes: &[u8]) -> Option<(Logged, &[u8])>
    ensures { IsField (λ x. (x.0, x.1.now)) result (logged_of bytes.now) }
{
    let (edge, rest) = u32_at(bytes)?;
    let (at, rest) = stamp_at(rest)?;
    let (cause, rest) = stamp_at(rest)?;
    let (rec, rest) = rec_at(rest)?;
    let message = Message {
        at,
        rec,
        causes: Causes::of(cause),
    };
    Some((
        Logged {
            edge: EdgeId::at(edge),
            message,
        },
        rest,
    ))
}
