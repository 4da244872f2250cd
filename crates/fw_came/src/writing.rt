//! Writing a batch.
ghost use Rattle.std.specs.Prelude.{◌≡◌, ◌++◌, OnOk, IfOk};
ghost use Rattle.fw_record.specs.Spelling.{rec_bytes, recs_bytes};
ghost use Rattle.fw_came.specs.Came as spec;

use fw_bag::Rec;
use fw_bytes::put_u64;
use std::alloc::{AllocError, Global};

/// The bytes of a batch of these recs, with which its source is closed or not. The error is want of memory.
pub fn batch_bytes(alloc: Global, last: bool, recs: &[Rec]) -> Result<Vec<u8>, AllocError>
    ensures { IfOk result (λ bytes. bytes.items ≡ spec.batch_bytes last recs.now) }
{
    let mut out = Vec::new(alloc);
    out.push(if last { 1 } else { 0 })?;
    put_recs(&mut out, recs)?;
    Ok(out)
}

/// Recs, after their number.
fn put_recs(out: &mut Vec<u8>, recs: &[Rec]) -> Result<(), AllocError>
    ensures { OnOk result (out.new.items ≡ out.old.items ++ recs_bytes recs.now) }
{
    put_u64(out, recs.len() as u64)?;
    for rec in recs {
        put_rec(out, rec)?;
    }
    Ok(())
}

/// A key and a value.
fn put_rec(out: &mut Vec<u8>, rec: &Rec) -> Result<(), AllocError>
    ensures { OnOk result (out.new.items ≡ out.old.items ++ rec_bytes rec.now) }
{
    put_u64(out, rec.key)?;
    put_u64(out, rec.value)
}
