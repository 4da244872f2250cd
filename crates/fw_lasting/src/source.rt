//! Reading what came to a source.
ghost use Rattle.std.specs.Prelude.{◌≡◌, ℕ, IfOk, IsErrOf};
ghost use Rattle.fw_outside.specs.Outside.{StayIfTold};
ghost use Rattle.fw_running.specs.declared.fault.EngineFault.TheVariants as engine;
ghost use Rattle.fw_hold.specs.Engine.{GaveBytes};
ghost use Rattle.fw_running.specs.Faults.{faults_after_step};
ghost use Rattle.fw_lasting.specs.Reading.{ForWhatCame, IsBatchUnder, IsNoBatchUnder, IsReadTo};

use fw_bytes::ReadFault;
use fw_came::{CameBatch, batch_id, read_batch};
use fw_lines::Batches;
use fw_outside::{OutFault, Store};
use fw_running::EngineFault;
use std::alloc::Global;

/// How many batches may come to a source.
const MOST: u32 = 1 << 20;

/// What came to a source.
#[derive(Clone, Copy, Debug)]
pub struct CameTo {
    /// How many batches.
    pub count: u32,
    /// Whether more may come.
    pub open: bool,
}

/// Reads what came to a source, adds it to these batches, and an empty one behind it where the source is open.
///
/// # Errors
///
/// `StoreFault` where the store fails, `Damaged` where the bytes that it gives under the id of a batch spell none; `NoMemory` where memory is
/// refused, or where more batches are there than may come.
pub fn read_source<K: Store>(
    alloc: Global,
    source: u32,
    batches: &mut Batches,
    store: &mut K,
) -> Result<CameTo, EngineFault>
    ensures read { ForWhatCame source (K.view store.old).records (K.view store.new).records (λ came opened.
        IfOk result (λ read. IsReadTo source came opened read batches.old batches.new)) }
    ensures undamaged { (id : ℕ) → IsErrOf result (engine.Damaged id)
        → ForWhatCame source (K.view store.old).records (K.view store.new).records (λ came opened. ⊥) }
    ensures damaged { (id : ℕ) → IsErrOf result (engine.Damaged id) → GaveBytes id (K.view store.new).given }
    ensures stays { StayIfTold (K.view store.old).records (K.view store.new).records }
    ensures faults { (K.view store.new).faults ≡ faults_after_step result (K.view store.old).faults }
{
    for count in 0..MOST {
        let id = batch_id(source, count);
        let Some(batch) = batch_under(alloc, id, store)? else {
            batches.add(source, &[])?;
            return Ok(CameTo { count, open: true });
        };
        batches.add(source, batch.recs.as_slice())?;
        if batch.last {
            return Ok(CameTo {
                count: count + 1,
                open: false,
            });
        }
    }
    Err(EngineFault::NoMemory)
}

/// The batch under an id, if one is there.
fn batch_under<K: Store>(
    alloc: Global,
    id: u64,
    store: &mut K,
) -> Result<Option<CameBatch>, EngineFault>
    ensures found { IfOk result (IsBatchUnder id (K.view store.new).records) }
    ensures broken { (at : ℕ) → IsErrOf result (engine.Damaged at) → IsNoBatchUnder id (K.view store.new).records }
    ensures damaged { (at : ℕ) → IsErrOf result (engine.Damaged at) → GaveBytes at (K.view store.new).given }
    ensures stays { StayIfTold (K.view store.old).records (K.view store.new).records }
    ensures faults { (K.view store.new).faults ≡ faults_after_step result (K.view store.old).faults }
{
    match store.has(id) {
        Ok(true) => {}
        Ok(false) => return Ok(None),
        Err(_) => return Err(EngineFault::StoreFault),
    }
    let mut bytes = Vec::new(alloc);
    match store.get(id, &mut bytes) {
        Ok(()) => {}
        Err(OutFault::Failed) => return Err(EngineFault::StoreFault),
        Err(OutFault::NoMemory) => return Err(EngineFault::NoMemory),
    }
    match read_batch(alloc, &bytes) {
        Ok(batch) => Ok(Some(batch)),
        Err(ReadFault::Broken { .. }) => Err(EngineFault::Damaged { id }),
        Err(ReadFault::NoMemory) => Err(EngineFault::NoMemory),
    }
}
