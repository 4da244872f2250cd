//! A record is removed from a store that may hold what others put.
ghost use Rattle.std.specs.Prelude.{◌≡◌, false, OnOk, OnErr};
ghost use Rattle.fw_outside.specs.Outside.{faults_after};
ghost use Rattle.fw_keep.specs.Stored.{IsThereUnder, without_id};

use fw_outside::{Failed, OutFault, Store};

/// Removes the record under an id, if there is one.
pub(crate) fn remove_if_there<K: Store>(store: &mut K, id: u64) -> Result<(), OutFault>
    ensures removed { OnOk result ((K.view store.new).records ≡ without_id id (K.view store.old).records) }
    ensures refused { OnErr result ((K.view store.new).records ≡ (K.view store.old).records) }
    ensures given { (K.view store.new).given ≡ (K.view store.old).given }
    ensures faults { (K.view store.new).faults ≡ faults_after result (K.view store.old).faults }
{
    match store.has(id) {
        Ok(true) => store.remove(id),
        Ok(false) => Ok(()),
        Err(Failed) => Err(OutFault::Failed),
    }
}

/// Removes the record under an id; where the store may hold what others put, or lack it, only if there is one.
pub(crate) fn remove_one<K: Store>(store: &mut K, id: u64, shared: bool) -> Result<(), OutFault>
    requires there { shared ≡ false → IsThereUnder id (K.view store.old).records }
    ensures removed { OnOk result ((K.view store.new).records ≡ without_id id (K.view store.old).records) }
    ensures refused { OnErr result ((K.view store.new).records ≡ (K.view store.old).records) }
    ensures given { (K.view store.new).given ≡ (K.view store.old).given }
    ensures faults { (K.view store.new).faults ≡ faults_after result (K.view store.old).faults }
{
    if shared {
        return remove_if_there(store, id);
    }
    store.remove(id)
}
