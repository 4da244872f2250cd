//! The bytes of what is without an entry are removed from a store.
ghost use Rattle.std.specs.Prelude.{◌≡◌, false, [], OnOk};
ghost use Rattle.std.specs.Vec.{vec_capacity};
ghost use Rattle.fw_outside.specs.Outside.{faults_after};
ghost use Rattle.fw_keep.specs.Catalogue.{AreDistinct};
ghost use Rattle.fw_keep.specs.Stored.{AreThere, Sweeps};

use crate::remove::remove_one;
use fw_outside::{OutFault, Store};

/// Removes the bytes of the ids that wait, the last one first; where the store may hold what others put, or lack some, of those that
/// are there.
pub(crate) fn remove_waiting<K: Store>(
    waiting: &mut Vec<u64>,
    store: &mut K,
    shared: bool,
) -> Result<(), OutFault>
    requires distinct { AreDistinct waiting.old.items }
    requires there { shared ≡ false → AreThere waiting.old.items (K.view store.old).records }
    ensures swept { Sweeps waiting.old.items (K.view store.old).records waiting.new.items (K.view store.new).records }
    ensures clean { OnOk result (waiting.new.items ≡ []) }
    ensures capacity { vec_capacity waiting.new ≡ vec_capacity waiting.old }
    ensures given { (K.view store.new).given ≡ (K.view store.old).given }
    ensures faults { (K.view store.new).faults ≡ faults_after result (K.view store.old).faults }
{
    while let Some(id) = waiting.last() {
        remove_one(store, *id, shared)?;
        waiting.pop();
    }
    Ok(())
}
