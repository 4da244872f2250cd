//! Roots in a store.
ghost use Rattle.std.specs.Prelude.{◌≡◌, ℕ, None, Some, Ok, IfOk, OnOk, OnErr, IfSome, IsSome, IsErrOf};
ghost use Rattle.std.specs.Option.{ForSome};
ghost use Rattle.std.specs.FinMap as map;
ghost use Rattle.fw_outside.specs.Outside.{StayIfTold};
ghost use Rattle.fw_root.specs.Spelling.{root_spelling};
ghost use Rattle.fw_hold.specs.Faults.{faults_after_hold, IsOfStore, OnOkNone};
ghost use Rattle.fw_hold.specs.Found.{IsRootId, IsFoundRoot, HasGreatestTurn, HasNoneFound, GaveNoHead, ChangesOnly, IsLeftOrGone};
ghost use Rattle.fw_hold.specs.Kept as spec;
ghost use Rattle.fw_hold.specs.declared.fault.HoldFault.TheVariants.{DamagedRoot};

use crate::HoldFault;
use fw_outside::Store;
use fw_root::{Head, Root, encode_root, root_head};
use std::alloc::Global;

/// The id of the roots of even turns.
const EVEN_ROOT: u64 = u64::MAX;

/// That of odd turns.
const ODD_ROOT: u64 = u64::MAX - 1;

/// Bytes under the id of a root that begin as one.
#[derive(Debug, Drop)]
pub struct FoundRoot {
    pub id: u64,
    pub head: Head,
    pub bytes: Vec<u8>,
}

/// The root of the greater turn in a store, if there is one. It is read last.
pub fn counted_root<K: Store>(alloc: Global, store: &mut K) -> Result<Option<FoundRoot>, HoldFault>
    ensures none { OnOkNone result (HasNoneFound (K.view store.new).records) }
    ensures found { IfOk result (λ some. IfSome some (IsFoundRoot (K.view store.new).records)) }
    ensures greatest { IfOk result (λ some. IfSome some (λ found. HasGreatestTurn (K.view store.new).records found.head)) }
    ensures given { IfOk result (λ some. IfSome some (λ found. (K.view store.new).given ≡ Some (found.id, found.bytes.items))) }
    ensures damaged { (id : ℕ) → IsErrOf result (DamagedRoot id) → GaveNoHead (K.view store.new).records id (K.view store.new).given }
    ensures only { IsOfStore result }
    ensures stays { StayIfTold (K.view store.old).records (K.view store.new).records }
    ensures faults { (K.view store.new).faults ≡ faults_after_hold result (K.view store.old).faults }
{
    let Some(even) = root_under(alloc, EVEN_ROOT, store)? else {
        return root_under(alloc, ODD_ROOT, store);
    };
    let Some(odd) = root_under(alloc, ODD_ROOT, store)? else {
        return Ok(Some(even));
    };
    if odd.head.turn < even.head.turn {
        return Ok(Some(read_root(alloc, EVEN_ROOT, store)?));
    }
    Ok(Some(odd))
}

/// The root under an id, if one is there.
fn root_under<K: Store>(
    alloc: Global,
    id: u64,
    store: &mut K,
) -> Result<Option<FoundRoot>, HoldFault>
    requires { IsRootId id }
    ensures none { OnOkNone result (ForSome (K.view store.new).records (λ held. map.get held id ≡ None)) }
    ensures found { IfOk result (λ some. IfSome some (IsFoundRoot (K.view store.new).records)) }
    ensures id { IfOk result (λ some. IfSome some (λ found. found.id ≡ id)) }
    ensures given { IfOk result (λ some. IfSome some (λ found. (K.view store.new).given ≡ Some (found.id, found.bytes.items))) }
    ensures no_call { OnOkNone result ((K.view store.new).given ≡ (K.view store.old).given) }
    ensures damaged { (at : ℕ) → IsErrOf result (DamagedRoot at) → GaveNoHead (K.view store.new).records at (K.view store.new).given }
    ensures only { IsOfStore result }
    ensures stays { StayIfTold (K.view store.old).records (K.view store.new).records }
    ensures faults { (K.view store.new).faults ≡ faults_after_hold result (K.view store.old).faults }
{
    if !store.has(id)? {
        return Ok(None);
    }
    Ok(Some(read_root(alloc, id, store)?))
}

/// The root under an id, where one is.
fn read_root<K: Store>(alloc: Global, id: u64, store: &mut K) -> Result<FoundRoot, HoldFault>
    requires id { IsRootId id }
    requires there { ForSome (K.view store.old).records (λ held. IsSome (map.get held id)) }
    ensures found { IfOk result (IsFoundRoot (K.view store.new).records) }
    ensures id { IfOk result (λ found. found.id ≡ id) }
    ensures given { IfOk result (λ found. (K.view store.new).given ≡ Some (found.id, found.bytes.items)) }
    ensures damaged { (at : ℕ) → IsErrOf result (DamagedRoot at) → GaveNoHead (K.view store.new).records at (K.view store.new).given }
    ensures only { IsOfStore result }
    ensures stays { StayIfTold (K.view store.old).records (K.view store.new).records }
    ensures faults { (K.view store.new).faults ≡ faults_after_hold result (K.view store.old).faults }
{
    let mut bytes = Vec::new(alloc);
    store.get(id, &mut bytes)?;
    match root_head(&bytes) {
        Ok(head) => Ok(FoundRoot { id, head, bytes }),
        Err(_) => Err(HoldFault::DamagedRoot { id }),
    }
}

/// Puts a root in the place of the one before the last.
pub fn put_root<K: Store>(alloc: Global, root: &Root, store: &mut K) -> Result<(), HoldFault>
    ensures put { OnOk result (ForSome (K.view store.new).records (λ held.
        map.get held (spec.root_id root.now.mark.turn) ≡ Some (root_spelling root.now))) }
    ensures others { ChangesOnly (spec.root_id root.now.mark.turn) (K.view store.old).records (K.view store.new).records }
    // Where the store fails, there is what was there, or nothing.
    ensures refused { OnErr result (IsLeftOrGone (spec.root_id root.now.mark.turn) (K.view store.old).records (K.view store.new).records) }
    ensures undamaged { (id : ℕ) → IsErrOf result (DamagedRoot id) → ⊥ }
    ensures only { IsOfStore result }
    ensures faults { (K.view store.new).faults ≡ faults_after_hold result (K.view store.old).faults }
{
    let id = root_id(root.mark.turn);
    let bytes = encode_root(alloc, root)?;
    if store.has(id)? {
        store.remove(id)?;
    }
    store.put_vec(id, bytes)?;
    Ok(())
}

/// The id of the root of a turn.
fn root_id(turn: u64) -> u64
    ensures exact { result ≡ spec.root_id turn }
    ensures of_root { IsRootId result }
{
    if turn % 2 == 0 { EVEN_ROOT } else { ODD_ROOT }
}
