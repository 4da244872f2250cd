//! Where records are kept.
ghost use Rattle.std.specs.Prelude.{◌≡◌, [], Some, None, IfOk, OnOk, OnErr, IfSome, IsSome, is_some, option_map};
ghost use Rattle.std.specs.Option.{ForSome};
ghost use Rattle.std.specs.FinMap as map;
ghost use Rattle.fw_outside.specs.Outside.{StoreView, StayIfTold, faults_after, has_faults_after};

use crate::{Failed, OutFault};

/// A store of records, each under an id.
pub trait Store {
    /// The bytes of each id, where the store tells them; the id and the bytes of the last `get` that was Ok, if there was one; and
    /// its count of faults, one for each call that answers `Failed`. Where a store gives or tells other than was put, it may cease
    /// to tell its records.
    ghost view: { Self → StoreView };

    /// Adds a record under a new id.
    ///
    /// # Errors
    ///
    /// `Failed` where the store fails, `NoMemory` where memory is refused, which may come at any time. Then the records
    /// stay, and a later call may succeed.
    fn put(&mut self, id: u64, bytes: &[u8]) -> Result<(), OutFault>
        requires { ForSome (view self.old).records (λ held. map.get held id ≡ None) }
        ensures added { OnOk result ((view self.new).records ≡ option_map (λ held. map.insert held id bytes.now) (view self.old).records) }
        ensures refused { OnErr result ((view self.new).records ≡ (view self.old).records) }
        ensures given_stays { (view self.new).given ≡ (view self.old).given }
        ensures faults { (view self.new).faults ≡ faults_after result (view self.old).faults };

    /// As `put`, of bytes that the caller has no use for: a store in memory may keep them as they are.
    ///
    /// # Errors
    ///
    /// Those of `put`.
    fn put_vec(&mut self, id: u64, bytes: Vec<u8>) -> Result<(), OutFault>
        requires { ForSome (view self.old).records (λ held. map.get held id ≡ None) }
        ensures added { OnOk result ((view self.new).records ≡ option_map (λ held. map.insert held id bytes.items) (view self.old).records) }
        ensures refused { OnErr result ((view self.new).records ≡ (view self.old).records) }
        ensures given_stays { (view self.new).given ≡ (view self.old).given }
        ensures faults { (view self.new).faults ≡ faults_after result (view self.old).faults }
    {
        self.put(id, &bytes)
    }

    /// Puts the bytes of a record into `into`, in place of what was there.
    ///
    /// # Errors
    ///
    /// `Failed` where the store fails, `NoMemory` where memory is refused, which may come at any time. Then `into` is empty,
    /// and the last `get` that was Ok is still the one before; a later call may succeed. The records stay in each case.
    fn get(&mut self, id: u64, into: &mut Vec<u8>) -> Result<(), OutFault>
        requires { ForSome (view self.old).records (λ held. IsSome (map.get held id)) }
        ensures bytes { OnOk result (IfSome (view self.new).records (λ held. map.get held id ≡ Some into.new.items)) }
        ensures given { OnOk result ((view self.new).given ≡ Some (id, into.new.items)) }
        ensures refused { OnErr result ((view self.new).given ≡ (view self.old).given) }
        ensures empty { OnErr result (into.new.items ≡ []) }
        ensures records_stay { StayIfTold (view self.old).records (view self.new).records }
        ensures faults { (view self.new).faults ≡ faults_after result (view self.old).faults };

    /// Whether there is a record under an id, which may be any. It takes no memory, or counts want of it as a fault.
    ///
    /// # Errors
    ///
    /// The store failed. The records stay, and a later call may succeed.
    fn has(&mut self, id: u64) -> Result<bool, Failed>
        ensures there { IfOk result (λ there. IfSome (view self.new).records (λ held. there ≡ is_some (map.get held id))) }
        ensures records_stay { (view self.new).records ≡ (view self.old).records }
        ensures given_stays { (view self.new).given ≡ (view self.old).given }
        ensures faults { (view self.new).faults ≡ has_faults_after result (view self.old).faults };

    /// Takes a record out.
    ///
    /// # Errors
    ///
    /// `Failed` where the store fails, `NoMemory` where memory is refused, which may come at any time. Then the records
    /// stay, and a later call may succeed.
    fn remove(&mut self, id: u64) -> Result<(), OutFault>
        requires { ForSome (view self.old).records (λ held. IsSome (map.get held id)) }
        ensures removed { OnOk result ((view self.new).records ≡ option_map (λ held. map.remove held id) (view self.old).records) }
        ensures refused { OnErr result ((view self.new).records ≡ (view self.old).records) }
        ensures given_stays { (view self.new).given ≡ (view self.old).given }
        ensures faults { (view self.new).faults ≡ faults_after result (view self.old).faults };

    /// How often the store failed; a count of 2^64 - 1 stands for that many or more.
    fn faults(&self) -> u64
        ensures { result ≡ (view self.now).faults };
}
