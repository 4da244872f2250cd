//! The catalogue.
ghost use Rattle.std.specs.Prelude.{◌≡◌, ◌↔◌, ◌+◌, ◌^◌, ◌<◌, ◌++◌, [], ◌∷◌, Option, true, false, IsTrue, IsErrOf, IfOk, OnOk, OnErr, option_map, Contains, List};
ghost use Rattle.std.specs.List.{AllZip, AllByRecursion};
ghost use Rattle.std.specs.Option.{option_copied};
ghost use Rattle.std.specs.FinMap as map;
ghost use Rattle.fw_outside.specs.Outside.{StayIfTold};
ghost use Rattle.fw_keep.specs.Faults.{keep_faults_after};
ghost use Rattle.fw_record.specs.Spelling.{spelling, FitsItsCounts};
ghost use Rattle.fw_record.specs.declared.record.Record.{Record as Spelled};
ghost use Rattle.fw_keep.specs.declared.entry.Entry.{Entry as Write};
ghost use Rattle.fw_flow.specs.declared.choice.Stamps.{Stamps as TheStamps};
ghost use Rattle.fw_keep.specs.Entry.{asked_beside, read_beside, IsBased, IsRecordOfEntry, is_in_flight_of, is_withdrawn, is_above, is_at};
ghost use Rattle.fw_keep.specs.Catalogue.{IsCatalogue, AreDistinct, AreAcknowledged, ids_of, is_id_among, has_entry, oldest, persisted, without};
ghost use Rattle.fw_keep.specs.Newest.{is_forgotten_below, newest_by};
ghost use Rattle.fw_keep.specs.Joined.{FetchesOver, GivesJoined, bases_of};
ghost use Rattle.fw_keep.specs.Named.{FetchesNamed, HoldsNamed, with_read};
ghost use Rattle.fw_keep.specs.Stored.{Records, IsEmptyStore, IsStored, IsThereUnder, IsFreed, Sweeps, Fetches, IsToldUnder, GivesNoDamage, KeepsBytes, HoldsAs, GivesOnly};

use crate::chain::chain_to;
use crate::fetch::{entry_at, fetch_each, read};
use crate::going::{
    Above, Below, EventsAt, Going, Lost, Withdrawn, first_from, stay_from, take_out,
};
use crate::joined::joined;
use crate::named::read_as;
use crate::persist::{acknowledged, persist_first};
use crate::put::{Target, add, entry_of, put_new};
use crate::sweep::remove_waiting;
use crate::{Entry, KeepFault, newest};
use fw_flow::{Flow, NodeId, Stamps};
use fw_frontier::Front;
use fw_outside::{OutFault, Store};
use fw_record::Record;
use fw_time::Stamp;
use std::alloc::{AllocError, Global};
use std::marker::Model;

/// The writes of nodes in order of asking, and which bytes of the store are without an entry and wait for a sweep.
///
/// A catalogue to a call of which that changes it memory was once refused asks no more writes, fetches and sweeps nothing more,
/// and says so each time; its other calls go by what it holds, and take no memory.
#[derive(Debug, Drop)]
pub struct Keep {
    alloc: Global,
    entries: Vec<Entry>,
    // So many entries are acknowledged: the first ones.
    persisted: usize,
    next: u64,
    // It has room for the ids of the entries.
    waiting: Vec<u64>,
    refused: bool,
    // The store may hold what others put.
    shared: bool,
}

impl Model for Keep {
    ghost use Rattle.fw_keep.specs.Catalogue.{KeepState};

    ghost Value = { KeepState };

    ghost use Rattle.fw_keep.specs.Inside.{keep_state_of, IsSoundInside};

    ghost view = { keep_state_of };

    ghost invariant = { IsSoundInside };
}

impl Keep {
    /// No write yet.
    pub fn new(alloc: Global) -> Self
        ensures nothing { result ≡ record { entries = []; next = 0; waiting = []; refused = false; shared = false } }
        ensures stored { (records : Option Records) → IsEmptyStore records → IsStored result records }
    {
        Keep {
            alloc,
            entries: Vec::new(alloc),
            persisted: 0,
            next: 0,
            waiting: Vec::new(alloc),
            refused: false,
            shared: false,
        }
    }

    /// No write yet, of an engine that starts again: the ids of its earlier writes are below the next one, and these of them wait for
    /// a sweep, where bytes are there. The store may hold what others put.
    pub fn resumed(alloc: Global, next: u64, waiting: Vec<u64>) -> Self
        requires distinct { AreDistinct waiting.items }
        requires drawn { AllByRecursion (λ id. id < next) waiting.items }
        ensures begun { result ≡ record { entries = []; next = next; waiting = waiting.items; refused = false; shared = true } }
        ensures stored { (records : Option Records) → IsStored result records }
    {
        Keep {
            alloc,
            entries: Vec::new(alloc),
            persisted: 0,
            next,
            waiting,
            refused: false,
            shared: true,
        }
    }

    /// From now on the store may hold what others put: each call asks it before it puts or removes anything.
    pub fn share(&mut self)
        ensures shared { self.new ≡ record self.old { shared = true } }
        ensures stored { (records : Option Records) → IsStored self.old records → IsStored self.new records }
    {
        self.shared = true;
    }

    /// The writes, in order of asking. Their ids ascend.
    pub fn entries(&self) -> &[Entry]
        ensures all { result.now ≡ self.now.entries }
        ensures catalogue { IsCatalogue self.now }
    {
        &self.entries
    }

    /// The id that the next write is given.
    pub fn next_id(&self) -> u64
        ensures { result ≡ self.now.next }
    {
        self.next
    }

    /// The ids of earlier writes whose bytes wait for a sweep, in order of their going.
    pub fn waiting(&self) -> &[u64]
        ensures { result.now ≡ self.now.waiting }
    {
        &self.waiting
    }

    /// Whether a write has this id.
    pub fn has(&self, id: u64) -> bool
        ensures { result ≡ has_entry id self.now.entries }
    {
        entry_at(&self.entries, id).is_some()
    }

    /// The newest checkpoint of a node, if it has one: in flight or acknowledged. It takes no memory.
    pub fn newest_checkpoint(&self, node: NodeId) -> Option<&Entry>
        ensures newest { option_copied result ≡ newest_by node self.now.entries }
        ensures catalogue { IsCatalogue self.now }
    {
        newest::newest_by(&self.entries, node)
    }

    /// Puts a record under the next id, as a write in flight. One of changes stands on the entry of its base, which must be there
    /// and a checkpoint of the same node, and is one deeper than that; any other stands on none. The stamps say where the node's
    /// events are and where they sent: the entry of a checkpoint keeps them, that of an event does not. The next id must be below
    /// 2^63: `next_id` tells it, and each call of `ask` raises it by one. Where the store may hold what others put, what is there under
    /// the id is removed first.
    ///
    /// # Errors
    ///
    /// `StoreFault` where the store fails, `NoMemory` where memory is refused, now or earlier. Then there is no entry, and the
    /// id is not given to a later write.
    pub fn ask<K: Store>(
        &mut self,
        store: &mut K,
        what: &Record,
        stamps: Stamps,
    ) -> Result<u64, KeepFault>
        requires stored { IsStored self.old (K.view store.old).records }
        requires few { self.old.next < 2 ^ 63 }
        requires based { IsBased self.old.entries what.now }

        // The write is the last one, in flight, and its bytes are under its id; none of its lists has more parts than the
        // bytes can say.
        ensures id { IfOk result (λ id. id ≡ self.old.next) }
        ensures added { OnOk result
            (self.new.entries ≡ self.old.entries ++ asked_beside self.old.entries self.old.next what.now stamps ∷ []) }
        ensures put { OnOk result ((K.view store.new).records
            ≡ option_map (λ held. map.insert held self.old.next (spelling what.now)) (K.view store.old).records) }
        ensures counted { OnOk result (FitsItsCounts what.now) }

        // After a refusal entries are as they were, and so are the records; where the store may hold what others put, all but the one
        // under the next id.
        ensures kept { OnErr result (self.new.entries ≡ self.old.entries) }
        ensures stays { self.old.shared ≡ false → OnErr result ((K.view store.new).records ≡ (K.view store.old).records) }
        ensures freed { OnErr result (IsFreed self.old.shared self.old.next (K.view store.old).records (K.view store.new).records) }

        // In each case the bytes of the other entries stay.
        ensures bytes { KeepsBytes self.old.entries (K.view store.old).records (K.view store.new).records }

        ensures drawn { self.new.next ≡ self.old.next + 1 }
        ensures waiting { self.new.waiting ≡ self.old.waiting }
        ensures shared { self.new.shared ≡ self.old.shared }
        ensures stored { IsStored self.new (K.view store.new).records }
        ensures given { (K.view store.new).given ≡ (K.view store.old).given }

        ensures faults { (K.view store.new).faults ≡ keep_faults_after result (K.view store.old).faults }
        ensures undamaged { GivesNoDamage result }
        ensures refused { IsTrue self.new.refused ↔ IsErrOf result KeepFault.NoMemory }
        ensures refused_stays { IsTrue self.old.refused → IsErrOf result KeepFault.NoMemory }
    {
        let id = self.next;
        self.next += 1;
        if self.refused {
            return Err(KeepFault::NoMemory);
        }
        let target = Target {
            id,
            shared: self.shared,
        };
        let put = put_new(
            self.alloc,
            &mut self.entries,
            &mut self.waiting,
            store,
            target,
            what,
            stamps,
        );
        match put {
            Ok(()) => Ok(id),
            Err(OutFault::Failed) => Err(KeepFault::StoreFault),
            Err(OutFault::NoMemory) => {
                self.refused = true;
                Err(KeepFault::NoMemory)
            }
        }
    }

    /// Acknowledges the oldest write in flight, and tells its id. It takes no memory.
    pub fn persist_one(&mut self) -> Option<u64>
        ensures oldest { result ≡ oldest self.old.entries }
        ensures acknowledged { self.new ≡ record self.old { entries = persisted self.old.entries } }
        ensures stored { (records : Option Records) → IsStored self.old records → IsStored self.new records }
    {
        persist_first(&mut self.entries, &mut self.persisted)
    }

    /// Takes the node's writes in flight out. It takes no memory, and looks at what is in flight alone.
    pub fn lose(&mut self, node: NodeId)
        ensures gone { self.new ≡ without (is_in_flight_of node) self.old }
        ensures stored { (records : Option Records) → IsStored self.old records → IsStored self.new records }
    {
        let going = Lost { node };
        take_out(&mut self.entries, &mut self.waiting, self.persisted, &going);
    }

    /// Takes the writes in flight from an id on out. It takes no memory, and finds them by halves.
    pub fn withdraw(&mut self, id: u64)
        ensures gone { self.new ≡ without (is_withdrawn id) self.old }
        ensures stored { (records : Option Records) → IsStored self.old records → IsStored self.new records }
    {
        let from = self.persisted.max(first_from(&self.entries, id));
        let going = Withdrawn { id };
        take_out(&mut self.entries, &mut self.waiting, from, &going);
    }

    /// Takes the node's writes out that do not lie within the frontier: checkpoints by their frontier, events by their stamp.
    /// It takes no memory.
    pub fn forget_above(&mut self, node: NodeId, front: &Front)
        ensures gone { self.new ≡ without (is_above node front.now) self.old }
        ensures stored { (records : Option Records) → IsStored self.old records → IsStored self.new records }
    {
        self.forget(&Above { node, front });
    }

    /// Takes the node's checkpoints out that lie strictly within the frontier and come, in the order of asking, before the newest
    /// whole one up to the first that does not lie strictly within it; where all lie strictly within, all go. Where fronts
    /// ascend and each checkpoint that is not whole stands on the one before it, as in an engine, these are those on which none
    /// stands that stays. It takes no memory.
    pub fn forget_below(&mut self, node: NodeId, front: &Front)
        ensures gone { self.new ≡ without (is_forgotten_below node front.now self.old) self.old }
        ensures stored { (records : Option Records) → IsStored self.old records → IsStored self.new records }
    {
        let until = stay_from(&self.entries, node, front, self.next);
        self.forget(&Below { node, front, until });
    }

    /// Takes the node's events at the stamp out. It takes no memory.
    pub fn forget_at(&mut self, node: NodeId, at: &Stamp)
        ensures gone { self.new ≡ without (is_at node at.now) self.old }
        ensures stored { (records : Option Records) → IsStored self.old records → IsStored self.new records }
    {
        self.forget(&EventsAt { node, at });
    }

    /// Takes the writes out that go by a test. It takes no memory, and looks at each write once: where those of many nodes or at
    /// many stamps go, this is one pass, and `forget_above`, `forget_below` and `forget_at` are one for each.
    pub fn forget<G: Going>(&mut self, going: &G)
        ensures gone { self.new ≡ without (G.goes going.now) self.old }
        ensures stored { (records : Option Records) → IsStored self.old records → IsStored self.new records }
    {
        take_out(&mut self.entries, &mut self.waiting, 0, going);
        self.persisted = acknowledged(&self.entries);
    }

    /// The record of a write as it was put, which can be one of its node in this flow: where the write stands on another one it holds
    /// changes (`fetch` joins them).
    ///
    /// # Errors
    ///
    /// `StoreFault` where the store fails, `Damaged` where the bytes that it gives spell no record of the write, and
    /// `NoMemory` where memory is refused, or was refused to a call that changes the catalogue. The store's records stay, where
    /// it still tells them.
    pub fn fetch_one<K: Store>(
        &self,
        flow: &Flow,
        store: &mut K,
        id: u64,
    ) -> Result<Record, KeepFault>
        requires there { IsTrue (has_entry id self.now.entries) }
        requires stored { IsStored self.now (K.view store.old).records }
        ensures fetched { (entry : Write) → Contains self.now.entries entry → entry.id ≡ id
            → Fetches flow.now entry (K.view store.new).given result }
        ensures told { IsToldUnder id (K.view store.new).records result }
        ensures put { (entry : Write) (what : Spelled) → Contains self.now.entries entry → entry.id ≡ id
            → HoldsAs flow.now (K.view store.new).records entry what → GivesOnly what result }
        ensures stays { StayIfTold (K.view store.old).records (K.view store.new).records }
        ensures given_stays { IsErrOf result KeepFault.StoreFault → (K.view store.new).given ≡ (K.view store.old).given }
        ensures faults { (K.view store.new).faults ≡ keep_faults_after result (K.view store.old).faults }
        ensures refused { IsTrue self.now.refused → IsErrOf result KeepFault.NoMemory }
    {
        if self.refused {
            return Err(KeepFault::NoMemory);
        }
        let Some(entry) = entry_at(&self.entries, id) else {
            unreachable!()
        };
        let mut bytes = Vec::new(self.alloc);
        match store.get(id, &mut bytes) {
            Ok(()) => read(self.alloc, flow, entry, bytes),
            Err(OutFault::Failed) => Err(KeepFault::StoreFault),
            Err(OutFault::NoMemory) => Err(KeepFault::NoMemory),
        }
    }

    /// What the record of a write spells together with those of the writes on which it stands, as one record. These are read first,
    /// the lowest first, and the write's own last. The record of a checkpoint is whole where the lowest is: it has the frontier, the
    /// covers and how many messages were sent of the last, the counts and messages of all, and of each key the last total. Any other
    /// record is given as it is.
    ///
    /// # Errors
    ///
    /// `StoreFault` where the store fails, `Damaged` with the first id whose bytes spell no record of its write, which is the last
    /// that was read, and `NoMemory` where memory is refused, or was refused to a call that changes the catalogue. The store's
    /// records stay, where it still tells them.
    pub fn fetch<K: Store>(&self, flow: &Flow, store: &mut K, id: u64) -> Result<Record, KeepFault>
        requires there { IsTrue (has_entry id self.now.entries) }
        requires stored { IsStored self.now (K.view store.old).records }
        ensures fetched { (entry : Write) → Contains self.now.entries entry → entry.id ≡ id
            → FetchesOver flow.now (K.view store.new).records (K.view store.new).given (bases_of self.now.entries entry) entry result }
        ensures put { (entry : Write) (under : List Spelled) (own : Spelled) → Contains self.now.entries entry → entry.id ≡ id
            → AllZip (HoldsAs flow.now (K.view store.new).records) (bases_of self.now.entries entry) under
            → HoldsAs flow.now (K.view store.new).records entry own → GivesJoined under own result }
        ensures stays { StayIfTold (K.view store.old).records (K.view store.new).records }
        ensures faults { (K.view store.new).faults ≡ keep_faults_after result (K.view store.old).faults }
        ensures refused { IsTrue self.now.refused → IsErrOf result KeepFault.NoMemory }
    {
        if self.refused {
            return Err(KeepFault::NoMemory);
        }
        let Some(entry) = entry_at(&self.entries, id) else {
            unreachable!()
        };
        let bases = chain_to(self.alloc, &self.entries, entry.base)?;
        let under = fetch_each(self.alloc, self, flow, store, &bases)?;
        let own = self.fetch_one(flow, store, id)?;
        Ok(joined(self.alloc, &under, own)?)
    }

    /// The record of a write that a root names, by its node and by a tag: 1 a whole checkpoint, 2 an event, 3 changes. The entries are
    /// those of the writes that are named before it.
    ///
    /// # Errors
    ///
    /// `StoreFault` where the store fails, `Damaged` where the bytes that it gives spell no record of such a write in this flow, and
    /// `NoMemory` where memory is refused, or was refused to a call that changes the catalogue. The store's records stay, where
    /// it still tells them.
    pub fn read_named<K: Store>(
        &self,
        flow: &Flow,
        store: &mut K,
        id: u64,
        node: NodeId,
        tag: u8,
    ) -> Result<Record, KeepFault>
        requires there { IsThereUnder id (K.view store.old).records }
        ensures fetched { FetchesNamed flow.now self.now.entries id node tag (K.view store.new).given result }
        ensures told { IsToldUnder id (K.view store.new).records result }
        ensures put { (what : Spelled) → HoldsNamed flow.now self.now.entries (K.view store.new).records id node tag what
            → GivesOnly what result }
        ensures of_entry { (stamps : TheStamps) → IfOk result (λ what. IsRecordOfEntry flow.now
            (read_beside self.now.entries id what stamps) what) }
        ensures stays { StayIfTold (K.view store.old).records (K.view store.new).records }
        ensures given_stays { IsErrOf result KeepFault.StoreFault → (K.view store.new).given ≡ (K.view store.old).given }
        ensures faults { (K.view store.new).faults ≡ keep_faults_after result (K.view store.old).faults }
        ensures refused { IsTrue self.now.refused → IsErrOf result KeepFault.NoMemory }
    {
        if self.refused {
            return Err(KeepFault::NoMemory);
        }
        let mut bytes = Vec::new(self.alloc);
        match store.get(id, &mut bytes) {
            Ok(()) => read_as(self.alloc, flow, &self.entries, id, node, tag, bytes),
            Err(OutFault::Failed) => Err(KeepFault::StoreFault),
            Err(OutFault::NoMemory) => Err(KeepFault::NoMemory),
        }
    }

    /// Adds the write of a record that was read, as the last one, acknowledged. The stamps are those of `ask`. Its id must be above those
    /// of the writes, drawn, and not wait; all writes must be acknowledged.
    ///
    /// # Errors
    ///
    /// Memory is refused. Then all is as it was.
    pub fn add_read(&mut self, id: u64, what: &Record, stamps: Stamps) -> Result<(), AllocError>
        requires above { AllByRecursion (λ other. other < id) (ids_of self.old.entries) }
        requires drawn { id < self.old.next }
        requires few { self.old.next < 2 ^ 63 }
        requires apart { is_id_among id self.old.waiting ≡ false }
        requires based { IsBased self.old.entries what.now }
        requires acknowledged { AreAcknowledged self.old.entries }
        ensures added { OnOk result (self.new ≡ with_read id what.now stamps self.old) }
        ensures kept { OnErr result (self.new ≡ self.old) }
        ensures stored { (records : Option Records) → IsThereUnder id records → IsStored self.old records
            → OnOk result (IsStored self.new records) }
    {
        let mut entry = entry_of(&self.entries, id, what, stamps)?;
        entry.acknowledged = true;
        add(&mut self.entries, &mut self.waiting, entry)?;
        self.persisted = self.entries.len();
        Ok(())
    }

    /// Removes from the store the bytes that are without an entry, the last that came to wait first. Where the store may hold what others
    /// put, it is asked first whether they are there.
    ///
    /// # Errors
    ///
    /// `StoreFault` where the store fails, `NoMemory` where memory is refused, now or earlier. Then what was not removed waits
    /// for the next sweep.
    pub fn sweep<K: Store>(&mut self, store: &mut K) -> Result<(), KeepFault>
        requires stored { IsStored self.old (K.view store.old).records }
        ensures swept { Sweeps self.old.waiting (K.view store.old).records self.new.waiting (K.view store.new).records }
        ensures clean { OnOk result (self.new.waiting ≡ []) }
        ensures kept { self.new.entries ≡ self.old.entries }
        ensures bytes { KeepsBytes self.old.entries (K.view store.old).records (K.view store.new).records }
        ensures drawn { self.new.next ≡ self.old.next }
        ensures shared { self.new.shared ≡ self.old.shared }
        ensures stored { IsStored self.new (K.view store.new).records }
        ensures given { (K.view store.new).given ≡ (K.view store.old).given }
        ensures faults { (K.view store.new).faults ≡ keep_faults_after result (K.view store.old).faults }
        ensures undamaged { GivesNoDamage result }
        ensures refused { IsTrue self.new.refused ↔ IsErrOf result KeepFault.NoMemory }
        ensures refused_stays { IsTrue self.old.refused → IsErrOf result KeepFault.NoMemory }
    {
        if self.refused {
            return Err(KeepFault::NoMemory);
        }
        match remove_waiting(&mut self.waiting, store, self.shared) {
            Ok(()) => Ok(()),
            Err(OutFault::Failed) => Err(KeepFault::StoreFault),
            Err(OutFault::NoMemory) => {
                self.refused = true;
                Err(KeepFault::NoMemory)
            }
        }
    }
}
