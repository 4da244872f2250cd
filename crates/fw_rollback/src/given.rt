//! The records of the writes that the cuts of a choice ask for.
ghost use Rattle.std.specs.Prelude.{◌≡◌, ◌++◌, ◌∷◌, [], length, replicate, slice_set, IfOk, OnOk};
ghost use Rattle.fw_keep.specs.Faults.{keep_faults_after};
ghost use Rattle.fw_keep.specs.Stored.{IsStored};
ghost use Rattle.fw_outside.specs.Outside.{StayIfTold};
ghost use Rattle.fw_rollback.specs.Asked.{given_of, AreFetched, AreFound, ComesOfReading};

use crate::asked::{Found, is_asked_for};
use fw_flow::{Choice, Flow, NodeId};
use fw_keep::{Keep, KeepFault};
use fw_outside::Store;
use fw_record::Record;
use std::alloc::{AllocError, Global};
use std::marker::Model;

/// The records of one node, in order of asking. Contracts see their list.
#[derive(Debug, Drop)]
pub(crate) struct OfNode {
    records: Vec<Record>,
}

impl Model for OfNode {
    ghost use Rattle.std.specs.Prelude.{List};
    ghost use Rattle.fw_record.specs.declared.record.Record.{Record};

    ghost Value = { List Record };

    ghost view = { λ of. of.records.items };
}

impl OfNode {
    /// No record.
    fn none(alloc: Global) -> Self
        ensures { result ≡ [] }
    {
        OfNode {
            records: Vec::new(alloc),
        }
    }

    /// Adds a record behind the others.
    fn add(&mut self, what: Record) -> Result<(), AllocError>
        ensures { OnOk result (self.new ≡ self.old ++ what ∷ []) }
    {
        self.records.push(what)?;
        Ok(())
    }

    /// The records, in order of asking.
    fn as_slice(&self) -> &[Record]
        ensures { result.now ≡ self.now }
    {
        &self.records
    }
}

/// The records of each node. Contracts see their list.
#[derive(Debug, Drop)]
pub(crate) struct Given {
    nodes: Vec<OfNode>,
}

impl Model for Given {
    ghost use Rattle.std.specs.Prelude.{List};
    ghost use Rattle.fw_record.specs.declared.record.Record.{Record};

    ghost Value = { List (List Record) };

    ghost view = { λ given. given.nodes.items };
}

impl Given {
    /// No record of so many nodes.
    fn none(alloc: Global, nodes: usize) -> Result<Self, AllocError>
        ensures { IfOk result (λ given. given ≡ replicate nodes []) }
    {
        let mut given = Vec::with_capacity(alloc, nodes)?;
        for _place in 0..nodes {
            given.push(OfNode::none(alloc))?;
        }
        Ok(Given { nodes: given })
    }

    /// Adds a record of a node behind the others; past the last node it does nothing.
    fn add(&mut self, node: NodeId, what: Record) -> Result<(), AllocError>
        ensures { OnOk result (self.new ≡ slice_set self.old node (given_of self.old node ++ what ∷ [])) }
    {
        match self.nodes.get_mut(node.place() as usize) {
            Some(of) => of.add(what),
            None => Ok(()),
        }
    }

    /// The records of a node, in order of asking.
    pub(crate) fn of(&self, node: NodeId) -> &[Record]
        ensures { result.now ≡ given_of self.now node }
    {
        match self.nodes.get(node.place() as usize) {
            Some(of) => of.as_slice(),
            None => &[],
        }
    }
}

/// Fetches the record of each write that the cuts of the choice ask for. The store's records stay, where it still tells them.
pub(crate) fn read<K: Store>(
    alloc: Global,
    flow: &Flow,
    choice: &Choice,
    keep: &Keep,
    store: &mut K,
) -> Result<Given, KeepFault>
    requires stored { IsStored keep.now (K.view store.old).records }
    ensures fetched { IfOk result (AreFetched flow.now choice.now (K.view store.new).records keep.now.entries) }
    ensures of_reading { ComesOfReading flow.now choice.now (K.view store.new).records keep.now.entries (K.view store.new).given result }
    ensures stays { StayIfTold (K.view store.old).records (K.view store.new).records }
    ensures faults { (K.view store.new).faults ≡ keep_faults_after result (K.view store.old).faults }
{
    let mut given = Given::none(alloc, flow.nodes())?;
    let found = Found::among(alloc, choice, keep.entries())?;
    fetch_all(flow, choice, &found, keep, store, &mut given)?;
    Ok(given)
}

/// Adds the record of each write that the cuts of the choice ask for to those of its node, of which there is none yet.
fn fetch_all<K: Store>(
    flow: &Flow,
    choice: &Choice,
    found: &Found,
    keep: &Keep,
    store: &mut K,
    given: &mut Given,
) -> Result<(), KeepFault>
    requires found { AreFound choice.now keep.now.entries found.now }
    requires stored { IsStored keep.now (K.view store.old).records }
    requires none { given.old ≡ replicate (length flow.now.nodes) [] }
    ensures fetched { OnOk result (AreFetched flow.now choice.now (K.view store.new).records keep.now.entries given.new) }
    ensures of_reading { ComesOfReading flow.now choice.now (K.view store.new).records keep.now.entries (K.view store.new).given result }
    ensures stays { StayIfTold (K.view store.old).records (K.view store.new).records }
    ensures faults { (K.view store.new).faults ≡ keep_faults_after result (K.view store.old).faults }
{
    let entries = keep.entries();
    for entry in entries {
        if is_asked_for(flow, choice, found, entry) {
            given.add(entry.node, keep.fetch_one(flow, store, entry.id)?)?;
        }
    }
    Ok(())
}
