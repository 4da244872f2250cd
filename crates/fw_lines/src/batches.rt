//! The batches of the sources.
ghost use Rattle.std.specs.Prelude.{◌≡◌, [], length, map, IfOk, OnOk, OnErr};
ghost use Rattle.fw_bag.specs.Bag.{with_rec};
ghost use Rattle.fw_bag.specs.Keyed.{sorted_recs};
ghost use Rattle.fw_lines.specs.Batches.{batches_at, batches_of_entries, AddsBatch, KeepsBatches, AreBatches, IsBatch};
ghost use Rattle.fw_bag.specs.Bag.{IsRec};

use fw_bag::{Bag, Rec};
use indexmap::IndexMap;
use std::alloc::{AllocError, Global};
use std::marker::Model;

/// The batches of the sources: for each node its batches, of which the x-th, counted from 0, is that
/// of epoch x. Each is a bag of recs, in ascending order.
#[derive(Debug)]
pub struct Batches {
    alloc: Global,
    of_node: IndexMap<u32, Vec<Bag>>,
}

impl Model for Batches {
    ghost use Rattle.std.specs.Prelude.{List, ℕ};
    ghost use Rattle.fw_bag.specs.declared.rec.Rec.{Rec};
    ghost use Rattle.fw_lines.specs.Batches.{batches_of_entries, AreBatches};

    ghost Value = { List (ℕ × List (List Rec)) };

    ghost view = { λ b. batches_of_entries b.of_node.entries };

    ghost invariant = { λ b. AreBatches (batches_of_entries b.of_node.entries) };
}

// Written out, so that it is one call wherever batches are let go.
impl Drop for Batches {
    fn drop(self) {
        let Batches { alloc: _, of_node } = self;
        drop(of_node);
    }
}

impl Batches {
    /// No batches yet, in memory from `alloc`.
    pub fn new(alloc: Global) -> Self
        ensures { result ≡ [] }
    {
        Batches {
            alloc,
            of_node: IndexMap::new(alloc),
        }
    }

    /// The batches of a node, those of the earlier epochs first; none where nothing is kept for it.
    pub fn of(&self, node: u32) -> &[Bag]
        ensures { map (λ b. b.recs) result.now ≡ batches_at self.now node }
    {
        match self.of_node.get(&node) {
            Some(batches) => batches.as_slice(),
            None => &[],
        }
    }

    /// How many batches a node has.
    pub fn count(&self, node: u32) -> usize
        ensures { result ≡ length (batches_at self.now node) }
    {
        self.of(node).len()
    }

    /// Each batch is a bag of recs of 64 bits.
    pub fn are_bags(&self)
        ensures { AreBatches self.now }
    {
        // Where a field is read, what holds of all batches is known.
        let _ = &self.of_node;
    }

    /// Adds the batch of the next epoch of a node, of these recs, in any order. The only error is want of memory, and then
    /// each node keeps its batches.
    pub fn add(&mut self, node: u32, recs: &[Rec]) -> Result<(), AllocError>
        ensures ok { OnOk result (AddsBatch self.old self.new node (sorted_recs recs.now)) }
        ensures err { OnErr result (KeepsBatches self.old self.new) }
    {
        let batch = batch_of(self.alloc, recs)?;
        self.push(node, batch)
    }

    /// Adds the batch of the next epoch of a node. The only error is want of memory, and then each node keeps its batches.
    pub(crate) fn push(&mut self, node: u32, batch: Bag) -> Result<(), AllocError>
        requires { IsBatch batch.recs }
        ensures ok { OnOk result (AddsBatch self.old self.new node batch.recs) }
        ensures err { OnErr result (KeepsBatches self.old self.new) }
    {
        push_batch(&mut self.of_node, self.alloc, node, batch)
    }
}

// The bag of these recs.
fn batch_of(alloc: Global, recs: &[Rec]) -> Result<Bag, AllocError>
    ensures recs { IfOk result (λ bag. bag.recs ≡ sorted_recs recs.now) }
    ensures batch { IfOk result (λ bag. IsBatch bag.recs) }
{
    let mut bag = Bag::new(alloc);
    for rec in recs {
        put(&mut bag, *rec)?;
    }
    Ok(bag)
}

// Puts a rec into a bag.
fn put(bag: &mut Bag, rec: Rec) -> Result<(), AllocError>
    ensures put { OnOk result (bag.new.recs ≡ with_rec rec bag.old.recs) }
    ensures small { IsRec rec }
{
    bag.add(rec)
}

fn push_batch(
    of_node: &mut IndexMap<u32, Vec<Bag>>,
    alloc: Global,
    node: u32,
    batch: Bag,
) -> Result<(), AllocError>
    ensures ok { OnOk result (AddsBatch (batches_of_entries of_node.old.entries)
        (batches_of_entries of_node.new.entries) node batch.recs) }
    ensures err { OnErr result (KeepsBatches (batches_of_entries of_node.old.entries)
        (batches_of_entries of_node.new.entries)) }
{
    match of_node.get_mut(&node) {
        Some(batches) => batches.push(batch)?,
        None => {
            let mut batches = Vec::new(alloc);
            batches.push(batch)?;
            of_node.insert(node, batches)?;
        }
    }
    Ok(())
}
