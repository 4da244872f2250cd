//! How many messages a sequence sent, by epoch.
ghost use Rattle.std.specs.Prelude.{◌≡◌, ◌↔◌, ℕ, ◌^◌, ◌-◌, ◌<◌, ◌≤◌, true, nat_lt, min, [], ◌∷◌, ◌++◌, length, take, drop, filter, slice_get, IsTrue, IfOk, OnOk, OnErr};
ghost use Rattle.std.specs.List.{AllByRecursion};
ghost use Rattle.fw_frontier.specs.Front.{inside};
ghost use Rattle.fw_flow.specs.Projection.{first_coordinate, table_count};
ghost use Rattle.fw_flow.specs.SentTable.{EpochsAscend, counts_of, HasRunningSums};

use fw_frontier::Front;
use fw_time::Stamp;
use std::alloc::{AllocError, Global};
use std::marker::Model;

/// What was sent in an epoch.
#[derive(Clone, Copy, Debug)]
pub(crate) struct SentInEpoch {
    epoch: u32,
    count: u64,
    // With what was sent in the epochs before it, or `u64::MAX` where that is more.
    total: u64,
}

/// How many messages a sequence sent, by epoch, with the epochs in order. Contracts see the list of epochs and counts.
#[derive(Debug, Drop)]
pub struct SentTable {
    entries: Vec<SentInEpoch>,
}

impl Model for SentTable {
    ghost use Rattle.std.specs.Prelude.{ℕ, List};
    ghost use Rattle.fw_flow.specs.SentTable.{counts_of, AreRunningSums};

    ghost Value = { List (ℕ × ℕ) };

    ghost view = { λ table. counts_of table.entries.items };

    ghost invariant = { λ table. AreRunningSums table.entries.items };
}

impl SentTable {
    /// The table of a sequence that sent nothing yet, in memory from `alloc`.
    pub fn new(alloc: Global) -> Self
        ensures { result ≡ [] }
    {
        SentTable {
            entries: Vec::new(alloc),
        }
    }

    /// The same table once more. The error is want of memory.
    pub fn copy(&self) -> Result<Self, AllocError>
        ensures { IfOk result (λ table. table ≡ self.now) }
    {
        let entries = copied(*self.entries.allocator(), &self.entries)?;
        Ok(SentTable { entries })
    }

    /// Whether the epoch comes after those of the table, or is the last of them.
    pub fn takes(&self, epoch: u32) -> bool
        ensures { IsTrue result ↔ ((count : ℕ) → EpochsAscend (self.now ++ (epoch, count) ∷ [])) }
    {
        match self.entries.last() {
            Some(last) => last.epoch <= epoch,
            None => true,
        }
    }

    /// Adds how many messages the sequence sent in an epoch, which comes after those of the table (`takes`). It may be the
    /// last of them: then both counts count. The error is want of memory.
    pub fn push(&mut self, epoch: u32, count: u64) -> Result<(), AllocError>
        requires { EpochsAscend (self.old ++ (epoch, count) ∷ []) }
        ensures ok { OnOk result (self.new ≡ self.old ++ (epoch, count) ∷ []) }
        ensures err { OnErr result (self.new ≡ self.old) }
    {
        let total = self.total().saturating_add(count);
        self.entries.push(SentInEpoch {
            epoch,
            count,
            total,
        })?;
        Ok(())
    }

    /// The part of the table whose epochs are inside a frontier. The error is want of memory.
    pub fn inside(&self, f: &Front) -> Result<Self, AllocError>
        ensures { IfOk result (λ table. table ≡ filter (λ entry. inside f.now (entry.0 ∷ [])) self.now) }
    {
        let mut table = SentTable::new(*self.entries.allocator());
        for entry in &self.entries {
            if f.contains(&Stamp::new(&[entry.epoch])) {
                table.push(entry.epoch, entry.count)?;
            }
        }
        Ok(table)
    }

    /// How many entries there are.
    pub fn len(&self) -> usize
        ensures { result ≡ length self.now }
    {
        self.entries.len()
    }

    /// The epoch of an entry, and how many messages were sent in it; none past the last entry.
    pub fn get(&self, place: usize) -> Option<(u32, u64)>
        ensures { result ≡ slice_get self.now place }
    {
        let entry = self.entries.get(place)?;
        Some((entry.epoch, entry.count))
    }

    /// The place of the first entry whose epoch is not below a limit, or how many entries there are. It halves the table until it
    /// finds the limit.
    pub fn first_from(&self, limit: u64) -> usize
        ensures within { result ≤ length self.now }
        ensures below { AllByRecursion (λ entry. entry.0 < limit) (take result self.now) }
        ensures from { AllByRecursion (λ entry. limit ≤ entry.0) (drop result self.now) }
    {
        self.entries
            .partition_point(|entry| u64::from(entry.epoch) < limit)
    }

    /// How many messages were sent in all, or `u64::MAX` where they were more.
    fn total(&self) -> u64
        ensures { result ≡ min (table_count (λ t. true) self.now) (2 ^ 64 - 1) }
    {
        total_at(&self.entries, self.entries.len())
    }

    /// How many messages were sent in the epochs below a limit, or `u64::MAX` where they were more. It halves the table until
    /// it finds the limit.
    pub(crate) fn count_below(&self, limit: u32) -> u64
        ensures { result ≡ min (table_count (λ t. nat_lt (first_coordinate t) limit) self.now) (2 ^ 64 - 1) }
    {
        let place = self.entries.partition_point(|entry| entry.epoch < limit);
        total_at(&self.entries, place)
    }
}

/// The same entries once more.
fn copied(alloc: Global, entries: &[SentInEpoch]) -> Result<Vec<SentInEpoch>, AllocError>
    ensures { IfOk result (λ copy. copy.items ≡ entries.now) }
{
    let mut copy = Vec::with_capacity(alloc, entries.len())?;
    for entry in entries {
        copy.push(*entry)?;
    }
    Ok(copy)
}

/// What the first of the entries count, so many of them.
fn total_at(entries: &[SentInEpoch], place: usize) -> u64
    requires totals { HasRunningSums 0 entries.now }
    requires there { place ≤ length entries.now }
    ensures { result ≡ min (table_count (λ t. true) (counts_of (take place entries.now))) (2 ^ 64 - 1) }
{
    if place == 0 {
        return 0;
    }
    entries[place - 1].total
}
