//! Lists as types of their own, which contracts see as lists.
ghost use Rattle.std.specs.Prelude.{◌≡◌};

use crate::{NamedWrite, NodeFronts, OwedAt, PendingAt};
use fw_frontier::SentCounts;
use std::marker::Model;

/// Lines that were printed, as bytes. Contracts see their list.
#[derive(Debug, Drop)]
pub struct Printed {
    bytes: Vec<u8>,
}

impl Model for Printed {
    ghost use Rattle.std.specs.Prelude.{ℕ, List};

    ghost Value = { List ℕ };

    ghost view = { λ list. list.bytes.items };
}

impl Printed {
    /// These bytes.
    pub fn of(bytes: Vec<u8>) -> Self
        ensures { result ≡ bytes.items }
    {
        Printed { bytes }
    }

    /// The bytes, in order.
    pub fn as_slice(&self) -> &[u8]
        ensures { result.now ≡ self.now }
    {
        &self.bytes
    }
}

/// Numbers. Contracts see their list.
#[derive(Debug, Drop)]
pub struct Numbers {
    numbers: Vec<u64>,
}

impl Model for Numbers {
    ghost use Rattle.std.specs.Prelude.{ℕ, List};

    ghost Value = { List ℕ };

    ghost view = { λ list. list.numbers.items };
}

impl Numbers {
    /// These numbers.
    pub fn of(numbers: Vec<u64>) -> Self
        ensures { result ≡ numbers.items }
    {
        Numbers { numbers }
    }

    /// The numbers, in order.
    pub fn as_slice(&self) -> &[u64]
        ensures { result.now ≡ self.now }
    {
        &self.numbers
    }
}

/// Frontiers of nodes. Contracts see their list.
#[derive(Debug, Drop)]
pub struct FrontsOfNodes {
    fronts: Vec<NodeFronts>,
}

impl Model for FrontsOfNodes {
    ghost use Rattle.std.specs.Prelude.{List};
    ghost use Rattle.fw_root.specs.declared.root.NodeFronts.{NodeFronts};

    ghost Value = { List NodeFronts };

    ghost view = { λ list. list.fronts.items };
}

impl FrontsOfNodes {
    /// These frontiers.
    pub fn of(fronts: Vec<NodeFronts>) -> Self
        ensures { result ≡ fronts.items }
    {
        FrontsOfNodes { fronts }
    }

    /// The frontiers, in order.
    pub fn as_slice(&self) -> &[NodeFronts]
        ensures { result.now ≡ self.now }
    {
        &self.fronts
    }
}

/// Writes with their ids. Contracts see their list.
#[derive(Debug, Drop)]
pub struct NamedWrites {
    writes: Vec<NamedWrite>,
}

impl Model for NamedWrites {
    ghost use Rattle.std.specs.Prelude.{List};
    ghost use Rattle.fw_root.specs.declared.root.NamedWrite.{NamedWrite};

    ghost Value = { List NamedWrite };

    ghost view = { λ list. list.writes.items };
}

impl NamedWrites {
    /// These writes.
    pub fn of(writes: Vec<NamedWrite>) -> Self
        ensures { result ≡ writes.items }
    {
        NamedWrites { writes }
    }

    /// The writes, in order.
    pub fn as_slice(&self) -> &[NamedWrite]
        ensures { result.now ≡ self.now }
    {
        &self.writes
    }
}

/// Counts of what is pending. Contracts see their list.
#[derive(Debug, Drop)]
pub struct PendingCounts {
    counts: Vec<PendingAt>,
}

impl Model for PendingCounts {
    ghost use Rattle.std.specs.Prelude.{List};
    ghost use Rattle.fw_root.specs.declared.root.PendingAt.{PendingAt};

    ghost Value = { List PendingAt };

    ghost view = { λ list. list.counts.items };
}

impl PendingCounts {
    /// These counts.
    pub fn of(counts: Vec<PendingAt>) -> Self
        ensures { result ≡ counts.items }
    {
        PendingCounts { counts }
    }

    /// The counts, in order.
    pub fn as_slice(&self) -> &[PendingAt]
        ensures { result.now ≡ self.now }
    {
        &self.counts
    }
}

/// Stamps that are owed. Contracts see their list.
#[derive(Debug, Drop)]
pub struct OwedStamps {
    stamps: Vec<OwedAt>,
}

impl Model for OwedStamps {
    ghost use Rattle.std.specs.Prelude.{List};
    ghost use Rattle.fw_root.specs.declared.root.OwedAt.{OwedAt};

    ghost Value = { List OwedAt };

    ghost view = { λ list. list.stamps.items };
}

impl OwedStamps {
    /// These stamps.
    pub fn of(stamps: Vec<OwedAt>) -> Self
        ensures { result ≡ stamps.items }
    {
        OwedStamps { stamps }
    }

    /// The stamps, in order.
    pub fn as_slice(&self) -> &[OwedAt]
        ensures { result.now ≡ self.now }
    {
        &self.stamps
    }
}

/// Counts of what was sent, one list for each sequence. Contracts see their list.
#[derive(Debug, Drop)]
pub struct SentTables {
    tables: Vec<SentCounts>,
}

impl Model for SentTables {
    ghost use Rattle.std.specs.Prelude.{List};
    ghost use Rattle.fw_frontier.specs.declared.state.SentCount.{SentCount};

    ghost Value = { List (List SentCount) };

    ghost view = { λ list. list.tables.items };
}

impl SentTables {
    /// These tables.
    pub fn of(tables: Vec<SentCounts>) -> Self
        ensures { result ≡ tables.items }
    {
        SentTables { tables }
    }

    /// The tables, in order.
    pub fn as_slice(&self) -> &[SentCounts]
        ensures { result.now ≡ self.now }
    {
        &self.tables
    }
}
