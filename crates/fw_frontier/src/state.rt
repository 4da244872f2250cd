//! What a node's table is recorded as.
ghost use Rattle.std.specs.Prelude.{◌≡◌};

use fw_bag::Recs;
use fw_time::Stamp;
use std::marker::Model;

/// What the events of a node inside a frontier made of it: with it the node answers later events as it does now.
#[derive(Debug, Drop)]
pub struct State {
    /// How many messages they sent, each counted once however many out-edges there are.
    pub sent: u64,
    /// For a sequence how many messages those at each stamp sent, in ascending order of the stamps; empty for other kinds.
    pub sends: SentCounts,
    /// What the node holds of what came inside.
    pub entries: Entries,
}

/// What a node holds of what came to it at stamps that are not told apart any more.
#[derive(Debug, Drop)]
pub enum Entries {
    /// For each key the sum of its values, in ascending order of the keys; nothing for a kind that keeps no sums.
    Totals(Recs),
}

/// How many messages a node's events at a stamp sent.
#[derive(Debug, Drop)]
pub struct SentCount {
    /// The stamp of the events.
    pub cause: Stamp,
    /// How many messages they sent.
    pub count: u64,
}

/// Counts of what was sent, by the stamps of the events. Contracts see their list.
#[derive(Debug, Drop)]
pub struct SentCounts {
    counts: Vec<SentCount>,
}

impl Model for SentCounts {
    ghost use Rattle.std.specs.Prelude.{List};
    ghost use Rattle.fw_frontier.specs.declared.state.SentCount.{SentCount};

    ghost Value = { List SentCount };

    ghost view = { λ counts. counts.counts.items };
}

impl SentCounts {
    /// These counts.
    pub fn of(counts: Vec<SentCount>) -> Self
        ensures { result ≡ counts.items }
    {
        SentCounts { counts }
    }

    /// The counts, in order.
    pub fn as_slice(&self) -> &[SentCount]
        ensures { result.now ≡ self.now }
    {
        &self.counts
    }
}
