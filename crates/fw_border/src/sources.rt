//! The batches of the inputs.
ghost use Rattle.std.specs.Prelude.{◌≡◌, ◌≤◌, IfOk, IsErr, OnOk, map};
ghost use Rattle.std.specs.Option.{option_map};
ghost use Rattle.fw_flow.specs.Dataflow.{batches_of_nodes};
ghost use Rattle.fw_border.specs.Sources.{unused_source, source_at, with_source, next_batch, advanced, rolled_source, given_up, can_be_fed, fed_batch};

use crate::source::Source;
use fw_bag::Bag;
use fw_flow::{Cut, Flow, NodeId};
use fw_frontier::Front;
use fw_lines::Batches;
use std::alloc::{AllocError, Global};
use std::marker::Model;

/// The batches of the inputs of a dataflow: those that are not given up, and how many of each input were injected.
///
/// Contracts see for each node how many batches it was given, how many were injected, and those held by epoch. A node that
/// has no batches is as an input without any, and past the last node a call changes nothing. No call but `new` and `feed` takes memory.
#[derive(Debug, Drop)]
pub struct Sources {
    sources: Vec<Source>,
}

impl Model for Sources {
    ghost use Rattle.std.specs.Prelude.{List};
    ghost use Rattle.fw_border.specs.Sources.{SourceState};

    ghost Value = { List SourceState };

    ghost view = { λ all. all.sources.items };
}

impl Sources {
    /// The inputs of a flow with copies of these batches, none injected. The only error is want of memory.
    pub fn new(alloc: Global, flow: &Flow, batches: &Batches) -> Result<Self, AllocError>
        ensures { IfOk result (λ sources. sources ≡ map unused_source (batches_of_nodes flow.now batches.now)) }
    {
        let mut sources = Vec::new(alloc);
        for place in 0..flow.nodes() as u32 {
            sources.push(Source::new(alloc, batches.of(place))?)?;
        }
        Ok(Sources { sources })
    }

    /// The batch that an input injects next: that of the epoch after those injected. None exactly where it does not hold it,
    /// as where each was injected.
    pub fn next(&self, source: NodeId) -> Option<&Bag>
        ensures { option_map (λ b. b.now.recs) result ≡ next_batch (source_at self.now source) }
    {
        self.sources.get(source.place() as usize)?.next()
    }

    /// Counts one batch more of an input as injected, if there is one.
    pub fn advance(&mut self, source: NodeId)
        ensures { self.new ≡ with_source advanced self.old source }
    {
        if let Some(source) = self.sources.get_mut(source.place() as usize) {
            source.advance();
        }
    }

    /// An input's last batch gives its place to this one, and an empty one is behind it, if the last one is held and there can be one more:
    /// whether that is so is told. The error is want of memory; then nothing changes.
    pub fn feed(&mut self, alloc: Global, source: NodeId, batch: Bag) -> Result<bool, AllocError>
        ensures told { IfOk result (λ was_fed. was_fed ≡ can_be_fed (source_at self.old source)) }
        ensures fed { OnOk result (self.new ≡ with_source (fed_batch batch.recs) self.old source) }
        ensures stays { IsErr result → self.new ≡ self.old }
    {
        match self.sources.get_mut(source.place() as usize) {
            Some(source) => source.feed(alloc, batch),
            None => Ok(false),
        }
    }

    /// How many batches of an input were injected.
    pub fn injected(&self, source: NodeId) -> u64
        ensures count { result ≡ (source_at self.now source).injected }
        ensures given { result ≤ (source_at self.now source).given }
    {
        match self.sources.get(source.place() as usize) {
            Some(source) => source.injected(),
            None => 0,
        }
    }

    /// How many batches an input was given, those given up too.
    pub fn batches(&self, source: NodeId) -> u64
        ensures { result ≡ (source_at self.now source).given }
    {
        match self.sources.get(source.place() as usize) {
            Some(source) => source.given(),
            None => 0,
        }
    }

    /// Counts of an input's injections those alone that lie within the cut.
    pub fn roll_to(&mut self, source: NodeId, cut: &Cut)
        ensures { self.new ≡ with_source (rolled_source cut.now) self.old source }
    {
        if let Some(source) = self.sources.get_mut(source.place() as usize) {
            source.roll_to(cut);
        }
    }

    /// Drops an input's batches of the epochs inside: they are given up. What stays is not looked at.
    pub fn acknowledge(&mut self, source: NodeId, low: &Front)
        ensures { self.new ≡ with_source (given_up low.now) self.old source }
    {
        if let Some(source) = self.sources.get_mut(source.place() as usize) {
            source.acknowledge(low);
        }
    }
}
