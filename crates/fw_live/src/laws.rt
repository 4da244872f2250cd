//! The laws of what a session shows: each function's `ensures` is one law, and its body is empty.
ghost use Rattle.fw_live.specs.Call.{LivesGoWell};
ghost use Rattle.fw_live.specs.StoryText.{LivesPrintAsRuns, StoriesPrintAsRuns};

use fw_outside::{FaultlessStore, Store};

/// What a session showed is the text that a run prints, whose schedule is the steps that were done, over the batches that came in the end,
/// and over all that go on behind them.
pub fn stories_print_as_runs()
    ensures { StoriesPrintAsRuns }
{}

/// The lines of effects among the answers of a session, with the line of its steps behind them, are the text that a run prints, whose
/// schedule is the steps that were done, over the batches that came in the end, and over all that go on behind them.
pub fn lives_print_as_runs()
    ensures { LivesPrintAsRuns }
{}

/// Over a store in memory that never fails a session's command ends neither with 8 nor with 9, and no answer of it is `fault` or `damaged`.
pub fn lives_over_memory_go_well()
    ensures { LivesGoWell ⟦<FaultlessStore as Store>⟧.view }
{}
