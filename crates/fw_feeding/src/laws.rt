//! The laws of feeding. Of each function that stands here the `ensures` is one law, and the body is empty.
//!
//! A source that is open has one batch more than came, its last, which stands for what comes; an open run injects none of these.
//! Later batches go on behind those of now by `GoOnEach`. A run begins in the machine's first state, and its steps are any, failures,
//! recoveries and collections among them.
ghost use Rattle.fw_feeding.specs.LawsOfFeeding.{ClosingKeepsOpenRuns, FedEnginesStand, FedRunsAreRuns, FedSourcesStand, OpenRunsAreRuns, OpenRunsGoOnOverMore, OpenRunsShowWhatIsDenoted};

/// An open run is one over any batches that go on behind these, with the same effects to the same state.
pub fn open_runs_go_on_over_more()
    ensures { OpenRunsGoOnOverMore }
{}

/// An open run is a run of the machine, of which each step is done.
pub fn open_runs_are_runs()
    ensures { OpenRunsAreRuns }
{}

/// An open run is one where fewer sources are open.
pub fn closing_keeps_open_runs()
    ensures { ClosingKeepsOpenRuns }
{}

/// What an open run acknowledges is what the dataflow means of any batches that go on behind these, where they make a well-formed
/// system.
pub fn open_runs_show_what_is_denoted()
    ensures { OpenRunsShowWhatIsDenoted }
{}

/// Whatever is fed, closed and taken, in whatever order: the steps with their effects are a run over the batches that came in the
/// end, and over all that go on behind them.
pub fn fed_runs_are_runs()
    ensures { FedRunsAreRuns }
{}

/// What is kept of a source whose last batch lies outside the low watermark is, once the source is fed with a batch, what is kept of
/// it over the later batches, in the same state.
pub fn fed_sources_stand()
    ensures { FedSourcesStand }
{}

/// An engine that stands for the last state of an open run stands for it over the batches that go on behind these, once it is fed
/// with them.
pub fn fed_engines_stand()
    ensures { FedEnginesStand }
{}
