//! The laws of what is done in a session: each function's `ensures` is one law, and its body is empty.
ghost use Rattle.fw_session.specs.FedRunning.{FedBatchesStand, OpenSourcesCanBeFed};
ghost use Rattle.fw_session.specs.LawsOfStories.{StoriesAreRuns, StoriesGoOn, StoriesHaveWhatCame, StoriesShowWhatIsDenoted};

/// A session opens with a story, and each story goes on by a batch that a source is fed, by a source that is closed, and by a step that is
/// enabled and injects no last batch of an open source.
pub fn stories_go_on()
    ensures { StoriesGoOn }
{}

/// The steps of a story with their effects are a run over the batches that came in the end, and over all that go on behind them.
pub fn stories_are_runs()
    ensures { StoriesAreRuns }
{}

/// What a story acknowledges is what the dataflow means of any batches that go on behind those that came, where they make a well-formed
/// system.
pub fn stories_show_what_is_denoted()
    ensures { StoriesShowWhatIsDenoted }
{}

/// To each source came what the actions of a story gave it, in order, and an empty batch where it was closed.
pub fn stories_have_what_came()
    ensures { StoriesHaveWhatCame }
{}

/// What an engine keeps, where it stands for the state of a story and is fed a batch of an open source, stands for that state over the
/// batches with that one.
pub fn fed_batches_stand()
    ensures { FedBatchesStand }
{}

/// What an engine keeps, where it stands for the state of a story, can be fed a batch of an open source, if there is room for one.
pub fn open_sources_can_be_fed()
    ensures { OpenSourcesCanBeFed }
{}
