//! The laws of what is printed: each function's `ensures` is one law, and its body is empty.
ghost use Rattle.fw_run.specs.Answers.{known_by};
ghost use Rattle.fw_run.specs.HeldCalls.{AnswersAreOfViews, CallsAreOneRun, EmptyHoldsNoStart, LaterCallMayBegin, known_of_views};
ghost use Rattle.fw_run.specs.TellingMore.{ExplainIsRun, ExplainPrintsReasons, LinesAreOne, RunPrintsMachine};
ghost use Rattle.fw_run.specs.Unbroken.{FirstHoldIsRun, UnbrokenIsRun};

use fw_outside::{Folder, Sink, Store};

/// What `run` prints of items, where it is known what comes of them, is the text of the machine's run over them.
pub fn run_prints_machine()
    ensures { RunPrintsMachine }
{}

/// What `explain` prints of them is that run too, and exactly behind the lines of cuts the certificate that the trail of their state is.
pub fn explain_prints_reasons()
    ensures { ExplainPrintsReasons }
{}

/// What is told with certificates is, but for these, what `run` tells of the same steps.
pub fn explain_is_run()
    ensures { ExplainIsRun }
{}

/// What comes of a step in a state has one text.
pub fn lines_are_one()
    ensures { LinesAreOne }
{}

/// An empty store holds what no start of a held run left: nothing.
pub fn empty_holds_no_start()
    ensures { EmptyHoldsNoStart }
{}

/// Over what earlier starts left a call of `falkirk` with the same texts may begin.
pub fn later_call_may_begin()
    ensures { LaterCallMayBegin }
{}

/// Calls of `hold` with the same texts, one after another over one store that tells its records, are one run of the machine: each output
/// acknowledges what the dataflow denotes there, each epoch or number once over all of them.
pub fn calls_are_one_run<F: Folder, K: Store, O: Sink>()
    ensures { CallsAreOneRun (known_by F.texts F.fetch_count F.fault_count K.view O.view) }
{}

/// What is promised of a call of `hold` is promised of what is known of its folder, its store and its output.
pub fn answers_are_of_views<F: Folder, K: Store, O: Sink>()
    ensures { AnswersAreOfViews (known_by F.texts F.fetch_count F.fault_count K.view O.view) }
{}

/// Calls of `hold` with the same texts are one run of the machine also where their folders, stores and outputs are of different types, as
/// stores on disk are that were opened over what others left: where each call's store holds what the one before told at its end.
pub fn calls_of_any_are_one_run()
    ensures { CallsAreOneRun known_of_views }
{}

/// What a start of a held run prints that finds no root, and is taken to its end, is what `run` prints of the same texts.
pub fn unbroken_hold_is_run()
    ensures { UnbrokenIsRun }
{}

/// What a call of `hold` prints that finds nothing kept, and ends at 0, is what `run` prints of the same texts.
pub fn first_hold_is_run()
    ensures { FirstHoldIsRun }
{}
