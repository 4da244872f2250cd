//! A dataflow engine whose recovery undoes no more than its rules of consistency ask: all that a program which embeds it wants, in one crate.
//!
//! - A flow: `FlowBuilder` makes one in code, `read_flow` reads one from a text; `Flow` answers what its nodes and edges are.
//! - What flows: `Rec`, a key and a value; `Batches`, for each input its batches by epoch, made by `Flow::no_batches` and
//!   `Flow::add_batch` or read by `read_batches`; `Selection`, what a select does to a rec.
//! - A schedule: `Schedule::new` and `Schedule::add` make one in code, `read_schedule` reads one from a text; an `Item` of it is a
//!   step, or `auto` and how many steps it may take.
//! - Texts: `FlowText`, `BatchesText`, `ScheduleText`, `ItemText` and `StepText` print what was made as the readers take it, by the
//!   laws `flow_is_read_back`, `batches_are_read_back` and `schedule_is_read_back`.
//! - A run: `Engine::new` takes a flow and batches of which `Flow::accepts` is true, as it is of those of `Flow::add_batch`; `Engine::step` takes a `Step` and answers
//!   `Stepped`, with the `Effect` that it shows, or an `EngineFault`; `Engine::auto_step` takes the first step that is enabled.
//!   Each call is lent the `Store` of what nodes write, always the same one, which at first holds no record.
//! - Looks at an engine: `Engine::settled`, `is_failed`, `acknowledged`, `low_watermark`, `injected`; `table`, what stands for a
//!   node's events; `pending`, which shows a `Queue`, and `logged`, a `MsgLog`; `kept`, what an output did not acknowledge yet;
//!   the catalogue, `writes`, of which each `Entry` tells what is `Written`, and whether it is in flight.
//! - Why a recovery cuts no less: `Engine::outlook` has what the nodes offer and the `Descent` to the largest choice; `explain` makes a
//!   `Certificate` of its `Trail`, and `verify` says what a checker of its own finds.
//! - A run that is fed: a `Session` owns an engine and its store, and takes batches while it runs; `Session::feed` and `close` answer a
//!   `FeedFault` where a source is not open or has no room. Its steps are a run over the batches that came in the end
//!   (`laws::stories_are_runs`), and what it acknowledges is what the dataflow means of them.
//! - A session over lines: `Live` answers each line as `falkirk live` does (`Live::answer`), over a `Session`, or over a `LastingSession`,
//!   which keeps in its store what it needs to go on after a kill; both are `Living`. `falkirk_live` and `falkirk_lasting` are the commands,
//!   over a `LineSource` and a `Sink`.
//! - Times: `Stamp`; `Front`, a frontier; `Cut` and `Choice`, to what a recovery restores the nodes.
//! - What is true of every run, whoever takes its steps: the law `every_run_is_right`.
//! - The command over texts: `falkirk`, with its `Folder`, `Store` and `Sink` in memory, over files (`ReadFolder`, `DiskStore`,
//!   `TellingSink`) or of your own.
#![tactic(auto)]

pub mod laws;

pub use fw_bag::{
    Assignment, Bag, Comparison, Condition, Field, NewValue, Rec, Recs, Selection, Term,
};
pub use fw_certify::{Certificate, Verdict, explain, verify};
pub use fw_disk::{DiskStore, Empty, Start, Unknown};
pub use fw_edge::{MsgLog, Queue};
pub use fw_engine::{Effect, Engine, EngineFault, Outlook, Shown, Stepped};
pub use fw_flow::{
    BatchFault, BuildFault, Cause, Causes, Choice, Cut, Cuts, Domain, Edge, EdgeId, Flow,
    FlowBuilder, Fronts, FullName, KeyPart, Kind, Loop, LoopId, Lowering, Message, Name, Node,
    NodeId, Nodes, Offer, Part, Policy, RawKind, Step, Trail,
};
pub use fw_flow_text::{BatchesText, FLOW_LIMIT, FlowText, read_flow};
pub use fw_frontier::Front;
pub use fw_keep::{Entry, Written};
pub use fw_lines::{Batches, Code, INPUTS_LIMIT, ReadFault, Refusal, SourceNames, read_batches};
pub use fw_monitor::Descent;
pub use fw_outside::{
    Failed, FetchFault, Folder, MemFolder, MemSink, MemStore, MemText, OutFault, Sink, Store,
};
pub use fw_run::{Status, falkirk};
pub use fw_schedule::{
    Item, ItemFault, ItemText, SCHEDULE_LIMIT, STEP_LIMIT, Schedule, ScheduleText, StepText,
    read_schedule,
};
pub use fw_session::{Arrivals, FeedFault, Session};
pub use fw_telling::{NamedFiles, ReadFolder, TellingSink};
pub use fw_time::{Bounds, Stamp};

// Sessions over lines, and such as last.
pub use fw_hold::HoldFault;
pub use fw_lasting::{LastingSession, NotStarted, Resumed};
pub use fw_live::{
    LINE_LIMIT, LineRule, LineSource, Live, MemLines, NextLine, ServeFault, StreamLines,
    falkirk_live,
};
pub use fw_living::{LifeFault, Living};
pub use fw_relive::{Lasted, falkirk_lasting};
pub use fw_root::{Digests, Printed};
