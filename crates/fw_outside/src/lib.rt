//! The outside of a run: a folder of texts, a store of records and sinks of text, as traits that say what each
//! call gives and when it may fail; the same in memory; and the adapters over real files and streams.
#![tactic(auto)]

mod fault;
mod file_folder;
mod folder;
mod foul_store;
mod mem_folder;
mod mem_sink;
mod mem_store;
mod sink;
mod store;
mod stream_sink;

pub use fault::{Failed, FetchFault, OutFault};
pub use file_folder::FileFolder;
pub use folder::Folder;
pub use foul_store::{FoulBytes, FoulStore};
pub use mem_folder::{FaultlessFolder, MemFolder, MemText};
pub use mem_sink::{FaultlessSink, MemSink};
pub use mem_store::{FaultlessStore, MemStore};
pub use sink::Sink;
pub use store::Store;
pub use stream_sink::StreamSink;
