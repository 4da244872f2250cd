//! A sink over a stream and a folder of real files that tell: what the stream was handed and answered for, and what was read.
#![tactic(auto)]

mod named_files;
mod read_folder;
mod reading;
mod telling_sink;
mod texts;

pub use named_files::NamedFiles;
pub use read_folder::ReadFolder;
pub use telling_sink::TellingSink;
pub use texts::read_texts;
