//! A session that answers lines, its command, and what it answers as the text that a run prints.
#![tactic(auto)]

mod asked;
mod command;
mod counts;
mod fault;
pub mod laws;
mod line_source;
mod live;
mod mem_lines;
mod rule;
mod serving;
mod show;
mod stream_lines;
mod taking;
mod text;
mod turn;
mod words;

pub use asked::LINE_LIMIT;
pub use command::{end, falkirk_live, stopped, unread};
pub use counts::LineCounts;
pub use fault::ServeFault;
pub use line_source::{LineSource, NextLine};
pub use live::Live;
pub use mem_lines::MemLines;
pub use rule::LineRule;
pub use serving::serve;
pub use stream_lines::StreamLines;
pub use text::write_outcome;
pub use words::{LiveWords, is_live, name_of_text, parse};
