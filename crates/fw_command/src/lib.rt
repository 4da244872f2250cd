//! What the words of a command ask for: its texts are fetched and read, and what it prints of them without a step is printed.
#![tactic(auto)]

mod denoting;
mod held;
mod listing;
mod manner;
mod reading;
mod words;

pub use denoting::print_denotation;
pub use held::{HeldJob, flow_with_digest, read_held};
pub use listing::list;
pub use manner::{Course, LastLine, Manner, Showing};
pub use reading::{Fed, Job, JobFault, fetch_flow, read_fed, read_generated, read_job};
pub use words::{CommandWords, DenoteWords, GenerateWords, RunWords, held_words, parse};
