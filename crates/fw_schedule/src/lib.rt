//! Schedules: the reader of their texts, and those that are made in code.
#![tactic(auto)]

mod coordinates;
mod item;
pub mod laws;
mod lines;
mod making;
mod names;
mod reader;
mod schedule;
mod shown;
mod step;

pub use coordinates::{is_numeral, is_stamp, number_up_to, stamp_up_to};
pub use item::{Item, STEP_LIMIT};
pub use lines::line_numbers;
pub use making::ItemFault;
pub use reader::{SCHEDULE_LIMIT, one_answer, read_schedule};
pub use schedule::Schedule;
pub use shown::{ItemText, ScheduleText, StepText};
