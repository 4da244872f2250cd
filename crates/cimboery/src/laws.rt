//! What is true of every run and of every session, and of texts that are read back: laws, to be called where a proof cites them.
pub use fw_flow_text::laws::{batches_are_read_back, flow_is_read_back};
pub use fw_headline::laws::every_run_is_right;
pub use fw_lasting::laws::{kept_stories_start_again, stories_start_again};
pub use fw_live::laws::{lives_over_memory_go_well, lives_print_as_runs, stories_print_as_runs};
pub use fw_relive::laws::{empty_stores_may_begin, lasting_calls_go_on, lasting_calls_tell_again};
pub use fw_schedule::laws::schedule_is_read_back;
pub use fw_session::laws::{
    stories_are_runs, stories_go_on, stories_have_what_came, stories_show_what_is_denoted,
};
