//! Theorems that show by worked examples that the definitions of dataflows, histories, choices and runs mean what they
//! should.
#![tactic(auto)]

mod chains_of_checkpoints;
mod fetched_records;
mod inclusions;
mod kinds_send;
mod laws_applied;
mod logs_after_collection;
mod loop_counts_up;
mod nested_loops;
mod traces_of_totals;
mod trails_of_state;
mod what_is_got_back;
mod what_was_told;
mod witnesses_of_laws;

pub use chains_of_checkpoints::{changes_are_kept, ninth_is_whole};
pub use fetched_records::chain_is_fetched;
pub use inclusions::{
    delivered_is_needed, discarded_is_needed, leaves_out_one, notices_are_needed,
    notified_is_needed, one_select_is_well_formed, own_is_needed, two_sources_is_well_formed,
};
pub use kinds_send::{
    distinct_sends_the_first, join_sends_each_pair, ledger_sends_running_totals,
    regroup_sends_at_epochs, sequence_sends_numbers, sum_sends_at_the_end, total_sends_up_to_now,
};
pub use laws_applied::{
    answers_apply, auto_applies, choices_apply, choosing_applies, collection_restored,
    collections_apply, deliveries_apply, denotation_applies, events_apply, filtering_applies,
    generation_applies, headline_applies, legal_histories_apply, logs_restored, progress_applies,
    projections_apply, replay_applies, rest_applies, restoring_applies, runs_apply,
    sending_applies, steps_apply, thinned_applies, writes_apply,
};
pub use logs_after_collection::{
    collects_a_logged_event, keeps_a_log_with_a_checkpoint, keeps_events_of_a_total, loses_an_epoch,
};
pub use loop_counts_up::{is_complete, is_restored, is_under_way, two_batches_count_up};
pub use nested_loops::{
    first_rounds_are_projected, nested_loops_are_well_formed, one_rec_counts_up,
    recovers_inside_the_inner_loop,
};
pub use traces_of_totals::{totals_are_declared, two_epochs_are_traced};
pub use trails_of_state::trails_of_state_apply;
pub use what_is_got_back::{every_node_is_down, third_lacks_an_epoch};
pub use what_was_told::{one_more_may_be_told, tables_apply};
pub use witnesses_of_laws::{
    an_epoch_is_closed, certificates_apply, checkpoints_are_offered, choices_unite, cuts_unite,
    each_step_has_its_choice, epochs_are_thinned, epochs_settle_in_turn, failure_is_reached,
    fronts_are_spelled, join_is_a_frontier, less_is_consistent, loop_is_filtered, loop_is_reached,
    low_watermark_rises, more_is_complete, no_step_is_taken, notified_and_goes_on,
    numbers_are_delivered, one_is_on_its_way, records_are_spelled, recovery_is_reached,
    sequence_is_filtered, some_is_settled, something_is_chosen, totals_are_filtered,
    totals_are_well_formed, trail_leads_to_largest, two_epochs_are_complete,
    two_epochs_are_the_same, two_runs_meet, two_steps_are_taken,
};
