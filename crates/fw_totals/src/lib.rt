//! The kinds of nodes that keep totals over many times: running totals of epochs, and of numbers.
//!
//! Of what is settled, to which nothing comes any more, they keep for each key its total; of the rest the sums at each time.
//! Beside both they keep the running total of each key.
//!
//! Where memory is refused a table still is that of what came before, but one that is being restored by `take_changes`. Where
//! it was refused to a call that changes the table, each later call that takes memory fails; `totals_at`, `totals_since` and
//! `state_since` change nothing, and leave no mark.
#![tactic(auto)]

pub mod laws;
mod ledger;
mod settling;
mod total;
mod totals;

pub use ledger::Ledger;
pub use total::Total;
