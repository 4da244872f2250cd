//! The laws of fetching, in `specs/LawsOfFetching.antt`: what is restored from the record that `Keep::fetch` gives of a write is restored
//! from the records that it joins, one after the other; and a recovery that reads checkpoints reads just these records.
#![tactic(auto)]

pub mod laws;
