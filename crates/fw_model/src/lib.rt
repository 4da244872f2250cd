//! The definitions that every claim of the engine rests on: the denotation, the machine without failures, restore
//! candidates, choices, and the event-list machine. They stand in `specs/`, with the laws that they obey.
#![tactic(auto)]

pub mod laws;
