//! The headline: what is true of every list of steps of every well-formed system, whatever engine takes them. It stands in
//! `specs/Right.antt`. And the laws of trails, in `specs/LawsOfTrails.antt`: by which lowerings the largest choice is come to from what
//! is offered in a state.
#![tactic(auto)]

pub mod laws;
