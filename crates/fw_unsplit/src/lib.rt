//! Texts whose flow splits nodes: without the word they are accepted too, and denote the same at their outputs. The law stands in
//! `specs/WithoutTheWord.antt`.
#![tactic(auto)]

pub mod laws;
