//! The engine, as one from whose steps a run can start again.
#![tactic(auto)]

mod restartable;

pub use restartable::RestartableEngine;
