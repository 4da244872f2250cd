//! What each part of an engine holds of a state of the machine, and the laws by which it goes on holding it.
//!
//! An engine keeps no history: it keeps tables, queues, logs, batches, outputs, progress, traces and a catalogue of writes.
//! `specs/Parts.antt` and `specs/Written.antt` say when each of these stands for a state of the event-list machine. The laws
//! say, step by step and part by part, what has to become of a part for it to stand for the next state. They are the public
//! lemmas of `proofs/`, each with its sentence over it. There is no code here.
#![tactic(auto)]
