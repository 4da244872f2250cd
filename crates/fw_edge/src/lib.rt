//! What is on an edge: what is pending for its receiver (`Queue`), and what its sender may have to send again (`MsgLog`).
//!
//! Contracts see each as the ascending list of its messages, by stamp, then rec, then causes, with a mark of whether memory
//! was refused to it. What is pending at a stamp is a heap; that of the least stamp stands apart, and the others are found by
//! stamp: putting and taking at the least stamp cost the logarithm of the messages at it, and elsewhere that of the stamps
//! besides. A log keeps its messages in the order of appending: one more costs one comparison, and one of its causes; copies are
//! sorted where the messages are not known to ascend, and what is new since an earlier frontier is found by halves where they are
//! known to come in turn.
#![tactic(auto)]

mod bag;
mod log;
mod message;
mod pile;
mod piles;
mod queue;
mod stamps;

pub use log::MsgLog;
pub use message::comes_from;
pub use queue::Queue;
pub use stamps::PendingStamps;
