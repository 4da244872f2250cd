//! Progress: up to where everything has come at each node, kept from event to event.
//!
//! `Progress` counts what is pending on the edges and owed to the nodes, what inputs injected and sequences sent, by one
//! call for each event. Of each node it keeps a frontier within its complete one; `Progress::refresh` widens those that can
//! be widened until each is complete, at the cost of what changed.
//!
//! `Traces` keep at which stamps the events of each node are, as a recovery asks for them: `KeptStamps`, thinned inside a base.
#![tactic(auto)]

mod counts;
mod covers;
mod cut;
mod events;
mod grow;
mod growth;
mod kept_stamps;
pub mod laws;
mod leap;
mod notices;
mod progress;
mod recall;
mod refresh;
mod restore;
mod sent_tally;
mod settle;
mod stamps;
mod start;
mod tally;
mod target;
mod traces;
mod worklist;

pub use counts::Counts;
pub use events::can_send;
pub use growth::{Growth, Growths};
pub use kept_stamps::KeptStamps;
pub use progress::Progress;
pub use sent_tally::SentTally;
pub use tally::Tally;
pub use traces::Traces;
