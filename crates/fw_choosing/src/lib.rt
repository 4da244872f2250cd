//! The proved choice over texts, for any engine: two commands.
#![tactic(auto)]

mod answer;
mod bare;
mod call;
mod choose;
pub mod laws;
mod reading;
mod status;
mod text;
mod verify;
mod words;

pub use call::falkirk_choose;
pub use fw_offers_text::{ChoiceCode, ChoiceRefusal};
pub use status::ChoosingStatus;
pub use words::{is_choosing, names_of_texts};
