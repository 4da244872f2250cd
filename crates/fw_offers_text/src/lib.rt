//! The texts of choices: what the nodes of a flow offer, and certificates.
#![tactic(auto)]

mod certificate_form;
mod certificate_reader;
mod claim;
mod claim_draft;
mod code;
mod draft;
mod entering;
mod form;
pub mod laws;
mod offer_form;
mod offers;
mod offers_reader;
mod owed;
mod recording;
mod stamp;
mod statement;
mod stating;
mod words;

pub use certificate_reader::{one_claim, read_certificate};
pub use claim::{Claim, Ending};
pub use code::{ChoiceCode, ChoiceFault, ChoiceRefusal};
pub use offers::Offers;
pub use offers_reader::{CHOICE_LIMIT, one_answer, read_offers};
