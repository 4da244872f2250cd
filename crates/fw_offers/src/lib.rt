//! What nodes offer to a recovery, looked up and tested: whether a side of a cut lies within a bound, and in what it has to lie.
#![tactic(auto)]

mod arrived;
mod offered;
mod offers;
mod rights;
mod sides;

pub use offered::{is_all, is_offered};
pub use offers::{
    can_resend, can_stay, delivered_to, greatest, notified_of, offered_by, offers_all, records_of,
    sent_by, takes_its_notices,
};
pub use rights::{all_kept, cut_at, kept, limit_of, note_node, notice_at, right_of};
pub use sides::{front_passes, is_inside, owner, passes, passes_at};
