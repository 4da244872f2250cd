//! Bags of recs in ascending order, and the selections that nodes apply to single recs.
#![tactic(auto)]

mod bag;
mod iter;
mod rec;
mod select;

pub use bag::Bag;
pub use iter::Iter;
pub use rec::{Rec, Recs};
pub use select::{Assignment, Comparison, Condition, Field, NewValue, Selection, Term};
