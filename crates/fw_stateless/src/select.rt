//! The kinds that send a rec on at the time at which it came.
ghost use Rattle.std.specs.Prelude.{◌≡◌, ◌∷◌, [], option_to_list};
ghost use Rattle.fw_bag.specs.Select.{selected_rec};

use fw_bag::{Rec, Selection};
use fw_frontier::Logical;
use fw_table::Sent;
use std::marker::PhantomData;

/// Sends a rec on where a condition holds of it, after an assignment if there is one.
#[derive(Clone, Copy, Debug)]
pub struct Select<T> {
    /// The condition and the assignment.
    pub selection: Selection,
    times: PhantomData<T>,
}

impl<T: Logical> Select<T> {
    /// The node that selects so.
    pub fn new(selection: Selection) -> Self
        ensures { result.selection ≡ selection }
    {
        Select {
            selection,
            times: PhantomData,
        }
    }

    /// Sends what the selection makes of the rec, at the time at which it came.
    pub fn on_message(&self, t: T, rec: Rec) -> Sent<T>
        ensures { result ≡ record { at = t; recs = option_to_list (selected_rec self.now.selection rec) } }
    {
        Sent::of(t, self.selection.apply(rec))
    }
}

/// Sends each rec on, whichever edge it came on.
#[derive(Clone, Copy, Debug)]
pub struct Concat<T> {
    times: PhantomData<T>,
}

impl<T: Logical> Concat<T> {
    /// The node.
    pub fn new() -> Self {
        Concat { times: PhantomData }
    }

    /// Sends the rec at the time at which it came.
    pub fn on_message(&self, t: T, rec: Rec) -> Sent<T>
        ensures { result ≡ record { at = t; recs = rec ∷ [] } }
    {
        Sent::of(t, Some(rec))
    }
}
