//! What became of calls, for clauses alone.
ghost use Rattle.std.specs.Prelude.{◌≡◌, List, [], ◌∷◌};
ghost use Rattle.std.specs.Borrow.{ftrue};
ghost use Rattle.fw_heard.specs.Note.{Note, note_of};

use std::marker::{Model, PhantomData};

/// What was noted so far, the newest first. It is there for clauses alone, and takes no memory.
#[derive(Drop)]
pub struct Heard {
    marker: PhantomData<u8>,
    pub ghost notes: { List Note },
}

impl Model for Heard {
    ghost also_owns = { λ _. ftrue };
}

impl Heard {
    /// Nothing yet.
    pub fn new() -> Heard
        ensures { result.notes ≡ [] }
    {
        Heard {
            marker: PhantomData,
        }
    }

    /// Notes numbers, of which the first says what became of a call, and bytes.
    pub fn note(&mut self, _numbers: &[u64], _bytes: &[u8])
        ensures { self.new.notes ≡ note_of _numbers.now _bytes.now ∷ self.old.notes }
    {}
}
