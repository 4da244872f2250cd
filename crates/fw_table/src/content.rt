//! What a table keeps of one time.
ghost use Rattle.std.specs.Prelude.{ℕ, List, [], ◌∷◌, OnOk, OnErr};
ghost use Rattle.fw_bag.specs.Arrivals.{Arrival, arrival};

use fw_bag::Rec;
use std::alloc::{AllocError, Global};

/// What a table keeps of the recs that came at one time.
pub trait Content: Drop {
    // the content is that of these arrivals, the latest first
    ghost holds: { Self → List Arrival → Type 0 };

    /// The content where nothing came.
    fn empty(alloc: Global) -> Self
        ensures { holds result [] };

    /// Takes in a rec that came on an in-edge, by the edge's place among them.
    ///
    /// It fails where memory is refused; then the content is that of what came before.
    fn put(&mut self, side: usize, rec: Rec) -> Result<(), AllocError>
        ensures ok { (t : List ℕ) (came : List Arrival) → holds self.old came
            → OnOk result (holds self.new (arrival side t rec ∷ came)) }
        ensures err { (came : List Arrival) → holds self.old came → OnErr result (holds self.new came) };
}
