//! Whether a cut lies within another.
ghost use Rattle.std.specs.Prelude.{◌↔◌, ℕ, IsTrue};
ghost use Rattle.fw_flow.specs.declared.choice.Cut.TheVariants as variants;
ghost use Rattle.fw_flow.specs.Dataflow.{Dataflow, bounds_of};
ghost use Rattle.fw_model.specs.Choice.{IsCanonicalCut, IsCutWithin};

use fw_flow::Cut;
use fw_frontier::Front;

/// Whether a cut lies within another.
pub(crate) fn lies_within(cut: &Cut, other: &Cut) -> bool
    ensures { (flow : Dataflow) (p : ℕ) → IsCanonicalCut (bounds_of flow p) other.now → (IsTrue result ↔ IsCutWithin flow p cut.now other.now) }
{
    match cut {
        Cut::Present => match other {
            Cut::Present => true,
            Cut::At(_) => false,
        },
        Cut::At(front) => is_inside(front, other),
    }
}

/// Whether a frontier lies within a cut.
pub(crate) fn is_inside(front: &Front, cut: &Cut) -> bool
    ensures { (flow : Dataflow) (p : ℕ) → IsCanonicalCut (bounds_of flow p) cut.now → (IsTrue result ↔ IsCutWithin flow p (variants.At front.now) cut.now) }
{
    match cut {
        Cut::Present => true,
        Cut::At(other) => front.subset(other),
    }
}
