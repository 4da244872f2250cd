//! Whether values are those of a choice.
ghost use Rattle.std.specs.Prelude.{◌≡◌, ◌↔◌, ◌<◌, IsTrue};
ghost use Rattle.fw_model.specs.Lowerings.{choice_of};

use crate::begin::Values;
use fw_flow::{Choice, Cut};
use fw_frontier::Front;

/// Whether these values are those of a choice.
pub(crate) fn is_choice(values: &Values, choice: &Choice) -> bool
    ensures { IsTrue result ↔ choice_of values.now.cuts.items values.now.notices.items ≡ choice.now }
{
    if !are_same_cuts(&values.cuts, choice.cuts.as_slice()) {
        return false;
    }
    are_same_fronts(&values.notices, choice.notices.as_slice())
}

/// Whether the cuts are the same ones, each in its place.
fn are_same_cuts(cuts: &[Cut], others: &[Cut]) -> bool
    ensures { IsTrue result ↔ cuts.now ≡ others.now }
{
    if cuts.len() != others.len() {
        return false;
    }
    for place in 0..cuts.len() {
        if !is_same_cut(&cuts[place], &others[place]) {
            return false;
        }
    }
    true
}

/// Whether a cut is the same as another.
fn is_same_cut(cut: &Cut, other: &Cut) -> bool
    ensures { IsTrue result ↔ cut.now ≡ other.now }
{
    match cut {
        Cut::Present => match other {
            Cut::Present => true,
            Cut::At(_) => false,
        },
        Cut::At(front) => match other {
            Cut::Present => false,
            Cut::At(another) => front.same(another),
        },
    }
}

/// Whether the frontiers are the same ones, each in its place.
fn are_same_fronts(fronts: &[Front], others: &[Front]) -> bool
    ensures { IsTrue result ↔ fronts.now ≡ others.now }
{
    if fronts.len() != others.len() {
        return false;
    }
    for place in 0..fronts.len() {
        if !fronts[place].same(&others[place]) {
            return false;
        }
    }
    true
}
