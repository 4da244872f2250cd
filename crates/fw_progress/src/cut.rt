//! What a recovery leaves of what is counted.
ghost use Rattle.std.specs.Prelude.{◌≡◌, ◌<◌, ℕ, [], length, slice_index_or, IfSome, IfNone};
ghost use Rattle.fw_flow.specs.declared.choice.Cut.TheVariants as cuts;
ghost use Rattle.fw_model.specs.Choice.{cut_of};
ghost use Rattle.fw_progress.specs.Cut as spec;
ghost use Rattle.fw_progress.specs.Cut.{AreCut, epochs_left, tally_left};
ghost use Rattle.fw_progress.specs.Counts.{AreCounts};
ghost use Rattle.fw_progress.specs.Progress.{ChangesAt};

use crate::counts::Counts;
use crate::tally::Tally;
use fw_flow::{Choice, Cut, Flow, SentTable};
use fw_frontier::Front;
use fw_time::Stamp;

/// The front to which the node at a place is cut; none where it stays as it is.
fn front_at(choice: &Choice, place: usize) -> Option<&Front>
    ensures some { IfSome result (λ f. cut_of choice.now place ≡ cuts.At f.now) }
    ensures none { IfNone result (cut_of choice.now place ≡ cuts.Present) }
{
    match choice.cuts.as_slice().get(place) {
        Some(Cut::At(front)) => Some(front),
        _ => None,
    }
}

/// Leaves what is owed to a node inside its cut.
fn cut_owed_at(owed: &mut Vec<Tally>, choice: &Choice, place: usize)
    requires { place < length owed.old.items }
    ensures { ChangesAt place [] (λ old new. new ≡ tally_left (cut_of choice.now place) old) owed.old.items owed.new.items }
{
    let Some(front) = front_at(choice, place) else {
        return;
    };
    let tally = &mut owed[place];
    tally.keep_inside(front);
}

/// The same of each node.
fn cut_owed(owed: &mut Vec<Tally>, choice: &Choice)
    ensures one_each { length owed.new.items ≡ length owed.old.items }
    ensures left { (p : ℕ) → p < length owed.old.items
        → slice_index_or owed.new.items p [] ≡ tally_left (cut_of choice.now p) (slice_index_or owed.old.items p []) }
{
    for place in 0..owed.len() {
        cut_owed_at(owed, choice, place);
    }
}

/// So many epochs, but none from the one at which a stamp is, if it is one of epochs.
fn until_epoch(at: &Stamp, count: u64) -> u64
    ensures { result ≡ spec.until_epoch at.now count }
{
    if at.len() == 1 && (at.at(0) as u64) < count {
        at.at(0) as u64
    } else {
        count
    }
}

/// How many of the first epochs, so many, are inside a frontier.
fn epochs_inside(front: &Front, count: u64) -> u64
    ensures { result ≡ spec.epochs_inside_of_first front.now count }
{
    let outside = front.outside();
    let mut left = count;
    for stamp in outside {
        left = until_epoch(stamp, left);
    }
    left
}

/// Leaves the injections of a node inside its cut.
fn cut_injected_at(injected: &mut Vec<u64>, choice: &Choice, place: usize)
    requires { place < length injected.old.items }
    ensures { ChangesAt place 0 (λ old new. new ≡ epochs_left (cut_of choice.now place) old)
        injected.old.items injected.new.items }
{
    let Some(front) = front_at(choice, place) else {
        return;
    };
    let count = &mut injected[place];
    *count = epochs_inside(front, *count);
}

/// The same of each node.
fn cut_injected(injected: &mut Vec<u64>, choice: &Choice)
    ensures one_each { length injected.new.items ≡ length injected.old.items }
    ensures left { (p : ℕ) → p < length injected.old.items
        → slice_index_or injected.new.items p 0 ≡ epochs_left (cut_of choice.now p) (slice_index_or injected.old.items p 0) }
{
    for place in 0..injected.len() {
        cut_injected_at(injected, choice, place);
    }
}

/// Leaves what is owed and was injected inside the cuts of a choice; these are pending, and this is what sequences sent. It
/// takes no memory.
pub(crate) fn cut_counts(
    flow: &Flow,
    counts: &mut Counts,
    choice: &Choice,
    pending: Vec<Tally>,
    sent: Vec<SentTable>,
)
    requires { AreCounts flow.now counts.old }
    ensures cut { AreCut flow.now choice.now counts.old counts.new }
    ensures pending { counts.new.pending.items ≡ pending.items }
    ensures sent { counts.new.sent.items ≡ sent.items }
{
    let _ = flow;
    cut_owed(&mut counts.owed, choice);
    cut_injected(&mut counts.injected, choice);
    counts.pending = pending;
    counts.sent = sent;
}
