//! What a line asks for is done, and answered.
ghost use Rattle.std.specs.Prelude.{◌≡◌, ◌≤◌, ℕ, ◌++◌, [], false, length, List, IsErr, IsErrOf, IsSome, IfOk, OnOk};
ghost use Rattle.fw_engine.specs.Engine.{flow_of};
ghost use Rattle.fw_session.specs.Story.{Story};
ghost use Rattle.fw_living.specs.Life.{came_in_story, life_faults_after, CountsKeeping};
ghost use Rattle.fw_live.specs.Answered.{HasTurned, look_text};
ghost use Rattle.fw_live.specs.Answers.{after_change, change_text, counts_ended, ending_text};
ghost use Rattle.fw_live.specs.Answers as answers;
ghost use Rattle.fw_live.specs.Asked as spec;
ghost use Rattle.fw_live.specs.Asked.{change_fault, closes, feeds};
ghost use Rattle.fw_live.specs.Faults.{failed_times, more_by, FaultsBy};
ghost use Rattle.fw_live.specs.Reading.{change_in, heard_in, read_in, first_item};
ghost use Rattle.fw_live.specs.Relies.{EndsSo, IsMaybeReliedOn};
ghost use Rattle.fw_live.specs.Taken.{all};
ghost use Rattle.fw_outside.specs.Outside.{one_more};

use crate::asked::{Asked, Change};
use crate::counts::{LineCounts, TurnCounts};
use crate::rule::LineRule;
use crate::show::write_standing;
use crate::taking::take_turn;
use crate::text::{write_closed, write_damaged, write_done, write_fault, write_fed};
use fw_engine::EngineFault;
use fw_flow::NodeId;
use fw_lines::Code;
use fw_living::{LifeFault, Living};
use std::alloc::{AllocError, Global};

/// How many batches may come to a source that is fed one more.
const MOST: u64 = (1 << 20) - 1;

/// What was heard, unless its change breaks a rule.
pub(crate) fn allowed<S: Living>(
    session: &S,
    heard: Result<Asked, LineRule>,
) -> Result<Asked, LineRule>
    ensures { (story : Story) → S.at session.now story
        → heard_in result ≡ spec.allowed story.now.opened (came_in_story (flow_of (S.engine_of session.now)) story) (heard_in heard) }
{
    let asked = heard?;
    match fault(session, &asked.change) {
        Some(rule) => Err(rule),
        None => Ok(asked),
    }
}

// The rule that a change breaks.
fn fault<S: Living>(session: &S, change: &Change) -> Option<LineRule>
    ensures { (story : Story) → S.at session.now story
        → result ≡ change_fault story.now.opened (came_in_story (flow_of (S.engine_of session.now)) story) (change_in change.now) }
{
    match change {
        Change::Nothing | Change::Show => None,
        Change::Feed(source, _) => feed_fault(session, *source),
        Change::Close(source) => close_fault(session, *source),
    }
}

// The rule that a batch breaks, whatever it holds.
fn feed_fault<S: Living>(session: &S, source: NodeId) -> Option<LineRule>
    ensures { (story : Story) → S.at session.now story
        → result ≡ change_fault story.now.opened (came_in_story (flow_of (S.engine_of session.now)) story) (feeds source []) }
{
    if !session.is_open(source) {
        return Some(LineRule::Closed);
    }
    if session.came(source) >= MOST {
        return Some(LineRule::OfText(Code::I5));
    }
    None
}

// The rule that the end of a source breaks.
fn close_fault<S: Living>(session: &S, source: NodeId) -> Option<LineRule>
    ensures { (story : Story) → S.at session.now story
        → result ≡ change_fault story.now.opened (came_in_story (flow_of (S.engine_of session.now)) story) (closes source) }
{
    if session.is_open(source) {
        None
    } else {
        Some(LineRule::Closed)
    }
}

/// Does what a line asks for, keeps it, and answers it; and counts it. Where the line only looks, there is nothing to keep.
pub(crate) fn turn<S: Living>(
    alloc: Global,
    session: &mut S,
    asked: &Asked,
    rests: bool,
    counts: &mut LineCounts,
    into: &mut Vec<u8>,
) -> Result<(), LifeFault>
    ensures flow { flow_of (S.engine_of session.new) ≡ flow_of (S.engine_of session.old) }
    ensures told_before { IsSome (S.records session.new) → IsSome (S.records session.old) }
    ensures texts { S.digests_of session.new ≡ S.digests_of session.old }
    ensures left { (story : Story) → S.at session.old story → S.may_restart session.old → IsSome (S.records session.new) → S.may_restart session.new }
    ensures faults { FaultsBy result counts.old.faults counts.new.faults (S.fault_count session.old) (S.fault_count session.new) }
    ensures store_failed { (story : Story) → S.at session.old story → IsSome (S.records session.new) → IsErrOf result LifeFault.StoreFault
        → one_more (S.fault_count session.old) ≤ S.fault_count session.new }
    ensures lasts { S.lasts ≡ false → IsErrOf result LifeFault.StoreFault → ⊥ }
    ensures turned { (story : Story) (kept : List ℕ) → S.at session.old story → S.keeps session.old story kept
        → IsMaybeReliedOn (S.records session.new) (first_item asked.now.items)
        → IfOk result (λ _. HasTurned rests (flow_of (S.engine_of session.old)) story kept (read_in asked.now) counts.old counts.new into.old.items
        into.new.items (λ next lines. S.at session.new next × S.keeps session.new next lines) (S.records session.new)) }
    ensures lines { counts.new.lines ≡ counts.old.lines }
{
    if is_look(asked, rests) {
        counts.count_turn(TurnCounts::new());
        look(alloc, session, &asked.change, into)?;
        return Ok(());
    }
    act(alloc, session, asked, rests, counts, into)
}

// Whether a line only looks: it asks for no batch, for no end of an input, and for no step.
fn is_look(asked: &Asked, rests: bool) -> bool
    ensures { result ≡ answers.is_look rests (read_in asked.now) }
{
    match asked.items.as_slice() {
        [] => is_quiet(&asked.change, rests),
        [_, ..] => false,
    }
}

// Whether a change is none, or a look, behind which no steps to rest follow.
fn is_quiet(change: &Change, rests: bool) -> bool
    ensures { result ≡ answers.is_quiet rests (change_in change.now) }
{
    match change {
        Change::Nothing => !rests,
        Change::Feed(_, _) | Change::Close(_) => false,
        Change::Show => true,
    }
}

// Tells where the session stands, if that was asked, and that no step was done.
fn look<S: Living>(
    alloc: Global,
    session: &S,
    change: &Change,
    into: &mut Vec<u8>,
) -> Result<(), AllocError>
    ensures { (story : Story) → S.at session.now story → OnOk result (into.new.items ≡ into.old.items
        ++ (look_text (flow_of (S.engine_of session.now)) story (change_in change.now) ++ ending_text all 0)) }
{
    match change {
        Change::Show => write_standing(alloc, session, into)?,
        _ => {}
    }
    write_done(alloc, 0, into)
}

// Does what a line asks for, keeps it, and answers it; and counts it.
fn act<S: Living>(
    alloc: Global,
    session: &mut S,
    asked: &Asked,
    rests: bool,
    counts: &mut LineCounts,
    into: &mut Vec<u8>,
) -> Result<(), LifeFault>
    ensures flow { flow_of (S.engine_of session.new) ≡ flow_of (S.engine_of session.old) }
    ensures told_before { IsSome (S.records session.new) → IsSome (S.records session.old) }
    ensures texts { S.digests_of session.new ≡ S.digests_of session.old }
    ensures left { (story : Story) → S.at session.old story → S.may_restart session.old → IsSome (S.records session.new) → S.may_restart session.new }
    ensures faults { FaultsBy result counts.old.faults counts.new.faults (S.fault_count session.old) (S.fault_count session.new) }
    ensures store_failed { (story : Story) → S.at session.old story → IsSome (S.records session.new) → IsErrOf result LifeFault.StoreFault
        → one_more (S.fault_count session.old) ≤ S.fault_count session.new }
    ensures lasts { S.lasts ≡ false → IsErrOf result LifeFault.StoreFault → ⊥ }
    ensures turned { (story : Story) (kept : List ℕ) → S.at session.old story → answers.is_look rests (read_in asked.now) ≡ false
        → IsMaybeReliedOn (S.records session.new) (first_item asked.now.items)
        → IfOk result (λ _. HasTurned rests (flow_of (S.engine_of session.old)) story kept (read_in asked.now) counts.old counts.new into.old.items
        into.new.items (λ next lines. S.at session.new next × S.keeps session.new next lines) (S.records session.new)) }
    ensures lines { counts.new.lines ≡ counts.old.lines }
{
    begin(alloc, session, &asked.change, into)?;
    let begun = into.len();
    let mut steps = TurnCounts::new();
    let items = asked.items.as_slice();
    let rests = rests_behind(rests, &asked.change);
    let taken = take_turn(alloc, session, items, rests, &mut steps, into);
    counts.count_turn(steps);
    keep(session, taken, behind(into, begun))?;
    end(alloc, taken, steps.done, counts, into)?;
    Ok(())
}

// Whether steps to rest follow this change: behind a look none do.
fn rests_behind(rests: bool, change: &Change) -> bool
    ensures { result ≡ answers.rests_behind rests (change_in change.now) }
{
    match change {
        Change::Show => false,
        _ => rests,
    }
}

// Feeds a source, or closes it, and tells the epoch; or shows where the session stands.
fn begin<S: Living>(
    alloc: Global,
    session: &mut S,
    change: &Change,
    into: &mut Vec<u8>,
) -> Result<(), LifeFault>
    ensures flow { flow_of (S.engine_of session.new) ≡ flow_of (S.engine_of session.old) }
    ensures told_before { IsSome (S.records session.new) → IsSome (S.records session.old) }
    ensures texts { S.digests_of session.new ≡ S.digests_of session.old }
    ensures left { (story : Story) → S.at session.old story → S.may_restart session.old → IsSome (S.records session.new) → S.may_restart session.new }
    ensures faults { CountsKeeping result (S.records session.new) (S.at session.old) (S.fault_count session.old) (S.fault_count session.new) }
    ensures lasts { S.lasts ≡ false → IsErrOf result LifeFault.StoreFault → ⊥ }
    ensures begun { (story : Story) → S.at session.old story
        → IfOk result (λ _. S.at session.new (after_change (change_in change.now) story) × (into.new.items ≡ into.old.items
        ++ change_text (flow_of (S.engine_of session.old)) story (change_in change.now))) }
{
    match change {
        Change::Nothing => {}
        Change::Feed(source, recs) => {
            let epoch = session.feed(*source, recs)?;
            write_fed(alloc, session.engine().flow(), *source, epoch, into)?;
        }
        Change::Close(source) => {
            let epoch = session.close(*source)?;
            write_closed(alloc, session.engine().flow(), *source, epoch, into)?;
        }
        Change::Show => write_standing(alloc, session, into)?,
    }
    Ok(())
}

// The bytes behind so many; none where there are fewer.
fn behind(bytes: &[u8], count: usize) -> &[u8]
    ensures { (xs ys : List ℕ) → bytes.now ≡ xs ++ ys → count ≡ length xs → result.now ≡ ys }
{
    bytes.get(count..).unwrap_or(&[])
}

// Keeps what the steps of a line did, of which these are the lines. The errors are those of `keep_line`, and want of memory where these
// steps ended so.
fn keep<S: Living>(
    session: &mut S,
    taken: Result<(), EngineFault>,
    lines: &[u8],
) -> Result<(), LifeFault>
    ensures flow { flow_of (S.engine_of session.new) ≡ flow_of (S.engine_of session.old) }
    ensures told_before { IsSome (S.records session.new) → IsSome (S.records session.old) }
    ensures texts { S.digests_of session.new ≡ S.digests_of session.old }
    ensures left { ((IsErrOf taken EngineFault.NoMemory → ⊥) → (story : Story) × S.at session.old story) → S.may_restart session.old
        → IsSome (S.records session.new) → S.may_restart session.new }
    ensures faults { S.fault_count session.new ≡ life_faults_after result (S.fault_count session.old) }
    ensures lasts { S.lasts ≡ false → IsErrOf result LifeFault.StoreFault → ⊥ }
    ensures kept { (story : Story) → S.at session.old story → OnOk result (S.at session.new story × S.keeps session.new story lines.now) }
    ensures no_memory { IsErrOf taken EngineFault.NoMemory → IsErr result }
{
    match taken {
        Err(EngineFault::NoMemory) => Err(LifeFault::NoMemory),
        _ => session.keep_line(lines),
    }
}

// Writes the line that ends an answer, by how the steps ended, and counts that.
fn end(
    alloc: Global,
    taken: Result<(), EngineFault>,
    done: u64,
    counts: &mut LineCounts,
    into: &mut Vec<u8>,
) -> Result<(), AllocError>
    ensures text { EndsSo (λ ending. IfOk result (λ _. into.new.items ≡ into.old.items ++ ending_text ending done)) taken }
    ensures counted { EndsSo (λ ending. IfOk result (λ _. counts.new ≡ counts_ended ending counts.old)) taken }
    ensures faults { OnOk result (counts.new.faults ≡ more_by (failed_times taken) counts.old.faults) }
    ensures no_memory { IsErrOf taken EngineFault.NoMemory → IsErr result }
    ensures lines { counts.new.lines ≡ counts.old.lines }
{
    match taken {
        Ok(()) => write_done(alloc, done, into),
        Err(EngineFault::StoreFault) => {
            counts.count_fault();
            write_fault(into)
        }
        Err(EngineFault::Damaged { id }) => {
            counts.note_damage(id);
            write_damaged(alloc, id, into)
        }
        Err(EngineFault::NoMemory) => Err(AllocError),
    }
}
