//! The lines that come in are answered.
ghost use Rattle.std.specs.Prelude.{◌≡◌, ◌⊎◌, ◌≤◌, ℕ, List, Option, Ok, Some, None, false, true, IsErr, IsErrOf, IsSome, IfErr, IfOk, IfSome, OnOk};
ghost use Rattle.fw_command.specs.Writing.{IsWritten};
ghost use Rattle.fw_engine.specs.Engine.{flow_of};
ghost use Rattle.fw_outside.specs.Outside.{one_more};
ghost use Rattle.fw_run.specs.declared.status.Status.TheVariants as status;
ghost use Rattle.fw_run.specs.Call.{CountsWrites};
ghost use Rattle.fw_session.specs.Story.{Story, IsStory};
ghost use Rattle.fw_live.specs.Asked.{LineIn};
ghost use Rattle.fw_live.specs.Call.{stopped_status};
ghost use Rattle.fw_live.specs.Given.{gives_after, with_line_given};
ghost use Rattle.fw_live.specs.Serving.{CountsLines, GivesAtMostOne, GivesMany, IsCutBy, IsPutBefore, Serves, ServesOne, ServesPart, line_faults_after};

use crate::asked::LINE_LIMIT;
use crate::fault::ServeFault;
use crate::line_source::{LineSource, NextLine};
use crate::live::Live;
use fw_living::Living;
use fw_outside::{OutFault, Sink};
use std::alloc::Global;

/// Answers the lines that come in, up to their end: each answer is written before the next line is read.
///
/// # Errors
///
/// `Read` where the source of lines fails, or gave 2^64 - 1 lines and no end; `Write` where the output fails; `Store` where the store fails
/// that keeps what was done; `NoMemory` where memory is refused.
pub fn serve<S: Living + Drop, L: LineSource, O: Sink>(
    alloc: Global,
    live: &mut Live<S>,
    input: &mut L,
    out: &mut O,
) -> Result<(), ServeFault>
    ensures flow { flow_of (S.engine_of live.new.session) ≡ flow_of (S.engine_of live.old.session) }
    ensures rests { live.new.rests ≡ live.old.rests }
    ensures told_before { IsSome (S.records live.new.session) → IsSome (S.records live.old.session) }
    ensures texts { S.digests_of live.new.session ≡ S.digests_of live.old.session }
    ensures left { (story : Story) (kept : List ℕ) → S.at live.old.session story → S.keeps live.old.session story kept
        → S.may_restart live.old.session → IsSome (S.records live.new.session) → S.may_restart live.new.session }
    // Each line that came in was answered, in order, and all answers were written.
    ensures served { OnOk result (Serves live.old.rests (flow_of (S.engine_of live.old.session))
        (record {
          counts = live.old.counts;
          records = S.records live.old.session;
          faults = S.fault_count live.old.session;
          At = λ story kept. S.at live.old.session story × S.keeps live.old.session story kept;
        })
        (record {
          counts = live.new.counts;
          records = S.records live.new.session;
          faults = S.fault_count live.new.session;
          At = λ story kept. S.at live.new.session story × S.keeps live.new.session story kept;
        })
        (L.given input.old) (L.given input.new) (λ text. IsWritten text (O.view out.old) (O.view out.new))) }
    ensures ended { OnOk result (L.ended input.new ≡ true) }
    // Where it ends before: each line but the last at most was answered, and of the answers this much was written.
    ensures part { IfErr result (λ fault. ServesPart live.old.rests (flow_of (S.engine_of live.old.session))
        (record {
          counts = live.old.counts;
          records = S.records live.old.session;
          faults = S.fault_count live.old.session;
          At = λ story kept. S.at live.old.session story × S.keeps live.old.session story kept;
        })
        (S.records live.new.session) (S.fault_count live.new.session) fault (L.given input.old) (L.given input.new)
        (IsPutBefore (flow_of (S.engine_of live.old.session)) live.old.counts fault (O.view out.old) (O.view out.new))) }
    // How often the source of lines failed, and the output.
    ensures lines { OnOk result (L.fault_count input.new ≡ L.fault_count input.old) }
    ensures lines_failed { IfErr result (λ fault. CountsLines fault (L.given input.old) (L.given input.new) (L.fault_count input.old) (L.fault_count input.new)) }
    ensures writes { OnOk result (CountsWrites status.Done (O.view out.old) (O.view out.new)) }
    ensures writes_failed { IfErr result (λ fault. CountsWrites (stopped_status fault) (O.view out.old) (O.view out.new)) }
    // Where the store is told to have failed it did, as it tells its records.
    ensures store_failed { (story : Story) (kept : List ℕ) → S.at live.old.session story → S.keeps live.old.session story kept
        → IsSome (S.records live.new.session) → IsErrOf result ServeFault.Store
        → one_more (S.fault_count live.old.session) ≤ S.fault_count live.new.session }
    ensures lasts { S.lasts ≡ false → IsErrOf result ServeFault.Store → ⊥ }
{
    let mut line = Vec::new(alloc);
    is_at_stories(live);
    for _ in 0..u64::MAX {
        let Some(answer) = answer_next(alloc, live, input, &mut line)? else {
            return Ok(());
        };
        is_at_stories(live);
        write(out, &answer)?;
    }
    Err(ServeFault::Read)
}

// Where a session is, that is a story.
fn is_at_stories<S: Living + Drop>(live: &Live<S>)
    ensures { (story : Story) → S.at live.now.session story → IsStory (flow_of (S.engine_of live.now.session)) story }
{
    let _ = live.session().engine();
}

// Answers the next line, if there is one.
fn answer_next<S: Living + Drop, L: LineSource>(
    alloc: Global,
    live: &mut Live<S>,
    input: &mut L,
    line: &mut Vec<u8>,
) -> Result<Option<Vec<u8>>, ServeFault>
    ensures flow { flow_of (S.engine_of live.new.session) ≡ flow_of (S.engine_of live.old.session) }
    ensures rests { live.new.rests ≡ live.old.rests }
    ensures told_before { IsSome (S.records live.new.session) → IsSome (S.records live.old.session) }
    ensures texts { S.digests_of live.new.session ≡ S.digests_of live.old.session }
    ensures left { (story : Story) → S.at live.old.session story → S.may_restart live.old.session → IsSome (S.records live.new.session)
        → S.may_restart live.new.session }
    ensures end { result ≡ Ok None → (live.new ≡ live.old) × (L.given input.new ≡ L.given input.old) × (L.ended input.new ≡ true) }
    ensures answered { IfOk result (λ answer. IfSome answer (λ text. ServesOne live.old.rests (flow_of (S.engine_of live.old.session))
        (record {
          counts = live.old.counts;
          records = S.records live.old.session;
          faults = S.fault_count live.old.session;
          At = λ story kept. S.at live.old.session story × S.keeps live.old.session story kept;
        })
        (record {
          counts = live.new.counts;
          records = S.records live.new.session;
          faults = S.fault_count live.new.session;
          At = λ story kept. S.at live.new.session story × S.keeps live.new.session story kept;
        })
        (L.given input.old) (L.given input.new) (λ bytes. text.items ≡ bytes))) }
    ensures one { IfOk result (λ answer. IfSome answer (λ text. GivesMany 1 (L.given input.old) (L.given input.new))) }
    ensures unanswered { IfErr result (λ fault. GivesAtMostOne fault (L.given input.old) (L.given input.new)) }
    ensures lines { OnOk result (L.fault_count input.new ≡ L.fault_count input.old) }
    ensures lines_failed { IfErr result (λ fault. L.fault_count input.new ≡ line_faults_after fault (L.fault_count input.old)) }
    ensures no_write { IsErrOf result ServeFault.Write → ⊥ }
    ensures failed { IfErr result (λ fault. S.fault_count live.old.session ≤ S.fault_count live.new.session) }
    ensures store_failed { (story : Story) → S.at live.old.session story → IsSome (S.records live.new.session) → IsErrOf result ServeFault.Store
        → one_more (S.fault_count live.old.session) ≤ S.fault_count live.new.session }
    ensures lasts { S.lasts ≡ false → IsErrOf result ServeFault.Store → ⊥ }
{
    let next = next_line(input, line)?;
    match next {
        NextLine::Line => answer_line(alloc, live, line),
        NextLine::TooLong => answer_long(alloc, live),
        NextLine::End => Ok(None),
    }
}

// Answers a line.
fn answer_line<S: Living + Drop>(
    alloc: Global,
    live: &mut Live<S>,
    line: &[u8],
) -> Result<Option<Vec<u8>>, ServeFault>
    ensures flow { flow_of (S.engine_of live.new.session) ≡ flow_of (S.engine_of live.old.session) }
    ensures rests { live.new.rests ≡ live.old.rests }
    ensures told_before { IsSome (S.records live.new.session) → IsSome (S.records live.old.session) }
    ensures texts { S.digests_of live.new.session ≡ S.digests_of live.old.session }
    ensures left { (story : Story) → S.at live.old.session story → S.may_restart live.old.session → IsSome (S.records live.new.session)
        → S.may_restart live.new.session }
    ensures some { result ≡ Ok None → ⊥ }
    ensures answered { (given : Option (List LineIn)) → IfOk result (λ answer. IfSome answer (λ text.
        ServesOne live.old.rests (flow_of (S.engine_of live.old.session))
        (record {
          counts = live.old.counts;
          records = S.records live.old.session;
          faults = S.fault_count live.old.session;
          At = λ story kept. S.at live.old.session story × S.keeps live.old.session story kept;
        })
        (record {
          counts = live.new.counts;
          records = S.records live.new.session;
          faults = S.fault_count live.new.session;
          At = λ story kept. S.at live.new.session story × S.keeps live.new.session story kept;
        })
        given (with_line_given (Some line.now) given) (λ bytes. text.items ≡ bytes))) }
    ensures no_read { IsErrOf result ServeFault.Read → ⊥ }
    ensures no_write { IsErrOf result ServeFault.Write → ⊥ }
    ensures failed { IfErr result (λ fault. S.fault_count live.old.session ≤ S.fault_count live.new.session) }
    ensures store_failed { (story : Story) → S.at live.old.session story → IsSome (S.records live.new.session) → IsErrOf result ServeFault.Store
        → one_more (S.fault_count live.old.session) ≤ S.fault_count live.new.session }
    ensures lasts { S.lasts ≡ false → IsErrOf result ServeFault.Store → ⊥ }
{
    let mut answer = Vec::new(alloc);
    live.answer(line, &mut answer)?;
    Ok(Some(answer))
}

// Answers a line that is too long.
fn answer_long<S: Living + Drop>(
    alloc: Global,
    live: &mut Live<S>,
) -> Result<Option<Vec<u8>>, ServeFault>
    ensures flow { flow_of (S.engine_of live.new.session) ≡ flow_of (S.engine_of live.old.session) }
    ensures rests { live.new.rests ≡ live.old.rests }
    ensures told_before { IsSome (S.records live.new.session) → IsSome (S.records live.old.session) }
    ensures texts { S.digests_of live.new.session ≡ S.digests_of live.old.session }
    ensures left { (story : Story) → S.at live.old.session story → S.may_restart live.old.session → IsSome (S.records live.new.session)
        → S.may_restart live.new.session }
    ensures some { result ≡ Ok None → ⊥ }
    ensures answered { (given : Option (List LineIn)) → IfOk result (λ answer. IfSome answer (λ text.
        ServesOne live.old.rests (flow_of (S.engine_of live.old.session))
        (record {
          counts = live.old.counts;
          records = S.records live.old.session;
          faults = S.fault_count live.old.session;
          At = λ story kept. S.at live.old.session story × S.keeps live.old.session story kept;
        })
        (record {
          counts = live.new.counts;
          records = S.records live.new.session;
          faults = S.fault_count live.new.session;
          At = λ story kept. S.at live.new.session story × S.keeps live.new.session story kept;
        })
        given (with_line_given None given) (λ bytes. text.items ≡ bytes))) }
    ensures no_read { IsErrOf result ServeFault.Read → ⊥ }
    ensures no_write { IsErrOf result ServeFault.Write → ⊥ }
    ensures failed { IfErr result (λ fault. S.fault_count live.old.session ≤ S.fault_count live.new.session) }
    ensures store_failed { (story : Story) → S.at live.old.session story → IsSome (S.records live.new.session) → IsErrOf result ServeFault.Store
        → one_more (S.fault_count live.old.session) ≤ S.fault_count live.new.session }
    ensures lasts { S.lasts ≡ false → IsErrOf result ServeFault.Store → ⊥ }
{
    let mut answer = Vec::new(alloc);
    live.answer_long(&mut answer)?;
    Ok(Some(answer))
}

// The next line.
fn next_line<L: LineSource>(input: &mut L, line: &mut Vec<u8>) -> Result<NextLine, ServeFault>
    ensures given { IfOk result (λ next. L.given input.new ≡ gives_after (Ok next) line.new.items (L.given input.old)) }
    ensures ended { result ≡ Ok NextLine.End → L.ended input.new ≡ true }
    ensures none { IsErr result → L.given input.new ≡ L.given input.old }
    ensures faults { IsErr result → IsErrOf result ServeFault.Read ⊎ IsErrOf result ServeFault.NoMemory }
    ensures lines { OnOk result (L.fault_count input.new ≡ L.fault_count input.old) }
    ensures lines_failed { IfErr result (λ fault. L.fault_count input.new ≡ line_faults_after fault (L.fault_count input.old)) }
{
    match input.next(LINE_LIMIT, line) {
        Ok(next) => Ok(next),
        Err(OutFault::Failed) => Err(ServeFault::Read),
        Err(OutFault::NoMemory) => Err(ServeFault::NoMemory),
    }
}

// Writes an answer.
fn write<O: Sink>(out: &mut O, answer: &[u8]) -> Result<(), ServeFault>
    ensures written { OnOk result (IsWritten answer.now (O.view out.old) (O.view out.new)) }
    ensures cut { IfErr result (λ fault. IsCutBy fault answer.now (O.view out.old) (O.view out.new)) }
{
    match out.write(answer) {
        Ok(()) => Ok(()),
        Err(OutFault::Failed) => Err(ServeFault::Write),
        Err(OutFault::NoMemory) => Err(ServeFault::NoMemory),
    }
}
