//! A held run: its texts are read, and then it goes on from what the store holds.
ghost use Rattle.std.specs.Prelude.{◌≡◌};
ghost use Rattle.fw_command.specs.Words.{text_names_in};
ghost use Rattle.fw_run.specs.Answers.{known_by, outside_of};
ghost use Rattle.fw_run.specs.Held as spec;
ghost use Rattle.fw_run.specs.Held.{HeldAnswers, TellsEnd};
ghost use Rattle.fw_run.specs.HeldTexts.{MayHold};
ghost use Rattle.fw_run.specs.Printed as printed;

use crate::Status;
use crate::text::done_line;
use fw_command::{HeldJob, Job, JobFault, RunWords, read_held};
use fw_engine::EngineFault;
use fw_hold::{HeldCounts, HeldEngine, HeldPlan, HoldFault, hold};
use fw_outside::{Folder, OutFault, Sink, Store};
use std::alloc::Global;

/// Reads the texts of a held run, and takes it to its end from what an earlier start left in the store.
pub(crate) fn run_held<E: HeldEngine, F: Folder, K: Store, O: Sink>(
    alloc: Global,
    names: &RunWords,
    folder: &mut F,
    store: &mut K,
    out: &mut O,
) -> Status
    requires { MayHold (F.texts folder.old) (text_names_in names.now) (K.view store.old).records }
    ensures { HeldAnswers (known_by F.texts F.fetch_count F.fault_count K.view O.view) (text_names_in names.now)
        (outside_of folder.old store.old out.old) result (outside_of folder.new store.new out.new) }
{
    let held = match read_held(alloc, names, folder) {
        Ok(held) => held,
        Err(JobFault::Failed) => return Status::ReadFault,
        Err(JobFault::Refused(refusal)) => return Status::Refused(refusal),
        Err(JobFault::NoMemory) => return Status::NoMemory,
    };
    let HeldJob {
        job,
        numbers,
        digests,
    } = held;
    let Job {
        flow,
        batches,
        items,
    } = job;
    let plan = HeldPlan {
        items: items.as_slice(),
        numbers: &numbers,
        digests,
    };
    match hold::<E, K, O>(alloc, &plan, flow, &batches, store, out) {
        Ok(counts) => tell_end(alloc, counts, out),
        Err(fault) => held_status(fault),
    }
}

/// Writes the last line.
fn tell_end<O: Sink>(alloc: Global, counts: HeldCounts, out: &mut O) -> Status
    ensures { TellsEnd (printed.done_line counts.steps counts.idle) result (O.view out.old) (O.view out.new) }
{
    let Ok(line) = done_line(alloc, counts.steps, counts.idle) else {
        return Status::NoMemory;
    };
    match out.write(line.as_bytes()) {
        Ok(()) => Status::Done,
        Err(OutFault::Failed) => Status::WriteFault,
        Err(OutFault::NoMemory) => Status::NoMemory,
    }
}

/// The status that tells why a start ended before all was done.
fn held_status(fault: HoldFault) -> Status
    ensures { result ≡ spec.held_status fault }
{
    match fault {
        HoldFault::Out(OutFault::Failed) => Status::WriteFault,
        HoldFault::Engine(EngineFault::StoreFault) => Status::StoreFault,
        HoldFault::Engine(EngineFault::Damaged { id }) => Status::Damaged { id },
        HoldFault::DamagedRoot { id } => Status::DamagedRoot { id },
        HoldFault::ForeignRoot => Status::ForeignRoot,
        HoldFault::Out(OutFault::NoMemory) | HoldFault::Engine(EngineFault::NoMemory) => {
            Status::NoMemory
        }
    }
}
