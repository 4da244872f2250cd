//! A command is run: its texts are read, and then what they ask for is printed.
ghost use Rattle.fw_keep.specs.Stored.{IsEmptyStore};
ghost use Rattle.fw_run.specs.Answers.{RunAnswers, known_by, outside_of};
ghost use Rattle.fw_run.specs.Call.{call_of};

use crate::Status;
use crate::fault::status_of;
use crate::work::{print_work, read_work};
use fw_command::{JobFault, parse};
use fw_outside::{Folder, Sink, Store};
use std::alloc::Global;

/// Reads the texts that the words name, and prints what the command makes of them, over a store that is empty.
pub(crate) fn run<F: Folder, K: Store, O: Sink>(
    alloc: Global,
    words: &[&str],
    folder: &mut F,
    store: &mut K,
    out: &mut O,
) -> Status
    requires { IsEmptyStore (K.view store.old).records }
    ensures { RunAnswers (known_by F.texts F.fetch_count F.fault_count K.view O.view) (call_of words.now (F.texts folder.new))
        (outside_of folder.old store.old out.old) result (outside_of folder.new store.new out.new) }
{
    let command = match parse(alloc, words) {
        Ok(Some(command)) => command,
        Ok(None) => return Status::BadWords,
        Err(_) => return Status::NoMemory,
    };
    let work = match read_work(alloc, &command, folder) {
        Ok(work) => work,
        Err(JobFault::Failed) => return Status::ReadFault,
        Err(JobFault::Refused(refusal)) => return Status::Refused(refusal),
        Err(JobFault::NoMemory) => return Status::NoMemory,
    };
    match print_work(alloc, work, store, out) {
        Ok(()) => Status::Done,
        Err(fault) => status_of(fault),
    }
}
