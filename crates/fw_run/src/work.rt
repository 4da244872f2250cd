//! What a command does with its texts: they are read, and then it is printed what they ask for.
ghost use Rattle.std.specs.Prelude.{◌≡◌, false, IfOk, IfErr, IsErrOf, IsSome};
ghost use Rattle.fw_running.specs.declared.fault.EngineFault.{EngineFault as Fault};
ghost use Rattle.fw_command.specs.Command.{asks_folder};
ghost use Rattle.fw_command.specs.Reading.{IfJobRefused, read_faults_after};
ghost use Rattle.fw_command.specs.Texts.{Refuses, AsksNoMore};
ghost use Rattle.fw_command.specs.Words.{IsOfSize, command_in};
ghost use Rattle.fw_run.specs.Work.{IsWork, IsReadyWork, IsStoreFor, EndsWork, StaysUnlessRun, StaysIfUnseen};

use crate::fault::RunFault;
use crate::through::perform;
use fw_command::{
    CommandWords, Course, Fed, Job, JobFault, LastLine, Manner, Showing, fetch_flow, list,
    print_denotation, read_fed, read_generated, read_job,
};
use fw_flow::Flow;
use fw_outside::{Folder, Sink, Store};
use std::alloc::Global;

/// What a command does, with what its texts spell.
#[derive(Debug, Drop)]
pub enum Work {
    /// The job is run, and its steps are told in this manner.
    Run(Manner, Job),
    /// It is told what the flow denotes of its inputs.
    Denote(Fed),
    /// The nodes of the flow are listed.
    Check(Flow),
}

/// Reads the texts of a command, each before the next one is fetched.
pub(crate) fn read_work<F: Folder>(
    alloc: Global,
    command: &CommandWords,
    folder: &mut F,
) -> Result<Work, JobFault>
    requires size { IsOfSize command.now }
    ensures work { IfOk result (IsWork (F.texts folder.old) (command_in command.now)) }
    ensures ready { IfOk result IsReadyWork }
    ensures refused { IfErr result (IfJobRefused (Refuses (F.texts folder.old) (command_in command.now).texts)) }
    ensures faults { F.fault_count folder.new ≡ read_faults_after result (F.fault_count folder.old) }
    ensures asked_no_more { AsksNoMore (F.texts folder.old) (command_in command.now).texts (F.fetch_count folder.old) (F.fetch_count folder.new) }
    ensures texts_stay { F.texts folder.new ≡ F.texts folder.old }
    ensures stays { asks_folder (command_in command.now) ≡ false → folder.new ≡ folder.old }
{
    match command {
        CommandWords::Run(manner, names) => match read_job(alloc, names, folder) {
            Ok(job) => Ok(Work::Run(*manner, job)),
            Err(fault) => Err(fault),
        },
        CommandWords::Generate(words) => match read_generated(alloc, *words) {
            Ok(job) => Ok(Work::Run(
                Manner {
                    course: Course {
                        goes_on: false,
                        showing: Showing::Effects,
                    },
                    is_seen: false,
                    last: LastLine::Seed(*words),
                },
                job,
            )),
            Err(fault) => Err(fault),
        },
        CommandWords::Denote(names) => match read_fed(alloc, names, folder) {
            Ok(fed) => Ok(Work::Denote(fed)),
            Err(fault) => Err(fault),
        },
        CommandWords::Check(name) => match fetch_flow(alloc, folder, *name) {
            Ok(flow) => Ok(Work::Check(flow)),
            Err(fault) => Err(fault),
        },
    }
}

/// Prints what the work brings about; a run has its records in the store, which is as it asks where it begins.
pub(crate) fn print_work<K: Store, O: Sink>(
    alloc: Global,
    work: Work,
    store: &mut K,
    out: &mut O,
) -> Result<(), RunFault>
    requires ready { IsReadyWork work }
    requires store { IsStoreFor work (K.view store.old).records }
    ensures ends { EndsWork (IsSome (K.view store.new).records) work result (K.view store.old) (K.view store.new) (O.view out.old) (O.view out.new) }
    ensures told_before { IsSome (K.view store.new).records → IsSome (K.view store.old).records }
    ensures store_stays { StaysUnlessRun work store.old store.new }
    ensures nothing_told { (fault : Fault) → IsErrOf result (RunFault.Engine fault) → StaysIfUnseen work out.old out.new }
{
    match work {
        Work::Run(manner, job) => perform(alloc, manner, job, store, out),
        Work::Denote(fed) => match print_denotation(alloc, &fed, out) {
            Ok(()) => Ok(()),
            Err(fault) => Err(RunFault::Out(fault)),
        },
        Work::Check(flow) => match list(alloc, &flow, out) {
            Ok(()) => Ok(()),
            Err(fault) => Err(RunFault::Out(fault)),
        },
    }
}
