//! The steps of a schedule are taken, through faults of the store or up to the first, and what comes of them is told.
ghost use Rattle.std.specs.Prelude.{◌≡◌, ◌+◌, ◌≤◌, ℕ, false, IsErrOf, IsSome, OnOk};
ghost use Rattle.fw_flow.specs.declared.step.Step.TheVariants.{Recover};
ghost use Rattle.fw_flow.specs.Dataflow.{System, system_of};
ghost use Rattle.fw_schedule.specs.Schedule.{steps_in, step_count, step_limit};
ghost use Rattle.fw_keep.specs.Catalogue.{AreAscending, ids_of};
ghost use Rattle.fw_keep.specs.Stored.{IsStored};
ghost use Rattle.fw_running.specs.declared.fault.EngineFault.{EngineFault as Fault};
ghost use Rattle.fw_running.specs.declared.fault.EngineFault.TheVariants as EngineFault;
ghost use Rattle.fw_engine.specs.Engine.{flow_of, keep_of, StandsFor, IsDamaged};
ghost use Rattle.fw_run.specs.Enduring.{Point, RoseBy, StaysOrRose};
ghost use Rattle.fw_run.specs.Ends.{EndsRun, WritesLast, StaysUnseen, seen};
ghost use Rattle.fw_command.specs.Manner.{course_in, last_in, told_in};
ghost use Rattle.fw_run.specs.Performing.{HasRoom, PrintsItem, FailsAsCounted};
ghost use Rattle.fw_run.specs.Stopping.{MayCallIn};
ghost use Rattle.fw_run.specs.Tallies.{AreOfSteps, last_line as line_of_last};
ghost use Rattle.fw_run.specs.Through.{TakesItems};
ghost use Rattle.fw_run.specs.Fault.{faults_after_run};
ghost use Rattle.fw_run.specs.Work.{IsStoreAt};
ghost use Rattle.fw_command.specs.Reading.{IsReadyToRun};

use crate::fault::RunFault;
use crate::perform::perform_item;
use crate::tally::StepCounts;
use crate::text::{fault_line, last_line};
use fw_command::{Course, Job, LastLine, Manner};
use fw_engine::{Engine, EngineFault};
use fw_outside::{OutFault, Sink, Store};
use fw_schedule::Item;
use std::alloc::Global;

/// Takes the steps of the items over a store that is as the run asks where it begins, tells them in this manner, and last writes what came of them. Where
/// the run goes on through faults of the store, their fault comes at the end.
pub(crate) fn perform<K: Store, O: Sink>(
    alloc: Global,
    manner: Manner,
    job: Job,
    store: &mut K,
    out: &mut O,
) -> Result<(), RunFault>
    requires ready { IsReadyToRun (system_of job.flow job.batches) job.items }
    requires store { IsStoreAt (told_in manner).start (K.view store.old).records }
    ensures ends { EndsRun (IsSome (K.view store.new).records) (told_in manner) (system_of job.flow job.batches) job.items result (K.view store.old).faults
        (K.view store.new).faults (K.view store.new).records (K.view store.new).given (O.view out.old) (O.view out.new) }
    ensures told_before { IsSome (K.view store.new).records → IsSome (K.view store.old).records }
    ensures nothing_told { (fault : Fault) → IsErrOf result (RunFault.Engine fault) → manner.course.goes_on ≡ false → StaysUnseen manner.is_seen out.old out.new }
{
    let Job {
        flow,
        batches,
        items,
    } = job;
    let mut engine = Engine::new(alloc, flow, &batches)?;
    let mut tally = StepCounts::new();
    let items = items.as_slice();
    take(alloc, manner, &mut engine, items, &mut tally, store, out)?;
    end(alloc, manner.last, tally, out)
}

// Takes the steps of the items, from any point, and counts them on. Where they are not seen, their lines go nowhere.
fn take<K: Store, O: Sink>(
    alloc: Global,
    manner: Manner,
    engine: &mut Engine,
    items: &[Item],
    tally: &mut StepCounts,
    store: &mut K,
    out: &mut O,
) -> Result<(), RunFault>
    requires stored { IsStored (keep_of engine.old) (K.view store.old).records }
    requires in_order { AreAscending (ids_of (keep_of engine.old).entries) }
    requires alone { (keep_of engine.old).shared ≡ false }
    requires of_steps { AreOfSteps tally.old }
    requires few { tally.old.steps + step_count items.now ≤ step_limit }
    requires none { tally.old.faults ≡ 0 }
    ensures taken { (sys : System) (from : Point) → from.counts ≡ tally.old → StandsFor sys engine.old (K.view store.old).records from.state
        → TakesItems (course_in manner.course) (IsSome (K.view store.new).records) sys from items.now result tally.new
        (RoseBy (K.view store.old).faults (K.view store.new).faults) (K.view store.new).records (K.view store.new).given
        (seen manner.is_seen (O.view out.old)) (seen manner.is_seen (O.view out.new)) }
    ensures told_before { IsSome (K.view store.new).records → IsSome (K.view store.old).records }
    ensures none { manner.course.goes_on ≡ false → tally.new.faults ≡ 0 }
    ensures first { manner.course.goes_on ≡ false → (K.view store.new).faults ≡ faults_after_run result (K.view store.old).faults }
    ensures rises { StaysOrRose (K.view store.old).faults (K.view store.new).faults }
    ensures stays { StaysUnseen manner.is_seen out.old out.new }
{
    let course = manner.course;
    match manner.is_seen {
        true => take_items(alloc, course, engine, items, tally, store, out),
        false => take_items(alloc, course, engine, items, tally, store, &mut Nowhere),
    }
}

// Takes the steps of the items, from any point, prints their lines and counts them on; the first fault of the store ends the run, unless
// this is to go on.
fn take_items<K: Store, O: Sink>(
    alloc: Global,
    course: Course,
    engine: &mut Engine,
    items: &[Item],
    tally: &mut StepCounts,
    store: &mut K,
    out: &mut O,
) -> Result<(), RunFault>
    requires stored { IsStored (keep_of engine.old) (K.view store.old).records }
    requires in_order { AreAscending (ids_of (keep_of engine.old).entries) }
    requires alone { (keep_of engine.old).shared ≡ false }
    requires of_steps { AreOfSteps tally.old }
    requires few { tally.old.steps + step_count items.now ≤ step_limit }
    requires none { tally.old.faults ≡ 0 }
    ensures taken { (sys : System) (from : Point) → from.counts ≡ tally.old → StandsFor sys engine.old (K.view store.old).records from.state
        → TakesItems (course_in course) (IsSome (K.view store.new).records) sys from items.now result tally.new
        (RoseBy (K.view store.old).faults (K.view store.new).faults) (K.view store.new).records (K.view store.new).given
        (O.view out.old) (O.view out.new) }
    ensures told_before { IsSome (K.view store.new).records → IsSome (K.view store.old).records }
    ensures none { course.goes_on ≡ false → tally.new.faults ≡ 0 }
    ensures first { course.goes_on ≡ false → (K.view store.new).faults ≡ faults_after_run result (K.view store.old).faults }
    ensures rises { StaysOrRose (K.view store.old).faults (K.view store.new).faults }
{
    for item in items {
        take_item(alloc, course, engine, item, tally, store, out)?;
    }
    Ok(())
}

// Takes the steps of an item, prints their lines and counts them. Where the run goes on, the store failed never or once, in the last of
// the steps, and a line tells it.
fn take_item<K: Store, O: Sink>(
    alloc: Global,
    course: Course,
    engine: &mut Engine,
    item: &Item,
    tally: &mut StepCounts,
    store: &mut K,
    out: &mut O,
) -> Result<(), RunFault>
    requires stored { IsStored (keep_of engine.old) (K.view store.old).records }
    requires in_order { AreAscending (ids_of (keep_of engine.old).entries) }
    requires room { HasRoom tally.old item.now }
    ensures stored { IsStored (keep_of engine.new) (K.view store.new).records }
    ensures in_order { AreAscending (ids_of (keep_of engine.new).entries) }
    ensures shared { (keep_of engine.new).shared ≡ (keep_of engine.old).shared }
    ensures told_before { IsSome (K.view store.new).records → IsSome (K.view store.old).records }
    ensures flow { flow_of engine.new ≡ flow_of engine.old }
    ensures of_steps { AreOfSteps tally.new }
    ensures few { tally.new.steps ≤ tally.old.steps + steps_in item.now }
    ensures printed { PrintsItem (course_in course) engine.old (K.view store.old).records item.now tally.old
        (RoseBy (K.view store.old).faults (K.view store.new).faults) result engine.new (K.view store.new).records tally.new (O.view out.old) (O.view out.new) }
    ensures none { course.goes_on ≡ false → tally.new.faults ≡ tally.old.faults }
    ensures counted { OnOk result (FailsAsCounted tally.old tally.new (K.view store.old).faults (K.view store.new).faults) }
    ensures first { course.goes_on ≡ false → (K.view store.new).faults ≡ faults_after_run result (K.view store.old).faults }
    ensures rises { StaysOrRose (K.view store.old).faults (K.view store.new).faults }
    ensures stops { IsErrOf result (RunFault.Engine EngineFault.StoreFault) → (course.goes_on ≡ false) × MayCallIn (flow_of engine.old) item.now }
    ensures damaged { (id : ℕ) → IsErrOf result (RunFault.Engine (EngineFault.Damaged id)) → IsDamaged engine.old id (K.view store.new).given }
    ensures in_recovery { (id : ℕ) → IsErrOf result (RunFault.Engine (EngineFault.Damaged id)) → item.now ≡ Item.One Recover }
{
    let Course { goes_on, showing } = course;
    match perform_item(alloc, showing, engine, item, tally, store, out) {
        Ok(()) => Ok(()),
        Err(RunFault::Engine(EngineFault::StoreFault)) if goes_on => {
            tally.count_fault();
            let line = fault_line(alloc, tally.steps)?;
            out.write(line.as_bytes())?;
            Ok(())
        }
        Err(fault) => Err(fault),
    }
}

// Writes the last line, and tells the fault of the store, if it failed.
fn end<O: Sink>(
    alloc: Global,
    last: LastLine,
    tally: StepCounts,
    out: &mut O,
) -> Result<(), RunFault>
    ensures { WritesLast (line_of_last (last_in last) tally) tally.faults result (O.view out.old) (O.view out.new) }
{
    let line = last_line(alloc, last, tally)?;
    out.write(line.as_bytes())?;
    if tally.faults > 0 {
        return Err(RunFault::Engine(EngineFault::StoreFault));
    }
    Ok(())
}

// Where lines go that nobody reads.
#[derive(Drop)]
struct Nowhere;

impl Sink for Nowhere {
    ghost use Rattle.fw_run.specs.Ends.{nowhere};

    ghost view = { λ _. nowhere };

    fn write(&mut self, _piece: &[u8]) -> Result<(), OutFault> {
        Ok(())
    }

    fn faults(&self) -> u64 {
        0
    }
}
