//! Facts about schedules, each proved as a function that does nothing, or that only walks over a flow.
ghost use Rattle.std.specs.Prelude.{◌≡◌, ◌↔◌, ◌≤◌, ℕ, List, None, length};
ghost use Rattle.std.specs.List.{AllByRecursion};
ghost use Rattle.fw_flow.specs.Dataflow.{Dataflow};
ghost use Rattle.fw_schedule.specs.declared.item.Item.{Item};
ghost use Rattle.fw_schedule.specs.Grammar.{schedule_size_limit, IsAcceptedSchedule};
ghost use Rattle.fw_schedule.specs.ItemText.{schedule_text};
ghost use Rattle.fw_schedule.specs.LineNumbers.{StandOnLines};
ghost use Rattle.fw_schedule.specs.Making.{item_fault};
ghost use Rattle.fw_schedule.specs.Schedule.{step_count, step_limit, IsItemOf};

use crate::Schedule;
use fw_flow::Flow;
use fw_flow::laws::{flow_is_well_formed, names_are_distinct, names_are_names};

/// `Schedule::add` finds nothing wrong exactly with the items of the flow.
pub fn items_of_the_flow_are_added()
    ensures { (flow : Dataflow) (item : Item) → (item_fault flow item ≡ None) ↔ IsItemOf flow item }
{}

/// The items of a text that is accepted stand on its lines that say something, one on each, in order: what `line_numbers` gives are
/// their lines.
pub fn items_stand_on_lines()
    ensures { (text : List ℕ) (flow : Dataflow) (items : List Item) → IsAcceptedSchedule text flow items → StandOnLines text flow items }
{}

/// What `ScheduleText` prints of a schedule of the flow is read as that schedule, where it asks for no more steps and has no
/// more bytes than `read_schedule` takes.
pub fn schedule_is_read_back(flow: &Flow, schedule: &Schedule)
    requires of_flow { AllByRecursion (IsItemOf flow.now) schedule.now }
    requires few { step_count schedule.now ≤ step_limit }
    requires short { length (schedule_text flow.now schedule.now) ≤ schedule_size_limit }
    ensures { IsAcceptedSchedule (schedule_text flow.now schedule.now) flow.now schedule.now }
{
    let _ = schedule;
    flow_is_well_formed(flow);
    names_are_distinct(flow);
    names_are_names(flow);
}
