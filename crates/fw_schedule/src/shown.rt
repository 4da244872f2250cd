//! Steps and schedules as texts.
ghost use Rattle.std.specs.Prelude.{◌≡◌, Some};
ghost use Rattle.fw_flow.specs.Dataflow.{node_at};
ghost use Rattle.fw_schedule.specs.ItemText.{told_text, names_text, step_text, item_text, item_line, schedule_text};

use crate::{Item, Schedule};
use fw_flow::{Flow, NodeId, Step};
use fw_time::Stamp;
use std::fmt;
use std::marker::Model;

/// A step, with the flow whose names it is told by. It prints the line of the step in a schedule, without its LF. Contracts see
/// this text.
#[derive(Drop)]
pub struct StepText<'a> {
    flow: &'a Flow,
    step: &'a Step,
}

impl<'a> Model for StepText<'a> {
    ghost use Rattle.std.specs.Prelude.{ℕ, List};
    ghost use Rattle.fw_schedule.specs.ItemText.{step_text};

    ghost Value = { List ℕ };

    ghost view = { λ text. step_text text.flow.now text.step.now };
}

impl<'a> StepText<'a> {
    /// The step, with its flow.
    pub fn of(flow: &'a Flow, step: &'a Step) -> Self
        ensures { result ≡ step_text flow.now step.now }
    {
        StepText { flow, step }
    }
}

impl<'a> fmt::Display for StepText<'a> {
    ghost output = { λ text. Some text };

    fn fmt<W: fmt::Write>(&self, f: &mut fmt::Formatter<W>) -> fmt::Result {
        let flow = self.flow;
        match self.step {
            Step::Inject(source) => write!(f, "inject {}", name_of(flow, *source)),
            Step::Deliver(edge, at) => {
                write!(f, "deliver {}{}", flow.edge_name(*edge), Told { at })
            }
            Step::Notify(node, at) => {
                write!(f, "notify {}{}", name_of(flow, *node), Told { at })
            }
            Step::Progress => write!(f, "progress"),
            Step::Checkpoint(node) => write!(f, "checkpoint {}", name_of(flow, *node)),
            Step::Persist => write!(f, "persist"),
            Step::Fail(nodes) => {
                let names = SpacedNames {
                    flow,
                    nodes: nodes.as_slice(),
                };
                write!(f, "fail{names}")
            }
            Step::Recover => write!(f, "recover"),
            Step::Collect => write!(f, "collect"),
            Step::Ack(output) => write!(f, "ack {}", name_of(flow, *output)),
        }
    }
}

// The name of a node; past the last node it is empty.
fn name_of(flow: &Flow, node: NodeId) -> &str
    ensures { result.now ≡ (node_at flow.now node).name }
{
    if (node.place() as usize) < flow.nodes() {
        flow.node_name(node).as_str()
    } else {
        ""
    }
}

// The stamp of a step behind `at`, if one is told.
#[derive(Drop)]
struct Told<'a> {
    at: &'a Option<Stamp>,
}

impl<'a> fmt::Display for Told<'a> {
    ghost output = { λ told. Some (told_text told.at.now) };

    fn fmt<W: fmt::Write>(&self, f: &mut fmt::Formatter<W>) -> fmt::Result {
        match self.at {
            Some(stamp) => write!(f, " at {stamp}"),
            None => Ok(()),
        }
    }
}

// The names of nodes, each behind a space.
#[derive(Drop)]
struct SpacedNames<'a> {
    flow: &'a Flow,
    nodes: &'a [NodeId],
}

impl<'a> fmt::Display for SpacedNames<'a> {
    ghost output = { λ names. Some (names_text names.flow.now names.nodes.now) };

    fn fmt<W: fmt::Write>(&self, f: &mut fmt::Formatter<W>) -> fmt::Result {
        for node in self.nodes {
            let name = name_of(self.flow, *node);
            write!(f, " {name}")?;
        }
        Ok(())
    }
}

/// An item of a schedule, with the flow whose names it is told by. It prints the item's line in a schedule, without its LF.
/// Contracts see this text.
#[derive(Drop)]
pub struct ItemText<'a> {
    flow: &'a Flow,
    item: &'a Item,
}

impl<'a> Model for ItemText<'a> {
    ghost use Rattle.std.specs.Prelude.{ℕ, List};
    ghost use Rattle.fw_schedule.specs.ItemText.{item_text};

    ghost Value = { List ℕ };

    ghost view = { λ text. item_text text.flow.now text.item.now };
}

impl<'a> ItemText<'a> {
    /// The item, with its flow.
    pub fn of(flow: &'a Flow, item: &'a Item) -> Self
        ensures { result ≡ item_text flow.now item.now }
    {
        ItemText { flow, item }
    }
}

impl<'a> fmt::Display for ItemText<'a> {
    ghost output = { λ text. Some text };

    fn fmt<W: fmt::Write>(&self, f: &mut fmt::Formatter<W>) -> fmt::Result {
        match self.item {
            Item::One(step) => write!(f, "{}", StepText::of(self.flow, step)),
            Item::Auto(most) => write!(f, "auto {most}"),
        }
    }
}

/// A schedule, with the flow whose names it is told by. It prints the line of each item, ended by LF: the text that
/// `read_schedule` takes. Contracts see this text.
#[derive(Drop)]
pub struct ScheduleText<'a> {
    flow: &'a Flow,
    schedule: &'a Schedule,
}

impl<'a> Model for ScheduleText<'a> {
    ghost use Rattle.std.specs.Prelude.{ℕ, List};
    ghost use Rattle.fw_schedule.specs.ItemText.{schedule_text};

    ghost Value = { List ℕ };

    ghost view = { λ text. schedule_text text.flow.now text.schedule.now };
}

impl<'a> ScheduleText<'a> {
    /// The schedule, with its flow.
    pub fn of(flow: &'a Flow, schedule: &'a Schedule) -> Self
        ensures { result ≡ schedule_text flow.now schedule.now }
    {
        ScheduleText { flow, schedule }
    }
}

impl<'a> fmt::Display for ScheduleText<'a> {
    ghost output = { λ text. Some text };

    fn fmt<W: fmt::Write>(&self, f: &mut fmt::Formatter<W>) -> fmt::Result {
        let lines = ItemLines {
            flow: self.flow,
            items: self.schedule.as_slice(),
        };
        write!(f, "{lines}")
    }
}

// The lines of items.
#[derive(Drop)]
struct ItemLines<'a> {
    flow: &'a Flow,
    items: &'a [Item],
}

impl<'a> fmt::Display for ItemLines<'a> {
    ghost output = { λ lines. Some (schedule_text lines.flow.now lines.items.now) };

    fn fmt<W: fmt::Write>(&self, f: &mut fmt::Formatter<W>) -> fmt::Result {
        for item in self.items {
            let line = ItemText::of(self.flow, item);
            writeln!(f, "{line}")?;
        }
        Ok(())
    }
}
