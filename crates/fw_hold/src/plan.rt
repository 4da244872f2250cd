//! What a held run is to do.
ghost use Rattle.std.specs.Prelude.{◌≡◌, ◌<◌, ◌^◌};
ghost use Rattle.fw_hold.specs.Kept as spec;

use crate::place::SchedulePlace;
use fw_flow::Flow;
use fw_lines::Batches;
use fw_root::{Digests, Root};
use fw_schedule::Item;

/// The items of a held run with the lines on which they stand, and the digests of its texts.
#[derive(Clone, Copy, Debug)]
pub struct HeldPlan<'a> {
    pub items: &'a [Item],
    pub numbers: &'a [u32],
    pub digests: Digests,
}

impl<'a> HeldPlan<'a> {
    /// The line of the item that comes next where so many have ended; behind the last one the line behind that.
    pub fn line_at(&self, ended: usize) -> u64
        ensures exact { result ≡ spec.line_at self.now.numbers.now ended }
        ensures few { result < 2 ^ 33 }
    {
        match self.numbers.get(ended) {
            Some(number) => *number as u64,
            None => line_behind(self.numbers),
        }
    }

    /// How many items stand before a line.
    pub fn ended_before(&self, line: u64) -> usize
        ensures { result ≡ spec.ended_before self.now.numbers.now line }
    {
        ended_before(self.numbers, line)
    }

    /// Where a run stands behind a root. A place that is none of the schedule is taken for one of it.
    pub fn place_behind_root(&self, root: &Root) -> SchedulePlace
        ensures { result ≡ spec.place_behind_root self.now.items.now self.now.numbers.now root.now }
    {
        let ended = self.ended_before(root.mark.line);
        let singles = match self.items.get(ended) {
            Some(item) if root.mark.singles < item.steps() => root.mark.singles,
            _ => 0,
        };
        SchedulePlace {
            turn: root.mark.turn,
            ended,
            singles,
            steps: root.mark.steps,
            idle: root.mark.idle,
        }
    }
}

/// How many of these lines stand before a line, up to the first that does not.
fn ended_before(numbers: &[u32], line: u64) -> usize
    ensures { result ≡ spec.ended_before numbers.now line }
{
    let mut ended = 0;
    for number in numbers {
        if *number as u64 >= line {
            return ended;
        }
        ended += 1;
    }
    ended
}

/// The line behind the last of these.
fn line_behind(numbers: &[u32]) -> u64
    ensures exact { result ≡ spec.line_behind numbers.now }
    ensures few { result < 2 ^ 33 }
{
    match numbers.last() {
        Some(number) => *number as u64 + 1,
        None => 0,
    }
}
