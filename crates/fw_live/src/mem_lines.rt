//! Lines in memory.
ghost use Rattle.std.specs.Prelude.{◌≡◌, ◌≤◌, true, length, Some, []};
ghost use Rattle.fw_live.specs.Given.{lines_given};

use crate::line_source::{LineSource, NextLine};
use fw_outside::OutFault;

/// Lines in memory, which are given one after the other, each whole. It tells those that it gave, and never fails.
#[derive(Debug, Drop)]
pub struct MemLines {
    lines: Vec<Vec<u8>>,
    next: usize,
    ended: bool,
    // It ends behind its last line.
    ghost whole: { ended ≡ true → length lines.items ≤ next },
}

impl MemLines {
    /// These lines.
    pub fn new(lines: Vec<Vec<u8>>) -> Self
        ensures { ⟦<MemLines as LineSource>⟧.given result ≡ Some [] }
    {
        MemLines {
            lines,
            next: 0,
            ended: false,
        }
    }
}

impl LineSource for MemLines {
    ghost given = { λ lines. Some (lines_given lines.lines.items lines.next) };

    ghost ended = { λ lines. lines.ended };

    ghost fault_count = { λ _. 0 };

    fn next(&mut self, _limit: usize, into: &mut Vec<u8>) -> Result<NextLine, OutFault> {
        into.clear();
        let Some(line) = self.lines.get(self.next) else {
            self.ended = true;
            return Ok(NextLine::End);
        };
        into.extend_from_slice(line)?;
        self.next += 1;
        Ok(NextLine::Line)
    }
}
