//! The lines on which the items of a schedule stand.
ghost use Rattle.std.specs.Prelude.{◌≡◌, ◌≤◌, IfOk, length};
ghost use Rattle.fw_schedule.specs.Grammar.{schedule_size_limit};
ghost use Rattle.fw_schedule.specs.LineNumbers as spec;

use fw_lines::{Place, line_at};
use std::alloc::{AllocError, Global};

/// The numbers of the lines of a text that say something, ascending: of a text that `read_schedule` takes, the line of each item, in
/// order. Lines are counted from 1.
///
/// # Errors
///
/// Want of memory: it takes that of the numbers and of the words of one line.
pub fn line_numbers(alloc: Global, text: &[u8]) -> Result<Vec<u32>, AllocError>
    requires { length text.now ≤ schedule_size_limit }
    ensures { IfOk result (λ numbers. numbers.items ≡ spec.line_numbers text.now) }
{
    let mut numbers = Vec::new(alloc);
    let mut place = Some(Place::START);
    while let Some(at) = place {
        let (line, next) = line_at(alloc, text, at)?;
        if !line.words.as_slice().is_empty() {
            numbers.push(line.number)?;
        }
        place = next;
    }
    Ok(numbers)
}
