//! How the lines of a row are answered.
use crate::rows::{Row, says_something};
use std::alloc::{AllocError, AllocFailed, Global};
use std::num::ParseIntError;

/// Why a line has no answer.
#[derive(Clone, Copy)]
pub enum NoAnswer {
    /// It is not spelled right, or there is nothing to answer.
    NotSpelled,
    /// It asks nothing: another line needs it.
    NotAsked,
    /// There was no memory.
    NoMemory,
}

impl From<AllocError> for NoAnswer {
    fn from(_: AllocError) -> Self {
        NoAnswer::NoMemory
    }
}

impl<T: Drop> From<AllocFailed<T>> for NoAnswer {
    fn from(_: AllocFailed<T>) -> Self {
        NoAnswer::NoMemory
    }
}

impl From<ParseIntError> for NoAnswer {
    fn from(_: ParseIntError) -> Self {
        NoAnswer::NotSpelled
    }
}

/// What answers the lines of a row, one after the other.
pub trait Answers {
    /// What is true of it between two lines.
    ghost stands: { Self → Type 0 };

    /// Says what answers a line; nothing where there is only something to do.
    fn answer(&mut self, line: &str, said: &mut String) -> Result<(), NoAnswer>
        requires { stands self.old }
        ensures { stands self.new };
}

/// Tells each line of a row that asks something, and what answers it. The error is want of memory.
pub fn tell_row<A: Answers>(
    alloc: Global,
    row: Row<'_>,
    answers: &mut A,
    told: &mut String,
) -> Result<(), AllocError>
    requires { A.stands answers.old }
{
    let mut said = String::new(alloc);
    for line in row.lines.lines() {
        if says_something(line) {
            said.clear();
            let answer = answers.answer(line, &mut said);
            tell_answer(line, answer, &said, told)?;
        }
    }
    Ok(())
}

/// Tells a line and what was said: `none` where it has no answer.
fn tell_answer(
    line: &str,
    answer: Result<(), NoAnswer>,
    said: &str,
    told: &mut String,
) -> Result<(), AllocError> {
    let said = match answer {
        Ok(()) => said,
        Err(NoAnswer::NotSpelled) => "none",
        Err(NoAnswer::NotAsked) => return Ok(()),
        Err(NoAnswer::NoMemory) => return Err(AllocError),
    };
    told.push_str(line)?;
    if !said.is_empty() {
        told.push_str(": ")?;
        told.push_str(said)?;
    }
    told.push('\n')
}

/// Tells the name of a row. The error is want of memory.
pub fn tell_name(name: &str, told: &mut String) -> Result<(), AllocError> {
    told.push_str("== ")?;
    told.push_str(name)?;
    told.push('\n')
}

/// Says a mark, where something was said before it. The error is want of memory.
pub fn mark(mark: &str, said: &mut String) -> Result<(), AllocError> {
    if said.is_empty() {
        Ok(())
    } else {
        said.push_str(mark)
    }
}
