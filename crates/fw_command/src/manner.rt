//! How the steps of a run are taken and told.
ghost use Rattle.std.specs.Prelude.{◌≡◌, true, option_map};
ghost use Rattle.fw_command.specs.Command.{manner_by, run_verbs};
ghost use Rattle.fw_command.specs.Manner.{told_in};

use crate::words::GenerateWords;

/// How the steps of a run are taken and told.
#[derive(Clone, Copy, Debug)]
pub struct Manner {
    /// How its steps are taken.
    pub course: Course,
    /// Whether the lines of each step are written.
    pub is_seen: bool,
    /// What is written last.
    pub last: LastLine,
}

/// How the steps of a run are taken.
#[derive(Clone, Copy, Debug)]
pub struct Course {
    /// Whether the run goes on where the store fails in a step; else its first fault ends the run.
    pub goes_on: bool,
    /// What is told of each step.
    pub showing: Showing,
}

/// What is told of a step.
#[derive(Clone, Copy, Debug)]
pub enum Showing {
    /// The lines of its effect.
    Effects,
    /// The same, and behind the cuts of a recovery why they are the largest.
    Certificates,
}

/// What is written last of a run.
#[derive(Clone, Copy, Debug)]
pub enum LastLine {
    /// How many steps there were.
    Steps,
    /// The same, and in how many the store failed.
    Faults,
    /// What came of generated texts.
    Seed(GenerateWords),
}

/// How the command with this word takes the steps of its three texts, if it does.
pub(crate) fn manner_of(word: &str) -> Option<Manner>
    ensures { option_map told_in result ≡ manner_by run_verbs word.now }
{
    match word {
        "run" => Some(with_lines(false, Showing::Effects, LastLine::Steps)),
        "endure" => Some(with_lines(true, Showing::Effects, LastLine::Faults)),
        "explain" => Some(with_lines(false, Showing::Certificates, LastLine::Steps)),
        _ => None,
    }
}

// The manner of a run whose lines are written.
fn with_lines(goes_on: bool, showing: Showing, last: LastLine) -> Manner
    ensures { result ≡ record { course = record { goes_on = goes_on; showing = showing }; is_seen = true; last = last } }
{
    Manner {
        course: Course { goes_on, showing },
        is_seen: true,
        last,
    }
}
