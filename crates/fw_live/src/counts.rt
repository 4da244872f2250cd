//! What is counted of lines and their steps. A count of 2^64 - 1 stands for that many or more.
ghost use Rattle.std.specs.Prelude.{◌≡◌, ◌+◌, Some};
ghost use Rattle.std.specs.Option.{option_or};
ghost use Rattle.fw_running.specs.Steps.{outcome_of};
ghost use Rattle.fw_live.specs.Answers.{saturated};
ghost use Rattle.fw_live.specs.Faults.{more_by};
ghost use Rattle.fw_live.specs.Life.{no_counts};
ghost use Rattle.fw_live.specs.Relies.{step_counted};

use fw_engine::Stepped;

/// What was counted of the lines of a session and of their steps.
#[derive(Clone, Copy, Debug)]
pub struct LineCounts {
    /// How many lines were answered.
    pub lines: u64,
    /// How many steps were asked for one by one, or done by `auto`, also those in which the store failed. A recovery that read bytes which
    /// spell no record is not among them.
    pub steps: u64,
    /// How many of them were not enabled.
    pub idle: u64,
    /// In how many the store failed.
    pub faults: u64,
    /// The id of the first record that was damaged.
    pub damaged: Option<u64>,
}

impl LineCounts {
    /// Nothing was counted.
    pub(crate) fn new() -> Self
        ensures { result ≡ no_counts }
    {
        LineCounts {
            lines: 0,
            steps: 0,
            idle: 0,
            faults: 0,
            damaged: None,
        }
    }

    /// One line more.
    pub(crate) fn count_line(&mut self)
        ensures { self.new ≡ record self.old { lines = saturated (self.old.lines + 1) } }
    {
        self.lines = self.lines.saturating_add(1);
    }

    /// The steps of a line.
    pub(crate) fn count_turn(&mut self, turn: TurnCounts)
        ensures { self.new ≡ record self.old {
          steps = saturated (self.old.steps + saturated (turn.done + turn.idle));
          idle = saturated (self.old.idle + turn.idle);
        } }
    {
        let steps = turn.done.saturating_add(turn.idle);
        self.steps = self.steps.saturating_add(steps);
        self.idle = self.idle.saturating_add(turn.idle);
    }

    /// A step in which the store failed.
    pub(crate) fn count_fault(&mut self)
        ensures counted { self.new ≡ record self.old { steps = saturated (self.old.steps + 1); faults = saturated (self.old.faults + 1) } }
        ensures faults { self.new.faults ≡ more_by 1 self.old.faults }
    {
        self.steps = self.steps.saturating_add(1);
        self.faults = self.faults.saturating_add(1);
    }

    /// A record that was damaged.
    pub(crate) fn note_damage(&mut self, id: u64)
        ensures { self.new ≡ record self.old { damaged = option_or self.old.damaged (Some id) } }
    {
        self.damaged = self.damaged.or(Some(id));
    }
}

/// What was counted of the steps of a line.
#[derive(Clone, Copy)]
pub(crate) struct TurnCounts {
    /// How many were done.
    pub(crate) done: u64,
    /// How many were not enabled.
    pub(crate) idle: u64,
}

impl TurnCounts {
    /// No step was counted.
    pub(crate) fn new() -> Self
        ensures { result ≡ record { done = 0; idle = 0 } }
    {
        TurnCounts { done: 0, idle: 0 }
    }

    /// One step more.
    pub(crate) fn count(&mut self, stepped: &Stepped)
        ensures { self.new ≡ step_counted (outcome_of stepped.now) self.old }
    {
        match stepped {
            Stepped::Did(_) => self.done = self.done.saturating_add(1),
            Stepped::Idle => self.idle = self.idle.saturating_add(1),
        }
    }
}
