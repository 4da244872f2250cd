//! What came of steps, counted.
ghost use Rattle.std.specs.Prelude.{◌≡◌, ◌<◌, ◌-◌, ◌^◌, [], ◌∷◌};
ghost use Rattle.fw_running.specs.Steps.{outcome_of};
ghost use Rattle.fw_run.specs.Tallies.{AreOfSteps, tally_of, with_fault, with_tally, rec_sum};

use fw_bag::Bag;
use fw_engine::{Effect, Stepped};
use std::fmt;

/// What came of steps, counted.
#[derive(Clone, Copy, Debug)]
pub struct StepCounts {
    /// How many there were.
    pub steps: u64,
    /// How many were not enabled.
    pub idle: u64,
    /// How many recoveries were done.
    pub cuts: u64,
    /// How many acknowledgements there were.
    pub acks: u64,
    /// The sum of all acknowledged values, modulo 2^64.
    pub sum: u64,
    /// In how many the store failed, and the run went on.
    pub faults: u64,
}

impl StepCounts {
    /// The tally of no steps.
    pub(crate) fn new() -> Self
        ensures none { result ≡ tally_of [] }
        ensures of_steps { AreOfSteps result }
    {
        StepCounts {
            steps: 0,
            idle: 0,
            cuts: 0,
            acks: 0,
            sum: 0,
            faults: 0,
        }
    }

    /// Counts what came of one step more.
    pub(crate) fn count(&mut self, stepped: &Stepped)
        requires steps { self.old.steps < 2 ^ 64 - 1 }
        requires of_steps { AreOfSteps self.old }
        ensures { self.new ≡ with_tally self.old (tally_of (outcome_of stepped.now ∷ [])) }
    {
        self.steps += 1;
        match stepped {
            Stepped::Idle => self.idle += 1,
            Stepped::Did(Effect::Acked { recs, .. }) => {
                self.acks += 1;
                self.sum = self.sum.wrapping_add(value_sum(recs));
            }
            Stepped::Did(Effect::Cuts(_)) => self.cuts += 1,
            Stepped::Did(Effect::Quiet | Effect::Lows(_)) => {}
        }
    }

    /// Counts one step more, in which the store failed.
    pub(crate) fn count_fault(&mut self)
        requires steps { self.old.steps < 2 ^ 64 - 1 }
        requires of_steps { AreOfSteps self.old }
        ensures { self.new ≡ with_fault self.old }
    {
        self.steps += 1;
        self.faults += 1;
    }
}

impl fmt::Display for StepCounts {
    ghost use Rattle.std.specs.Prelude.{Some};
    ghost use Rattle.fw_run.specs.Tallies.{tally_text};

    ghost output = { λ tally. Some (tally_text tally) };

    fn fmt<W: fmt::Write>(&self, f: &mut fmt::Formatter<W>) -> fmt::Result {
        write!(
            f,
            "steps {} idle {} cuts {} acks {} sum {}",
            self.steps, self.idle, self.cuts, self.acks, self.sum
        )
    }
}

// The sum of the values of recs.
fn value_sum(recs: &Bag) -> u64
    ensures { result ≡ rec_sum recs.now.recs }
{
    let mut sum = 0u64;
    for rec in recs {
        sum = sum.wrapping_add(rec.value);
    }
    sum
}
