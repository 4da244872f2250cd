//! What the lines of a schedule ask for.
ghost use Rattle.std.specs.Prelude.{◌≡◌, ◌≤◌, Ok};
ghost use Rattle.fw_schedule.specs.Grammar.{within_limit};
ghost use Rattle.fw_schedule.specs.Schedule.{steps_in, step_limit};

use fw_flow::Step;
use fw_lines::Code;

/// The most steps that a schedule may ask for.
pub const STEP_LIMIT: u64 = 4_294_967_295;

/// What a line of a schedule asks for.
#[derive(Debug, Drop)]
pub enum Item {
    /// One step.
    One(Step),
    /// At most so many steps, each the first that is enabled.
    Auto(u64),
}

impl Item {
    /// How many steps it asks for at most.
    pub fn steps(&self) -> u64
        ensures { result ≡ steps_in self.now }
    {
        match self {
            Item::One(_) => 1,
            Item::Auto(most) => *most,
        }
    }

    // The item, if so many steps and its own are not too many.
    pub(crate) fn after(self, count: u64) -> Result<Item, Code>
        requires { count ≤ step_limit }
        ensures { result ≡ within_limit count (Ok self) }
    {
        if self.steps() <= STEP_LIMIT - count {
            Ok(self)
        } else {
            Err(Code::S4)
        }
    }
}
