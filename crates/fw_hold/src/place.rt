//! Where a held run stands, in numbers.
ghost use Rattle.std.specs.Prelude.{◌≡◌, ◌+◌, ◌<◌, ◌^◌, nat_lt, if◌then◌else◌};
ghost use Rattle.fw_hold.specs.Place as spec;

/// Where a held run stands in its schedule, and what was counted.
#[derive(Clone, Copy, Debug)]
pub struct SchedulePlace {
    /// How many roots were put, over all starts.
    pub turn: u64,
    /// How many items of the schedule have ended.
    pub ended: usize,
    /// How many single steps of the next one are done.
    pub singles: u64,
    /// How many steps were counted.
    pub steps: u64,
    /// How many of these did nothing.
    pub idle: u64,
}

/// How many steps a held run took, and how many of them did nothing, over all its starts.
#[derive(Clone, Copy, Debug)]
pub struct HeldCounts {
    pub steps: u64,
    pub idle: u64,
}

impl SchedulePlace {
    /// Nothing was done.
    pub fn first() -> Self
        ensures { result ≡ spec.place_at_first }
    {
        SchedulePlace {
            turn: 0,
            ended: 0,
            singles: 0,
            steps: 0,
            idle: 0,
        }
    }

    /// The item that comes next has ended.
    pub fn end_item(&mut self)
        requires { self.old.ended + 1 < 2 ^ 64 }
        ensures { self.new ≡ spec.place_past_item self.old }
    {
        self.ended += 1;
        self.singles = 0;
    }

    /// A step did nothing.
    pub fn count_idle(&mut self)
        requires steps { self.old.steps + 1 < 2 ^ 64 }
        requires idle { self.old.idle + 1 < 2 ^ 64 }
        ensures { self.new ≡ spec.place_with_idle_step self.old }
    {
        self.steps += 1;
        self.idle += 1;
    }

    /// A single step of an item that has so many is done.
    pub fn count_single(&mut self, most: u64)
        requires steps { self.old.steps + 1 < 2 ^ 64 }
        requires singles { self.old.singles + 1 < 2 ^ 64 }
        requires ended { self.old.ended + 1 < 2 ^ 64 }
        ensures { self.new ≡ spec.place_after_single most self.old }
    {
        self.steps += 1;
        self.singles += 1;
        if self.singles >= most {
            self.end_item();
        }
    }

    /// The counts of the steps.
    pub fn counts(&self) -> HeldCounts
        ensures { result ≡ record { steps = self.now.steps; idle = self.now.idle } }
    {
        HeldCounts {
            steps: self.steps,
            idle: self.idle,
        }
    }
}
