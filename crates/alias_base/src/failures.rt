//! Calls that are planned to fail, for what stands for the world in tests.

ghost use Rattle.std.specs.Prelude.{◌≡◌};
ghost use Rattle.alias_base.specs.failures.Failures.{Plan, new_plan, fails_now, called};

use crate::List;
use std::marker::Model;

/// The calls that fail, and the calls so far. The first call has number 1, and the last number of a `u64`
/// stands for all calls that come after the others.
#[derive(Drop)]
pub struct PlannedFailures {
    fails: List<u64>,
    made: u64,
    failed: u64,
}

impl Model for PlannedFailures {
    ghost use Rattle.std.specs.Prelude.{◌≤◌};
    ghost use Rattle.alias_base.specs.failures.Failures.{Plan};

    ghost Value = { Plan };

    ghost view = { λ c. record { fails = c.fails; calls = c.made; faults = c.failed } };

    ghost invariant = { λ c. c.failed ≤ c.made };
}

impl PlannedFailures {
    /// No calls so far. Those whose number is in `fails` fail. Takes no memory.
    pub fn new(fails: List<u64>) -> PlannedFailures
        ensures { result ≡ new_plan fails }
    {
        PlannedFailures {
            fails,
            made: 0,
            failed: 0,
        }
    }

    /// Counts a call, and says whether it fails.
    pub fn fails_now(&mut self) -> bool
        ensures answer { result ≡ fails_now self.old }
        ensures counted { self.new ≡ called self.old }
    {
        self.made = self.made.saturating_add(1);
        let fails = self.made < u64::MAX && self.fails.as_slice().contains(&self.made);
        if fails {
            self.failed += 1;
        }
        fails
    }
}
