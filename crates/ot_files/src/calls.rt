//! Which calls of an object in memory fail, for tests of what stands above it.
ghost use Rattle.std.specs.Prelude.{◌≡◌, ◌≤◌};
ghost use Rattle.ot_files.specs.Memory.{fails_now, after_call};

use std::marker::Model;

/// The numbers of the calls that fail, from 0, with the calls and the faults so far.
#[derive(Drop)]
pub struct FailingCalls {
    failing: Vec<u64>,
    calls: u64,
    faults: u64,
}

impl Model for FailingCalls {
    ghost use Rattle.ot_files.specs.Memory.{CallPlan, plan_code};

    ghost Value = { CallPlan };

    ghost coded = { plan_code };

    ghost view = { λ s. record { failing = s.failing.items; calls = s.calls; faults = s.faults } };
}

impl FailingCalls {
    /// A plan before its first call.
    pub fn new(failing: Vec<u64>) -> FailingCalls
        ensures { result ≡ record { failing = failing.items; calls = 0; faults = 0 } }
    {
        FailingCalls {
            failing,
            calls: 0,
            faults: 0,
        }
    }

    /// Counts a call, and tells whether it fails.
    pub fn next_fails(&mut self) -> bool
        ensures fails { result ≡ fails_now self.old }
        ensures after { self.new ≡ after_call self.old }
        ensures later { self.old.faults ≤ self.new.faults }
    {
        let fails = self.failing.contains(&self.calls);
        self.calls = self.calls.saturating_add(1);
        if fails {
            self.faults = self.faults.saturating_add(1);
        }
        fails
    }

    /// How many calls have failed.
    pub fn faults(&self) -> u64
        ensures { result ≡ self.now.faults }
    {
        self.faults
    }
}
