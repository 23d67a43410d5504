//! Counts the calls of a source or sink in memory, and fails those whose numbers are on a list.
ghost use Rattle.std.specs.Prelude.{◌≡◌, ◌≤◌, if◌then◌else◌};
ghost use Rattle.port_io.specs.Faults.{next_count};
ghost use Rattle.port_io.specs.Memory.{first_schedule, is_to_fail, after_success, after_failure};

use std::marker::Model;

/// Counts calls and faults. Both counts saturate at the last value of a u64.
#[derive(Drop)]
pub struct Calls {
    failing: Vec<u64>,
    calls: u64,
    faults: u64,
}

impl Model for Calls {
    ghost use Rattle.port_io.specs.Memory.{Schedule};

    ghost Value = { Schedule };

    ghost view = { λ c. record { failing = c.failing.items; calls = c.calls; faults = c.faults } };
}

impl Calls {
    /// No call has been made yet. `failing` lists the numbers of the calls that fail, counted from 1.
    pub fn new(failing: Vec<u64>) -> Self
        ensures { result ≡ first_schedule failing.items }
    {
        Calls {
            failing,
            calls: 0,
            faults: 0,
        }
    }

    /// How many calls have failed.
    pub fn faults(&self) -> u64
        ensures { result ≡ self.now.faults }
    {
        self.faults
    }

    /// Counts a call, and returns whether it has to fail. A call that has to fail counts as a fault.
    #[tactic(auto, unfolding(crate::specs::Memory::is_to_fail))]
    pub fn begin(&mut self) -> bool
        ensures answer { result ≡ is_to_fail self.old }
        ensures counted { self.new ≡ (if result then after_failure self.old else after_success self.old) }
        ensures never_falls { self.old.faults ≤ self.new.faults }
    {
        self.calls = self.calls.saturating_add(1);
        let is_to_fail = self.failing.contains(&self.calls);
        if is_to_fail {
            self.faults = self.faults.saturating_add(1);
        }
        is_to_fail
    }

    /// Counts a fault whose call isn't on the list.
    pub fn count_fault(&mut self)
        ensures counted { self.new ≡ record self.old { faults = next_count self.old.faults } }
        ensures never_falls { self.old.faults ≤ self.new.faults }
    {
        self.faults = self.faults.saturating_add(1);
    }
}
