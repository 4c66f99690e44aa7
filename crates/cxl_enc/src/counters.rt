//! Counters of an object in memory that is to fail at some of its calls.

ghost use Rattle.std.specs.Prelude.{◌≡◌, ◌≤◌};
ghost use Rattle.cxl_enc.specs.Counters.{next_count, fresh_counters, fails_next};

use std::marker::Model;

/// The counters of an object in memory, and the numbers of its calls that are to fail, counted from 1. A counter
/// that has reached 2^64 - 1 stays there.
#[derive(Drop)]
pub struct FailingCalls {
    fails: Vec<u64>,
    calls: u64,
    faults: u64,
}

impl Model for FailingCalls {
    ghost use Rattle.cxl_enc.specs.Counters.{Counters};

    ghost Value = { Counters };

    ghost view = { λ c. record { fails = c.fails.items; calls = c.calls; faults = c.faults } };
}

impl FailingCalls {
    /// No call and no fault so far. Takes no memory.
    pub fn new(fails: Vec<u64>) -> FailingCalls
        ensures { result ≡ fresh_counters fails.items }
    {
        FailingCalls {
            fails,
            calls: 0,
            faults: 0,
        }
    }

    /// Counts a call, and says whether it is one of those that fail. (This project's rule.)
    pub fn begin(&mut self) -> bool
        ensures fails { result ≡ fails_next self.old }
        ensures after { self.new ≡ record self.old { calls = next_count self.old.calls } }
    {
        self.calls = self.calls.saturating_add(1);
        self.fails.contains(&self.calls)
    }

    /// Counts a fault.
    pub fn fault(&mut self)
        ensures after { self.new ≡ record self.old { faults = next_count self.old.faults } }
        ensures grows { self.old.faults ≤ self.new.faults }
    {
        self.faults = self.faults.saturating_add(1);
    }
}
