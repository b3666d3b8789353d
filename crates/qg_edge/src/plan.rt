// Which calls of an object in memory are to fail.
ghost use Rattle.std.specs.Prelude.{◌≡◌, ◌≤◌, ◌↔◌, IsTrue};
ghost use Rattle.qg_edge.specs.Calls.{no_calls, FailsNext, with_call, with_fault};

use std::alloc::Global;
use std::marker::Model;

/// The numbers of the calls that are to fail, where the first call is 1, and how many calls were made
/// and how many failed.
#[derive(Drop)]
pub(crate) struct Plan {
    made: u64,
    faults: u64,
    failing: Vec<u64>,
}

impl Model for Plan {
    ghost use Rattle.qg_edge.specs.Calls.{Calls};

    ghost Value = { Calls };

    ghost view = { λ p. record { made = p.made; faults = p.faults; failing = p.failing.items } };
}

impl Plan {
    /// No call was made, and none is to fail.
    pub(crate) fn new(alloc: Global) -> Plan
        ensures { result ≡ no_calls }
    {
        Plan {
            made: 0,
            faults: 0,
            failing: Vec::new(alloc),
        }
    }

    /// The calls with these numbers are to fail from now on, and no other.
    pub(crate) fn fail_at(&mut self, calls: Vec<u64>)
        ensures { self.new ≡ record self.old { failing = calls.items } }
    {
        self.failing = calls;
    }

    /// Counts a call, and says whether it is to fail.
    pub(crate) fn next_fails(&mut self) -> bool
        ensures fails { IsTrue result ↔ FailsNext self.old }
        ensures call { self.new ≡ with_call self.old }
    {
        self.made = self.made.saturating_add(1);
        self.failing.contains(&self.made)
    }

    /// Counts a fault.
    pub(crate) fn count_fault(&mut self)
        ensures fault { self.new ≡ with_fault self.old }
        ensures no_fewer { self.old.faults ≤ self.new.faults }
    {
        self.faults = self.faults.saturating_add(1);
    }
}
