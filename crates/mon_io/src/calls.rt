// The calls of an object in memory, some of which are to fail.
ghost use Rattle.std.specs.Prelude.{◌≡◌, ◌↔◌, ◌≤◌, IsTrue};
ghost use Rattle.mon_io.specs.Memory.{IsToFail, after_call, after_fault, unused};

use std::marker::Model;

/// Which calls fail, by their numbers from 1, how many were made, and how many failed.
#[derive(Drop)]
pub(crate) struct Calls {
    fails: Vec<u64>,
    made: u64,
    faults: u64,
}

impl Model for Calls {
    ghost use Rattle.mon_io.specs.Memory.{Schedule};

    ghost Value = { Schedule };

    ghost view = { λ c. record { fails = c.fails.items; made = c.made; faults = c.faults } };
}

impl Calls {
    pub(crate) fn new(fails: Vec<u64>) -> Self
        ensures { result ≡ unused fails.items }
    {
        Calls {
            fails,
            made: 0,
            faults: 0,
        }
    }

    /// Whether the next call is to fail.
    pub(crate) fn is_to_fail(&self) -> bool
        ensures { IsTrue result ↔ IsToFail self.now }
    {
        self.fails.contains(&self.made.saturating_add(1))
    }

    /// A call was made.
    pub(crate) fn count(&mut self)
        ensures { self.new ≡ after_call self.old }
    {
        self.made = self.made.saturating_add(1);
    }

    /// A call was made, and failed.
    pub(crate) fn count_fault(&mut self)
        ensures counted { self.new ≡ after_fault self.old }
        ensures later { self.old.faults ≤ self.new.faults }
    {
        self.made = self.made.saturating_add(1);
        self.faults = self.faults.saturating_add(1);
    }
}
