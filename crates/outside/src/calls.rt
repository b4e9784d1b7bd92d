ghost use Rattle.std.specs.Prelude.{◌≡◌, ◌≤◌, ◌+◌, true, false};
ghost use Rattle.outside.specs.Calls.{is_to_fail, after_call, no_calls};
ghost use Rattle.outside.specs.Causes.{Rose};

use crate::faults::Faults;
use std::marker::Model;

/// The calls on an object in memory: how many there were, which are to fail, and how many failed.
#[derive(Drop)]
pub struct Calls {
    failing: Vec<u64>,
    made: u64,
    faults: Faults,
}

impl Model for Calls {
    ghost use Rattle.outside.specs.Calls.{Numbered};

    ghost Value = { Numbered };

    ghost view = { λ c. record { failing = c.failing.items; made = c.made; faults = c.faults.count } };
}

impl Calls {
    /// No call yet. `failing` are the numbers of the calls that are to fail, the first being 0.
    pub fn new(failing: Vec<u64>) -> Calls
        ensures { result ≡ no_calls failing.items }
    {
        Calls {
            failing,
            made: 0,
            faults: Faults::new(),
        }
    }

    /// How many failed.
    pub fn faults(&self) -> u64
        ensures { result ≡ self.now.faults }
    {
        self.faults.count()
    }

    /// Counts a call, and tells whether it is to fail.
    pub fn fails(&mut self) -> bool
        ensures answer { result ≡ is_to_fail self.old }
        ensures counted { self.new ≡ after_call self.old }
        ensures later { self.old.faults ≤ self.new.faults }
        ensures once { self.new.faults ≤ self.old.faults + 1 }
        ensures rose { result ≡ true → Rose self.old.faults self.new.faults }
        ensures stays { result ≡ false → self.new.faults ≡ self.old.faults }
    {
        let call = self.made;
        self.made = call.saturating_add(1);
        let fails = self.failing.contains(&call);
        if fails {
            self.faults.add();
        }
        fails
    }
}
