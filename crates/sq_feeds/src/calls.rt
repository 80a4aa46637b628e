// The calls of feeds in memory, some of which are to fail.
ghost use Rattle.std.specs.Prelude.{◌≡◌, ◌↔◌, ◌≤◌, IsTrue};
ghost use Rattle.std.specs.Bool.{OnTrue, OnFalse};
ghost use Rattle.sq_outside.specs.Calls.{FailsNext, no_calls, called, faulted};

use std::marker::Model;

/// Which calls are to fail, and how many calls and faults there were.
#[derive(Drop)]
pub struct FeedCalls {
    fails: Vec<u64>,
    next: u64,
    faults: u64,
}

impl Model for FeedCalls {
    ghost use Rattle.sq_outside.specs.Calls.{Calls, calls_code};

    ghost Value = { Calls };

    ghost coded = { calls_code };

    ghost view = { λ a. record { fails = a.fails.items; next = a.next; faults = a.faults } };
}

impl FeedCalls {
    /// No call yet. The calls of these numbers, from 0, are to fail.
    pub fn new(fails: Vec<u64>) -> FeedCalls
        ensures { result ≡ no_calls fails.items }
    {
        FeedCalls {
            fails,
            next: 0,
            faults: 0,
        }
    }

    /// Counts a call, and a fault where it is to fail, and says whether it is.
    pub fn call_fails(&mut self) -> bool
        ensures planned { IsTrue result ↔ FailsNext self.old }
        ensures fault { OnTrue result (self.new ≡ faulted self.old) }
        ensures called { OnFalse result (self.new ≡ called self.old) }
        ensures kept { self.old.faults ≤ self.new.faults }
    {
        let fails = self.fails.contains(&self.next);
        self.next = self.next.saturating_add(1);
        if fails {
            self.faults = self.faults.saturating_add(1);
        }
        fails
    }
}
