//! Plans of calls that fail, and the count of calls and faults beside them.
ghost use Rattle.std.specs.Prelude.{◌≡◌, ◌≤◌, ◌==◌, ◌||◌};
ghost use Rattle.std.specs.List.{list_any};
ghost use Rattle.ucm_ports.specs.Plan.{counted, is_named};

use fault_count::one_more;
use std::marker::Model;

/// A call of a source or a sink failed, and took or put nothing.
#[derive(Clone, Copy, Debug, PartialEq, Eq)]
pub struct PortError;

/// The numbers of the calls that fail, counted from 1, seen as their list.
#[derive(Drop)]
pub struct Fails {
    calls: Vec<u64>,
}

impl Model for Fails {
    ghost use Rattle.std.specs.Prelude.{ℕ, List};

    ghost Value = { List ℕ };

    ghost view = { λ a. a.calls.items };
}

impl Fails {
    /// The plan in which the calls of these numbers fail. It takes no memory.
    pub fn of(calls: Vec<u64>) -> Fails
        ensures { result ≡ calls.items }
    {
        Fails { calls }
    }

    /// Whether the call of this number fails.
    pub fn strikes(&self, call: u64) -> bool
        ensures { result ≡ list_any (λ n. n == call) self.now }
    {
        self.calls.iter().any(|n| *n == call)
    }
}

/// The calls so far, those that are to fail, and how many have failed.
#[derive(Drop)]
pub struct Calls {
    pub so_far: u64,
    pub fails: Fails,
    pub faults: u64,
}

impl Calls {
    /// Counts a call, and answers whether it fails: by the plan, or since it can't be served.
    pub fn fails_next(&mut self, unserved: bool) -> bool
        ensures fails { result ≡ (unserved || is_named self.old) }
        ensures counted { self.new ≡ counted result self.old }
        ensures no_fewer { self.old.faults ≤ self.new.faults }
    {
        self.so_far = one_more(self.so_far);
        let fails = unserved || self.fails.strikes(self.so_far);
        if fails {
            self.faults = one_more(self.faults);
        }
        fails
    }
}
