//! A counter over a device that fails.
ghost use Rattle.std.specs.Prelude.{◌≡◌, ◌+◌, ◌<◌, ◌≤◌, ◌^◌, ◌++◌, [], List, None, Some, length, vec_len, vec_capacity};
ghost use Rattle.turn_gate.specs.Parts.{StoodOrNot};
ghost use Rattle.gate_counter.specs.Ticks.{HasCounted};
ghost use Rattle.gate_counter.specs.Rises.{IsTrueOf, rise_of};
ghost use Rattle.gate_counter.specs.declared.tick.Tick.{Tick};
ghost use Rattle.turn_gate.specs.Views.{account};

use crate::tick::{Answer, Tick};
use std::alloc::Global;
use turn_gate::Machine;

/// A list of counts over a device that fails at every so many calls. What was pending stands or is
/// lost by turns, as the next call finds out.
#[derive(Drop)]
pub struct Counter {
    ticks: Vec<Tick>,
    pending: Option<Tick>,
    faults: u64,
    calls: u64,
    period: u64,
    ghost short: { length ticks.items < 2 ^ 58 },
}

impl Machine for Counter {
    ghost use Rattle.std.specs.Prelude.{[], length, ◌%◌, ◌<◌, ◌^◌};
    ghost use Rattle.gate_counter.specs.Laws.{code_fits, list_fits};
    ghost use Rattle.gate_counter.specs.Ticks.{tells};
    ghost use Rattle.turn_gate.specs.Views.{account};

    type Entry = Tick;

    type Opening = u8;

    ghost account = { λ c. account c.ticks.items c.pending c.faults };

    ghost tells = { tells };

    ghost fixed = { λ _. [] };

    ghost stands = { λ _ _. Unit {0} };

    ghost opening = { λ _. 0 };

    ghost code_after = { λ _ ticks. length ticks % 10 };

    fn count(&self) -> u64 {
        self.ticks.len() as u64
    }

    fn code(&self) -> u8 {
        (self.ticks.len() % 10) as u8
    }

    fn faults(&self) -> u64 {
        self.faults
    }

    ghost code_fits = { λ _ ticks. code_fits ticks };

    ghost list_fits = { list_fits };
}

impl Counter {
    /// A counter whose device fails at each call that the period divides, or never at 0.
    pub fn new(alloc: Global, period: u64) -> Counter
        ensures nothing { (result.ticks.items ≡ []) × (result.pending ≡ None) }
        ensures calls { (result.faults ≡ 0) × (result.calls ≡ 0) × (result.period ≡ period) }
    {
        Counter {
            ticks: Vec::new(alloc),
            pending: None,
            faults: 0,
            calls: 0,
            period,
        }
    }

    /// What was counted, oldest first.
    pub fn ticks(&self) -> &[Tick]
        ensures { result.now ≡ self.now.ticks.items }
    {
        self.ticks.as_slice()
    }

    /// The newest number of this part, or 0. A test alone says so.
    fn newest(&self, by: u8) -> u32 {
        for tick in self.ticks.iter().rev() {
            if tick.by == by {
                return tick.no;
            }
        }
        0
    }

    /// What was pending stands, or is lost.
    fn settle(&mut self)
        requires room { vec_len self.old.ticks + 1 < vec_capacity self.old.ticks }
        requires short { length self.old.ticks.items < 2 ^ 50 }
        ensures stood { (stood : List Tick) × StoodOrNot self.old.pending stood
            × (self.new.ticks.items ≡ self.old.ticks.items ++ stood) }
        ensures none { self.new.pending ≡ None }
        ensures faults { self.new.faults ≡ self.old.faults }
        ensures calls { self.old.calls ≤ self.new.calls }
        ensures period { self.new.period ≡ self.old.period }
        ensures room { vec_len self.new.ticks < vec_capacity self.new.ticks }
    {
        if let Some(tick) = self.pending {
            self.calls = self.calls.saturating_add(1);
            if self.calls % 2 == 0 {
                self.ticks.push_reserved(tick);
            }
            self.pending = None;
        }
    }

    /// Whether the device fails at this call.
    fn fails(&mut self) -> bool
        ensures ticks { self.new.ticks ≡ self.old.ticks }
        ensures pending { self.new.pending ≡ self.old.pending }
        ensures faults { self.new.faults ≡ self.old.faults }
        ensures calls { self.old.calls ≤ self.new.calls }
        ensures period { self.new.period ≡ self.old.period }
    {
        self.calls = self.calls.saturating_add(1);
        self.period > 0 && self.calls % self.period == 0
    }

    /// Settles what is pending, and counts once more for this part.
    pub fn count_for(&mut self, by: u8) -> Answer
        ensures goes_on { HasCounted by
            (account self.old.ticks.items self.old.pending self.old.faults)
            (account self.new.ticks.items self.new.pending self.new.faults) (rise_of result) }
        ensures answer { IsTrueOf by result self.new.ticks.items }
        ensures calls { self.old.calls ≤ self.new.calls }
        ensures period { self.new.period ≡ self.old.period }
    {
        if self.ticks.len() >= 1 << 40 {
            return Answer::OutOfMemory;
        }
        let Ok(()) = self.ticks.reserve(2) else {
            return Answer::OutOfMemory;
        };
        self.settle();
        let tick = Tick {
            by,
            no: self.newest(by).wrapping_add(1),
        };
        if self.fails() {
            self.faults = self.faults.saturating_add(1);
            self.pending = Some(tick);
            return Answer::NoReply { faults: 1 };
        }
        self.ticks.push_reserved(tick);
        Answer::Counted
    }
}
