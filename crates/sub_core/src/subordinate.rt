//! What a driver's subordinate and the link to it promise.
ghost use Rattle.std.specs.Prelude.{◌≡◌, ℕ, Option, Some};
ghost use Rattle.pm_types.specs.declared.calls.Call.{Call as AnyCall};
ghost use Rattle.ucm_base.specs.declared.ids.CallNo.{CallNo as AnyNo};
ghost use Rattle.sub_core.specs.Numbers.{IsNotBelow};
ghost use Rattle.sub_core.specs.Subordinates.{fate_or, lost_after, Counted, IsAbove, IsCounted, IsCountedUnit, IsNoFewer};
ghost use Rattle.sub_core.specs.declared.subordinate.Fate.{Fate as AnyFate};
ghost use Rattle.sub_core.specs.declared.subordinate.Sent.{Sent as AnySent};
ghost use Rattle.sub_core.specs.declared.subordinate.UnitSent.{UnitSent as AnyUnitSent};

use pm_types::{Call, Reply, Worked};
use ucm_base::CallNo;

/// What one attempt at a call gave.
#[derive(Clone, Copy)]
pub enum Sent {
    Answered(Reply),
    /// The link lost the message or its answer, and the node's disk failed so many times at its delivery.
    Lost { faults: u64 },
    /// The node's disk failed so many times.
    NoReply { faults: u64 },
    OutOfMemory,
}

/// What one attempt at a unit gave.
#[derive(Clone, Copy)]
pub enum UnitSent {
    Worked(Worked),
    /// The node's disk failed so many times.
    NoReply { faults: u64 },
    OutOfMemory,
}

/// A node as a worker sees it. Its calls may wait.
pub trait Subordinate {
    /// It may be used.
    ghost ready: { Self → Type 0 };

    /// The last number that was sent.
    ghost last: { Self → Option AnyNo };

    /// The counts of losses and of faults.
    ghost counted: { Self → Counted };

    /// The old state, the number, the call, the answer and the new state of a send.
    ghost sends: { Self → AnyNo → AnyCall → AnySent → Self → Type 0 };

    /// The old state, the answer and the new state of a unit.
    ghost works: { Self → AnyUnitSent → Self → Type 0 };

    /// One attempt at a call, under the number of the last one or a higher one.
    fn send(&mut self, no: CallNo, call: Call) -> Sent
        requires ready { ready self.old }
        requires number { IsNotBelow (last self.old) no }
        ensures ready { ready self.new }
        ensures last { last self.new ≡ Some no }
        ensures sends { sends self.old no call result self.new }
        ensures counts { IsNoFewer (counted self.old) (counted self.new) }
        ensures rises { IsCounted result (counted self.old) (counted self.new) };

    /// One attempt at a unit of work.
    fn unit(&mut self) -> UnitSent
        requires ready { ready self.old }
        ensures ready { ready self.new }
        ensures last { last self.new ≡ last self.old }
        ensures works { works self.old result self.new }
        ensures counts { IsNoFewer (counted self.old) (counted self.new) }
        ensures rises { IsCountedUnit result (counted self.old) (counted self.new) };

    /// How many messages and answers the link has lost; it stays at the last value of a u64.
    fn losses(&self) -> u64
        ensures { result ≡ (counted self.now).losses };

    /// How often the node's disk has failed; it stays at the last value of a u64.
    fn faults(&self) -> u64
        ensures { result ≡ (counted self.now).faults };
}

/// What a link makes of one attempt. Where nothing is said of when a message comes again, that is at the end.
#[derive(Clone, Copy, Debug, PartialEq, Eq)]
pub enum Fate {
    Deliver,
    Lost,
    Unanswered,
    Twice,
    Late { after: Option<u64> },
    Delayed { after: Option<u64> },
}

/// What lies between the master and a node.
pub trait Link {
    /// The fates by attempt.
    ghost fates: { Self → ℕ → Option AnyFate };

    /// The last attempt that was asked for.
    ghost asked: { Self → Option ℕ };

    /// The count of losses.
    ghost lost: { Self → ℕ };

    /// The fate of this attempt, which comes after those that were asked for.
    fn fate(&mut self, attempt: u64) -> Fate
        requires later { IsAbove (asked self.old) attempt }
        ensures fate { result ≡ fate_or (fates self.old attempt) }
        ensures fates { fates self.new ≡ fates self.old }
        ensures asked { asked self.new ≡ Some attempt }
        ensures losses { lost self.new ≡ lost_after (lost self.old) result };

    /// How many attempts were lost, unanswered or delayed; it stays at the last value of a u64.
    fn losses(&self) -> u64
        ensures { result ≡ lost self.now };
}
