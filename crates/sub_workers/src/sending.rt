//! One attempt at what a driver asks for.
ghost use Rattle.std.specs.Prelude.{◌≡◌, IfOk, IsTrue, OnErr};
ghost use Rattle.sub_core.specs.Calls.{bytes_of, IsBlock, IsThere};
ghost use Rattle.sub_core.specs.Driving.{has_number, todo};
ghost use Rattle.sub_core.specs.Numbers.{IsNotBelow};
ghost use Rattle.sub_workers.specs.Attempts.{got_of, got_unit, IsSent, IsWorked};
ghost use Rattle.sub_workers.specs.Runs.{IsAttempt, IsReady, IsSameWorker};

use crate::Worker;
use package_reader::Packages;
use std::alloc::{AllocError, Global};
use sub_core::{Finding, Got, SendStep, Sent, Subordinate, Todo, UnitSent, call_of};
use ucm_base::CallNo;

/// What one attempt at what a driver asks for gave.
pub(crate) enum Attempt {
    Gave(Got),
    /// A call was sent or a unit was asked for, and memory was wanting for the answer.
    GaveNothing,
    /// Nothing is asked for.
    Rests(Finding),
    /// Nothing was tried, for want of memory.
    OutOfMemory,
}

/// Tries what the driver asks for.
pub(crate) fn try_once<U: Subordinate>(alloc: Global, worker: &mut Worker<'_, U>) -> Attempt
    requires ready { IsReady U.ready U.last worker.old }
    requires number { IsTrue (has_number worker.old.driver) }
    ensures ready { IsReady U.ready U.last worker.new }
    ensures same { IsSameWorker worker.old worker.new }
    ensures tried { IsAttempt U.last U.counted U.sends U.works (bytes_of worker.old.packages.now)
        (todo worker.old.driver) result worker.old.subordinate worker.new.subordinate }
{
    let got = match worker.driver.next() {
        Todo::Rest(finding) => return Attempt::Rests(finding),
        Todo::Send { no, step } => {
            match send(alloc, &mut worker.subordinate, worker.packages, no, step) {
                Ok(got) => got,
                Err(_) => return Attempt::OutOfMemory,
            }
        }
        Todo::Unit => work(&mut worker.subordinate),
    };
    match got {
        Some(got) => Attempt::Gave(got),
        None => Attempt::GaveNothing,
    }
}

/// Sends the call of a step. Where it gave no answer, memory was wanting; after an error nothing was sent.
fn send<U: Subordinate>(
    alloc: Global,
    subordinate: &mut U,
    packages: &Packages,
    no: CallNo,
    step: SendStep,
) -> Result<Option<Got>, AllocError>
    requires ready { U.ready subordinate.old }
    requires number { IsNotBelow (U.last subordinate.old) no }
    requires there { IsThere (bytes_of packages.now) step }
    ensures ready { U.ready subordinate.new }
    ensures last { IsNotBelow (U.last subordinate.new) no }
    ensures sent { IfOk result (λ got. IsSent U.last U.counted U.sends U.works
        (bytes_of packages.now) no step got subordinate.old subordinate.new) }
    ensures none { OnErr result (subordinate.new ≡ subordinate.old) }
    ensures block { OnErr result (IsBlock step) }
{
    let call = call_of(alloc, &step, packages)?;
    Ok(got_of(subordinate.send(no, call)))
}

/// Asks for a unit. Without an answer memory was wanting.
fn work<U: Subordinate>(subordinate: &mut U) -> Option<Got>
    requires ready { U.ready subordinate.old }
    ensures ready { U.ready subordinate.new }
    ensures last { U.last subordinate.new ≡ U.last subordinate.old }
    ensures worked { IsWorked U.last U.counted U.sends U.works result
        subordinate.old subordinate.new }
{
    match subordinate.unit() {
        UnitSent::Worked(worked) => Some(Got::UnitOf(worked)),
        UnitSent::NoReply { faults } => Some(Got::Miss { losses: 0, faults }),
        UnitSent::OutOfMemory => None,
    }
}

/// What a driver is answered; nothing where memory was wanting.
fn got_of(sent: Sent) -> Option<Got>
    ensures { result ≡ got_of sent }
{
    match sent {
        Sent::Answered(reply) => Some(Got::Replied(reply)),
        Sent::Lost { faults } => Some(Got::Miss { losses: 1, faults }),
        Sent::NoReply { faults } => Some(Got::Miss { losses: 0, faults }),
        Sent::OutOfMemory => None,
    }
}
