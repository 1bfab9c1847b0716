//! Rows of one driver: what it asks for, and what it asks for after each answer.
ghost use Rattle.std.specs.Prelude.{◌≡◌, IfSome, IsTrue, None, Some};
ghost use Rattle.sub_core.specs.Driving.{todo};
ghost use Rattle.sub_core.specs.declared.answers.Finding.{Finding as AnyFinding};
ghost use Rattle.sub_core.specs.declared.answers.Round.{Round as AnyRound};
ghost use Rattle.sub_core.specs.declared.answers.Todo.{Todo as AnyTodo};

use crate::findings::print_finding;
use crate::tables::shown;
use anyhow::Result;
use pm_types::{IdList, Refusal, Reply, Status, Worked};
use std::alloc::Global;
use std::io::Print;
use sub_core::{Driver, Finding, Got, PackageSize, Round, Todo};

const DONE: Got = Got::Replied(Reply::Done);

const STARTED: Got = Got::Replied(Reply::Started { id: 1 });

const REFUSED: Got = Got::Replied(Reply::Refused(Refusal::OperationNotPermitted));

const MISS: Got = Got::Miss {
    losses: 1,
    faults: 0,
};

/// There was no unit to do.
const fn nothing(status: Status) -> Got {
    Got::UnitOf(Worked::Nothing { status })
}

/// A Sync shows a session of the master in this status.
fn session(status: Status) -> Got {
    shown(Some(status), IdList::new())
}

/// A Sync shows no session of the master, and no transfer.
fn rest() -> Got {
    shown(None, IdList::new())
}

/// A Sync shows three transfers.
fn three_transfers() -> Got {
    let mut ids = IdList::new();
    ids.push(4);
    ids.push(7);
    ids.push(9);
    shown(None, ids)
}

/// A driver of one package of 100 bytes, from this number on, in its first round.
fn in_sync(alloc: Global, first: u32) -> Option<Driver>
    ensures { IfSome result (λ d. d.round ≡ Some AnyRound.Sync) }
{
    let steps = [PackageSize {
        index: 0,
        length: 100,
    }];
    let mut driver = Driver::new(alloc, 1, first, 7, &steps).ok()?;
    driver.begin(Round::Sync);
    Some(driver)
}

/// The same at the end.
fn at_end(alloc: Global, first: u32, commit: bool) -> Option<Driver> {
    let steps = [PackageSize {
        index: 0,
        length: 100,
    }];
    let mut driver = Driver::new(alloc, 1, first, 7, &steps).ok()?;
    driver.begin(Round::End { commit });
    Some(driver)
}

/// Whether its round is done.
fn is_done(driver: &Driver) -> bool
    ensures { IsTrue result → todo driver.now ≡ AnyTodo.Rest AnyFinding.RoundDone }
{
    driver.has_number() && matches!(driver.next(), Todo::Rest(Finding::RoundDone))
}

/// A driver that transfers its package next.
fn in_transfer(alloc: Global, first: u32) -> Option<Driver>
    ensures { IfSome result (λ d. d.round ≡ Some AnyRound.Transfer) }
{
    let mut driver = in_sync(alloc, first)?;
    driver.on(rest());
    if !is_done(&driver) {
        return None;
    }
    driver.begin(Round::Transfer);
    Some(driver)
}

/// A driver that processes its package next.
fn in_process(alloc: Global) -> Option<Driver>
    ensures { IfSome result (λ d. d.round ≡ Some AnyRound.Process) }
{
    let mut driver = in_transfer(alloc, 1)?;
    driver.on(STARTED);
    driver.on(DONE);
    driver.on(DONE);
    if !is_done(&driver) {
        return None;
    }
    driver.begin(Round::Process);
    Some(driver)
}

/// A driver that activates next.
fn in_activate(alloc: Global) -> Option<Driver> {
    let mut driver = in_process(alloc)?;
    driver.on(DONE);
    driver.on(nothing(Status::Ready));
    if !is_done(&driver) {
        return None;
    }
    driver.begin(Round::Activate);
    Some(driver)
}

fn print_asked(rt: &impl Print, driver: &Driver) -> Result<()> {
    if !driver.has_number() {
        print!(rt; "no number is left")?;
        return Ok(());
    }
    match driver.next() {
        Todo::Send { no, step } => print!(rt; "{no} {step:?}")?,
        Todo::Unit => print!(rt; "a unit")?,
        Todo::Rest(finding) => print_finding(rt, finding)?,
    }
    Ok(())
}

/// A row: what a driver asks for, and after each of these answers.
fn row(rt: &impl Print, heading: &str, driver: Option<Driver>, answers: &[Got]) -> Result<()> {
    let Some(mut driver) = driver else {
        println!(rt; "{heading}: nothing")?;
        return Ok(());
    };
    print!(rt; "{heading}: ")?;
    print_asked(rt, &driver)?;
    for got in answers {
        driver.on(*got);
        print!(rt; "; ")?;
        print_asked(rt, &driver)?;
    }
    println!(rt; "")?;
    Ok(())
}

/// Answers of kinds that what is asked for never has.
fn print_others(rt: &impl Print, alloc: Global) -> Result<()> {
    let sync = in_sync(alloc, 1);
    let answers = [DONE, STARTED, REFUSED, nothing(Status::Activated), rest()];
    row(
        rt,
        "Sync, and Done, a start, a refusal and a unit",
        sync,
        &answers,
    )?;
    let start = in_transfer(alloc, 1);
    let answers = [DONE, rest(), nothing(Status::Activated), STARTED];
    row(
        rt,
        "TransferStart, and Done, a Sync and a unit",
        start,
        &answers,
    )?;
    let delete = at_end(alloc, 1, false);
    let answers = [
        three_transfers(),
        STARTED,
        rest(),
        nothing(Status::Activated),
        DONE,
    ];
    row(
        rt,
        "DeleteTransfer, and a start, a Sync and a unit",
        delete,
        &answers,
    )?;
    let working = at_end(alloc, 1, false);
    let answers = [session(Status::Verifying), DONE, STARTED, rest(), REFUSED];
    row(
        rt,
        "a unit, and Done, a start, a Sync and a refusal",
        working,
        &answers,
    )
}

/// Units where there was nothing to do, in the rounds and at the end.
fn print_nothings(rt: &impl Print, alloc: Global) -> Result<()> {
    for status in [
        Status::Verifying,
        Status::Activated,
        Status::RolledBack,
        Status::Idle,
    ] {
        println!(rt; "nothing to do, {status}")?;
        row(rt, "Activate", in_activate(alloc), &[DONE, nothing(status)])?;
        let end = at_end(alloc, 1, false);
        let answers = [session(Status::RollingBack), nothing(status)];
        row(rt, "Abort", end, &answers)?;
    }
    Ok(())
}

/// What follows a refusal, and each of three transfers that are deleted.
fn print_ends(rt: &impl Print, alloc: Global) -> Result<()> {
    let commit = at_end(alloc, 1, true);
    let answers = [
        session(Status::Activated),
        REFUSED,
        session(Status::Activated),
        DONE,
        nothing(Status::Idle),
        rest(),
    ];
    row(rt, "Commit, and Finish is refused", commit, &answers)?;
    let abort = at_end(alloc, 1, false);
    let answers = [three_transfers(), DONE, DONE, DONE, rest()];
    row(rt, "Abort, and three transfers", abort, &answers)?;
    let refused = at_end(alloc, 1, false);
    let answers = [three_transfers(), DONE, REFUSED, rest()];
    row(
        rt,
        "Abort, and a DeleteTransfer is refused",
        refused,
        &answers,
    )
}

/// Drivers whose numbers end.
fn print_last(rt: &impl Print, alloc: Global) -> Result<()> {
    let last = u32::MAX;
    let start = in_transfer(alloc, last);
    row(rt, "the last number was the Sync's", start, &[STARTED])?;
    let end = at_end(alloc, last - 1, true);
    let answers = [
        session(Status::Activated),
        MISS,
        DONE,
        nothing(Status::Idle),
        rest(),
    ];
    row(rt, "the last number but one", end, &answers)?;
    let rests = at_end(alloc, last, true);
    row(rt, "the last number", rests, &[MISS, rest()])
}

/// Prints the rows.
pub fn print(rt: &impl Print, alloc: Global) -> Result<()> {
    print_others(rt, alloc)?;
    print_nothings(rt, alloc)?;
    print_ends(rt, alloc)?;
    print_last(rt, alloc)
}
