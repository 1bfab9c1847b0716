//! Tables of what one driver does.
ghost use Rattle.std.specs.Prelude.{[], ◌∷◌};
ghost use Rattle.sub_core.specs.Driving.{fresh, CanBegin};

use anyhow::Result;
use pm_types::{IdList, Reply, SessionMark, Status, Synced, Worked};
use std::alloc::Global;
use std::io::Print;
use sub_core::{Driver, Finding, Got, PackageSize, Round, SendStep, Todo};
use ucm_base::ClientId;

/// A driver of one package of 5,000 bytes, in this round.
fn begun(alloc: Global, round: Round) -> Option<Driver>
    requires { CanBegin round (fresh 1 1 7 (record { index = 0; length = 5000 } ∷ [])) }
{
    let steps = [PackageSize {
        index: 0,
        length: 5000,
    }];
    let mut driver = Driver::new(alloc, 1, 1, 7, &steps).ok()?;
    driver.begin(round);
    Some(driver)
}

fn next(driver: &Driver) -> Option<Todo> {
    if driver.has_number() {
        Some(driver.next())
    } else {
        None
    }
}

/// What a Sync shows: a session of the master in this status, or none, and these transfers.
pub fn shown(status: Option<Status>, transfers: IdList) -> Got {
    let session = match (ClientId::of(0), status) {
        (Some(owner), Some(status)) => Some(SessionMark {
            owner,
            tag: 7,
            status,
        }),
        _ => None,
    };
    Got::Replied(Reply::Synced(Synced {
        session,
        ended: None,
        transfers,
    }))
}

/// Where a Sync that was missed so often, and then answered, leads to: the sums of the misses, or none where the round
/// is done.
fn missed_syncs(alloc: Global, misses: u32) -> Option<Option<(u64, u64)>> {
    let mut driver = begun(alloc, Round::Sync)?;
    for _ in 0..misses {
        driver.on(Got::Miss {
            losses: 1,
            faults: 0,
        });
    }
    driver.on(shown(None, IdList::new()));
    match next(&driver)? {
        Todo::Rest(Finding::RoundDone) => Some(None),
        Todo::Rest(Finding::Unreached { losses, faults }) => Some(Some((losses, faults))),
        _ => None,
    }
}

/// The number and the call that are asked for; none where nothing is.
fn asked(driver: &Driver) -> Option<(u32, Option<SendStep>)> {
    match next(driver)? {
        Todo::Send { no, step } => Some((no.number, Some(step))),
        Todo::Rest(Finding::Ended { no }) => Some((no.number, None)),
        _ => None,
    }
}

/// The number and the call that the end phase asks for after a Sync that showed this status; none where it is at rest.
fn end_step(
    alloc: Global,
    commit: bool,
    status: Option<Status>,
) -> Option<(u32, Option<SendStep>)> {
    let mut driver = begun(alloc, Round::End { commit })?;
    driver.on(shown(status, IdList::new()));
    asked(&driver)
}

/// What the end phase asks for after a Sync that showed Activated, where this answer comes to its call.
fn after_other(alloc: Global, got: Got) -> Option<(u32, Option<SendStep>)> {
    let mut driver = begun(alloc, Round::End { commit: true })?;
    driver.on(shown(Some(Status::Activated), IdList::new()));
    driver.on(got);
    asked(&driver)
}

/// Prints a Sync that is missed, what the end phase does with each status, and with answers of other kinds.
pub fn print(rt: &impl Print, alloc: Global) -> Result<()> {
    for misses in [0, 7, 8, 9] {
        let found = missed_syncs(alloc, misses);
        println!(rt; "Sync, {misses} misses and its answer: {found:?}")?;
    }
    for commit in [true, false] {
        let decision = if commit { "Commit" } else { "Abort" };
        let none = end_step(alloc, commit, None);
        println!(rt; "{decision}, no session: {none:?}")?;
        for status in [Status::Activated, Status::RolledBack, Status::Ready] {
            let step = end_step(alloc, commit, Some(status));
            println!(rt; "{decision}, {status}: {step:?}")?;
        }
    }
    let started = after_other(alloc, Got::Replied(Reply::Started { id: 1 }));
    println!(rt; "Commit, kActivated, and a start is answered: {started:?}")?;
    let synced = after_other(alloc, shown(None, IdList::new()));
    println!(rt; "Commit, kActivated, and a Sync is answered: {synced:?}")?;
    let worked = after_other(
        alloc,
        Got::UnitOf(Worked::Nothing {
            status: Status::Idle,
        }),
    );
    println!(rt; "Commit, kActivated, and a unit is answered: {worked:?}")?;
    Ok(())
}
