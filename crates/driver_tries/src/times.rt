//! How long drivers and workers take.
ghost use Rattle.std.specs.Prelude.{IfSome, All, ⊤};
ghost use Rattle.sub_workers.specs.Runs.{MayBegin};
ghost use Rattle.sub_core.specs.declared.answers.Round.{Round as AnyRound};

use crate::campaigns::{are_done, go_round};
use crate::meeting::at_rest;
use crate::packing::{driver_for, install, packages, removal};
use package_reader::Packages;
use pm_types::{Call, Reply, Status, Worked};
use std::alloc::Global;
use std::sync::Wait;
use std::thread;
use std::thread::Threads;
use std::time::{Clock, Duration, Instant};
use sub_core::{
    Driver, Finding, Got, PackageSize, Round, SendStep, Sent, Subordinate, Todo, UnitSent,
};
use sub_workers::{Worker, prepare_all};
use ucm_base::CallNo;

/// How many drivers are timed, and at how many blocks in a row.
const DRIVERS: u32 = 200;

const BLOCKS: u32 = 64;

/// A node whose calls wait so long, and which accepts them all.
#[derive(Drop)]
pub struct Slow<'a, C> {
    clock: &'a C,
    last: Option<CallNo>,
    millis: u64,
}

impl<'a, C: Clock> Subordinate for Slow<'a, C> {
    ghost use Rattle.std.specs.Prelude.{⊤};

    ghost ready = { λ n. ⊤ };

    ghost last = { λ n. n.last };

    ghost counted = { λ n. record { losses = 0; faults = 0 } };

    ghost sends = { λ s no call answer t. ⊤ };

    ghost works = { λ s answer t. ⊤ };

    fn send(&mut self, no: CallNo, call: Call) -> Sent {
        if 0 < self.millis {
            thread::sleep(self.clock, Duration::from_millis(self.millis));
        }
        self.last = Some(no);
        Sent::Answered(match call {
            Call::Sync => at_rest(),
            Call::TransferStart { .. } => Reply::Started { id: 1 },
            _ => Reply::Done,
        })
    }

    fn unit(&mut self) -> UnitSent {
        UnitSent::Worked(Worked::Nothing {
            status: Status::Idle,
        })
    }

    fn losses(&self) -> u64 {
        0
    }

    fn faults(&self) -> u64 {
        0
    }
}

/// Workers over so many nodes, each of which takes so many milliseconds for a call, and the last one so many.
fn workers<'a, C: Clock>(
    alloc: Global,
    clock: &'a C,
    packages: &'a Packages,
    count: u32,
    millis: [u64; 2],
) -> Option<Vec<Worker<'a, Slow<'a, C>>>>
    ensures { IfSome result (λ v. All (MayBegin (λ n. ⊤) (λ n. n.last) AnyRound.Sync) v.items) }
{
    let mut workers = Vec::new(alloc);
    for place in 0..count {
        let driver = driver_for(alloc, packages)?;
        let node = Slow {
            clock,
            last: None,
            millis: if place + 1 < count {
                millis[0]
            } else {
                millis[1]
            },
        };
        workers.push(Worker::new(driver, node, packages)).ok()?;
    }
    Some(workers)
}

/// The microseconds of a round over so many workers, where each node takes so many milliseconds for its one call, and the
/// last one so many.
pub fn round<R: Threads + Wait + Clock + Sync>(
    rt: &R,
    alloc: Global,
    count: u32,
    millis: [u64; 2],
) -> Option<u128> {
    let packages = packages(alloc, &[&[removal("core")]])?;
    let mut workers = workers(alloc, rt, &packages, count, millis)?;
    let start = Instant::now(rt).ok()?;
    prepare_all(rt, alloc, workers.as_mut_slice(), Round::Sync);
    Some(start.elapsed(rt).ok()?.as_micros())
}

/// The microseconds in which so many workers, each over a node that takes no time, transfer one package with a payload of
/// so many bytes.
pub fn transfer<R: Threads + Wait + Clock + Sync>(
    rt: &R,
    alloc: Global,
    count: u32,
    size: u32,
) -> Option<u128> {
    let packages = packages(alloc, &[&[install("app", 1, size)]])?;
    let mut workers = workers(alloc, rt, &packages, count, [0, 0])?;
    go_round(rt, alloc, workers.as_mut_slice(), Round::Sync);
    if !are_done(workers.as_slice()) {
        return None;
    }
    let start = Instant::now(rt).ok()?;
    go_round(rt, alloc, workers.as_mut_slice(), Round::Transfer);
    let took = start.elapsed(rt).ok()?.as_micros();
    if are_done(workers.as_slice()) {
        Some(took)
    } else {
        None
    }
}

/// A driver at the first block of a package of 16 MiB.
fn at_first_block(alloc: Global) -> Option<Driver> {
    let steps = [PackageSize {
        index: 0,
        length: 16_777_216,
    }];
    let mut driver = Driver::new(alloc, 1, 1, 7, &steps).ok()?;
    driver.begin(Round::Sync);
    driver.on(Got::Replied(at_rest()));
    if !driver.has_number() {
        return None;
    }
    let Todo::Rest(Finding::RoundDone) = driver.next() else {
        return None;
    };
    driver.begin(Round::Transfer);
    driver.on(Got::Replied(Reply::Started { id: 1 }));
    Some(driver)
}

/// Asks for so many blocks in a row, each of which is done; the counter behind the last.
fn go_on(driver: &mut Driver, count: u32) -> Option<u64> {
    let mut last = 0;
    for _ in 0..count {
        if !driver.has_number() {
            return None;
        }
        let Todo::Send {
            step: SendStep::Data { counter, .. },
            ..
        } = driver.next()
        else {
            return None;
        };
        driver.on(Got::Replied(Reply::Done));
        last = counter;
    }
    Some(last)
}

/// The nanoseconds of `next` and `on` at some blocks in a row, and the counter of the last.
fn timed(rt: &impl Clock, driver: &mut Driver) -> Option<(u128, u64)> {
    let start = Instant::now(rt).ok()?;
    let last = go_on(driver, BLOCKS)?;
    Some((start.elapsed(rt).ok()?.as_nanos(), last))
}

/// For the first blocks of a package, and for those behind this one: the nanoseconds that `next` and `on` take for one,
/// with the quickest of some drivers, and the counter of the last.
pub fn blocks(rt: &impl Clock, alloc: Global, before: u32) -> Option<[(u128, u64); 2]> {
    let mut quickest = [u128::MAX; 2];
    let mut lasts = [0u64; 2];
    for _ in 0..DRIVERS {
        let mut driver = at_first_block(alloc)?;
        let first = timed(rt, &mut driver)?;
        go_on(&mut driver, before.saturating_sub(BLOCKS))?;
        let later = timed(rt, &mut driver)?;
        quickest = [quickest[0].min(first.0), quickest[1].min(later.0)];
        lasts = [first.1, later.1];
    }
    let count = BLOCKS as u128;
    Some([
        (quickest[0] / count, lasts[0]),
        (quickest[1] / count, lasts[1]),
    ])
}
