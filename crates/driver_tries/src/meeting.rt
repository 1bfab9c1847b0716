//! Two workers whose calls wait for each other, in a round and at the end: one worker after another would never meet.
ghost use Rattle.std.specs.Prelude.{◌≡◌, All, IfSome, ⊤};
ghost use Rattle.sub_core.specs.Calls.{bytes_of, AreThere};
ghost use Rattle.sub_core.specs.declared.answers.Round.{Round as AnyRound};
ghost use Rattle.sub_workers.specs.Runs.{MayBegin};

use crate::campaigns::go_round;
use crate::packing::{driver_for, packages, removal};
use package_reader::Packages;
use pm_types::{IdList, Reply, Status, Synced, Worked};
use std::alloc::Global;
use std::sync::Wait;
use std::sync::atomic::AtomicU64;
use std::sync::atomic::Ordering::SeqCst;
use std::thread::Threads;
use sub_core::{Round, Sent, Subordinate, UnitSent};
use sub_workers::{Worker, end_all};
use ucm_base::CallNo;

/// How often a count is looked at before its call goes on.
const LOOKS: u32 = 200_000_000;

/// A node whose calls raise its count, and then wait for the other's.
#[derive(Drop)]
pub struct Meeting<'a> {
    own: &'a AtomicU64,
    other: &'a AtomicU64,
    last: Option<CallNo>,
    calls: u64,
    met: u64,
}

fn wait_for(count: &AtomicU64, calls: u64) -> bool {
    for _ in 0..LOOKS {
        if calls <= count.load(SeqCst) {
            return true;
        }
    }
    false
}

/// The answer to a Sync of a node at rest.
pub fn at_rest() -> Reply {
    Reply::Synced(Synced {
        session: None,
        ended: None,
        transfers: IdList::new(),
    })
}

impl<'a> Subordinate for Meeting<'a> {
    ghost use Rattle.std.specs.Prelude.{⊤};

    ghost ready = { λ n. ⊤ };

    ghost last = { λ n. n.last };

    ghost counted = { λ n. record { losses = 0; faults = 0 } };

    ghost sends = { λ s no call answer t. ⊤ };

    ghost works = { λ s answer t. ⊤ };

    fn send(&mut self, no: CallNo, _call: pm_types::Call) -> Sent {
        self.calls = self.calls.saturating_add(1);
        self.own.store(self.calls, SeqCst);
        if wait_for(self.other, self.calls) {
            self.met = self.met.saturating_add(1);
        }
        self.last = Some(no);
        Sent::Answered(at_rest())
    }

    fn unit(&mut self) -> UnitSent {
        UnitSent::Worked(Worked::Nothing {
            status: Status::Idle,
        })
    }

    fn losses(&self) -> u64 {
        0
    }

    fn faults(&self) -> u64 {
        0
    }
}

/// A worker over a node that waits for another.
fn worker<'a>(
    alloc: Global,
    packages: &'a Packages,
    own: &'a AtomicU64,
    other: &'a AtomicU64,
) -> Option<Worker<'a, Meeting<'a>>>
    ensures there { IfSome result (λ w. AreThere (bytes_of w.packages.now) w.driver.steps) }
    ensures round { IfSome result (λ w. w.driver.round ≡ None) }
    ensures last { IfSome result (λ w. w.subordinate.last ≡ None) }
{
    let driver = driver_for(alloc, packages)?;
    let node = Meeting {
        own,
        other,
        last: None,
        calls: 0,
        met: 0,
    };
    Some(Worker::new(driver, node, packages))
}

/// A round of the workers, and their end.
fn begin_and_end<R: Threads + Wait + Sync>(
    rt: &R,
    alloc: Global,
    workers: &mut [Worker<'_, Meeting<'_>>],
)
    requires { All (MayBegin (λ n. ⊤) (λ n. n.last) AnyRound.Sync) workers.old }
{
    go_round(rt, alloc, workers, Round::Sync);
    end_all(rt, alloc, workers, true);
}

/// In how many calls each of two workers met the other: the one of their round, and the one of their end.
fn meet_at<R: Threads + Wait + Sync>(
    rt: &R,
    alloc: Global,
    packages: &Packages,
    first: &AtomicU64,
    second: &AtomicU64,
) -> Option<[u64; 2]> {
    let mut workers = Vec::new(alloc);
    workers.push(worker(alloc, packages, first, second)?).ok()?;
    workers.push(worker(alloc, packages, second, first)?).ok()?;
    begin_and_end(rt, alloc, workers.as_mut_slice());
    let last = workers.pop()?.into_subordinate();
    let before = workers.pop()?.into_subordinate();
    Some([before.met, last.met])
}

/// In how many calls each of two workers met the other.
pub fn meet<R: Threads + Wait + Sync>(rt: &R, alloc: Global) -> Option<[u64; 2]> {
    let packages = packages(alloc, &[&[removal("core")]])?;
    let first = AtomicU64::new(0);
    let second = AtomicU64::new(0);
    meet_at(rt, alloc, &packages, &first, &second)
}
