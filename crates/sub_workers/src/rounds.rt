//! Each worker does a round, or goes to its end, beside the others.
ghost use Rattle.std.specs.Prelude.{◌≡◌, ℕ, ◌<◌, true, is_some, length, slice_index_or, All};
ghost use Rattle.sub_core.specs.declared.answers.Round.{Round as AnyRound};
ghost use Rattle.sub_workers.specs.Runs.{Drove, IsReady, MayBegin, Ran};
ghost use Rattle.sub_workers.specs.declared.worker.Worker.{Worker as AnyWorker};

use crate::Worker;
use crate::sending::{Attempt, try_once};
use std::alloc::Global;
use std::sync::Wait;
use std::thread;
use std::thread::Threads;
use sub_core::{Round, Subordinate};
use ucm_base::limits::NODE_LIMIT;

/// Runs a driver until it rests, or memory or its numbers are out.
fn drive<R: Wait, U: Subordinate>(rt: &R, alloc: Global, worker: &mut Worker<'_, U>)
    requires ready { IsReady U.ready U.last worker.old }
    requires begun { is_some worker.old.driver.round ≡ true }
    ensures ready { IsReady U.ready U.last worker.new }
    ensures drove { Drove U.last U.counted U.sends U.works worker.old.driver worker.old worker.new }
{
    worker.found = None;
    for _ in rt.forever() {
        if !worker.driver.has_number() {
            return;
        }
        match try_once(alloc, worker) {
            Attempt::Gave(got) => worker.driver.on(got),
            Attempt::GaveNothing => {
                worker.driver.on_nothing();
                return;
            }
            Attempt::Rests(finding) => {
                worker.found = Some(finding);
                return;
            }
            Attempt::OutOfMemory => return,
        }
    }
    unreachable!()
}

/// One round of one worker.
fn run_round<R: Wait, U: Subordinate>(
    rt: &R,
    alloc: Global,
    worker: &mut Worker<'_, U>,
    round: Round,
)
    requires ready { MayBegin U.ready U.last round worker.old }
    ensures ready { IsReady U.ready U.last worker.new }
    ensures ran { Ran U.last U.counted U.sends U.works round worker.old worker.new }
{
    worker.driver.begin(round);
    drive(rt, alloc, worker);
}

/// Each worker does this round, beside the others.
pub fn prepare_all<R: Threads + Wait + Sync, U: Subordinate + Send>(
    rt: &R,
    alloc: Global,
    workers: &mut [Worker<'_, U>],
    round: Round,
)
    requires ready { All (MayBegin U.ready U.last round) workers.old }
    ensures ready { All (IsReady U.ready U.last) workers.new }
    ensures ran { (i : ℕ) (d : AnyWorker U) → i < length workers.old
        → Ran U.last U.counted U.sends U.works round
        (slice_index_or workers.old i d) (slice_index_or workers.new i d) }
{
    thread::for_each_mut(
        rt,
        workers,
        NODE_LIMIT as usize,
        &|_, worker|
            requires { MayBegin U.ready U.last round worker.old }
            ensures ready { IsReady U.ready U.last worker.new }
            ensures ran { Ran U.last U.counted U.sends U.works round worker.old worker.new }
        { run_round(rt, alloc, worker, round) },
    );
}

/// Each worker goes to its end, beside the others.
pub fn end_all<R: Threads + Wait + Sync, U: Subordinate + Send>(
    rt: &R,
    alloc: Global,
    workers: &mut [Worker<'_, U>],
    commit: bool,
)
    requires ready { All (MayBegin U.ready U.last (AnyRound.End commit)) workers.old }
    ensures ready { All (IsReady U.ready U.last) workers.new }
    ensures ran { (i : ℕ) (d : AnyWorker U) → i < length workers.old
        → Ran U.last U.counted U.sends U.works (AnyRound.End commit)
        (slice_index_or workers.old i d) (slice_index_or workers.new i d) }
{
    prepare_all(rt, alloc, workers, Round::End { commit });
}
