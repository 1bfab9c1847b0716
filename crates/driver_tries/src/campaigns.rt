//! One node, run by a worker through rounds of a campaign and to its end.
ghost use Rattle.std.specs.Prelude.{◌≡◌, All, IsTrue, Some};
ghost use Rattle.sub_core.specs.Driving.{todo, IsBeforeEnd};
ghost use Rattle.sub_core.specs.declared.answers.Finding.{Finding as AnyFinding};
ghost use Rattle.sub_core.specs.declared.answers.Round.{Round as AnyRound};
ghost use Rattle.sub_core.specs.declared.answers.Todo.{Todo as AnyTodo};
ghost use Rattle.sub_workers.specs.Runs.{IsReady, MayBegin};
ghost use Rattle.driver_tries.specs.Nodes.{Begins, GoesOn};

use crate::linked::{LinkedNode, Trouble};
use crate::node::CoreNode;
use crate::packing::driver_for;
use package_reader::Packages;
use report::EntryList;
use std::alloc::Global;
use std::sync::Wait;
use std::thread::Threads;
use sub_core::{Finding, Round, Subordinate, Todo};
use sub_workers::{Worker, end_all, prepare_all};
use ucm_base::CallNo;

/// A campaign on one node: which cluster fails there, what the link does, up to which round it goes, and the decision.
#[derive(Clone, Copy)]
pub struct Campaign {
    pub fails: Option<&'static str>,
    pub trouble: Option<Trouble>,
    pub last: Round,
    pub commit: bool,
}

/// What a campaign came to: the findings of its last round and of its end, the numbers of what was sent, and the node's
/// history.
#[derive(Drop)]
pub struct Outcome {
    pub vote: Option<Finding>,
    pub end: Option<Finding>,
    pub sent: Vec<CallNo>,
    pub entries: EntryList,
}

/// A round of each worker.
pub fn go_round<R: Threads + Wait + Sync, U: Subordinate + Send>(
    rt: &R,
    alloc: Global,
    workers: &mut [Worker<'_, U>],
    round: Round,
)
    requires begins { All (MayBegin U.ready U.last round) workers.old }
    ensures ready { All (IsReady U.ready U.last) workers.new }
    ensures round { All (λ w. w.driver.round ≡ Some round) workers.new }
{
    prepare_all(rt, alloc, workers, round);
}

/// Whether a worker's round is done.
pub fn is_done<U>(worker: &Worker<'_, U>) -> bool
    ensures { IsTrue result → todo worker.now.driver ≡ AnyTodo.Rest AnyFinding.RoundDone }
{
    worker.driver.has_number() && matches!(worker.driver.next(), Todo::Rest(Finding::RoundDone))
}

/// Whether the round of each worker is done.
pub fn are_done<U>(workers: &[Worker<'_, U>]) -> bool
    ensures { IsTrue result
        → All (λ w. todo w.driver ≡ AnyTodo.Rest AnyFinding.RoundDone) workers.now }
{
    workers.iter().all(is_done)
}

/// The rounds in their order, up to the last one or the first that isn't done.
fn prepare<R: Threads + Wait + Sync>(
    rt: &R,
    alloc: Global,
    workers: &mut [Worker<'_, LinkedNode>],
    last: Round,
)
    requires begins { All (Begins AnyRound.Sync) workers.old }
    ensures ready { All GoesOn workers.new }
    ensures rounds { All (λ w. IsBeforeEnd w.driver.round) workers.new }
{
    go_round(rt, alloc, workers, Round::Sync);
    if last == Round::Sync || !are_done(workers) {
        return;
    }
    go_round(rt, alloc, workers, Round::Transfer);
    if last == Round::Transfer || !are_done(workers) {
        return;
    }
    go_round(rt, alloc, workers, Round::Process);
    if last != Round::Process && are_done(workers) {
        go_round(rt, alloc, workers, Round::Activate);
    }
}

/// The rounds, and the end. It answers what the last round found.
fn go<R: Threads + Wait + Sync>(
    rt: &R,
    alloc: Global,
    workers: &mut [Worker<'_, LinkedNode>],
    campaign: &Campaign,
) -> Option<Finding>
    requires begins { All (Begins AnyRound.Sync) workers.old }
{
    prepare(rt, alloc, workers, campaign.last);
    let vote = workers.first().and_then(|worker| worker.found);
    end_all(rt, alloc, workers, campaign.commit);
    vote
}

/// Runs a campaign of these packages on one node.
pub fn run<R: Threads + Wait + Sync>(
    rt: &R,
    alloc: Global,
    packages: &Packages,
    campaign: &Campaign,
) -> Option<Outcome> {
    let driver = driver_for(alloc, packages)?;
    let node = LinkedNode {
        node: CoreNode::new(alloc, campaign.fails)?,
        trouble: campaign.trouble,
        sent: Vec::new(alloc),
        last: None,
        losses: 0,
    };
    let mut workers = Vec::new(alloc);
    workers.push(Worker::new(driver, node, packages)).ok()?;
    let vote = go(rt, alloc, workers.as_mut_slice(), campaign);
    let worker = workers.pop()?;
    let end = worker.found;
    let LinkedNode { node, sent, .. } = worker.into_subordinate();
    Some(Outcome {
        vote,
        end,
        sent,
        entries: node.into_entries(),
    })
}
