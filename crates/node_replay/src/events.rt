//! One event of a script, done by a node that may be closed.
ghost use Rattle.std.specs.Prelude.{◌≡◌, ◌<◌, ◌≤◌, ◌+◌, ◌⊎◌, false, true, IfOk, ℕ};
ghost use Rattle.ucm_base.specs.Limits.{entry_limit};
ghost use Rattle.pm_types.specs.NodeState.{NodeState as a_node};
ghost use Rattle.fault_count.specs.Faults.{HasRisen};
ghost use Rattle.node_store.specs.Open.{IsOpen};
ghost use Rattle.node_store.specs.Serving.{node_on};
ghost use Rattle.node_replay.specs.Lines.{after_event, asked, given_by};
ghost use Rattle.node_replay.specs.Standing.{Rises, StandsAfter, StandsAt, StandsBehind};

use crate::Given;
use checkpoint::StoreError;
use disk_core::Disk;
use node_store::{Node, NodeAnswer, WorkAnswer, events_make_one_entry, what_is_open_serves};
use pm_types::Query;
use scenario::{Event, Script, call_of};
use std::alloc::{AllocError, Global};

/// Does an event. A closed node is opened first; where that fails, or where the disk fails in the event, nothing is given.
pub(crate) fn give_line<D: Disk>(
    alloc: Global,
    node: &mut Node<D>,
    script: &Script,
    attached: &[u8],
    event: &Event,
) -> Result<Option<Given>, AllocError>
    requires stands { (n : a_node) × (m : a_node) × (m.entries < entry_limit)
        × StandsAt n m node.old.is_closed node.old.log node.old.ready
        (D.seen node.old.extents.disk) (D.images node.old.extents.disk) }
    ensures stands { IfOk result (λ given. (n m : a_node)
        → StandsAt n m node.old.is_closed node.old.log node.old.ready
        (D.seen node.old.extents.disk) (D.images node.old.extents.disk)
        → StandsBehind script.now attached.now event.now n m given node.new.is_closed node.new.log
        node.new.ready (D.seen node.new.extents.disk) (D.images node.new.extents.disk)) }
    ensures rises { IfOk result (λ given. Rises given (D.fault_count node.old.extents.disk)
        (D.fault_count node.new.extents.disk)) }
    ensures faults { D.fault_count node.old.extents.disk ≤ D.fault_count node.new.extents.disk }
    ensures plan { D.armed node.new.extents.disk ≡ D.armed node.old.extents.disk }
{
    if node.is_closed() {
        match node.revive(alloc) {
            Ok(_) => {}
            Err(StoreError::Failed) => return Ok(None),
            Err(StoreError::OutOfMemory) => return Err(AllocError),
        }
    }
    give(alloc, node, script, attached, event)
}

/// Does an event at an open node.
fn give<D: Disk>(
    alloc: Global,
    node: &mut Node<D>,
    script: &Script,
    attached: &[u8],
    event: &Event,
) -> Result<Option<Given>, AllocError>
    requires known { IsOpen node.old.log node.old.ready
        (D.seen node.old.extents.disk) (D.images node.old.extents.disk) }
    requires open { node.old.is_closed ≡ false }
    requires entries { node.old.ready.state.entries < entry_limit }
    ensures stands { IfOk result (λ given. StandsAfter
        (node_on node.old.ready.state (D.seen node.old.extents.disk))
        (after_event script.now attached.now
        (node_on node.old.ready.state (D.seen node.old.extents.disk)) event.now)
        (given_by script.now attached.now
        (node_on node.old.ready.state (D.seen node.old.extents.disk)) event.now)
        given node.new.is_closed node.new.log node.new.ready
        (D.seen node.new.extents.disk) (D.images node.new.extents.disk)) }
    ensures rises { IfOk result (λ given. Rises given (D.fault_count node.old.extents.disk)
        (D.fault_count node.new.extents.disk)) }
    ensures faults { D.fault_count node.old.extents.disk ≤ D.fault_count node.new.extents.disk }
    ensures plan { D.armed node.new.extents.disk ≡ D.armed node.old.extents.disk }
{
    events_make_one_entry();
    match event {
        Event::Call { client, no, call } => {
            let call = call_of(alloc, call, attached)?;
            match node.exec(alloc, *client, *no, &call) {
                NodeAnswer::Reached(reached) => Ok(Some(Given::Reached(reached))),
                NodeAnswer::NoReply { .. } => Ok(None),
                NodeAnswer::OutOfMemory => Err(AllocError),
            }
        }
        Event::Work { .. } => match node.work(alloc, script.fails.as_slice()) {
            WorkAnswer::Worked(worked) => Ok(Some(Given::Worked(worked))),
            WorkAnswer::NoReply { .. } => Ok(None),
            WorkAnswer::OutOfMemory => Err(AllocError),
        },
        Event::Ask { client, query } => {
            let query = query_in_places(script.time, *query);
            let answer = node.query(alloc, *client, &query)?;
            Ok(Some(Given::Answer(answer)))
        }
    }
}

/// A query of a script that begins at this time, whose history is asked by times and lies by places.
fn query_in_places(start: u64, query: Query) -> Query
    ensures { result ≡ asked start query }
{
    match query {
        Query::GetHistory { ge, lt } => Query::GetHistory {
            ge: ge.saturating_sub(start),
            lt: lt.saturating_sub(start),
        },
        other => other,
    }
}
