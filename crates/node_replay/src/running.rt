//! The events of a whole script.
ghost use Rattle.std.specs.Prelude.{◌≡◌, ◌⊎◌, ◌≤◌, ℕ, false, string_bytes, IfOk, OnOk};
ghost use Rattle.disk_core.specs.Images.{EachImage};
ghost use Rattle.disk_core.specs.Plans.{no_faults};
ghost use Rattle.node_store.specs.Open.{IsBlank, IsOpen};
ghost use Rattle.node_store.specs.Serving.{node_on};
ghost use Rattle.slot_store.specs.Extents.{HasExtents, node_places};
ghost use Rattle.node_replay.specs.Done.{IsReplayed};
ghost use Rattle.node_replay.specs.Installed.{IsAllowed};
ghost use Rattle.node_replay.specs.Lines.{begun};
ghost use Rattle.node_replay.specs.Standing.{IsArmed, IsEnded};

use crate::events::give_line;
use crate::forming::{clusters_of, form};
use crate::given::add_line;
use checkpoint::StoreError;
use disk_core::{Disk, FaultPlan};
use node_store::{Node, events_make_one_entry, what_is_open_serves};
use scenario::Script;
use std::alloc::{AllocError, Global};

/// How a replay ended.
#[derive(Drop)]
pub enum Replayed {
    /// Its events printed these lines.
    Printed(String),
    /// Eight attempts to format the disk failed, in which its count of faults rose by this much.
    Unformatted { faults: u64 },
}

/// Formats a disk with the clusters of a script, in at most eight attempts, arms it with this plan, and does the script's
/// events one after another, among these attached bytes. A line in which the disk fails is answered by `NoReply`; before
/// the next one the node is opened again. The disk comes back.
pub fn replay<D: Disk + Drop>(
    alloc: Global,
    disk: D,
    plan: &FaultPlan,
    script: &Script,
    attached: &[u8],
) -> (D, Result<Replayed, AllocError>)
    requires allowed { IsAllowed script.now.installed }
    requires extents { HasExtents node_places (D.seen disk) }
    requires blank { EachImage (D.images disk) IsBlank }
    requires unarmed { D.armed disk ≡ no_faults }
    ensures ended { IfOk result.1 (IsEnded script.now attached.now
        (D.fault_count disk) (D.fault_count result.0) (D.images result.0)) }
    ensures plan { IsArmed result.1 plan.now (D.armed result.0) }
{
    let before = disk.faults();
    let clusters = match clusters_of(alloc, script.installed.as_slice(), attached) {
        Ok(clusters) => clusters,
        Err(fault) => return (disk, Err(fault)),
    };
    let mut node = match form(alloc, disk, clusters.as_slice()) {
        Ok(node) => node,
        Err((disk, StoreError::OutOfMemory)) => return (disk, Err(AllocError)),
        Err((disk, StoreError::Failed)) => {
            let faults = disk.faults() - before;
            return (disk, Ok(Replayed::Unformatted { faults }));
        }
    };
    let printed = armed_lines(alloc, &mut node, plan, script, attached);
    (node.close(), printed.map(Replayed::Printed))
}

/// Arms the disk of a node that has just been formatted, and does the events.
fn armed_lines<D: Disk>(
    alloc: Global,
    node: &mut Node<D>,
    plan: &FaultPlan,
    script: &Script,
    attached: &[u8],
) -> Result<String, AllocError>
    requires known { IsOpen node.old.log node.old.ready
        (D.seen node.old.extents.disk) (D.images node.old.extents.disk) }
    requires open { node.old.is_closed ≡ false }
    requires begun { node_on node.old.ready.state (D.seen node.old.extents.disk)
        ≡ begun attached.now script.now.installed }
    requires unarmed { D.armed node.old.extents.disk ≡ no_faults }
    ensures replayed { IfOk result (λ text. (before : ℕ)
        → before ≤ D.fault_count node.old.extents.disk
        → IsReplayed script.now attached.now script.now.events (string_bytes text) before
        (D.fault_count node.new.extents.disk) (D.images node.new.extents.disk)) }
    ensures plan { OnOk result (D.armed node.new.extents.disk ≡ plan.now) }
    ensures any_plan { (D.armed node.new.extents.disk ≡ no_faults)
        ⊎ (D.armed node.new.extents.disk ≡ plan.now) }
{
    node.arm(plan)?;
    lines(alloc, node, script, attached)
}

/// The lines that the events print, one after another, by a node that has just been formatted.
fn lines<D: Disk>(
    alloc: Global,
    node: &mut Node<D>,
    script: &Script,
    attached: &[u8],
) -> Result<String, AllocError>
    requires known { IsOpen node.old.log node.old.ready
        (D.seen node.old.extents.disk) (D.images node.old.extents.disk) }
    requires open { node.old.is_closed ≡ false }
    requires begun { node_on node.old.ready.state (D.seen node.old.extents.disk)
        ≡ begun attached.now script.now.installed }
    ensures replayed { IfOk result (λ text. (before : ℕ)
        → before ≤ D.fault_count node.old.extents.disk
        → IsReplayed script.now attached.now script.now.events (string_bytes text) before
        (D.fault_count node.new.extents.disk) (D.images node.new.extents.disk)) }
    ensures faults { D.fault_count node.old.extents.disk ≤ D.fault_count node.new.extents.disk }
    ensures plan { D.armed node.new.extents.disk ≡ D.armed node.old.extents.disk }
{
    what_is_open_serves::<D>();
    events_make_one_entry();
    let mut text = String::new(alloc);
    'events: for event in script.events.as_slice() {
        let given = give_line(alloc, node, script, attached, &event.event)?;
        add_line(&mut text, event.line, script.time, &given)?;
    }
    Ok(text)
}
