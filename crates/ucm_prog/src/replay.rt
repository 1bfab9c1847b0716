//! The command `replay`: the events of a script, done one after another by node 1 on its disk.
ghost use Rattle.std.specs.Prelude.{◌≡◌, IfOk, ⊤};
ghost use Rattle.scenario.specs.declared.script.Command.TheVariants.{Replay};
ghost use Rattle.scenario.specs.Scripts.{script_of};
ghost use Rattle.node_replay.specs.Installed.{IsAllowed};
ghost use Rattle.ucm_prog.specs.Disks.{AreDisks, IsUnused, Node1Goes};
ghost use Rattle.ucm_prog.specs.Outputs.{Ends, IsReplay, replayed};

use crate::output::{Output, refused_line, unformatted};
use crate::status::ExitStatus;
use disk_core::{Disk, FaultPlan};
use node_replay::{Replayed, replay};
use scenario::{Command, Script, ScriptError, read_script};
use std::alloc::{AllocError, Global};

/// The place of node 1's disk.
const NODE_1: usize = 1;

/// What `replay` of a whole input writes.
pub fn replay_input<D: Disk + Drop>(
    alloc: Global,
    input: &[u8],
    disks: &mut Vec<D>,
) -> Result<Output, AllocError>
    requires disks { AreDisks (λ size d. IsUnused size (D.seen d) (D.images d) (D.armed d))
        disks.old.items }
    ensures ends { IfOk result (λ o. Node1Goes (λ d d'.
        Ends (replayed (script_of Replay input.now) input.now) o.status o.bytes.items
        (D.fault_count d) (D.fault_count d') (D.images d')) disks.old.items disks.new.items) }
    ensures others { Node1Goes (λ _ _. ⊤) disks.old.items disks.new.items }
    ensures refused { IfOk result (λ o. o.status ≡ ExitStatus.InputRefused
        → disks.new ≡ disks.old) }
{
    match read_script(alloc, input, Command::Replay) {
        Ok(script) => on_node_1(alloc, &script, script.attached(input), disks),
        Err(ScriptError::BadScenario { line, why }) => refused_line(alloc, line, why),
        Err(ScriptError::OutOfMemory) => Err(AllocError),
    }
}

/// Does a script's events on the disk of node 1.
fn on_node_1<D: Disk + Drop>(
    alloc: Global,
    script: &Script,
    attached: &[u8],
    disks: &mut Vec<D>,
) -> Result<Output, AllocError>
    requires allowed { IsAllowed script.now.installed }
    requires disks { AreDisks (λ size d. IsUnused size (D.seen d) (D.images d) (D.armed d))
        disks.old.items }
    ensures ends { IfOk result (λ o. Node1Goes (λ d d'.
        IsReplay script.now attached.now o.status o.bytes.items
        (D.fault_count d) (D.fault_count d') (D.images d')) disks.old.items disks.new.items) }
    ensures others { Node1Goes (λ _ _. ⊤) disks.old.items disks.new.items }
{
    let plan = FaultPlan::none(alloc);
    // Room to put the disk back.
    disks.reserve(1)?;
    let disk = disks.remove(NODE_1);
    let (disk, ended) = replay(alloc, disk, &plan, script, attached);
    let _ = disks.insert(NODE_1, disk);
    match ended? {
        Replayed::Printed(text) => Ok(Output {
            status: ExitStatus::Successful,
            bytes: text.into_bytes(),
        }),
        Replayed::Unformatted { faults } => unformatted(alloc, faults),
    }
}
