//! What the lines of a script say of an attempt at a node and of a call of a disk, and the plan that a disk is armed
//! with.
ghost use Rattle.std.specs.Prelude.{◌≡◌, ◌++◌, IfOk, OnOk};
ghost use Rattle.std.specs.List.{flat_map};
ghost use Rattle.disk_mem.specs.Strikes.{same_kind};
ghost use Rattle.run_script.specs.Plans.{IsPlanOf, calls_by, fails_by, fate_given, is_failing, stop_given, stops_by};

use crate::lines::{FaultLine, Lines, StopLine};
use disk_core::{FailKind, Fails, FaultPlan, Stops};
use std::alloc::{AllocError, Global};
use sub_core::Fate;
use ucm_base::NodeId;

/// The most failing calls that a plan lists, each as a pair.
const FAIL_LIMIT: u64 = 16_777_216;

// Each look goes through all lines of its kind.
impl Lines {
    /// What becomes of an attempt at a node, where a line says it; else it is delivered.
    pub fn fate_given(&self, node: NodeId, attempt: u64) -> Option<Fate>
        ensures { result ≡ fate_given self.now.fates node attempt }
    {
        self.fates
            .as_slice()
            .iter()
            .find(|f| f.node.number() == node.number() && f.first <= attempt && attempt <= f.last)
            .map(|f| f.fate)
    }

    /// How many bytes of a write stay, where a disk stops at it.
    pub fn stop_given(&self, disk: u8, write: u64) -> Option<u64>
        ensures { result ≡ stop_given self.now.stops disk write }
    {
        self.stops
            .as_slice()
            .iter()
            .find(|s| s.disk == disk && s.write == write)
            .map(|s| s.keep)
    }

    /// Whether a call of a disk fails by a line.
    pub fn is_failing(&self, disk: u8, kind: FailKind, call: u64) -> bool
        ensures { result ≡ is_failing self.now.faults disk kind call }
    {
        self.faults.as_slice().iter().any(|f| {
            f.disk == disk && same_kind(f.kind, kind) && f.first <= call && call <= f.last
        })
    }

    /// The plan of a disk, which lists its failing calls one by one. More than 16,777,216 of them are answered as want
    /// of memory, before they are listed.
    #[tactic(auto, using(crate::proofs::Planned::is_plan))]
    pub fn plan_of(&self, alloc: Global, disk: u8) -> Result<FaultPlan, AllocError>
        ensures { IfOk result (IsPlanOf self.now disk) }
    {
        let stops = stops_of(alloc, self.stops.as_slice(), disk)?;
        let fails = fails_of(alloc, self.faults.as_slice(), disk)?;
        Ok(FaultPlan { stops, fails })
    }
}

fn add_stop(stops: &mut Vec<(u64, u64)>, line: &StopLine, disk: u8) -> Result<(), AllocError>
    ensures { OnOk result (stops.new.items ≡ stops.old.items ++ stops_by disk line.now) }
{
    if line.disk == disk {
        stops.push((line.write, line.keep))?;
    }
    Ok(())
}

/// The writes at which a disk stops.
fn stops_of(alloc: Global, lines: &[StopLine], disk: u8) -> Result<Stops, AllocError>
    ensures { IfOk result (λ stops. stops ≡ flat_map (stops_by disk) lines.now) }
{
    let mut stops = Vec::new(alloc);
    for line in lines {
        add_stop(&mut stops, line, disk)?;
    }
    Ok(Stops::of(stops))
}

/// Adds each call of a line.
fn add_calls(fails: &mut Vec<(FailKind, u64)>, line: &FaultLine) -> Result<(), AllocError>
    ensures { OnOk result (fails.new.items ≡ fails.old.items ++ calls_by line.now) }
{
    if line.last < line.first {
        return Ok(());
    }
    let more = line.last - line.first;
    if more.saturating_add(fails.len() as u64) >= FAIL_LIMIT {
        return Err(AllocError);
    }
    for k in 0..more + 1 {
        fails.push((line.kind, line.first + k))?;
    }
    Ok(())
}

fn add_fails(fails: &mut Vec<(FailKind, u64)>, line: &FaultLine, disk: u8) -> Result<(), AllocError>
    ensures { OnOk result (fails.new.items ≡ fails.old.items ++ fails_by disk line.now) }
{
    if line.disk == disk {
        add_calls(fails, line)?;
    }
    Ok(())
}

/// The calls of a disk that fail.
fn fails_of(alloc: Global, lines: &[FaultLine], disk: u8) -> Result<Fails, AllocError>
    ensures { IfOk result (λ fails. fails ≡ flat_map (fails_by disk) lines.now) }
{
    let mut fails = Vec::new(alloc);
    for line in lines {
        add_fails(&mut fails, line, disk)?;
    }
    Ok(Fails::of(fails))
}

/// Whether two kinds of calls are one.
fn same_kind(one: FailKind, other: FailKind) -> bool
    ensures { result ≡ same_kind one other }
{
    matches!(
        (one, other),
        (FailKind::Read, FailKind::Read)
            | (FailKind::Write, FailKind::Write)
            | (FailKind::Sync, FailKind::Sync)
    )
}
