//! What the lines above take for themselves: attempts at nodes, writes at which a disk stops, calls of a disk that
//! fail.
ghost use Rattle.std.specs.Prelude.{◌≡◌, ◌≤◌, ◌||◌, ◌&&◌, [], ℕ, false, true, IfErr, OnOk};
ghost use Rattle.disk_core.specs.declared.plan.FailKind.{FailKind as AnyKind};
ghost use Rattle.disk_mem.specs.Strikes.{same_kind};
ghost use Rattle.range_set.specs.Ranges.{is_met, meets, track_range};
ghost use Rattle.scenario.specs.declared.why.Why.{Why as AnyWhy};
ghost use Rattle.run_script.specs.declared.lines.FaultLine.{FaultLine as AnyFault};
ghost use Rattle.run_script.specs.Taken.{HasMore, IsTwice, calls_of, IsEmpty};

use crate::lines::FaultLine;
use disk_core::FailKind;
use range_set::RangeSet;
use scenario::{Why, WordError};
use std::alloc::Global;

/// What is taken, on the tracks of nodes and disks.
#[derive(Drop)]
pub struct Taken {
    pub attempts: RangeSet,
    pub stops: RangeSet,
    pub reads: RangeSet,
    pub writes: RangeSet,
    pub syncs: RangeSet,
}

impl Taken {
    pub fn new(alloc: Global) -> Taken
        ensures { IsEmpty result }
    {
        Taken {
            attempts: RangeSet::new(alloc),
            stops: RangeSet::new(alloc),
            reads: RangeSet::new(alloc),
            writes: RangeSet::new(alloc),
            syncs: RangeSet::new(alloc),
        }
    }
}

/// Takes a range for a line, if no line has any of it.
pub fn take(set: &mut RangeSet, track: u8, first: u64, last: u64) -> Result<(), WordError>
    requires { first ≤ last }
    ensures free { OnOk result (is_met set.old track first last ≡ false) }
    ensures added { OnOk result (HasMore set.old set.new track first last) }
    ensures refused { IsTwice result (is_met set.old track first last) }
{
    if set.meets(track, first, last) {
        return Err(WordError::Refused(Why::Twice));
    }
    set.add(track, first, last)?;
    Ok(())
}

/// Takes the calls of a line.
pub fn take_calls(taken: &mut Taken, line: &FaultLine) -> Result<(), WordError>
    requires { line.now.first ≤ line.now.last }
    ensures free { OnOk result (is_met (calls_of taken.old line.now.kind) line.now.disk
        line.now.first line.now.last ≡ false) }
    ensures added { OnOk result (HasMore (calls_of taken.old line.now.kind)
        (calls_of taken.new line.now.kind) line.now.disk line.now.first line.now.last) }
    ensures others { OnOk result ((kind : AnyKind) → same_kind line.now.kind kind ≡ false
        → calls_of taken.new kind ≡ calls_of taken.old kind) }
    ensures attempts { taken.new.attempts ≡ taken.old.attempts }
    ensures stops { taken.new.stops ≡ taken.old.stops }
    ensures refused { IsTwice result (is_met (calls_of taken.old line.now.kind) line.now.disk
        line.now.first line.now.last) }
{
    match line.kind {
        FailKind::Read => take(&mut taken.reads, line.disk, line.first, line.last),
        FailKind::Write => take(&mut taken.writes, line.disk, line.first, line.last),
        FailKind::Sync => take(&mut taken.syncs, line.disk, line.first, line.last),
    }
}
