//! Runs of calls.
ghost use Rattle.std.specs.Prelude.{List, ℕ};
ghost use Rattle.event_log.specs.Meaning.{after_all};
ghost use Rattle.event_log.specs.Runs.{Known, Knows, Station, IsRun, acknowledged, known_after, turns_of, last_log, last_disk};
ghost use Rattle.event_log.specs.declared.log.Log.{Log as a_log};

use crate::stored::Stored;
use disk_core::Disk;

/// A law on whole runs of calls: after any list of appends, switches, faults and revives each image of the disk stands
/// for the state after the events that were acknowledged, or for what is in doubt behind it.
pub fn a_run_stands_for_its_events<D: Disk, S: Stored>()
    ensures { (known : Known S) (log : a_log) (disk : D) (stations : List (Station D))
        → Knows S.start S.step log known.now known.pending (D.images disk)
        → IsRun D.images S.start S.step known stations
        → Knows S.start S.step (last_log log stations)
        (after_all S.step known.now (acknowledged known.pending (turns_of stations)))
        (known_after S.step known (turns_of stations)).pending
        (D.images (last_disk disk stations)) }
{}
