//! After a fault.
ghost use Rattle.std.specs.Prelude.{◌≡◌, Some, IfOk, OnOk, OnErr, IsErrOf};
ghost use Rattle.disk_core.specs.Images.{EachImage, Only, Within};
ghost use Rattle.disk_core.specs.Moments.{LeavesOnly};
ghost use Rattle.disk_core.specs.Served.{IsServed};
ghost use Rattle.checkpoint.specs.Halves.{layout_of};
ghost use Rattle.event_log.specs.Holds.{Holds};
ghost use Rattle.event_log.specs.Doubts.{Either, InDoubt, MaySwitch, ended, of_event};
ghost use Rattle.event_log.specs.Settles.{settles};
ghost use Rattle.event_log.specs.Runs.{KnowsAfter, in_doubt, revive_turn};

use crate::find::open;
use crate::log::Log;
use crate::stored::Stored;
use checkpoint::StoreError;
use disk_core::Disk;
use std::alloc::Global;

/// How an event that was in doubt ended.
#[derive(Clone, Copy, Debug, PartialEq, Eq, Drop)]
pub enum Revived {
    /// It is recorded.
    Stood,
    /// It isn't recorded, and never will be.
    Lost,
}

impl Log {
    /// Restarts the disk, recovers as `open` does, by a sync first, and says whether the event of this record stood,
    /// which is in doubt behind this state. Where it fails, the event stays in doubt, and it may be called again.
    pub fn revive<D: Disk, S: Stored>(
        &mut self,
        alloc: Global,
        disk: &mut D,
        event: &[u8],
        present: &S,
    ) -> Result<Revived, StoreError>
        requires in_doubt { EachImage (D.images disk.old)
            (InDoubt S.start S.step self.old (of_event S.step present.now event.now)) }
        ensures decided { IfOk result (λ revived. EachImage (D.images disk.new)
            (Holds S.start S.step self.new
            (ended revived (of_event S.step present.now event.now)))) }
        ensures lost { EachImage (D.images disk.old)
            (MaySwitch S.start S.step self.old (Some present.now))
            → IfOk result (λ revived. revived ≡ Revived.Lost) }
        // It stood exactly where the same half counts, with other records.
        ensures settled { IfOk result (λ revived. revived ≡ settles self.old self.new) }
        ensures pair { layout_of self.new.half ≡ layout_of self.old.half }
        ensures durable { OnOk result (Only (D.seen disk.new) (D.images disk.new)) }

        // A crash at any moment of the call leaves the state before the event, or after it.
        ensures any_moment { LeavesOnly D.moment D.left_since disk.old disk.new
            (Either S.start S.step (layout_of self.old.half)
            (of_event S.step present.now event.now)) }
        ensures images { Within (D.images disk.old) (D.images disk.new) }
        ensures no_writes { LeavesOnly D.moment D.left_since disk.old disk.new (D.images disk.old) }
        ensures in_doubt { OnErr result (EachImage (D.images disk.new)
            (InDoubt S.start S.step self.new (of_event S.step present.now event.now))) }
        ensures same { OnErr result (self.new ≡ self.old) }
        // What is known then, for runs of calls.
        ensures known { KnowsAfter S.start S.step self.new (in_doubt present.now event.now)
            (revive_turn result) (D.images disk.new) }
        ensures served { IsServed D.seen D.fault_count D.armed (IsErrOf result StoreError.Failed)
            disk.old disk.new }
    {
        disk.restart()?;
        let Some(found) = open::<D, S>(alloc, disk, self.half)? else {
            unreachable!()
        };
        let revived = settle(self, &found.log);
        *self = found.log;
        Ok(revived)
    }
}

/// Whether an event stood that was in doubt behind the records of a log, by the log that was found.
fn settle(before: &Log, found: &Log) -> Revived
    ensures { result ≡ settles before.now found.now }
{
    if found.generation == before.generation && found.used != before.used {
        Revived::Stood
    } else {
        Revived::Lost
    }
}
