//! Making a log.
ghost use Rattle.std.specs.Prelude.{◌≡◌, ◌≤◌, ◌<◌, Some, None, IfOk, OnOk, OnErr, IsErrOf};
ghost use Rattle.disk_core.specs.Images.{EachImage, Only, Within, From};
ghost use Rattle.disk_core.specs.Moments.{LeavesOnly};
ghost use Rattle.disk_core.specs.Served.{IsServed};
ghost use Rattle.checkpoint.specs.Halves as halves;
ghost use Rattle.event_log.specs.Beside.{InHalves};
ghost use Rattle.event_log.specs.Holds.{Holds};

use crate::log::Log;
use crate::stored::Stored;
use checkpoint::{StoreError, open_reserved, prepare};
use disk_core::Disk;
use std::alloc::Global;

impl Log {
    /// Writes the state to a half, with generation 1 and no record behind it, whatever the half holds. The other half
    /// of its pair reads as nothing.
    pub fn format<D: Disk, S: Stored>(
        alloc: Global,
        disk: &mut D,
        half: u8,
        state: &S,
    ) -> Result<Log, StoreError>
        requires half { half < 4 }
        requires size { halves.HasPair (halves.layout_of half) (D.seen disk.old) }
        requires other { EachImage (D.images disk.old)
            (λ image. halves.half_of (halves.other half) image ≡ None) }
        requires storable { S.storable state.now }
        requires long { S.longest ≤ (halves.layout_of half).state_max }
        ensures log { IfOk result
            (λ log. log ≡ record { half = half; generation = 1; used = 0 }) }
        ensures holds { IfOk result (λ log. EachImage (D.images disk.new)
            (Holds S.start S.step log (Some state.now))) }
        ensures durable { OnOk result (Only (D.seen disk.new) (D.images disk.new)) }
        ensures other { OnErr result (EachImage (D.images disk.new)
            (λ image. halves.half_of (halves.other half) image ≡ None)) }
        // A crash at any moment of the call leaves the other half as nothing, and no byte outside the halves changed.
        ensures any_moment { LeavesOnly D.moment D.left_since disk.old disk.new
            (λ image. halves.half_of (halves.other half) image ≡ None) }
        ensures elsewhere { LeavesOnly D.moment D.left_since disk.old disk.new
            (From (D.images disk.old) (InHalves (halves.layout_of half))) }
        ensures beside { OnOk result (EachImage (D.images disk.new)
            (InHalves (halves.layout_of half) (D.seen disk.old))) }

        // At want of memory nothing was written.
        ensures memory_reads { IsErrOf result StoreError.OutOfMemory
            → D.seen disk.new ≡ D.seen disk.old }
        ensures memory_images { IsErrOf result StoreError.OutOfMemory
            → Within (D.images disk.old) (D.images disk.new) }
        ensures served { IsServed D.seen D.fault_count D.armed (IsErrOf result StoreError.Failed)
            disk.old disk.new }
    {
        let text = state.text(alloc)?;
        disk.sync()?;
        prepare(alloc, disk, half, 1, &text)?;
        open_reserved(disk, half)?;
        Ok(Log {
            half,
            generation: 1,
            used: 0,
        })
    }
}
