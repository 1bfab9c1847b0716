//! Opening a half.
ghost use Rattle.std.specs.Prelude.{◌≡◌, ◌≤◌, ◌<◌, length, OnOk, IsErr, IsErrOf};
ghost use Rattle.disk_core.specs.Images.{EachImage, Only, SameImages};
ghost use Rattle.disk_core.specs.Moments.{LeavesOnly};
ghost use Rattle.disk_core.specs.Room.{HasRoom};
ghost use Rattle.disk_core.specs.Served.{IsServed, IsUntouched};
ghost use Rattle.checkpoint.specs.Halves.{HasHalf};
ghost use Rattle.checkpoint.specs.Counting.{CanOpen, Opens, MayOpen};

use crate::fault::StoreError;
use crate::layout::head_area;
use disk_core::{DeviceError, Disk};

/// Opens the gate of a half that was prepared: a write and a sync. From then on it reads as what was stored in it, with
/// an empty journal behind it.
pub fn open_half<D: Disk>(disk: &mut D, half: u8) -> Result<(), StoreError>
    requires half { half < 4 }
    requires inside { HasHalf half (D.seen disk.old) }
    requires nothing_pending { Only (D.seen disk.old) (D.images disk.old) }
    requires prepared { CanOpen half (D.seen disk.old) }

    // A crash at any moment of the call leaves the half shut or open, and no other byte than its gate changed.
    ensures any_moment { LeavesOnly D.moment D.left_since disk.old disk.new
        (MayOpen half (D.seen disk.old)) }
    ensures opened { OnOk result (EachImage (D.images disk.new) (Opens half (D.seen disk.old))) }
    ensures durable { OnOk result (Only (D.seen disk.new) (D.images disk.new)) }
    ensures memory { IsErrOf result StoreError.OutOfMemory
        → IsUntouched D.seen D.images disk.old disk.new }
    ensures memory_moment { IsErrOf result StoreError.OutOfMemory
        → LeavesOnly D.moment D.left_since disk.old disk.new (D.images disk.old) }
    ensures served { IsServed D.seen D.fault_count D.armed (IsErrOf result StoreError.Failed)
        disk.old disk.new }
{
    disk.reserve(1, 1)?;
    Ok(open_reserved(disk, half)?)
}

/// The same where there is room, as `prepare` leaves it: takes no memory.
pub fn open_reserved<D: Disk>(disk: &mut D, half: u8) -> Result<(), DeviceError>
    requires half { half < 4 }
    requires inside { HasHalf half (D.seen disk.old) }
    requires nothing_pending { Only (D.seen disk.old) (D.images disk.old) }
    requires prepared { CanOpen half (D.seen disk.old) }
    requires room { HasRoom 1 1 (D.room disk.old) }

    // A crash at any moment of the call leaves the half shut or open, and no other byte than its gate changed.
    ensures any_moment { LeavesOnly D.moment D.left_since disk.old disk.new
        (MayOpen half (D.seen disk.old)) }
    ensures opened { OnOk result (EachImage (D.images disk.new) (Opens half (D.seen disk.old))) }
    ensures durable { OnOk result (Only (D.seen disk.new) (D.images disk.new)) }
    ensures served { IsServed D.seen D.fault_count D.armed (IsErr result) disk.old disk.new }
{
    head_area(half).write_synced(disk, 0, &[1])
}
