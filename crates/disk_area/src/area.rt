//! A window of a disk.
ghost use Rattle.std.specs.Prelude.{◌≡◌, ◌+◌, ◌≤◌, length, slice_range, IfOk, OnOk, IsErr, IsErrOf};
ghost use Rattle.disk_core.specs.Bytes.{Puts, Torn};
ghost use Rattle.disk_core.specs.Images.{EachImage, Only, Within, SameImages, From, Follows};
ghost use Rattle.disk_core.specs.Moments.{Elapses, LeavesOnly};
ghost use Rattle.disk_core.specs.Room.{HasRoom, UsesUp};
ghost use Rattle.disk_core.specs.Served.{IsServed};
ghost use Rattle.disk_area.specs.Windows.{window, IsInside, InArea};

use disk_core::{DeviceError, Disk, ReadError};

/// The `len` bytes of a disk from `at` on.
#[derive(Clone, Copy, Debug, PartialEq, Eq, Drop)]
pub struct Area {
    pub at: u64,
    pub len: u64,
}

impl Area {
    pub fn of(at: u64, len: u64) -> Area
        ensures at { result.at ≡ at }
        ensures len { result.len ≡ len }
    {
        Area { at, len }
    }

    /// The `len` bytes of the window from `at` on.
    pub fn read<D: Disk>(&self, disk: &mut D, at: u64, len: usize) -> Result<Vec<u8>, ReadError>
        requires inside { IsInside self.now (D.seen disk.old) }
        requires range { at + len ≤ self.now.len }
        ensures bytes { IfOk result
            (λ v. v.items ≡ slice_range (window self.now (D.seen disk.old)) at (at + len)) }
        ensures reads { D.seen disk.new ≡ D.seen disk.old }
        ensures images { SameImages (D.images disk.old) (D.images disk.new) }
        ensures time { Elapses (D.moment disk.old) (D.moment disk.new)
            (D.left_since disk.old) (D.left_since disk.new) (D.images disk.new) }
        ensures room { D.room disk.new ≡ D.room disk.old }
        ensures served { IsServed D.seen D.fault_count D.armed (IsErrOf result ReadError.Failed)
            disk.old disk.new }
    {
        disk.read(self.at + at, len)
    }

    /// Puts the piece at `at` of the window.
    pub fn write<D: Disk>(&self, disk: &mut D, at: u64, bytes: &[u8]) -> Result<(), DeviceError>
        requires inside { IsInside self.now (D.seen disk.old) }
        requires range { at + length bytes.now ≤ self.now.len }
        requires room { HasRoom 1 (length bytes.now) (D.room disk.old) }
        ensures written { OnOk result
            (InArea self.now (Puts at bytes.now) (D.seen disk.old) (D.seen disk.new)) }
        ensures reads { InArea self.now (Torn at (length bytes.now))
            (D.seen disk.old) (D.seen disk.new) }
        ensures images { Follows (InArea self.now (Torn at (length bytes.now)))
            (D.images disk.old) (D.images disk.new) }
        ensures time { Elapses (D.moment disk.old) (D.moment disk.new)
            (D.left_since disk.old) (D.left_since disk.new) (D.images disk.new) }
        ensures room { UsesUp (length bytes.now) (D.room disk.old) (D.room disk.new) }
        ensures served { IsServed D.seen D.fault_count D.armed (IsErr result) disk.old disk.new }
    {
        disk.write(self.at + at, bytes)
    }

    /// Makes what a read gives durable, on the whole disk.
    pub fn sync<D: Disk>(&self, disk: &mut D) -> Result<(), DeviceError>
        ensures durable { OnOk result (Only (D.seen disk.old) (D.images disk.new)) }
        ensures reads { D.seen disk.new ≡ D.seen disk.old }
        ensures images { Within (D.images disk.old) (D.images disk.new) }
        ensures time { Elapses (D.moment disk.old) (D.moment disk.new)
            (D.left_since disk.old) (D.left_since disk.new) (D.images disk.new) }
        ensures room { D.room disk.new ≡ D.room disk.old }
        ensures served { IsServed D.seen D.fault_count D.armed (IsErr result) disk.old disk.new }
    {
        disk.sync()
    }

    /// Puts the piece at `at` of the window and makes it durable: a write and a sync.
    pub fn write_synced<D: Disk>(
        &self,
        disk: &mut D,
        at: u64,
        bytes: &[u8],
    ) -> Result<(), DeviceError>
        requires inside { IsInside self.now (D.seen disk.old) }
        requires range { at + length bytes.now ≤ self.now.len }
        requires room { HasRoom 1 (length bytes.now) (D.room disk.old) }
        ensures written { OnOk result (EachImage (D.images disk.new)
            (InArea self.now (Puts at bytes.now) (D.seen disk.old))) }
        ensures durable { OnOk result (Only (D.seen disk.new) (D.images disk.new)) }

        // A crash at any moment of the call leaves any bytes in the range, and no others elsewhere.
        ensures any_moment { LeavesOnly D.moment D.left_since disk.old disk.new
            (From (D.images disk.old) (InArea self.now (Torn at (length bytes.now)))) }
        ensures reads { InArea self.now (Torn at (length bytes.now))
            (D.seen disk.old) (D.seen disk.new) }
        ensures room { UsesUp (length bytes.now) (D.room disk.old) (D.room disk.new) }
        ensures served { IsServed D.seen D.fault_count D.armed (IsErr result) disk.old disk.new }
    {
        self.write(disk, at, bytes)?;
        self.sync(disk)
    }
}
