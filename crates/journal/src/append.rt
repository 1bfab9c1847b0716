//! Appending to a journal.
ghost use Rattle.std.specs.Prelude.{◌≡◌, ◌+◌, ◌≤◌, ◌<◌, ◌^◌, ◌↔◌, ◌∷◌, [], ◌++◌, length, OnOk, IfOk, IsErrOf};
ghost use Rattle.disk_core.specs.Images.{EachImage, Only, SameImages, From};
ghost use Rattle.disk_core.specs.Moments.{LeavesOnly};
ghost use Rattle.disk_core.specs.Served.{IsServed, IsUntouched};
ghost use Rattle.disk_area.specs.Windows.{InArea};
ghost use Rattle.wire.specs.Fields.{bytes_field};
ghost use Rattle.journal.specs.Ready.{IsReady, Grows, MayGrow};

use crate::fault::JournalError;
use disk_area::Area;
use disk_core::Disk;
use std::alloc::{AllocError, Global};
use wire::{put_bytes, put_u8};

/// A journal in its area, of which the records take the first `used` bytes.
#[derive(Drop)]
pub struct Journal {
    pub area: Area,
    pub used: u64,
}

impl Journal {
    /// A journal without a record.
    pub fn fresh(area: Area) -> Journal
        ensures area { result.area ≡ area }
        ensures used { result.used ≡ 0 }
    {
        Journal::at(area, 0)
    }

    /// A journal that was read, and whose records take `used` bytes.
    pub fn at(area: Area, used: u64) -> Journal
        ensures area { result.area ≡ area }
        ensures used { result.used ≡ used }
    {
        Journal { area, used }
    }

    /// Adds a record: its body, a sync, its gate byte, a sync.
    ///
    /// After `Failed` the disk is to be restarted and the list read again.
    pub fn append<D: Disk>(
        &mut self,
        alloc: Global,
        disk: &mut D,
        payload: &[u8],
    ) -> Result<(), JournalError>
        requires ready { EachImage (D.images disk.old) (IsReady self.old.area self.old.used) }
        requires short { length payload.now < 2 ^ 32 }

        ensures acknowledged { OnOk result (EachImage (D.images disk.new)
            (InArea self.old.area (Grows self.old.used payload.now) (D.seen disk.old))) }
        ensures used { OnOk result (self.new.used ≡ self.old.used + (5 + length payload.now)) }
        ensures ready { OnOk result
            (EachImage (D.images disk.new) (IsReady self.new.area self.new.used)) }

        // A crash at any moment of the call leaves the list before it, or with the payload.
        ensures any_moment { LeavesOnly D.moment D.left_since disk.old disk.new
            (From (D.images disk.old) (InArea self.old.area (MayGrow self.old.used payload.now))) }

        ensures durable { OnOk result (Only (D.seen disk.new) (D.images disk.new)) }
        ensures full_moment { IsErrOf result JournalError.Full
            → LeavesOnly D.moment D.left_since disk.old disk.new (D.images disk.old) }
        ensures memory_moment { IsErrOf result JournalError.OutOfMemory
            → LeavesOnly D.moment D.left_since disk.old disk.new (D.images disk.old) }
        ensures full { IsErrOf result JournalError.Full
            ↔ (self.old.area.len < self.old.used + 6 + length payload.now) }
        ensures full_disk { IsErrOf result JournalError.Full
            → IsUntouched D.seen D.images disk.old disk.new }
        ensures full_journal { IsErrOf result JournalError.Full → self.new ≡ self.old }
        ensures memory_disk { IsErrOf result JournalError.OutOfMemory
            → IsUntouched D.seen D.images disk.old disk.new }
        ensures memory_journal { IsErrOf result JournalError.OutOfMemory → self.new ≡ self.old }
        ensures failed_journal { IsErrOf result JournalError.Failed → self.new ≡ self.old }
        ensures area { self.new.area ≡ self.old.area }
        ensures served { IsServed D.seen D.fault_count D.armed (IsErrOf result JournalError.Failed)
            disk.old disk.new }
    {
        let taken = 5 + payload.len() as u64;
        if self.area.len - self.used <= taken {
            return Err(JournalError::Full);
        }
        let body = body_of(alloc, payload)?;
        disk.reserve(2, body.len() as u64 + 1)?;
        self.area.write_synced(disk, self.used + 1, &body)?;
        self.area.write_synced(disk, self.used, &[1])?;
        self.used += taken;
        Ok(())
    }
}

/// What stands behind a gate: the payload behind its length, and the next gate, closed.
fn body_of(alloc: Global, payload: &[u8]) -> Result<Vec<u8>, AllocError>
    requires { length payload.now < 2 ^ 32 }
    ensures { IfOk result (λ body. body.items ≡ bytes_field payload.now ++ 0 ∷ []) }
{
    let mut body = Vec::new(alloc);
    put_bytes(&mut body, payload)?;
    put_u8(&mut body, 0)?;
    Ok(body)
}
