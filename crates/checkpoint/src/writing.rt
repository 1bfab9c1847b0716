//! Writing a half: one that doesn't count, or, to format a disk again, any.
ghost use Rattle.std.specs.Prelude.{◌≡◌, ◌+◌, ◌^◌, ◌≤◌, ◌<◌, Some, length, OnOk, IfOk, IsErrOf};
ghost use Rattle.disk_core.specs.Images.{Only, SameImages};
ghost use Rattle.disk_core.specs.Moments.{LeavesOnly};
ghost use Rattle.disk_core.specs.Room.{HasRoom};
ghost use Rattle.disk_core.specs.Served.{IsServed, IsUntouched};
ghost use Rattle.disk_area.specs.Windows.{IsInside, InArea};
ghost use Rattle.checkpoint.specs.Halves as halves;
ghost use Rattle.checkpoint.specs.Halves.{HasHalf, other, padded, half_of, stored_in};
ghost use Rattle.checkpoint.specs.Counting.{IsNewer, CanOpen, MayClose};
ghost use Rattle.checkpoint.specs.Quiet.{Quiet, Rewritten, Shut};

use crate::fault::StoreError;
use crate::layout::{head_area, layout_of};
use disk_area::Area;
use disk_core::Disk;
use std::alloc::Global;
use wire::{put_bytes, put_u64};

/// Closes the gate of the half where it is open, and writes the half's body: a read, and at most two writes and two
/// syncs. A gate that isn't 1 isn't written, since a crash within that write could open it over an old or torn body.
///
/// Of the bytes behind the state only the journal's first gate is promised: it is shut, so whatever records an earlier
/// use of the half has left behind it, the journal is empty.
pub fn prepare<D: Disk>(
    alloc: Global,
    disk: &mut D,
    half: u8,
    generation: u64,
    state: &[u8],
) -> Result<(), StoreError>
    requires half { half < 4 }
    requires inside { HasHalf half (D.seen disk.old) }
    requires nothing_pending { Only (D.seen disk.old) (D.images disk.old) }
    requires newer { IsNewer generation (half_of (other half) (D.seen disk.old)) }
    requires short { length state.now ≤ (halves.layout_of half).state_max }

    // A crash at any moment of the call leaves the half as it was, or one that reads as nothing, and the other half.
    ensures any_moment { LeavesOnly D.moment D.left_since disk.old disk.new
        (MayClose half (D.seen disk.old)) }
    ensures prepared { OnOk result (CanOpen half (D.seen disk.new)) }
    ensures stored { OnOk result (stored_in half (D.seen disk.new)
        ≡ Some (record { generation = generation; state = state.now })) }
    ensures durable { OnOk result (Only (D.seen disk.new) (D.images disk.new)) }

    // There is room to open the half.
    ensures room { OnOk result (HasRoom 1 1 (D.room disk.new)) }
    ensures memory { IsErrOf result StoreError.OutOfMemory
        → IsUntouched D.seen D.images disk.old disk.new }
    ensures memory_moment { IsErrOf result StoreError.OutOfMemory
        → LeavesOnly D.moment D.left_since disk.old disk.new (D.images disk.old) }
    ensures served { IsServed D.seen D.fault_count D.armed (IsErrOf result StoreError.Failed)
        disk.old disk.new }
{
    let body = body_of(
        alloc,
        layout_of(half).journal_at as usize,
        generation,
        state,
    )?;
    disk.reserve(3, body.len() as u64 + 2)?;
    rewrite(disk, head_area(half), &body)
}

/// The `len` bytes of the body, up to the journal's first byte.
fn body_of(alloc: Global, len: usize, generation: u64, state: &[u8]) -> Result<Vec<u8>, StoreError>
    requires small { len < 2 ^ 62 }
    requires short { length state.now < 2 ^ 32 }
    requires fits { 12 + length state.now ≤ len }
    ensures body { IfOk result (λ body. body.items
        ≡ padded len (record { generation = generation; state = state.now })) }
    ensures err { IsErrOf result StoreError.Failed → ⊥ }
{
    let mut body = Vec::new(alloc);
    put_u64(&mut body, generation)?;
    put_bytes(&mut body, state)?;
    let padding = vec![in alloc; 0u8; len - body.len()]?;
    body.extend_from_slice(&padding)?;
    Ok(body)
}

/// Closes the gate where it is open, and puts these bytes behind it.
fn rewrite<D: Disk>(disk: &mut D, area: Area, body: &[u8]) -> Result<(), StoreError>
    requires inside { IsInside area (D.seen disk.old) }
    requires fits { 1 + length body.now ≤ area.len }
    requires nothing_pending { Only (D.seen disk.old) (D.images disk.old) }
    requires room { HasRoom 2 (length body.now + 1) (D.room disk.old) }
    ensures any_moment { LeavesOnly D.moment D.left_since disk.old disk.new
        (InArea area Quiet (D.seen disk.old)) }
    ensures written { OnOk result
        (InArea area (Rewritten body.now) (D.seen disk.old) (D.seen disk.new)) }
    ensures writes { OnOk result ((D.room disk.old).writes ≤ (D.room disk.new).writes + 2) }
    ensures bytes { OnOk result ((D.room disk.old).bytes
        ≤ (D.room disk.new).bytes + (length body.now + 1)) }
    ensures durable { OnOk result (Only (D.seen disk.new) (D.images disk.new)) }
    ensures memory { IsErrOf result StoreError.OutOfMemory
        → IsUntouched D.seen D.images disk.old disk.new }
    ensures memory_moment { IsErrOf result StoreError.OutOfMemory
        → LeavesOnly D.moment D.left_since disk.old disk.new (D.images disk.old) }
    ensures served { IsServed D.seen D.fault_count D.armed (IsErrOf result StoreError.Failed)
        disk.old disk.new }
{
    close(disk, area)?;
    Ok(area.write_synced(disk, 1, body)?)
}

/// Closes the gate where it is open.
fn close<D: Disk>(disk: &mut D, area: Area) -> Result<(), StoreError>
    requires inside { IsInside area (D.seen disk.old) }
    requires fits { 0 < area.len }
    requires nothing_pending { Only (D.seen disk.old) (D.images disk.old) }
    requires room { HasRoom 1 1 (D.room disk.old) }
    ensures any_moment { LeavesOnly D.moment D.left_since disk.old disk.new
        (InArea area Quiet (D.seen disk.old)) }
    ensures shut { OnOk result (InArea area Shut (D.seen disk.old) (D.seen disk.new)) }
    ensures durable { OnOk result (Only (D.seen disk.new) (D.images disk.new)) }
    ensures memory { IsErrOf result StoreError.OutOfMemory
        → IsUntouched D.seen D.images disk.old disk.new }
    ensures memory_moment { IsErrOf result StoreError.OutOfMemory
        → LeavesOnly D.moment D.left_since disk.old disk.new (D.images disk.old) }
    ensures writes { (D.room disk.old).writes ≤ (D.room disk.new).writes + 1 }
    ensures bytes { (D.room disk.old).bytes ≤ (D.room disk.new).bytes + 1 }
    ensures served { IsServed D.seen D.fault_count D.armed (IsErrOf result StoreError.Failed)
        disk.old disk.new }
{
    let gate = area.read(disk, 0, 1)?;
    if gate[0] != 1 {
        return Ok(());
    }
    Ok(area.write_synced(disk, 0, &[0])?)
}
