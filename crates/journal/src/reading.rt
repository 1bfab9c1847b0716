//! Reading a journal's list.
ghost use Rattle.std.specs.Prelude.{◌≡◌, ◌≤◌, ◌<◌, [], ◌∷◌, length, IfOk, IsErrOf, MatchOption, IfSome};
ghost use Rattle.disk_core.specs.Images.{SameImages};
ghost use Rattle.disk_core.specs.Moments.{Elapses};
ghost use Rattle.disk_core.specs.Served.{IsServed};
ghost use Rattle.disk_area.specs.Windows.{window, IsInside};
ghost use Rattle.journal.specs.Records.{journal_list};

use crate::records::{Payload, Records};
use disk_area::Area;
use disk_core::{Disk, ReadError};
use std::alloc::{AllocError, Global};
use wire::take_bytes;

/// The records of the area, up to the first place whose gate byte isn't 1 or whose record isn't whole: one read.
pub fn list<D: Disk>(alloc: Global, disk: &mut D, area: Area) -> Result<Records, ReadError>
    requires { IsInside area (D.seen disk.old) }
    ensures list { IfOk result (λ records. records ≡ journal_list (window area (D.seen disk.old))) }
    ensures reads { D.seen disk.new ≡ D.seen disk.old }
    ensures images { SameImages (D.images disk.old) (D.images disk.new) }
    ensures time { Elapses (D.moment disk.old) (D.moment disk.new)
        (D.left_since disk.old) (D.left_since disk.new) (D.images disk.new) }
    ensures room { D.room disk.new ≡ D.room disk.old }
    ensures served { IsServed D.seen D.fault_count D.armed (IsErrOf result ReadError.Failed)
        disk.old disk.new }
{
    let bytes = area.read(disk, 0, area.len as usize)?;
    Ok(records_of(alloc, &bytes)?)
}

fn records_of(alloc: Global, bytes: &[u8]) -> Result<Records, AllocError>
    ensures { IfOk result (λ records. records ≡ journal_list bytes.now) }
{
    let mut payloads = Vec::new(alloc);
    let mut rest = bytes;
    while let Some((payload, tail)) = first_record(rest) {
        payloads.push(Payload::of(payload.to_vec(alloc)?))?;
        rest = tail;
    }
    Ok(Records::of(payloads))
}

/// The first record and what is behind it, where the bytes begin with a whole one.
fn first_record(bytes: &[u8]) -> Option<(&[u8], &[u8])>
    ensures list { MatchOption result (journal_list bytes.now ≡ [])
        (λ r. journal_list bytes.now ≡ r.0.now ∷ journal_list r.1.now) }
    ensures shorter { IfSome result (λ r. length r.1.now < length bytes.now) }
{
    let (gate, record) = bytes.split_first()?;
    if *gate != 1 {
        return None;
    }
    take_bytes(record)
}
