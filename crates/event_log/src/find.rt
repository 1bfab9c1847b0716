//! Finding the half that counts, and its records.
ghost use Rattle.std.specs.Prelude.{◌≡◌, ◌⊎◌, ◌+◌, ◌<◌, None, Some, IfOk, IfSome, IsErrOf, MatchOption};
ghost use Rattle.disk_core.specs.Images.{EachImage, Only, SameImages, Within};
ghost use Rattle.disk_core.specs.Moments.{LeavesOnly};
ghost use Rattle.disk_core.specs.Served.{IsServed};
ghost use Rattle.disk_area.specs.Windows.{window};
ghost use Rattle.journal.specs.Records.{taken};
ghost use Rattle.journal.specs.Ready.{GoesOn};
ghost use Rattle.checkpoint.specs.Halves as halves;
ghost use Rattle.checkpoint.specs.Counting as counts;
ghost use Rattle.event_log.specs.Meaning.{events_of, state_of, tells, current, meaning};
ghost use Rattle.event_log.specs.Holds.{Holds, CanOpen};
ghost use Rattle.event_log.specs.Finds.{IsFound, found_state};

use crate::log::Log;
use crate::stored::Stored;
use checkpoint::{HalfBytes, StoreError, journal_area, layout_of, read_half};
use disk_core::{Disk, ReadError};
use journal::{Records, list};
use std::alloc::{AllocError, Global};

/// What a disk stands for: the text of the half that counts, and the records behind it.
#[derive(Drop)]
pub struct Found {
    pub log: Log,
    pub text: Vec<u8>,
    pub records: Records,
}

/// Finds what the disk stands for by the pair of this half; `None` exactly where neither half tells a state. Begins
/// with a sync; takes no room for writes.
pub fn open<D: Disk, S: Stored>(
    alloc: Global,
    disk: &mut D,
    half: u8,
) -> Result<Option<Found>, StoreError>
    requires size { halves.HasPair (halves.layout_of half) (D.seen disk.old) }
    requires can { CanOpen S.start (halves.layout_of half) (D.seen disk.old) }
    ensures found { IfOk result (λ found. MatchOption found
        (current S.start (halves.layout_of half) (D.seen disk.new) ≡ None)
        (λ f. IsFound S.start (halves.layout_of half) f.log f.text.items f.records
        (D.seen disk.new))) }
    ensures holds { IfOk result (λ found. IfSome found (λ f. EachImage (D.images disk.new)
        (Holds S.start S.step f.log (state_of S.start S.step f.text.items f.records)))) }
    ensures means { IfOk result
        (λ found. meaning S.start S.step (halves.layout_of half) (D.seen disk.new)
        ≡ found_state S.start S.step found) }
    ensures reads { D.seen disk.new ≡ D.seen disk.old }
    ensures durable { IfOk result (λ _. Only (D.seen disk.new) (D.images disk.new)) }
    ensures images { Within (D.images disk.old) (D.images disk.new) }
    ensures any_moment { LeavesOnly D.moment D.left_since disk.old disk.new (D.images disk.old) }
    ensures served { IsServed D.seen D.fault_count D.armed (IsErrOf result StoreError.Failed)
        disk.old disk.new }
{
    disk.sync()?;
    Ok(find::<D, S>(alloc, disk, half)?)
}

/// Finds what the disk reads as.
pub(crate) fn find<D: Disk, S: Stored>(
    alloc: Global,
    disk: &mut D,
    half: u8,
) -> Result<Option<Found>, ReadError>
    requires size { halves.HasPair (halves.layout_of half) (D.seen disk.old) }
    requires can { CanOpen S.start (halves.layout_of half) (D.seen disk.old) }
    ensures found { IfOk result (λ found. MatchOption found
        (current S.start (halves.layout_of half) (D.seen disk.old) ≡ None)
        (λ f. IsFound S.start (halves.layout_of half) f.log f.text.items f.records
        (D.seen disk.old))) }
    ensures reads { D.seen disk.new ≡ D.seen disk.old }
    ensures images { SameImages (D.images disk.old) (D.images disk.new) }
    ensures any_moment { LeavesOnly D.moment D.left_since disk.old disk.new (D.images disk.old) }
    ensures served { IsServed D.seen D.fault_count D.armed (IsErrOf result ReadError.Failed)
        disk.old disk.new }
{
    let Some((counting, body)) = read_current::<D, S>(alloc, disk, half)? else {
        return Ok(None);
    };
    Ok(Some(with_records::<D, S>(alloc, disk, counting, body)?))
}

/// The half that counts, and the records of its journal.
fn with_records<D: Disk, S: Stored>(
    alloc: Global,
    disk: &mut D,
    half: u8,
    body: HalfBytes,
) -> Result<Found, ReadError>
    requires half { half < 4 }
    requires size { halves.HasPair (halves.layout_of half) (D.seen disk.old) }
    requires counts { current S.start (halves.layout_of half) (D.seen disk.old)
        ≡ Some (half, body) }
    requires goes_on { GoesOn (taken (events_of half (D.seen disk.old)))
        (window (halves.journal_area half) (D.seen disk.old)) }
    ensures found { IfOk result
        (λ f. IsFound S.start (halves.layout_of half) f.log f.text.items f.records
        (D.seen disk.old)) }
    ensures reads { D.seen disk.new ≡ D.seen disk.old }
    ensures images { SameImages (D.images disk.old) (D.images disk.new) }
    ensures any_moment { LeavesOnly D.moment D.left_since disk.old disk.new (D.images disk.old) }
    ensures served { IsServed D.seen D.fault_count D.armed (IsErrOf result ReadError.Failed)
        disk.old disk.new }
{
    let records = list(alloc, disk, journal_area(half))?;
    let used = records.byte_len();
    let HalfBytes { generation, state } = body;
    let log = Log {
        half,
        generation,
        used,
    };
    Ok(Found {
        log,
        text: state,
        records,
    })
}

/// The half that counts and its body; `None` exactly where no half tells a state.
fn read_current<D: Disk, S: Stored>(
    alloc: Global,
    disk: &mut D,
    half: u8,
) -> Result<Option<(u8, HalfBytes)>, ReadError>
    requires size { halves.HasPair (halves.layout_of half) (D.seen disk.old) }
    ensures current { IfOk result
        (λ body. body ≡ current S.start (halves.layout_of half) (D.seen disk.old)) }
    ensures half { IfOk result (λ body. IfSome body (λ b. b.0 < 4)) }
    ensures pair { IfOk result
        (λ body. IfSome body (λ b. halves.layout_of b.0 ≡ halves.layout_of half)) }
    ensures reads { D.seen disk.new ≡ D.seen disk.old }
    ensures images { SameImages (D.images disk.old) (D.images disk.new) }
    ensures any_moment { LeavesOnly D.moment D.left_since disk.old disk.new (D.images disk.old) }
    ensures served { IsServed D.seen D.fault_count D.armed (IsErrOf result ReadError.Failed)
        disk.old disk.new }
{
    let low = layout_of(half).low;
    let first = read_told::<D, S>(alloc, disk, low)?;
    let second = read_told::<D, S>(alloc, disk, low + 1)?;
    Ok(newest(low, first, second))
}

/// What a half reads as, where its text tells a state.
fn read_told<D: Disk, S: Stored>(
    alloc: Global,
    disk: &mut D,
    half: u8,
) -> Result<Option<HalfBytes>, ReadError>
    requires half { half < 4 }
    requires inside { halves.HasHalf half (D.seen disk.old) }
    ensures told { IfOk result
        (λ body. body ≡ counts.told (tells S.start) (halves.half_of half (D.seen disk.old))) }
    ensures reads { D.seen disk.new ≡ D.seen disk.old }
    ensures images { SameImages (D.images disk.old) (D.images disk.new) }
    ensures any_moment { LeavesOnly D.moment D.left_since disk.old disk.new (D.images disk.old) }
    ensures served { IsServed D.seen D.fault_count D.armed (IsErrOf result ReadError.Failed)
        disk.old disk.new }
{
    let body = read_half(disk, half)?;
    Ok(keep_told::<S>(alloc, body)?)
}

/// The body, where its text tells a state.
fn keep_told<S: Stored>(
    alloc: Global,
    body: Option<HalfBytes>,
) -> Result<Option<HalfBytes>, AllocError>
    ensures { IfOk result (λ kept. kept ≡ counts.told (tells S.start) body) }
{
    let Some(body) = body else {
        return Ok(None);
    };
    let HalfBytes { generation, state } = body;
    if S::tells(alloc, &state)? {
        Ok(Some(HalfBytes { generation, state }))
    } else {
        Ok(None)
    }
}

/// Of two halves that read the one with the greater generation, of equal ones the lower.
fn newest(low: u8, first: Option<HalfBytes>, second: Option<HalfBytes>) -> Option<(u8, HalfBytes)>
    requires { low < 255 }
    ensures newest { result ≡ counts.newest low first second }
    ensures half { IfSome result (λ r. (r.0 ≡ low) ⊎ (r.0 ≡ low + 1)) }
{
    match (first, second) {
        (None, None) => None,
        (Some(a), None) => Some((low, a)),
        (None, Some(b)) => Some((low + 1, b)),
        (Some(a), Some(b)) => {
            if a.generation < b.generation {
                Some((low + 1, b))
            } else {
                Some((low, a))
            }
        }
    }
}
