//! What the next unit of a package needs: its bytes behind the done ones, and the changes that the last one plans.
ghost use Rattle.std.specs.Prelude.{◌≡◌, ◌≤◌, ◌+◌, IfOk, OnOk, IsErrOf, length, option_map, slice_range};
ghost use Rattle.fault_count.specs.Faults.{HasRisen};
ghost use Rattle.ucm_base.specs.Limits.{package_limit};
ghost use Rattle.pm_types.specs.declared.status.Status.TheVariants.{Processing};
ghost use Rattle.package_reader.specs.Fields.{number_at};
ghost use Rattle.package_reader.specs.Layout.{length_size, parts_place};
ghost use Rattle.transfer_blocks.specs.Areas.{IsArea, LeavesOutside, content_of};
ghost use Rattle.transfer_blocks.specs.Steps.{with_bytes};
ghost use Rattle.transfer_blocks.specs.declared.area.Area.TheVariants.{Transfer};
ghost use Rattle.node_core.specs.Core.{IsSound, holding, over};
ghost use Rattle.node_core.specs.Errors.{end_by};
ghost use Rattle.node_core.specs.Reserves.{Copies, Reads, Reserves, Writes};
ghost use Rattle.node_core.specs.Units.{IsNextUnit, IsReservedWork, LieWithin, changes_due, changes_to, piece_of, side_of};

use crate::destination::extents;
use crate::node::ReserveError;
use crate::prepared::Prepared;
use package_reader::{LENGTH_SIZE, parts_place};
use pm_types::{Change, Contents, Extent, State, units_of};
use std::alloc::{AllocError, Global};
use transfer_blocks::{Area, Staging, lookup};
use ucm_base::Part;
use ucm_base::limits::BLOCK_LIMIT;

/// The lengths of a part's manifest and of its payload.
const LENGTHS: u64 = 2 * LENGTH_SIZE as u64;

/// The next unit of a package: the slot of its bytes, the units done, where its payloads go, and what it plans.
#[derive(Drop)]
pub(crate) struct NextUnit {
    pub(crate) slot: u8,
    pub(crate) done: u32,
    pub(crate) extents: Vec<Extent>,
    /// The changes, which only the last unit plans.
    pub(crate) changes: Option<Vec<Change<Extent>>>,
}

/// A piece of a payload: where it begins in the package and in the payload, its length, and where the payload goes.
#[derive(Clone, Copy, Debug, PartialEq, Eq)]
pub(crate) struct Piece {
    pub(crate) from: u64,
    pub(crate) at: u64,
    pub(crate) len: u64,
    pub(crate) to: Extent,
}

/// Copies the next unit's bytes behind the done ones, and makes ready the changes that the last unit plans.
pub(crate) fn reserve_unit<S: Staging>(
    alloc: Global,
    staging: &mut S,
    state: &State,
) -> Result<Prepared, ReserveError>
    requires status { state.now.status ≡ Processing }
    requires fit { S.is_fit staging.old }
    requires sound { IsSound (holding (S.areas staging.old) state.now) }
    ensures reserves { Reserves S.obeys S.areas state.now (Copies (S.areas staging.old) state.now)
        (λ held. IfOk result (λ p.
        IsReservedWork (over held (record { state = state.now; prepared = p }))))
        (end_by result) staging.old staging.new }
    ensures fit { S.is_fit staging.new }
    ensures cause { IsErrOf result ReserveError.StagingFailed
        → HasRisen (S.fault_count staging.old) (S.fault_count staging.new) }
    ensures faults { S.fault_count staging.old ≤ S.fault_count staging.new }
{
    let Some(next) = next_unit(alloc, state)? else {
        return Ok(Prepared::Nothing);
    };
    let NextUnit {
        slot,
        done,
        extents,
        changes,
    } = next;
    let Some(piece) = find_piece(staging, slot, done, extents.as_slice())? else {
        return Ok(Prepared::Nothing);
    };
    let planned = Prepared::planning(changes);
    if piece.len == 0 {
        return Ok(planned);
    }
    copy(staging, slot, piece)?;
    Ok(planned)
}

/// What the next unit is, where a package is in processing.
fn next_unit(alloc: Global, state: &State) -> Result<Option<NextUnit>, AllocError>
    ensures { IfOk result (IsNextUnit state.now) }
{
    let Some(session) = &state.session else {
        return Ok(None);
    };
    let Some(id) = session.processing else {
        return Ok(None);
    };
    let Some(transfer) = lookup::stored(&state.transfers.list, session.owner, id) else {
        return Ok(None);
    };
    let done = session.units_done;
    let extents = extents(alloc, state, transfer.contents.as_slice())?;
    let changes = changes_due(alloc, done, id, &transfer.contents, extents.as_slice())?;
    Ok(Some(NextUnit {
        slot: transfer.slot,
        done,
        extents,
        changes,
    }))
}

/// The piece that the unit behind these done ones brings, of the package in a slot whose payloads go to the extents.
fn find_piece<S: Staging>(
    staging: &mut S,
    slot: u8,
    done: u32,
    extents: &[Extent],
) -> Result<Option<Piece>, ReserveError>
    requires fit { S.is_fit staging.old }
    requires slot { IsArea (Transfer slot) }
    requires lie { LieWithin (content_of (Transfer slot) (S.areas staging.old))
        (parts_place (length extents.now)) extents.now }
    requires short { length (content_of (Transfer slot) (S.areas staging.old)) ≤ package_limit }
    ensures piece { IfOk result (λ piece. piece
        ≡ piece_of (content_of (Transfer slot) (S.areas staging.old))
        (parts_place (length extents.now)) done extents.now) }
    ensures areas { S.areas staging.new ≡ S.areas staging.old }
    ensures reads { Reads S.obeys (end_by result) staging.old staging.new }
    ensures fit { S.is_fit staging.new }
    ensures cause { IsErrOf result ReserveError.StagingFailed
        → HasRisen (S.fault_count staging.old) (S.fault_count staging.new) }
    ensures faults { S.fault_count staging.old ≤ S.fault_count staging.new }
{
    let mut place = parts_place(extents.len()) as u64;
    let mut left = u64::from(done);
    for extent in extents {
        let start = place + LENGTHS + number_at(staging, slot, place)?;
        let size = u64::from(extent.length);
        let units = units_of(extent.length);
        if left < units {
            let at = left * BLOCK_LIMIT;
            return Ok(Some(Piece {
                from: start + at,
                at,
                len: size.saturating_sub(at).min(BLOCK_LIMIT),
                to: *extent,
            }));
        }
        left -= units;
        place = start + size;
    }
    Ok(None)
}

/// The number that a length's bytes at a place of a slot spell.
fn number_at<S: Staging>(staging: &mut S, slot: u8, place: u64) -> Result<u64, ReserveError>
    requires fit { S.is_fit staging.old }
    requires slot { IsArea (Transfer slot) }
    requires lies { place + length_size
        ≤ length (content_of (Transfer slot) (S.areas staging.old)) }
    ensures number { IfOk result (λ n. n
        ≡ number_at (content_of (Transfer slot) (S.areas staging.old)) place) }
    ensures areas { S.areas staging.new ≡ S.areas staging.old }
    ensures reads { Reads S.obeys (end_by result) staging.old staging.new }
    ensures fit { S.is_fit staging.new }
    ensures cause { IsErrOf result ReserveError.StagingFailed
        → HasRisen (S.fault_count staging.old) (S.fault_count staging.new) }
    ensures faults { S.fault_count staging.old ≤ S.fault_count staging.new }
{
    let bytes = staging.get(Area::Transfer { slot }, place, LENGTH_SIZE)?;
    match bytes.as_slice().split_first_chunk::<LENGTH_SIZE>() {
        Some((field, _)) => Ok(u64::from(u32::from_be_bytes(*field))),
        None => Ok(0),
    }
}

/// Copies a piece of a payload from a slot to the side where it goes.
fn copy<S: Staging>(staging: &mut S, slot: u8, piece: Piece) -> Result<(), ReserveError>
    requires fit { S.is_fit staging.old }
    requires slot { IsArea (Transfer slot) }
    requires area { IsArea (side_of piece.to) }
    requires range { piece.from + piece.len
        ≤ length (content_of (Transfer slot) (S.areas staging.old)) }
    requires done { piece.at ≤ length (content_of (side_of piece.to) (S.areas staging.old)) }
    requires fits { piece.at + piece.len ≤ package_limit }
    ensures left { LeavesOutside (side_of piece.to) piece.at piece.len
        (S.areas staging.old) (S.areas staging.new) }
    ensures put { OnOk result (S.areas staging.new ≡ with_bytes (side_of piece.to) piece.at
        (slice_range (content_of (Transfer slot) (S.areas staging.old)) piece.from (piece.from + piece.len))
        (S.areas staging.old)) }
    ensures writes { Writes S.obeys (side_of piece.to) piece.at
        (slice_range (content_of (Transfer slot) (S.areas staging.old)) piece.from (piece.from + piece.len))
        (end_by result) staging.old staging.new }
    ensures fit { S.is_fit staging.new }
    ensures cause { IsErrOf result ReserveError.StagingFailed
        → HasRisen (S.fault_count staging.old) (S.fault_count staging.new) }
    ensures faults { S.fault_count staging.old ≤ S.fault_count staging.new }
{
    let bytes = staging.get(Area::Transfer { slot }, piece.from, piece.len as usize)?;
    let side = Area::Side {
        place: piece.to.place,
        side: piece.to.side,
    };
    staging.put(side, piece.at, bytes.as_slice())?;
    Ok(())
}

/// The changes that the unit behind these done ones plans, which only the last one does.
fn changes_due(
    alloc: Global,
    done: u32,
    id: u32,
    contents: &Contents,
    extents: &[Extent],
) -> Result<Option<Vec<Change<Extent>>>, AllocError>
    ensures { IfOk result (λ changes. option_map (λ v. v.items) changes
        ≡ changes_due done id contents.now extents.now) }
{
    if u64::from(done) + 1 < contents.units() {
        return Ok(None);
    }
    Ok(Some(changes_to(alloc, id, contents.as_slice(), extents)?))
}

/// The changes of parts whose payloads go to these extents.
fn changes_to(
    alloc: Global,
    id: u32,
    parts: &[Part<u32>],
    extents: &[Extent],
) -> Result<Vec<Change<Extent>>, AllocError>
    ensures { IfOk result (λ changes. changes.items ≡ changes_to id parts.now extents.now) }
{
    let count = parts.len().min(extents.len());
    let mut changes = Vec::new(alloc);
    for place in 0..count {
        let manifest = parts[place].manifest.copied(alloc)?;
        let payload = extents[place];
        let part = Part { manifest, payload };
        changes.push(Change { transfer: id, part })?;
    }
    Ok(changes)
}
