//! The fields of a vehicle package, taken one after another. No call takes memory.
ghost use Rattle.std.specs.Prelude.{◌≡◌, ◌+◌, ◌<◌, ◌≤◌, length, MatchOption, IfOk};
ghost use Rattle.ucm_base.specs.Limits.{carried_limit, vehicle_limit};
ghost use Rattle.package_reader.specs.Fields.{end_of, number_at};
ghost use Rattle.vehicle_package.specs.Answers.{IsExactly};
ghost use Rattle.vehicle_package.specs.Fields.{block_at, count_at, end_at, fields_of, packages_at, start_of};

use crate::VehicleError;
use arrayvec::ArrayVec;
use package_reader::Span;
use sha2::{Digest, Sha256};
use ucm_base::limits::{CARRIED_LIMIT, PACKAGE_LIMIT, PLAN_LIMIT, VEHICLE_LIMIT};
use wire::{take_u16, take_u32};

/// The first bytes of a vehicle package.
pub const MARK: &[u8; 4] = b"VHP1";

/// The most packages that a vehicle package carries.
const MOST: usize = CARRIED_LIMIT as usize;

/// Where the packages lie, in order.
pub(crate) type Places = ArrayVec<Span, MOST>;

/// Where the plan's text and the packages lie.
#[derive(Drop)]
pub(crate) struct Fields {
    pub(crate) plan: Span,
    pub(crate) packages: Places,
}

/// Bytes that don't fit from a place on.
fn inconsistent(place: usize) -> VehicleError
    ensures { result ≡ VehicleError.VehicleInconsistent place }
{
    VehicleError::VehicleInconsistent {
        place: place as u64,
    }
}

/// Refuses bytes that are too many, or don't begin as a vehicle package.
fn check_start(bytes: &[u8]) -> Result<(), VehicleError>
    ensures start { result ≡ start_of bytes.now }
    ensures within { IfOk result
        (λ _. (4 ≤ length bytes.now) × (length bytes.now ≤ vehicle_limit)) }
{
    if bytes.len() as u64 > VEHICLE_LIMIT {
        return Err(inconsistent(VEHICLE_LIMIT as usize));
    }
    if !bytes.starts_with(MARK) {
        return Err(inconsistent(0));
    }
    Ok(())
}

/// The number at a place.
fn number_at(bytes: &[u8], place: usize) -> Option<u32>
    requires { place ≤ length bytes.now }
    ensures { MatchOption result (length bytes.now < place + 4)
        (λ n. (n ≡ number_at bytes.now place) × (place + 4 ≤ length bytes.now)) }
{
    let (number, _) = take_u32(&bytes[place..])?;
    Some(number)
}

/// The block behind its length at a place, which may have so many bytes.
#[tactic(auto, unfolding(crate::specs::Fields::block_at))]
fn block_at(bytes: &[u8], most: u64, place: usize) -> Result<Span, VehicleError>
    requires { place ≤ length bytes.now }
    ensures block { result ≡ block_at bytes.now most place }
    ensures within { IfOk result (λ span. end_of span ≤ length bytes.now) }
{
    let Some(len) = number_at(bytes, place) else {
        return Err(inconsistent(place));
    };
    if u64::from(len) > most {
        return Err(inconsistent(place));
    }
    let at = place + 4;
    if bytes.len() - at < len as usize {
        return Err(inconsistent(at));
    }
    Ok(Span { at, len })
}

/// How many packages there are, 1 to 128.
#[tactic(auto, unfolding(crate::specs::Fields::count_at))]
fn count_at(bytes: &[u8], place: usize) -> Result<u16, VehicleError>
    requires { place ≤ length bytes.now }
    ensures count { result ≡ count_at bytes.now place }
    ensures within { IfOk result
        (λ n. (n ≤ carried_limit) × (place + 2 ≤ length bytes.now)) }
{
    match take_u16(&bytes[place..]) {
        Some((count, _)) if count >= 1 && u64::from(count) <= CARRIED_LIMIT => Ok(count),
        _ => Err(inconsistent(place)),
    }
}

/// So many packages from a place on, and the place behind them.
fn packages_at(bytes: &[u8], count: u16, place: usize) -> Result<(Places, usize), VehicleError>
    requires count { count ≤ carried_limit }
    requires place { place ≤ length bytes.now }
    ensures packages { IsExactly (λ found. (found.0.items, found.1)) result
        (packages_at count bytes.now place) }
    ensures within { IfOk result (λ found. found.1 ≤ length bytes.now) }
{
    let mut places = ArrayVec::new();
    let mut place = place;
    for _ in 0..count {
        let span = block_at(bytes, PACKAGE_LIMIT, place)?;
        place = span.at + span.len as usize;
        places.push(span);
    }
    Ok((places, place))
}

/// Refuses bytes that don't end with the digest (FIPS 180-4) of all before a place.
fn check_end(bytes: &[u8], place: usize) -> Result<(), VehicleError>
    requires { place ≤ length bytes.now }
    ensures { result ≡ end_at bytes.now place }
{
    let (before, rest) = bytes.split_at(place);
    let digest: [u8; 32] = Sha256::digest(before);
    if !rest.starts_with(&digest) {
        return Err(inconsistent(place));
    }
    if rest.len() > digest.len() {
        return Err(inconsistent(place + digest.len()));
    }
    Ok(())
}

/// Where the plan and the packages lie, where each field is whole and the digest is that of all bytes before it.
#[tactic(auto, unfolding(crate::specs::Fields::fields_of))]
pub(crate) fn fields_of(bytes: &[u8]) -> Result<Fields, VehicleError>
    ensures fields { IsExactly
        (λ f. record { plan = f.plan; packages = f.packages.items }) result (fields_of bytes.now) }
    ensures whole { IfOk result (λ _. length bytes.now ≤ vehicle_limit) }
{
    check_start(bytes)?;
    let plan = block_at(bytes, PLAN_LIMIT, MARK.len())?;
    let place = plan.at + plan.len as usize;
    let count = count_at(bytes, place)?;
    let (packages, end) = packages_at(bytes, count, place + 2)?;
    check_end(bytes, end)?;
    Ok(Fields { plan, packages })
}
