//! Reading packages.
ghost use Rattle.std.specs.Prelude.{◌≡◌, ◌⊎◌, List, Some, None, Ok, Err, IfOk, IfErr, map, find, not, option_map, true};
ghost use Rattle.std.specs.List.{AllByRecursion};
ghost use Rattle.manifest.specs.Trees.{all_of};
ghost use Rattle.ucm_base.specs.Parts.{Bytes};
ghost use Rattle.ucm_base.specs.declared.parts.Part.{Part as AnyPart};
ghost use Rattle.package_reader.specs.Fields.{LiesWithin, fields_of};
ghost use Rattle.package_reader.specs.Reading.{are_parts, contents_of, has_its_payload, manifests_in, part_in, payloads_in, with_payload};
ghost use Rattle.package_reader.specs.Spelling.{IsPackage};
ghost use Rattle.package_reader.specs.declared.fault.PackageError.{PackageError as AnyFault};

use crate::PackageError;
use crate::fields::{fields_of, inconsistent};
use crate::names::{are_different, names_of};
use crate::payload::is_payload_of;
use crate::span::{PartPlace, Span};
use manifest::{ManifestError, read_manifest};
use std::alloc::Global;
use ucm_base::{Part, Rows};

/// The parts of a package, whose payloads lie in its bytes.
pub type Contents = Rows<Part<Span>>;

/// The part at a place.
fn part_in(alloc: Global, bytes: &[u8], place: PartPlace) -> Result<Part<Span>, PackageError>
    ensures ok { IfOk result (λ part. part_in bytes.now place ≡ Some part) }
    ensures err { IfErr result (λ e. (e ≡ PackageError.OutOfMemory)
        ⊎ ((e ≡ PackageError.InvalidManifest) × (part_in bytes.now place ≡ None))) }
{
    match read_manifest(alloc, place.text.of(bytes)) {
        Ok(manifest) => Ok(Part {
            manifest,
            payload: place.payload,
        }),
        Err(ManifestError::InvalidManifest) => Err(PackageError::InvalidManifest),
        Err(ManifestError::OutOfMemory) => Err(PackageError::OutOfMemory),
    }
}

/// The parts at these places.
fn parts_in(
    alloc: Global,
    bytes: &[u8],
    places: &[PartPlace],
) -> Result<Vec<Part<Span>>, PackageError>
    ensures ok { IfOk result (λ parts. all_of (part_in bytes.now) places.now ≡ Some parts.items) }
    ensures err { IfErr result (λ e. (e ≡ PackageError.OutOfMemory)
        ⊎ ((e ≡ PackageError.InvalidManifest) × (all_of (part_in bytes.now) places.now ≡ None))) }
{
    let mut parts = Vec::new(alloc);
    'places: for place in places {
        let part = part_in(alloc, bytes, *place)?;
        parts.push(part)?;
    }
    Ok(parts)
}

/// Whether the payload is its manifest's.
fn has_its_payload(bytes: &[u8], part: &Part<Span>) -> bool
    ensures { result ≡ has_its_payload bytes.now part.now }
{
    is_payload_of(&part.manifest, part.payload.of(bytes))
}

/// The first part whose payload isn't its manifest's.
fn another_payload<'a>(bytes: &[u8], parts: &'a [Part<Span>]) -> Option<&'a Part<Span>>
    ensures { option_map (λ part. part.now) result
        ≡ find (λ part. not (has_its_payload bytes.now part)) parts.now }
{
    parts.iter().find(|part| !has_its_payload(bytes, part))
}

/// Refuses a payload that isn't its manifest's.
fn check_payloads(bytes: &[u8], parts: &[Part<Span>]) -> Result<(), PackageError>
    ensures { result ≡ payloads_in bytes.now parts.now }
{
    match another_payload(bytes, parts) {
        Some(part) => Err(inconsistent(part.payload.at)),
        None => Ok(()),
    }
}

/// Reads a package, and leaves its payloads where they lie. Each payload is hashed once, and all bytes before the
/// digest once. A fault has the place, in bytes from 0, from which the bytes are no package.
pub fn read_package(alloc: Global, bytes: &[u8]) -> Result<Contents, PackageError>
    // What is read is a package: one to sixteen parts of different clusters.
    ensures package { IfOk result
        (λ parts. IsPackage bytes.now (map (with_payload bytes.now) parts)) }
    ensures ok { IfOk result (λ parts. contents_of bytes.now ≡ Ok parts) }
    ensures parts { IfOk result (λ parts. are_parts parts ≡ true) }
    ensures within { IfOk result
        (λ parts. AllByRecursion (λ part. LiesWithin bytes.now part.payload) parts) }
    // A package is refused for want of memory alone.
    ensures only { (parts : List (AnyPart Bytes)) → IsPackage bytes.now parts
        → IfErr result (λ e. e ≡ PackageError.OutOfMemory) }
    // What isn't want of memory is the first fault.
    ensures err { IfErr result (λ e. (e ≡ PackageError.OutOfMemory)
        ⊎ (contents_of bytes.now ≡ Err e)) }
    // A fault of the fields is answered without a call for memory.
    ensures fields { (f : AnyFault) → fields_of bytes.now ≡ Err f → result ≡ Err f }
{
    contents_of(alloc, bytes)
}

/// What bytes are a package of, by the order of refusals.
#[tactic(auto, unfolding(crate::specs::Reading::contents_of))]
fn contents_of(alloc: Global, bytes: &[u8]) -> Result<Contents, PackageError>
    ensures ok { IfOk result (λ parts. contents_of bytes.now ≡ Ok parts) }
    ensures err { IfErr result (λ e. (e ≡ PackageError.OutOfMemory)
        ⊎ (contents_of bytes.now ≡ Err e)) }
    ensures fields { (f : AnyFault) → fields_of bytes.now ≡ Err f → result ≡ Err f }
{
    let places = fields_of(bytes)?;
    let parts = parts_in(alloc, bytes, places.as_slice())?;
    if !are_different(names_of(alloc, parts.as_slice())?.as_slice()) {
        return Err(PackageError::InvalidManifest);
    }
    check_payloads(bytes, parts.as_slice())?;
    Ok(Rows::of(parts))
}
