//! The packages of a script from a number.
ghost use Rattle.std.specs.Prelude.{◌≡◌, ◌<◌, ◌≤◌, ◌+◌, ◌^◌, IfOk, IsOk, Ok, length, string_bytes};
ghost use Rattle.package_reader.specs.Reading.{reading};
ghost use Rattle.manifest.specs.Valid.{IsManifest};
ghost use Rattle.vehicle_package.specs.Spelling.{IsCarried};
ghost use Rattle.generator.specs.Demo.{manifest_of, name_of, package_of, part_of, payload_of, payload_size, version_of};

use package_reader::{PackageError, Packed, seal_package};
use sha2::{Digest, Sha256};
use std::alloc::{AllocError, Global};
use ucm_base::{
    Action, Block, ClusterName, Manifest, NameError, Needs, Part, TextError, VersionText,
};

/// How many packages a script has.
pub(crate) const PACKAGES: u16 = 16;

/// The cluster that a package installs.
#[tactic(auto, using(crate::proofs::Words::is_name))]
fn name_of(alloc: Global, place: u16) -> Result<ClusterName, AllocError>
    requires { place < 16 }
    ensures { IfOk result (λ name. name ≡ name_of place) }
{
    let text = format!(in alloc; "c{place}")?;
    match ClusterName::of(text.as_bytes()) {
        Ok(name) => Ok(name),
        Err(NameError) => unreachable!(),
    }
}

/// The cluster's version.
#[tactic(auto, using(crate::proofs::Words::is_version))]
fn version_of(alloc: Global, place: u16) -> Result<VersionText, AllocError>
    requires { place < 16 }
    ensures { IfOk result (λ version. version ≡ version_of place) }
{
    let text = format!(in alloc; "1.0.{place}")?;
    match VersionText::of(alloc, text.as_bytes()) {
        Ok(version) => Ok(version),
        Err(TextError::OutOfMemory) => Err(AllocError),
        Err(TextError::BadText) => unreachable!(),
    }
}

/// The bytes of its payload's length.
fn payload_size(number: u32, place: u16) -> usize
    requires { place < 16 }
    ensures { result ≡ payload_size number place }
{
    100_000 + (number as usize * 31_337 + place as usize * 25_000) % 400_000
}

/// Its payload, whose bytes are all its place.
fn payload_of(alloc: Global, number: u32, place: u16) -> Result<Block, AllocError>
    requires { place < 16 }
    ensures { IfOk result (λ payload. payload ≡ payload_of number place) }
{
    let bytes = vec![in alloc; place as u8; payload_size(number, place)]?;
    Ok(Block::of(bytes))
}

/// What it says of itself, where its payload has this digest.
fn manifest_of(alloc: Global, place: u16, sha256: [u8; 32]) -> Result<Manifest, AllocError>
    requires { place < 16 }
    ensures manifest { IfOk result (λ m. m ≡ manifest_of place sha256) }
    ensures form { IfOk result (λ m. IsManifest m) }
{
    Ok(Manifest {
        action: Action::Install,
        name: name_of(alloc, place)?,
        version: version_of(alloc, place)?,
        needs: Needs::of(Vec::new(alloc)),
        sha256,
    })
}

/// Its one part.
fn part_of(alloc: Global, number: u32, place: u16) -> Result<Part<Block>, AllocError>
    requires { place < 16 }
    ensures part { IfOk result (λ part. part ≡ part_of number place) }
    ensures form { IfOk result (λ part. IsManifest part.manifest) }
{
    let payload = payload_of(alloc, number, place)?;
    let digest: [u8; 32] = Sha256::digest(payload.as_slice());
    Ok(Part {
        manifest: manifest_of(alloc, place, digest)?,
        payload,
    })
}

/// The package that bytes are, which are one.
fn packed(alloc: Global, bytes: Block) -> Result<Packed, AllocError>
    requires { IsOk (reading bytes) }
    ensures bytes { IfOk result (λ packed. packed.bytes ≡ bytes) }
    ensures parts { IfOk result (λ packed. reading bytes ≡ Ok packed.parts) }
{
    match Packed::read(alloc, bytes) {
        Ok(packed) => Ok(packed),
        Err(PackageError::OutOfMemory) => Err(AllocError),
        Err(PackageError::PackageInconsistent { .. }) => unreachable!(),
        Err(PackageError::InvalidManifest) => unreachable!(),
    }
}

/// The package at a place.
pub(crate) fn package_of(alloc: Global, number: u32, place: u16) -> Result<Packed, AllocError>
    requires { place < 16 }
    ensures made { IfOk result (λ packed. packed ≡ package_of number place) }
    ensures carried { IfOk result IsCarried }
{
    let part = part_of(alloc, number, place)?;
    let bytes = seal_package(alloc, &[part])?;
    packed(alloc, Block::of(bytes))
}
