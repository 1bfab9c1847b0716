//! Packages of a few parts, and a driver for them.
ghost use Rattle.std.specs.Prelude.{◌≡◌, IfSome, None};
ghost use Rattle.sub_core.specs.Calls.{bytes_of, AreThere, IsPackage};

use package_reader::{Packages, Packed, print_package};
use sha2::{Digest, Sha256};
use std::alloc::Global;
use sub_core::{Driver, PackageSize};
use ucm_base::{Action, Block, ClusterName, Manifest, Needs, Part, VersionText};

/// What a part does to a cluster, with a payload of so many times this byte.
#[derive(Clone, Copy)]
pub struct PartRow {
    pub action: Action,
    pub cluster: &'static str,
    pub byte: u8,
    pub size: u32,
}

/// A part that removes a cluster, and has no payload.
pub const fn removal(cluster: &'static str) -> PartRow {
    PartRow {
        action: Action::Remove,
        cluster,
        byte: 0,
        size: 0,
    }
}

/// A part that installs a cluster.
pub const fn install(cluster: &'static str, byte: u8, size: u32) -> PartRow {
    PartRow {
        action: Action::Install,
        cluster,
        byte,
        size,
    }
}

/// So many times this byte.
fn filled(alloc: Global, byte: u8, size: u32) -> Option<Block> {
    let bytes = vec![in alloc; byte; size as usize].ok()?;
    Some(Block::of(bytes))
}

fn part(alloc: Global, row: &PartRow) -> Option<Part<Block>> {
    let payload = filled(alloc, row.byte, row.size)?;
    Some(Part {
        manifest: Manifest {
            action: row.action,
            name: ClusterName::of(row.cluster.as_bytes()).ok()?,
            version: VersionText::of(alloc, b"1.0.0").ok()?,
            needs: Needs::of(Vec::new(alloc)),
            sha256: Sha256::digest(payload.as_slice()),
        },
        payload,
    })
}

/// The package of these parts.
fn packed(alloc: Global, rows: &[PartRow]) -> Option<Packed> {
    let mut parts = Vec::new(alloc);
    for row in rows {
        parts.push(part(alloc, row)?).ok()?;
    }
    let bytes = print_package(alloc, parts.as_slice()).ok()?;
    if bytes.len() > u32::MAX as usize {
        return None;
    }
    Packed::read(alloc, Block::of(bytes)).ok()
}

/// A package of each of these lists of parts.
pub fn packages(alloc: Global, lists: &[&[PartRow]]) -> Option<Packages> {
    let mut packages = Packages::new(alloc);
    for rows in lists {
        packages.push(packed(alloc, rows)?).ok()?;
    }
    Some(packages)
}

/// The step of the package at this place.
fn step_at(packages: &Packages, place: u16) -> Option<PackageSize>
    ensures { IfSome result (λ step. IsPackage (bytes_of packages.now) step) }
{
    let package = packages.as_slice().get(place as usize)?;
    Some(PackageSize {
        index: place,
        length: u32::try_from(package.as_slice().len()).ok()?,
    })
}

/// A driver of campaign 7 in epoch 1 that has done nothing, for the first package, and the second where there is one.
pub fn driver_for(alloc: Global, packages: &Packages) -> Option<Driver>
    ensures there { IfSome result (λ d. AreThere (bytes_of packages.now) d.steps) }
    ensures round { IfSome result (λ d. d.round ≡ None) }
{
    let first = step_at(packages, 0)?;
    match step_at(packages, 1) {
        None => Driver::new(alloc, 1, 1, 7, &[first]).ok(),
        Some(second) => Driver::new(alloc, 1, 1, 7, &[first, second]).ok(),
    }
}
