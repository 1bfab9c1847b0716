//! Printing packages.
ghost use Rattle.std.specs.Prelude.{◌≡◌, ◌⊎◌, ◌<◌, ◌≤◌, ◌^◌, ◌+◌, ◌*◌, ◌++◌, length, Ok, Err, IfOk, IfErr, OnOk, false, true};
ghost use Rattle.std.specs.List.{list_all};
ghost use Rattle.ucm_base.specs.Limits.{part_limit};
ghost use Rattle.package_reader.specs.Layout.{digest_size, length_size};
ghost use Rattle.package_reader.specs.Printing.{all_belong, canonical, is_too_large, package_text, payloads_size, printing, texts_size};
ghost use Rattle.package_reader.specs.Reading.{are_parts, belongs};
ghost use Rattle.package_reader.specs.Spelling.{HasText, IsPackage, fields, front};

use crate::fields::{MARK_OF_MORE, MARK_OF_ONE, texts_limit};
use crate::layout::{DIGEST_SIZE, LENGTH_SIZE, parts_place};
use crate::names::{are_different, names_of};
use crate::payload::is_payload_of;
use manifest::print_manifest;
use sha2::{Digest, Sha256};
use std::alloc::{AllocError, AllocFailed, Global};
use ucm_base::limits::{PACKAGE_LIMIT, PART_LIMIT};
use ucm_base::{Block, Part};
use wire::put_bytes;

/// Why a package was not printed.
#[derive(Clone, Copy, Debug, PartialEq, Eq)]
pub enum PrintError {
    /// There is no part, there are more than sixteen, or two are of one cluster.
    BadParts,
    /// The manifests' texts or the whole pass their limit.
    TooLarge,
    /// A manifest hasn't its payload's digest, or a removal has a payload.
    WrongDigest,
    OutOfMemory,
}

impl From<AllocError> for PrintError {
    ghost use Rattle.std.specs.Prelude.{◌≡◌};
    ghost use Rattle.package_reader.specs.declared.print.PrintError.TheVariants.{OutOfMemory};

    ghost from_gives = { λ _ e. e ≡ OutOfMemory };

    fn from(_refused: AllocError) -> PrintError {
        PrintError::OutOfMemory
    }
}

/// The bytes that parts take in a package: of their manifests' texts, and of their payloads.
#[derive(Clone, Copy)]
struct Sizes {
    texts: u64,
    payloads: u64,
}

/// The sizes of the parts.
fn sizes_of(alloc: Global, parts: &[Part<Block>]) -> Result<Sizes, AllocError>
    requires { length parts.now ≤ part_limit }
    ensures texts { IfOk result (λ sizes. sizes.texts ≡ texts_size parts.now) }
    ensures payloads { IfOk result (λ sizes. sizes.payloads ≡ payloads_size parts.now) }
    ensures bounds { IfOk result (λ sizes. (sizes.texts < 2 ^ 32) × (sizes.payloads < 2 ^ 40)) }
{
    let mut sizes = Sizes {
        texts: 0,
        payloads: 0,
    };
    'parts: for part in parts {
        let text = print_manifest(alloc, &part.manifest)?;
        let payload = part.payload.as_slice();
        sizes.texts += text.len() as u64;
        sizes.payloads += payload.len() as u64;
    }
    Ok(sizes)
}

/// The bytes of a package of so many parts with these sizes.
fn size_of(count: usize, sizes: Sizes) -> u64
    requires count { count ≤ part_limit }
    requires bounds { (sizes.texts < 2 ^ 32) × (sizes.payloads < 2 ^ 40) }
    ensures { result ≡ length (front count) + 2 * length_size * count + sizes.texts
        + sizes.payloads + digest_size }
{
    let lengths = 2 * LENGTH_SIZE * count;
    (parts_place(count) + lengths + DIGEST_SIZE) as u64 + sizes.texts + sizes.payloads
}

/// The bytes of the package of these parts.
#[tactic(auto, using(crate::proofs::Sizes::whole_size))]
pub fn package_size(alloc: Global, parts: &[Part<Block>]) -> Result<u64, AllocError>
    requires { length parts.now ≤ part_limit }
    ensures { IfOk result (λ size. size ≡ length (package_text parts.now)) }
{
    let sizes = sizes_of(alloc, parts)?;
    Ok(size_of(parts.len(), sizes))
}

/// Whether the manifests' texts or the whole pass their limit.
#[tactic(auto, unfolding(crate::specs::Printing::is_too_large))]
pub fn is_too_large(alloc: Global, parts: &[Part<Block>]) -> Result<bool, AllocError>
    requires { length parts.now ≤ part_limit }
    ensures { IfOk result (λ large. large ≡ is_too_large parts.now) }
{
    let sizes = sizes_of(alloc, parts)?;
    let count = parts.len();
    Ok(sizes.texts > texts_limit(count) || size_of(count, sizes) > PACKAGE_LIMIT)
}

/// Whether there are one to sixteen parts, of different clusters.
pub fn are_parts<C>(alloc: Global, parts: &[Part<C>]) -> Result<bool, AllocError>
    ensures { IfOk result (λ are. are ≡ are_parts parts.now) }
{
    let names = names_of(alloc, parts)?;
    let count = parts.len();
    Ok(count >= 1 && count as u64 <= PART_LIMIT && are_different(names.as_slice()))
}

/// Whether the payload is its manifest's.
fn belongs(part: &Part<Block>) -> bool
    ensures { result ≡ belongs part.now }
{
    is_payload_of(&part.manifest, part.payload.as_slice())
}

/// Whether each payload is its manifest's.
fn all_belong(parts: &[Part<Block>]) -> bool
    ensures { result ≡ all_belong parts.now }
{
    parts.iter().all(|part| belongs(part))
}

/// Adds a part's text and payload, each behind its length.
fn put_part(alloc: Global, bytes: &mut Vec<u8>, part: &Part<Block>) -> Result<(), AllocError>
    ensures put { OnOk result
        (bytes.new.items ≡ bytes.old.items ++ fields (canonical part.now)) }
    ensures text { OnOk result (HasText part.now) }
{
    let text = print_manifest(alloc, &part.manifest)?;
    put_bytes(bytes, text.as_slice())?;
    put_bytes(bytes, part.payload.as_slice())
}

/// Adds the mark, and how many parts there are where they are more than one.
fn put_front(bytes: &mut Vec<u8>, count: usize) -> Result<(), AllocError>
    requires { count ≤ part_limit }
    ensures { OnOk result (bytes.new.items ≡ bytes.old.items ++ front count) }
{
    if count == 1 {
        return Ok(bytes.extend_from_slice(MARK_OF_ONE)?);
    }
    bytes.extend_from_slice(MARK_OF_MORE)?;
    Ok(bytes.push(count as u8)?)
}

/// The bytes of a package whose manifests were just made of their payloads: no payload is hashed, and all bytes before
/// the digest once. Nothing is refused.
pub fn seal_package(alloc: Global, parts: &[Part<Block>]) -> Result<Vec<u8>, AllocError>
    requires { length parts.now ≤ part_limit }
    ensures bytes { IfOk result (λ b. b.items ≡ package_text parts.now) }
    // Parts that are printed are read back.
    ensures package { IfOk result (λ b. are_parts parts.now ≡ true
        → is_too_large parts.now ≡ false → all_belong parts.now ≡ true
        → IsPackage b.items parts.now) }
{
    let size = size_of(parts.len(), sizes_of(alloc, parts)?);
    let mut bytes = Vec::with_capacity(alloc, size as usize)?;
    put_front(&mut bytes, parts.len())?;
    'parts: for part in parts {
        put_part(alloc, &mut bytes, part)?;
    }
    let digest: [u8; DIGEST_SIZE] = Sha256::digest(bytes.as_slice());
    bytes.extend_from_slice(&digest)?;
    Ok(bytes)
}

/// The bytes of a package, which are read as its parts. Each payload is hashed once, and all bytes before the digest
/// once.
#[tactic(auto, unfolding(crate::specs::Printing::printing))]
pub fn print_package(alloc: Global, parts: &[Part<Block>]) -> Result<Vec<u8>, PrintError>
    ensures ok { IfOk result (λ b. printing parts.now ≡ Ok b.items) }
    // What isn't want of memory is the first fault.
    ensures err { IfErr result (λ e. (e ≡ PrintError.OutOfMemory)
        ⊎ (printing parts.now ≡ Err e)) }
    ensures package { IfOk result (λ b. IsPackage b.items parts.now) }
{
    if !are_parts(alloc, parts)? {
        return Err(PrintError::BadParts);
    }
    if is_too_large(alloc, parts)? {
        return Err(PrintError::TooLarge);
    }
    if !all_belong(parts) {
        return Err(PrintError::WrongDigest);
    }
    Ok(seal_package(alloc, parts)?)
}
