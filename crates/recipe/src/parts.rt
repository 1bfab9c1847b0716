//! The packages that a recipe has made so far.
ghost use Rattle.std.specs.Prelude.{◌≡◌, ◌<◌, ◌≤◌, ◌++◌, ◌∷◌, [], IfOk, IfSome, OnOk, length};
ghost use Rattle.ucm_base.specs.Limits.{carried_limit, part_limit};
ghost use Rattle.package_reader.specs.Printing.{package_text};
ghost use Rattle.scenario.specs.Readings.{Becomes};
ghost use Rattle.recipe.specs.Named.{added, has_cluster, has_named, joined, place_of, with_part};

use package_reader::{is_too_large, package_size};
use scenario::{Why, WordError};
use std::alloc::{AllocError, Global};
use std::marker::Model;
use ucm_base::limits::{CARRIED_LIMIT, PART_LIMIT};
use ucm_base::{Block, ClusterName, Part};

/// At most sixteen parts, seen as their list, with the bytes of their package counted.
#[derive(Drop)]
pub(crate) struct Parts {
    items: Vec<Part<Block>>,
    size: u64,
}

impl Model for Parts {
    ghost use Rattle.std.specs.Prelude.{List, ◌≡◌, ◌≤◌, length};
    ghost use Rattle.ucm_base.specs.Limits.{part_limit};
    ghost use Rattle.ucm_base.specs.Parts.{Bytes};
    ghost use Rattle.ucm_base.specs.declared.parts.Part.{Part};
    ghost use Rattle.package_reader.specs.Printing.{package_text};

    ghost Value = { List (Part Bytes) };

    ghost view = { λ a. a.items.items };

    ghost invariant = { λ a. (length a.items.items ≤ part_limit)
        × (a.size ≡ length (package_text a.items.items)) };
}

impl Parts {
    /// No part.
    fn new(alloc: Global) -> Result<Parts, AllocError>
        ensures { IfOk result (λ parts. parts ≡ []) }
    {
        let items = Vec::new(alloc);
        let size = package_size(alloc, items.as_slice())?;
        Ok(Parts { items, size })
    }

    /// The bytes of the package of these parts.
    pub(crate) fn size(&self) -> u64
        ensures { result ≡ length (package_text self.now) }
    {
        self.size
    }

    /// The parts, in order.
    pub(crate) fn as_slice(&self) -> &[Part<Block>]
        ensures parts { result.now ≡ self.now }
        ensures form { length self.now ≤ part_limit }
    {
        self.items.as_slice()
    }

    /// Adds a part behind the others.
    fn push(&mut self, alloc: Global, part: Part<Block>) -> Result<(), AllocError>
        requires { length self.old < part_limit }
        ensures { OnOk result (self.new ≡ self.old ++ part ∷ []) }
    {
        self.items.push(part)?;
        match package_size(alloc, self.items.as_slice()) {
            Ok(size) => {
                self.size = size;
                Ok(())
            }
            Err(refused) => {
                let _ = self.items.pop();
                Err(refused)
            }
        }
    }

    /// Adds a part of another cluster, within the limits of a package.
    fn add(&mut self, alloc: Global, part: Part<Block>) -> Result<(), WordError>
        ensures { Becomes result self.new (with_part self.old part) }
    {
        if has_cluster(self.as_slice(), &part.manifest.name) {
            return Err(WordError::Refused(Why::Twice));
        }
        if self.as_slice().len() as u64 >= PART_LIMIT {
            return Err(WordError::Refused(Why::Limit));
        }
        self.push(alloc, part)?;
        if is_too_large(alloc, self.as_slice())? {
            return Err(WordError::Refused(Why::Limit));
        }
        Ok(())
    }
}

/// Whether a part is of the cluster.
pub(crate) fn has_cluster(parts: &[Part<Block>], name: &ClusterName) -> bool
    ensures { result ≡ has_cluster parts.now name.now }
{
    parts.iter().any(|part| part.manifest.name == *name)
}

/// The package of a name.
#[derive(Drop)]
pub(crate) struct NamedPackage {
    pub(crate) name: ClusterName,
    pub(crate) parts: Parts,
}

/// The place of the package of a name.
pub(crate) fn place_of(made: &[NamedPackage], name: &ClusterName) -> Option<usize>
    ensures place { result ≡ place_of made.now name.now }
    ensures within { IfSome result (λ i. i < length made.now) }
{
    made.iter().position(|package| package.name == *name)
}

/// Whether there is a package of the name.
fn has_named(made: &[NamedPackage], name: &ClusterName) -> bool
    ensures { result ≡ has_named made.now name.now }
{
    made.iter().any(|package| package.name == *name)
}

/// Adds a package of one part.
pub(crate) fn add(
    alloc: Global,
    made: &mut Vec<NamedPackage>,
    name: ClusterName,
    part: Part<Block>,
) -> Result<(), WordError>
    ensures added { Becomes result made.new.items (added made.old.items name part) }
    ensures grows { length made.old.items ≤ length made.new.items }
    ensures few { length made.old.items ≤ carried_limit → length made.new.items ≤ carried_limit }
{
    if has_named(made.as_slice(), &name) {
        return Err(WordError::Refused(Why::Twice));
    }
    if made.len() as u64 >= CARRIED_LIMIT {
        return Err(WordError::Refused(Why::Limit));
    }
    let mut parts = Parts::new(alloc)?;
    parts.add(alloc, part)?;
    made.push(NamedPackage { name, parts })?;
    Ok(())
}

/// Adds a part to the package of a name.
pub(crate) fn join(
    alloc: Global,
    made: &mut Vec<NamedPackage>,
    name: ClusterName,
    part: Part<Block>,
) -> Result<(), WordError>
    ensures joined { Becomes result made.new.items (joined made.old.items name part) }
    ensures count { length made.new.items ≡ length made.old.items }
{
    match place_of(made.as_slice(), &name) {
        Some(place) => made[place].parts.add(alloc, part),
        None => Err(WordError::Refused(Why::Unknown)),
    }
}
