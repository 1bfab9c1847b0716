//! What the lines of a recipe have made so far: packages, and the steps of a vehicle.
ghost use Rattle.std.specs.Prelude.{◌≡◌, ◌≤◌, ◌+◌, ◌==◌, IfOk, length, nat_le, sum_by};
ghost use Rattle.std.specs.List.{list_any};
ghost use Rattle.package_reader.specs.Printing.{package_text};
ghost use Rattle.scenario.specs.Readings.{Becomes, IsRead};
ghost use Rattle.recipe.specs.Made.{brings, in_vehicle, is_none, is_open_at, is_twice, is_within, nothing_made, owner_in, parts_at, put, step_added, stepped};
ghost use Rattle.recipe.specs.Named.{place_of};

use crate::parts::{NamedPackage, add, has_cluster, join, place_of};
use crate::words::Making;
use scenario::{Why, WordError};
use std::alloc::{AllocError, Global};
use std::marker::Model;
use ucm_base::limits::{STEP_LIMIT, VEHICLE_LIMIT};
use ucm_base::{Block, ClusterName, NodeId, Part};
use vehicle_package::{Step, print_plan};

/// The bytes of a vehicle package beside its plan and its packages: the mark, the plan's length, the number of packages
/// and the digest.
const FRAME: u64 = 42;

/// At most 128 packages, the steps, and how many packages stand above the first step.
#[derive(Drop)]
pub(crate) struct Made {
    packages: Vec<NamedPackage>,
    steps: Vec<Step>,
    above: usize,
}

impl Model for Made {
    ghost use Rattle.std.specs.Prelude.{◌≤◌, length};
    ghost use Rattle.ucm_base.specs.Limits.{carried_limit};
    ghost use Rattle.recipe.specs.Made.{MadeOf};

    ghost Value = { MadeOf };

    ghost view = { λ a. record {
      packages = a.packages.items;
      steps = a.steps.items;
      above = a.above;
    } };

    ghost invariant = { λ a. (a.above ≤ length a.packages.items)
        × (length a.packages.items ≤ carried_limit) };
}

impl Made {
    /// What is made above the first line.
    pub(crate) fn new(alloc: Global) -> Made
        ensures { result ≡ nothing_made }
    {
        Made {
            packages: Vec::new(alloc),
            steps: Vec::new(alloc),
            above: 0,
        }
    }

    /// The packages, in order of their lines.
    pub(crate) fn packages(&self) -> &[NamedPackage]
        ensures packages { result.now ≡ self.now.packages }
        ensures form { self.now.above ≤ length self.now.packages }
    {
        self.packages.as_slice()
    }

    /// The steps, in order.
    pub(crate) fn steps(&self) -> &[Step]
        ensures { result.now ≡ self.now.steps }
    {
        self.steps.as_slice()
    }

    /// Whether there is no step.
    pub(crate) fn is_without_step(&self) -> bool
        ensures { result ≡ is_none self.now.steps }
    {
        match self.steps.as_slice() {
            [] => true,
            [_, ..] => false,
        }
    }

    /// How many packages stand above the first step.
    pub(crate) fn above(&self) -> usize
        ensures { result ≡ self.now.above }
    {
        self.above
    }

    /// Whether a part may be added to the package of a name.
    fn is_open(&self, name: &ClusterName) -> bool
        ensures { result ≡ is_open_at self.now (place_of self.now.packages name.now) }
    {
        match place_of(self.packages.as_slice(), name) {
            Some(place) => !is_named(self.steps.as_slice(), place),
            None => false,
        }
    }

    /// The name of the package that a line makes or adds to.
    pub(crate) fn owner(&self, making: Making, word: &[u8]) -> Result<ClusterName, WordError>
        ensures { IsRead result (owner_in self.now making word.now) }
    {
        let name = scenario::name(word)?;
        match making {
            Making::Package if name.as_bytes() == b"vehicle".as_slice() => {
                Err(WordError::Refused(Why::Value))
            }
            Making::With if !self.is_open(&name) => Err(WordError::Refused(Why::Unknown)),
            _ => Ok(name),
        }
    }

    /// Whether the vehicle, where there is a step, is within its limit.
    fn is_within(&self, alloc: Global) -> Result<bool, AllocError>
        ensures { IfOk result (λ within. within ≡ is_within self.now) }
    {
        if self.is_without_step() {
            return Ok(true);
        }
        let plan = print_plan(alloc, self.steps.as_slice())?;
        let room = VEHICLE_LIMIT - FRAME;
        let text = plan.as_slice();
        let size = text.len() as u64;
        if size > room {
            return Ok(false);
        }
        Ok(fit(self.packages.as_slice(), room - size))
    }

    /// Refuses a vehicle above its limit.
    fn check(&self, alloc: Global) -> Result<(), WordError>
        ensures { Becomes result self.now (in_vehicle self.now) }
    {
        if self.is_within(alloc)? {
            Ok(())
        } else {
            Err(WordError::Refused(Why::Limit))
        }
    }

    /// Adds what a line makes of packages.
    pub(crate) fn put(
        &mut self,
        alloc: Global,
        making: Making,
        name: ClusterName,
        part: Part<Block>,
    ) -> Result<(), WordError>
        ensures { Becomes result self.new (put self.old making name part) }
    {
        match making {
            Making::Package => add(alloc, &mut self.packages, name, part)?,
            Making::With => join(alloc, &mut self.packages, name, part)?,
        }
        self.check(alloc)
    }

    /// Whether a step above brings a cluster of this one's package to its node.
    fn is_twice(&self, step: &Step) -> bool
        ensures { result ≡ is_twice self.now step.now }
    {
        let packages = self.packages.as_slice();
        let steps = self.steps.as_slice();
        let node = step.node;
        parts_at(packages, step.package as usize).iter().any(|part| is_brought(
            packages,
            steps,
            node,
            &part.manifest.name,
        ))
    }

    /// Adds a step.
    fn push(&mut self, alloc: Global, step: Step) -> Result<(), WordError>
        ensures { Becomes result self.new (stepped self.old step) }
    {
        if self.is_twice(&step) {
            return Err(WordError::Refused(Why::Twice));
        }
        if self.steps.len() as u64 >= STEP_LIMIT {
            return Err(WordError::Refused(Why::Limit));
        }
        if self.steps.is_empty() {
            self.above = self.packages.len();
        }
        self.steps.push(step)?;
        self.check(alloc)
    }

    /// Adds a step that brings the package of a name to a node.
    pub(crate) fn add_step(
        &mut self,
        alloc: Global,
        node: NodeId,
        name: &ClusterName,
    ) -> Result<(), WordError>
        ensures { Becomes result self.new (step_added self.old node name.now) }
    {
        match place_of(self.packages.as_slice(), name) {
            Some(place) => {
                let package = place as u16;
                self.push(alloc, Step { node, package })
            }
            None => Err(WordError::Refused(Why::Unknown)),
        }
    }
}

/// Whether a step names the package at a place.
fn is_named(steps: &[Step], place: usize) -> bool
    ensures { result ≡ list_any (λ step. step.package == place) steps.now }
{
    steps.iter().any(|step| step.package as usize == place)
}

/// The parts of the package at a place.
fn parts_at(packages: &[NamedPackage], place: usize) -> &[Part<Block>]
    ensures { result.now ≡ parts_at packages.now place }
{
    if place >= packages.len() {
        return &[];
    }
    packages[place].parts.as_slice()
}

/// Whether a step brings the cluster to the node.
fn brings(packages: &[NamedPackage], node: NodeId, name: &ClusterName, step: &Step) -> bool
    ensures { result ≡ brings packages.now node name.now step.now }
{
    step.node.number() == node.number()
        && has_cluster(parts_at(packages, step.package as usize), name)
}

/// Whether any step brings the cluster to the node.
fn is_brought(packages: &[NamedPackage], steps: &[Step], node: NodeId, name: &ClusterName) -> bool
    ensures { result ≡ list_any (brings packages.now node name.now) steps.now }
{
    steps.iter().any(|step| brings(packages, node, name, step))
}

/// Whether the packages, each behind its length, have at most so many bytes.
fn fit(packages: &[NamedPackage], room: u64) -> bool
    ensures { result
        ≡ nat_le (sum_by (λ p. 4 + length (package_text p.parts)) packages.now) room }
{
    let mut room = room;
    for package in packages {
        let size = package.parts.size();
        if room < 4 || room - 4 < size {
            return false;
        }
        room = room - 4 - size;
    }
    true
}
