//! Vehicles: the steps of a plan, and the packages that they bring.
ghost use Rattle.std.specs.Prelude.{◌≡◌, map};
ghost use Rattle.package_reader.specs.Reading.{with_payload};
ghost use Rattle.vehicle_package.specs.Changes.{bytes_of, parts_of};

use crate::changes::parts_of;
use package_reader::{Packages, Span};
use ucm_base::{NodeId, Part, Rows};

/// A package, by its place in the vehicle's list, is brought to a node.
#[derive(Clone, Copy, Debug, PartialEq, Eq)]
pub struct Step {
    pub node: NodeId,
    pub package: u16,
}

/// Steps, in order.
pub type Steps = Rows<Step>;

/// What a vehicle package brings. Each package keeps its bytes once, beside what was read of them.
#[derive(Drop)]
pub struct Vehicle {
    pub steps: Steps,
    pub packages: Packages,
}

impl Vehicle {
    /// The parts that a step brings, in order; none, where there is no such package. Their payloads lie in its bytes.
    pub fn parts_of(&self, step: Step) -> &[Part<Span>]
        ensures manifests { map (λ part. part.manifest) result.now
            ≡ map (λ part. part.manifest) (parts_of self.now.packages step) }

        // With what lies at their payloads' places they are the parts of the package.
        ensures parts { map (with_payload (bytes_of self.now.packages step)) result.now
            ≡ parts_of self.now.packages step }
    {
        parts_of(self.packages.as_slice(), step)
    }
}
