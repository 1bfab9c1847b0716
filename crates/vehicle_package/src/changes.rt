//! The clusters that steps change on their nodes.
ghost use Rattle.std.specs.Prelude.{◌≡◌, IfOk, map};
ghost use Rattle.package_reader.specs.Reading.{with_payload};
ghost use Rattle.vehicle_package.specs.Changes.{again_in, bytes_of, change_on, changes_of, has_change, parts_of, twice_in};

use crate::vehicle::Step;
use package_reader::{Packed, Span};
use std::alloc::{AllocError, Global};
use ucm_base::{ClusterName, NodeId, Part};

/// A cluster that a step changes on its node.
#[derive(Clone, Copy)]
pub(crate) struct Change {
    pub(crate) node: NodeId,
    pub(crate) cluster: ClusterName,
}

/// The parts that a step brings, whose payloads lie in the bytes of its package.
pub(crate) fn parts_of(packages: &[Packed], step: Step) -> &[Part<Span>]
    ensures manifests { map (λ part. part.manifest) result.now
        ≡ map (λ part. part.manifest) (parts_of packages.now step) }
    ensures parts { map (with_payload (bytes_of packages.now step)) result.now
        ≡ parts_of packages.now step }
{
    let index = step.package as usize;
    if index >= packages.len() {
        return &[];
    }
    packages[index].parts()
}

/// What these parts change on a node.
fn changes_on(alloc: Global, node: NodeId, parts: &[Part<Span>]) -> Result<Vec<Change>, AllocError>
    ensures { IfOk result (λ changes. changes.items ≡ map (change_on node) parts.now) }
{
    let mut changes = Vec::new(alloc);
    'parts: for part in parts {
        changes.push(Change {
            node,
            cluster: part.manifest.name,
        })?;
    }
    Ok(changes)
}

/// What a step changes, in order of the parts of its package.
fn changes_of(alloc: Global, packages: &[Packed], step: Step) -> Result<Vec<Change>, AllocError>
    ensures { IfOk result (λ changes. changes.items ≡ changes_of packages.now step) }
{
    changes_on(alloc, step.node, parts_of(packages, step))
}

/// Whether the same cluster of the same node is among them.
fn has_change(above: &[Change], change: Change) -> bool
    ensures { result ≡ has_change above.now change }
{
    above.iter().any(|other| other.node.number() == change.node.number()
        && other.cluster == change.cluster)
}

/// The first that is changed above, too.
fn again_in(above: &[Change], changes: &[Change]) -> Option<Change>
    ensures { result ≡ again_in above.now changes.now }
{
    changes
        .iter()
        .copied()
        .find(|change| has_change(above, *change))
}

/// The first cluster of a step that an earlier step changes on the same node.
pub(crate) fn twice_in(
    alloc: Global,
    packages: &[Packed],
    steps: &[Step],
) -> Result<Option<Change>, AllocError>
    ensures { IfOk result (λ change. change ≡ twice_in packages.now steps.now) }
{
    let mut above = Vec::new(alloc);
    'steps: for step in steps {
        let changes = changes_of(alloc, packages, *step)?;
        let again = again_in(above.as_slice(), changes.as_slice());
        if again.is_some() {
            return Ok(again);
        }
        above.extend_from_slice(changes.as_slice())?;
    }
    Ok(None)
}
