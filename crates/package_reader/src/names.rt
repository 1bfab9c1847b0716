//! The names of the clusters that parts change.
ghost use Rattle.std.specs.Prelude.{◌≡◌, IfOk, map};
ghost use Rattle.ucm_base.specs.Names.{all_differ, has_name};
ghost use Rattle.ucm_base.specs.Parts.{cluster_of};

use std::alloc::{AllocError, Global};
use ucm_base::{ClusterName, Part};

/// The names, in order of the parts.
pub(crate) fn names_of<C>(alloc: Global, parts: &[Part<C>]) -> Result<Vec<ClusterName>, AllocError>
    ensures { IfOk result (λ names. names.items ≡ map cluster_of parts.now) }
{
    let mut names = Vec::new(alloc);
    for part in parts {
        names.push(part.manifest.name)?;
    }
    Ok(names)
}

fn has_name(names: &[ClusterName], name: ClusterName) -> bool
    ensures { result ≡ has_name names.now name }
{
    names.iter().any(|other| name == *other)
}

/// Whether no name stands twice.
pub(crate) fn are_different(names: &[ClusterName]) -> bool
    ensures { result ≡ all_differ names.now }
{
    for i in 0..names.len() {
        if has_name(&names[i + 1..], names[i]) {
            return false;
        }
    }
    true
}
