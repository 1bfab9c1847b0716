//! Installed clusters and what packages change of them.
//!
//! `C` is what a content is: the bytes themselves in definitions, where they lie in code.

ghost use Rattle.std.specs.Prelude.{◌≡◌, IfOk};

use std::alloc::{AllocError, Global};
use ucm_base::{ClusterName, Needs, Part, VersionText};

/// An installed piece of software.
#[derive(Drop)]
pub struct Cluster<C> {
    pub name: ClusterName,
    pub version: VersionText,
    pub needs: Needs,
    pub content: C,
}

impl<C: Copy> Cluster<C> {
    /// The same cluster.
    pub fn copied(&self, alloc: Global) -> Result<Cluster<C>, AllocError>
        ensures { IfOk result (λ c. c ≡ self.now) }
    {
        Ok(Cluster {
            name: self.name,
            version: self.version.clone()?,
            needs: self.needs.copied(alloc)?,
            content: self.content,
        })
    }
}

/// A planned change of one cluster, and the id of the transfer that brought it.
#[derive(Drop)]
pub struct Change<C> {
    pub transfer: u32,
    pub part: Part<C>,
}

/// Where a cluster's bytes lie: the first `length` bytes of one side, 0 or 1, of a place, 0 to 63.
#[derive(Clone, Copy, Debug, PartialEq, Eq)]
pub struct Extent {
    pub place: u8,
    pub side: u8,
    pub length: u32,
}
