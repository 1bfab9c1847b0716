//! Blocks of bytes, and what a software package says of itself.
ghost use Rattle.std.specs.Prelude.{◌≡◌, ◌<◌, ◌≤◌, ◌^◌, length, IfOk};
ghost use Rattle.ucm_base.specs.Limits.{need_limit};

use crate::{ClusterName, ReqText, VersionText};
use std::alloc::{AllocError, Global};
use std::marker::Model;

/// Fewer than 2^32 bytes, seen as their list.
#[derive(Drop)]
pub struct Block {
    bytes: Vec<u8>,
}

impl Model for Block {
    ghost use Rattle.std.specs.Prelude.{ℕ, List, ◌<◌, ◌^◌, length};

    ghost Value = { List ℕ };

    ghost view = { λ a. a.bytes.items };

    ghost invariant = { λ a. length a.bytes.items < 2 ^ 32 };
}

impl Block {
    /// The block of these bytes. It takes no memory.
    pub fn of(bytes: Vec<u8>) -> Block
        requires { length bytes.items < 2 ^ 32 }
        ensures { result ≡ bytes.items }
    {
        Block { bytes }
    }

    /// The bytes.
    pub fn as_slice(&self) -> &[u8]
        ensures bytes { result.now ≡ self.now }
        ensures form { length self.now < 2 ^ 32 }
    {
        self.bytes.as_slice()
    }
}

/// What a package does to its cluster.
#[derive(Clone, Copy, Debug, PartialEq, Eq)]
pub enum Action {
    Install,
    Update,
    Remove,
}

/// A cluster that is needed, at a version that the requirement accepts.
#[derive(Drop)]
pub struct Need {
    pub name: ClusterName,
    pub req: ReqText,
}

impl Clone for Need {
    ghost use Rattle.std.specs.Prelude.{◌≡◌};

    ghost is_clone = { λ x y. y ≡ x };

    fn clone(&self) -> Result<Need, AllocError> {
        Ok(Need {
            name: self.name,
            req: self.req.clone()?,
        })
    }
}

/// At most 16 needs, seen as their list.
#[derive(Drop)]
pub struct Needs {
    items: Vec<Need>,
}

impl Model for Needs {
    ghost use Rattle.std.specs.Prelude.{List, ◌≤◌, length};
    ghost use Rattle.ucm_base.specs.Limits.{need_limit};
    ghost use Rattle.ucm_base.specs.declared.parts.Need.{Need};

    ghost Value = { List Need };

    ghost view = { λ a. a.items.items };

    ghost invariant = { λ a. length a.items.items ≤ need_limit };
}

impl Needs {
    /// The list of these needs. It takes no memory.
    pub fn of(items: Vec<Need>) -> Needs
        requires { length items.items ≤ need_limit }
        ensures { result ≡ items.items }
    {
        Needs { items }
    }

    /// The same needs.
    pub fn copied(&self, alloc: Global) -> Result<Needs, AllocError>
        ensures { IfOk result (λ needs. needs ≡ self.now) }
    {
        let mut items = Vec::with_capacity(alloc, self.items.len())?;
        for need in &self.items {
            items.push(need.clone()?)?;
        }
        Ok(Needs { items })
    }

    /// The needs, in order.
    pub fn as_slice(&self) -> &[Need]
        ensures needs { result.now ≡ self.now }
        ensures form { length self.now ≤ need_limit }
    {
        self.items.as_slice()
    }
}

/// What a software package says of itself.
#[derive(Drop)]
pub struct Manifest {
    pub action: Action,
    pub name: ClusterName,
    pub version: VersionText,
    pub needs: Needs,
    /// The SHA-256 of the payload.
    pub sha256: [u8; 32],
}

impl Manifest {
    /// The same manifest.
    pub fn copied(&self, alloc: Global) -> Result<Manifest, AllocError>
        ensures { IfOk result (λ m. m ≡ self.now) }
    {
        Ok(Manifest {
            action: self.action,
            name: self.name,
            version: self.version.clone()?,
            needs: self.needs.copied(alloc)?,
            sha256: self.sha256,
        })
    }
}

/// What a software package brings for one cluster. `C` is what its payload is: the bytes themselves, or where they lie.
#[derive(Drop)]
pub struct Part<C> {
    pub manifest: Manifest,
    pub payload: C,
}
