//! The bytes of one area, or of the two sides of a place.
ghost use Rattle.std.specs.Prelude.{◌≡◌, ◌+◌, ◌≤◌, [], length, slice_range, IfOk, OnOk, OnErr};
ghost use Rattle.transfer_blocks.specs.Areas.{on_pair, with_side, overwritten};

use std::alloc::{AllocError, Global};
use std::marker::Model;

/// What lies in an area, seen as its bytes.
#[derive(Drop)]
pub(crate) struct Content {
    bytes: Vec<u8>,
}

impl Model for Content {
    ghost use Rattle.std.specs.Prelude.{ℕ, List};

    ghost Value = { List ℕ };

    ghost view = { λ c. c.bytes.items };
}

impl Content {
    /// Nothing. It takes no memory.
    pub(crate) fn new(alloc: Global) -> Content
        ensures { result ≡ [] }
    {
        Content {
            bytes: Vec::new(alloc),
        }
    }

    /// Puts the bytes at `at`. Where memory is wanting the content stays.
    pub(crate) fn put(&mut self, at: usize, bytes: &[u8]) -> Result<(), AllocError>
        requires { at ≤ length self.old }
        ensures put { OnOk result (self.new ≡ overwritten at bytes.now self.old) }
        ensures same { OnErr result (self.new ≡ self.old) }
    {
        let within = bytes.len().min(self.bytes.len() - at);
        self.bytes.extend_from_slice(&bytes[within..])?;
        self.bytes[at..at + within].copy_from_slice(&bytes[..within]);
        Ok(())
    }

    /// The `len` bytes from `at` on.
    pub(crate) fn get(&self, alloc: Global, at: usize, len: usize) -> Result<Vec<u8>, AllocError>
        requires { at + len ≤ length self.now }
        ensures { IfOk result (λ v. v.items ≡ slice_range self.now at (at + len)) }
    {
        self.bytes[at..at + len].to_vec(alloc)
    }
}

/// What lies on the two sides of a place.
#[derive(Drop)]
pub(crate) struct Pair {
    first: Content,
    second: Content,
}

impl Model for Pair {
    ghost use Rattle.std.specs.Prelude.{ℕ, List};

    ghost Value = { List ℕ × List ℕ };

    ghost view = { λ p. (p.first, p.second) };
}

impl Pair {
    /// Nothing on either side. It takes no memory.
    pub(crate) fn new(alloc: Global) -> Pair
        ensures { result ≡ ([], []) }
    {
        Pair {
            first: Content::new(alloc),
            second: Content::new(alloc),
        }
    }

    /// Puts the bytes at `at` on the side. Where memory is wanting both sides stay.
    pub(crate) fn put(&mut self, side: u8, at: usize, bytes: &[u8]) -> Result<(), AllocError>
        requires { at ≤ length (on_pair side self.old) }
        ensures put { OnOk result (self.new
            ≡ with_side side (overwritten at bytes.now (on_pair side self.old)) self.old) }
        ensures same { OnErr result (self.new ≡ self.old) }
    {
        if side == 0 {
            self.first.put(at, bytes)
        } else {
            self.second.put(at, bytes)
        }
    }

    /// What lies on the side.
    pub(crate) fn on(&self, side: u8) -> &Content
        ensures { result.now ≡ on_pair side self.now }
    {
        if side == 0 { &self.first } else { &self.second }
    }
}
