//! A page of a disk.
ghost use Rattle.std.specs.Prelude.{◌≡◌, ◌+◌, ◌≤◌, length, replicate, vec_len};
ghost use Rattle.disk_core.specs.Bytes.{put_at};

use std::alloc::{AllocError, Global};

/// How many bytes a page has.
pub const PAGE: usize = 4096;

/// A page that was written.
#[derive(Drop)]
pub struct Page {
    pub bytes: Vec<u8>,
    ghost full: { vec_len bytes ≡ 4096 },
}

/// A page of zeros.
#[derive(Drop)]
pub struct BlankPage {
    pub bytes: Vec<u8>,
    ghost blank: { bytes.items ≡ replicate 4096 0 },
}

impl BlankPage {
    pub fn new(alloc: Global) -> Result<BlankPage, AllocError> {
        let bytes = vec![in alloc; 0u8; PAGE]?;
        Ok(BlankPage { bytes })
    }

    pub fn into_page(self) -> Page
        ensures { result.bytes.items ≡ replicate 4096 0 }
    {
        let BlankPage { bytes } = self;
        Page { bytes }
    }
}

impl Page {
    pub fn put(&mut self, from: usize, piece: &[u8])
        requires { from + length piece.now ≤ 4096 }
        ensures { self.new.bytes.items ≡ put_at self.old.bytes.items from piece.now }
    {
        put(&mut self.bytes, from, piece);
    }
}

fn put(bytes: &mut [u8], at: usize, piece: &[u8])
    requires { at + length piece.now ≤ length bytes.old }
    ensures { bytes.new ≡ put_at bytes.old at piece.now }
{
    bytes[at..at + piece.len()].copy_from_slice(piece);
}
