//! A leaf of the table of pages.
ghost use Rattle.std.specs.Prelude.{◌≡◌, replicate, None, vec_len};

use crate::page::{BlankPage, Page};
use crate::slots::{copy_page, page_or_blank};
use std::alloc::{AllocError, Global};

/// How many pages a leaf has.
pub const LEAF: usize = 512;

/// The pages of 2,097,152 bytes, of which only those exist that were written.
#[derive(Drop)]
pub struct Leaf {
    pub pages: Vec<Option<Page>>,
    ghost full: { vec_len pages ≡ 512 },
}

/// A leaf without a page.
#[derive(Drop)]
pub struct BlankLeaf {
    pub pages: Vec<Option<Page>>,
    ghost blank: { pages.items ≡ replicate 512 None },
}

impl BlankLeaf {
    pub fn new(alloc: Global) -> Result<BlankLeaf, AllocError> {
        let mut pages = Vec::with_capacity(alloc, LEAF)?;
        for _page in 0..LEAF {
            pages.push(None)?;
        }
        Ok(BlankLeaf { pages })
    }

    pub fn into_leaf(self) -> Leaf
        ensures { result.pages.items ≡ replicate 512 None }
    {
        let BlankLeaf { pages } = self;
        Leaf { pages }
    }
}

impl Leaf {
    ghost use Rattle.std.specs.Prelude.{◌+◌, ◌*◌, ◌-◌, ◌≤◌, ◌<◌, ◌++◌, length, slice_range, vec_capacity, OnOk, OnErr};
    ghost use Rattle.disk_core.specs.Bytes.{put_at};
    ghost use Rattle.disk_mem.specs.Pages.{page_bytes, content};

    /// Puts the piece into the page of this index, at `from` in it.
    pub fn put(&mut self, index: usize, from: usize, piece: &[u8], spare: &mut Vec<BlankPage>)
        requires inside { index < 512 }
        requires within { from + length piece.now ≤ 4096 }
        requires stock { 0 < vec_len spare.old }
        ensures bytes { content page_bytes self.new.pages.items
            ≡ put_at (content page_bytes self.old.pages.items) (4096 * index + from) piece.now }
        ensures spare { vec_len spare.old ≤ vec_len spare.new + 1 }
    {
        let slot = self.pages[index].take();
        let mut page = page_or_blank(slot, spare);
        page.put(from, piece);
        self.pages[index] = Some(page);
    }

    /// Adds the bytes from `from` to `to` of the page of this index to `out`.
    pub fn copy(
        &self,
        index: usize,
        from: usize,
        to: usize,
        out: &mut Vec<u8>,
    ) -> Result<(), AllocError>
        requires inside { index < 512 }
        requires order { from ≤ to }
        requires within { to ≤ 4096 }
        ensures bytes { OnOk result (out.new.items ≡ out.old.items
            ++ slice_range (content page_bytes self.now.pages.items)
            (4096 * index + from) (4096 * index + to)) }
        ensures len { OnOk result (vec_len out.new ≡ vec_len out.old + (to - from)) }
        ensures capacity { vec_capacity out.old ≤ vec_capacity out.new }
        ensures full { OnErr result (vec_capacity out.old < vec_len out.old + (to - from)) }
    {
        copy_page(&self.pages[index], from, to, out)
    }
}
