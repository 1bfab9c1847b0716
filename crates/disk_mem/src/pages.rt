//! Bytes kept in pages, of which only those exist that were written.
ghost use Rattle.std.specs.Prelude.{◌≡◌, ◌+◌, ◌*◌, ◌-◌, ◌/◌, ◌≤◌, ◌<◌, ◌++◌, ℕ, Bool, true, false, List, length, replicate, slice_range, slice_index_or, None, Some, IfOk, OnOk, OnErr, vec_len, vec_capacity};
ghost use Rattle.disk_core.specs.Bytes.{put_at};
ghost use Rattle.disk_mem.specs.Pages.{pages_for, leaves_for, IsMade};

use crate::leaf::{BlankLeaf, LEAF, Leaf};
use crate::page::{BlankPage, PAGE};
use crate::slots::{add_zeros, copy_leaf, leaf_or_blank};
use std::alloc::{AllocError, Global};
use std::marker::Model;

/// How many bytes a leaf has.
pub const LEAF_BYTES: usize = 2_097_152;

/// A fixed number of bytes. Pages, and the leaves of the table that names them, are made in `stock`, and taken from
/// there by the first write to them. Until the first stock there is no table.
#[derive(Drop)]
pub struct Pages {
    size: u64,
    table: Vec<Option<Leaf>>,
    spare: Vec<BlankPage>,
    leaves: Vec<BlankLeaf>,
}

impl Model for Pages {
    ghost use Rattle.std.specs.Prelude.{◌*◌, ◌≤◌, ◌<◌, vec_len};
    ghost use Rattle.disk_mem.specs.Pages.{Paged, shown, made_of};

    ghost Value = { Paged };

    ghost view = { λ p. record {
      bytes = shown p.size p.table.items;
      spare = vec_len p.spare;
      leaves = vec_len p.leaves;
      made = made_of p.table.items;
    } };

    ghost invariant = { λ p. 0 < vec_len p.leaves → p.size ≤ 2097152 * vec_len p.table };
}

impl Pages {
    /// `size` zeros, for which nothing is made yet.
    pub fn new(alloc: Global, size: u64) -> Pages
        ensures { result.bytes ≡ replicate size 0 }
    {
        Pages {
            size,
            table: Vec::new(alloc),
            spare: Vec::new(alloc),
            leaves: Vec::new(alloc),
        }
    }

    pub fn size(&self) -> u64
        ensures { result ≡ length self.now.bytes }
    {
        self.size
    }

    /// Makes pages and leaves until there are at least so many in stock.
    pub fn stock(&mut self, alloc: Global, pages: usize, leaves: usize) -> Result<(), AllocError>
        ensures pages { OnOk result (pages ≤ self.new.spare) }
        ensures leaves { OnOk result (leaves ≤ self.new.leaves) }
        ensures kept_pages { self.old.spare ≤ self.new.spare }
        ensures kept_leaves { self.old.leaves ≤ self.new.leaves }
        ensures bytes { self.new.bytes ≡ self.old.bytes }
    {
        lengthen(&mut self.table, self.size as usize / LEAF_BYTES + 1)?;
        stock_pages(alloc, &mut self.spare, pages)?;
        stock_leaves(alloc, &mut self.leaves, leaves)
    }

    /// The `len` bytes from `at` on.
    pub fn read(&self, alloc: Global, at: u64, len: usize) -> Result<Vec<u8>, AllocError>
        requires { at + len ≤ length self.now.bytes }
        ensures { IfOk result (λ v. v.items ≡ slice_range self.now.bytes at (at + len)) }
    {
        let mut out = Vec::with_capacity(alloc, len)?;
        self.copy(at, len, &mut out)?;
        Ok(out)
    }

    /// Adds the `len` bytes from `at` on to `out`.
    pub fn copy(&self, at: u64, len: usize, out: &mut Vec<u8>) -> Result<(), AllocError>
        requires { at + len ≤ length self.now.bytes }
        ensures bytes { OnOk result
            (out.new.items ≡ out.old.items ++ slice_range self.now.bytes at (at + len)) }
        ensures capacity { vec_capacity out.old ≤ vec_capacity out.new }
        ensures full { OnErr result (vec_capacity out.old < vec_len out.old + len) }
    {
        if len == 0 {
            return Ok(());
        }
        // A size is a u64, so the end of the range is one too.
        let _size = self.size();
        let start = at as usize;
        let end = start + len;
        for index in start / PAGE..(end - 1) / PAGE + 1 {
            let first = index * PAGE;
            let from = start.max(first) - first;
            let to = (end - first).min(PAGE);
            self.copy_page(index, from, to, out)?;
        }
        Ok(())
    }

    /// Adds the bytes from `from` to `to` of the page of this index to `out`.
    fn copy_page(
        &self,
        index: usize,
        from: usize,
        to: usize,
        out: &mut Vec<u8>,
    ) -> Result<(), AllocError>
        requires order { from ≤ to }
        requires within { to ≤ 4096 }
        requires range { 4096 * index + to ≤ length self.now.bytes }
        ensures bytes { OnOk result (out.new.items ≡ out.old.items
            ++ slice_range self.now.bytes (4096 * index + from) (4096 * index + to)) }
        ensures len { OnOk result (vec_len out.new ≡ vec_len out.old + (to - from)) }
        ensures capacity { vec_capacity out.old ≤ vec_capacity out.new }
        ensures full { OnErr result (vec_capacity out.old < vec_len out.old + (to - from)) }
    {
        match self.table.get(index / LEAF) {
            Some(leaf) => copy_leaf(leaf, index % LEAF, from, to, out),
            None => add_zeros(out, to - from),
        }
    }

    /// Puts the piece at `at`, into pages that are there or that the stock has.
    pub fn write(&mut self, at: u64, piece: &[u8])
        requires range { at + length piece.now ≤ length self.old.bytes }
        requires stock { pages_for (length piece.now) ≤ self.old.spare }
        requires leaves { leaves_for (length piece.now) ≤ self.old.leaves }
        ensures bytes { self.new.bytes ≡ put_at self.old.bytes at piece.now }
        ensures spare { self.old.spare ≤ self.new.spare + pages_for (length piece.now) }
        ensures leaves { self.old.leaves ≤ self.new.leaves + leaves_for (length piece.now) }
    {
        if piece.is_empty() {
            return;
        }
        // A size is a u64, so the end of the range is one too.
        let _size = self.size();
        let start = at as usize;
        let end = start + piece.len();
        self.make_leaves(start / LEAF_BYTES, (end - 1) / LEAF_BYTES + 1);
        for index in start / PAGE..(end - 1) / PAGE + 1 {
            let first = index * PAGE;
            let from = start.max(first) - first;
            let to = (end - first).min(PAGE);
            self.put(
                index,
                from,
                &piece[first + from - start..first + to - start],
            );
        }
    }

    /// Makes the leaves from `first` on up to `end`, where they aren't made yet.
    fn make_leaves(&mut self, first: usize, end: usize)
        requires order { first ≤ end }
        requires inside { (k : ℕ) → k < end → 2097152 * k < length self.old.bytes }
        requires stock { end ≤ first + self.old.leaves }
        ensures bytes { self.new.bytes ≡ self.old.bytes }
        ensures spare { self.new.spare ≡ self.old.spare }
        ensures leaves { self.old.leaves ≤ self.new.leaves + (end - first) }
        ensures made { (k : ℕ) → first ≤ k → k < end → IsMade k self.new }
    {
        for index in first..end {
            self.make_leaf(index);
        }
    }

    /// Makes the leaf of this index, where it isn't made yet.
    fn make_leaf(&mut self, index: usize)
        requires inside { 2097152 * index < length self.old.bytes }
        requires stock { 0 < self.old.leaves }
        ensures bytes { self.new.bytes ≡ self.old.bytes }
        ensures spare { self.new.spare ≡ self.old.spare }
        ensures leaves { self.old.leaves ≤ self.new.leaves + 1 }
        ensures made { IsMade index self.new }
        ensures kept { (k : ℕ) → IsMade k self.old → IsMade k self.new }
    {
        let slot = self.table[index].take();
        let leaf = leaf_or_blank(slot, &mut self.leaves);
        self.table[index] = Some(leaf);
    }

    /// Puts the piece into the page of this index, whose leaf is made, at `from` in it.
    fn put(&mut self, index: usize, from: usize, piece: &[u8])
        requires within { from + length piece.now ≤ 4096 }
        requires range { 4096 * index + from + length piece.now ≤ length self.old.bytes }
        requires leaf { IsMade (index / 512) self.old }
        requires stock { 0 < self.old.spare }
        ensures bytes { self.new.bytes ≡ put_at self.old.bytes (4096 * index + from) piece.now }
        ensures spare { self.old.spare ≤ self.new.spare + 1 }
        ensures leaves { self.new.leaves ≡ self.old.leaves }
        ensures kept { (k : ℕ) → IsMade k self.old → IsMade k self.new }
    {
        let Some(mut leaf) = self.table[index / LEAF].take() else {
            unreachable!()
        };
        leaf.put(index % LEAF, from, piece, &mut self.spare);
        self.table[index / LEAF] = Some(leaf);
    }
}

/// Gives the table at least so many places.
fn lengthen(table: &mut Vec<Option<Leaf>>, places: usize) -> Result<(), AllocError>
    ensures made { OnOk result (places ≤ vec_len table.new) }
    ensures kept { vec_len table.old ≤ vec_len table.new }
    ensures items { table.new.items
        ≡ table.old.items ++ replicate (vec_len table.new - vec_len table.old) None }
{
    for _place in table.len()..places {
        table.push(None)?;
    }
    Ok(())
}

fn stock_pages(alloc: Global, spare: &mut Vec<BlankPage>, pages: usize) -> Result<(), AllocError>
    ensures made { OnOk result (pages ≤ vec_len spare.new) }
    ensures kept { vec_len spare.old ≤ vec_len spare.new }
{
    for _page in spare.len()..pages {
        spare.push(BlankPage::new(alloc)?)?;
    }
    Ok(())
}

fn stock_leaves(alloc: Global, spare: &mut Vec<BlankLeaf>, leaves: usize) -> Result<(), AllocError>
    ensures made { OnOk result (leaves ≤ vec_len spare.new) }
    ensures kept { vec_len spare.old ≤ vec_len spare.new }
{
    for _leaf in spare.len()..leaves {
        spare.push(BlankLeaf::new(alloc)?)?;
    }
    Ok(())
}
