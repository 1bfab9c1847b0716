//! Places of the table: a leaf or a page, or none, which reads as zeros.
ghost use Rattle.std.specs.Prelude.{◌≡◌, ◌+◌, ◌*◌, ◌-◌, ◌≤◌, ◌<◌, ◌^◌, ◌++◌, Some, replicate, slice_range, vec_len, vec_capacity, OnOk, OnErr};
ghost use Rattle.disk_mem.specs.Pages.{page_bytes, leaf_bytes};

use crate::leaf::{BlankLeaf, Leaf};
use crate::page::{BlankPage, Page};
use std::alloc::AllocError;

/// Adds the bytes from `from` to `to` of a page to `out`; zeros where the page isn't made.
pub fn copy_page(
    page: &Option<Page>,
    from: usize,
    to: usize,
    out: &mut Vec<u8>,
) -> Result<(), AllocError>
    requires order { from ≤ to }
    requires within { to ≤ 4096 }
    ensures bytes { OnOk result
        (out.new.items ≡ out.old.items ++ slice_range (page_bytes page.now) from to) }
    ensures len { OnOk result (vec_len out.new ≡ vec_len out.old + (to - from)) }
    ensures capacity { vec_capacity out.old ≤ vec_capacity out.new }
    ensures full { OnErr result (vec_capacity out.old < vec_len out.old + (to - from)) }
{
    match page {
        Some(page) => out.extend_from_slice(&page.bytes[from..to]),
        None => add_zeros(out, to - from),
    }
}

/// Adds so many zeros.
pub fn add_zeros(out: &mut Vec<u8>, count: usize) -> Result<(), AllocError>
    requires { count < 2 ^ 62 }
    ensures bytes { OnOk result (out.new.items ≡ out.old.items ++ replicate count 0) }
    ensures len { OnOk result (vec_len out.new ≡ vec_len out.old + count) }
    ensures capacity { vec_capacity out.old ≤ vec_capacity out.new }
    ensures full { OnErr result (vec_capacity out.old < vec_len out.old + count) }
{
    let len = out.len() + count;
    out.resize(len, 0)
}

/// Adds the bytes from `from` to `to` of a page of the leaf to `out`; zeros where the leaf isn't made.
pub fn copy_leaf(
    leaf: &Option<Leaf>,
    index: usize,
    from: usize,
    to: usize,
    out: &mut Vec<u8>,
) -> Result<(), AllocError>
    requires inside { index < 512 }
    requires order { from ≤ to }
    requires within { to ≤ 4096 }
    ensures bytes { OnOk result (out.new.items ≡ out.old.items
        ++ slice_range (leaf_bytes leaf.now) (4096 * index + from) (4096 * index + to)) }
    ensures len { OnOk result (vec_len out.new ≡ vec_len out.old + (to - from)) }
    ensures capacity { vec_capacity out.old ≤ vec_capacity out.new }
    ensures full { OnErr result (vec_capacity out.old < vec_len out.old + (to - from)) }
{
    match leaf {
        Some(leaf) => leaf.copy(index, from, to, out),
        None => add_zeros(out, to - from),
    }
}

/// The page of this place of the table, or one from the stock where none is made yet.
pub fn page_or_blank(slot: Option<Page>, spare: &mut Vec<BlankPage>) -> Page
    requires { 0 < vec_len spare.old }
    ensures bytes { result.bytes.items ≡ page_bytes slot }
    ensures spare { vec_len spare.old ≤ vec_len spare.new + 1 }
{
    match slot {
        Some(page) => page,
        None => match spare.pop() {
            Some(blank) => blank.into_page(),
            None => unreachable!(),
        },
    }
}

/// The leaf of this place of the table, or one from the stock where none is made yet.
pub fn leaf_or_blank(slot: Option<Leaf>, spare: &mut Vec<BlankLeaf>) -> Leaf
    requires { 0 < vec_len spare.old }
    ensures bytes { leaf_bytes (Some result) ≡ leaf_bytes slot }
    ensures spare { vec_len spare.old ≤ vec_len spare.new + 1 }
{
    match slot {
        Some(leaf) => leaf,
        None => match spare.pop() {
            Some(blank) => blank.into_leaf(),
            None => unreachable!(),
        },
    }
}
