//! What a restart makes of what was written since the last sync.
ghost use Rattle.std.specs.Prelude.{◌≡◌, ◌+◌, ◌*◌, ◌/◌, ◌≤◌, ◌++◌, [], length, replicate, vec_len, vec_capacity, IsOk};
ghost use Rattle.disk_mem.specs.Tears.{ranges_kept, bytes_kept, total, AllWithin, mended, more};

use crate::pages::Pages;
use std::alloc::AllocError;

/// What each range that was written since the last sync that succeeded holds after a restart. All three are images of
/// the disk model.
#[derive(Clone, Copy, Debug, PartialEq, Eq, Drop)]
pub enum Tear {
    /// What was kept of it.
    Keep,
    /// What it held at that sync.
    Old,
    /// The byte 1 at every place.
    Ones,
}

impl Tear {
    /// What a restart needs of n things that writes need: none where it leaves the bytes.
    pub(crate) fn more(self, n: usize) -> usize
        ensures { result ≡ more self n }
    {
        match self {
            Tear::Keep => 0,
            Tear::Old | Tear::Ones => n,
        }
    }
}

/// Keeps of a write that comes the range and the bytes that a restart puts there.
pub fn note(
    tear: Tear,
    pages: &Pages,
    at: u64,
    len: usize,
    ranges: &mut Vec<(u64, u64)>,
    bytes: &mut Vec<u8>,
)
    requires range { at + len ≤ length pages.now.bytes }
    requires ranges { vec_len ranges.old + more tear 1 ≤ vec_capacity ranges.old }
    requires bytes { vec_len bytes.old + more tear len ≤ vec_capacity bytes.old }
    ensures ranges { ranges.new.items ≡ ranges.old.items ++ ranges_kept tear at len }
    ensures bytes { bytes.new.items ≡ bytes.old.items ++ bytes_kept tear pages.now.bytes at len }
    ensures ranges_len { vec_len ranges.new ≡ vec_len ranges.old + more tear 1 }
    ensures bytes_len { vec_len bytes.new ≡ vec_len bytes.old + more tear len }
    ensures ranges_capacity { vec_capacity ranges.old ≤ vec_capacity ranges.new }
    ensures bytes_capacity { vec_capacity bytes.old ≤ vec_capacity bytes.new }
{
    let added = match tear {
        Tear::Keep => return,
        Tear::Old => pages.copy(at, len, bytes),
        Tear::Ones => add_ones(bytes, len),
    };
    let Ok(()) = added else { unreachable!() };
    ranges.push_reserved((at, len as u64));
}

/// Adds so many bytes of 1.
fn add_ones(bytes: &mut Vec<u8>, count: usize) -> Result<(), AllocError>
    requires { vec_len bytes.old + count ≤ vec_capacity bytes.old }
    ensures bytes { bytes.new.items ≡ bytes.old.items ++ replicate count 1 }
    ensures len { vec_len bytes.new ≡ vec_len bytes.old + count }
    ensures capacity { vec_capacity bytes.old ≤ vec_capacity bytes.new }
    ensures ok { IsOk result }
{
    let len = bytes.len() + count;
    bytes.resize(len, 1)
}

/// Puts the kept bytes into their ranges, the newest first, and keeps none.
pub fn mend(pages: &mut Pages, ranges: &mut Vec<(u64, u64)>, bytes: &mut Vec<u8>)
    requires all { total ranges.old.items ≡ length bytes.old.items }
    requires within { AllWithin (length pages.old.bytes) ranges.old.items }
    requires pages { 2 * vec_len ranges.old + vec_len bytes.old / 4096 ≤ pages.old.spare }
    requires leaves { 2 * vec_len ranges.old + vec_len bytes.old / 2097152 ≤ pages.old.leaves }
    ensures mended { pages.new.bytes
        ≡ mended ranges.old.items bytes.old.items pages.old.bytes }
    ensures ranges { ranges.new.items ≡ [] }
    ensures bytes { bytes.new.items ≡ [] }
    ensures ranges_len { vec_len ranges.new ≡ 0 }
    ensures bytes_len { vec_len bytes.new ≡ 0 }
    ensures pages { pages.old.spare
        ≤ pages.new.spare + (2 * vec_len ranges.old + vec_len bytes.old / 4096) }
    ensures leaves { pages.old.leaves
        ≤ pages.new.leaves + (2 * vec_len ranges.old + vec_len bytes.old / 2097152) }
    ensures ranges_capacity { vec_capacity ranges.new ≡ vec_capacity ranges.old }
    ensures bytes_capacity { vec_capacity bytes.new ≡ vec_capacity bytes.old }
{
    while let Some((at, len)) = ranges.pop() {
        let rest = bytes.len() - len as usize;
        pages.write(at, &bytes[rest..]);
        bytes.truncate(rest);
    }
}
