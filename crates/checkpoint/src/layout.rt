//! Where the parts of a half lie.
ghost use Rattle.std.specs.Prelude.{◌≡◌, ◌+◌, ◌<◌, ◌≤◌, ◌^◌, ℕ, List};
ghost use Rattle.disk_area.specs.Windows.{IsInside};
ghost use Rattle.checkpoint.specs.Halves as halves;

use disk_area::Area;

/// A pair of halves: where they begin, and how long their parts are, in bytes.
#[derive(Clone, Copy, Debug, PartialEq, Eq, Drop)]
pub struct Layout {
    /// The number of the lower half; the other one has the next.
    pub low: u8,
    /// Where the lower half begins.
    pub lower: u64,
    /// Where the other one begins.
    pub upper: u64,
    /// Where the journal begins in a half.
    pub journal_at: u64,
    /// The bytes of a half's journal.
    pub journal_len: u64,
    /// The most bytes of a state.
    pub state_max: u64,
}

/// The layout of a half: of halves 0 and 1, or of halves 2 and 3.
#[tactic(auto, unfolding(crate::specs::Halves::layout_of))]
pub fn layout_of(half: u8) -> Layout
    ensures layout { result ≡ halves.layout_of half }
    ensures order { result.lower ≤ result.upper }
    ensures ends { result.upper + result.journal_at + result.journal_len < 2 ^ 62 }
{
    if half < 2 {
        Layout {
            low: 0,
            lower: 0,
            upper: 2_097_152,
            journal_at: 262_144,
            journal_len: 1_835_008,
            state_max: 131_072,
        }
    } else {
        Layout {
            low: 2,
            lower: 50_331_648,
            upper: 58_720_256,
            journal_at: 1_048_576,
            journal_len: 7_340_032,
            state_max: 524_288,
        }
    }
}

/// The other half of the pair.
#[tactic(auto, unfolding(crate::specs::Halves::other))]
pub fn other(half: u8) -> u8
    requires { half < 4 }
    ensures { result ≡ halves.other half }
{
    let low = layout_of(half).low;
    if half == low { low + 1 } else { low }
}

/// Where a half begins.
#[tactic(auto, unfolding(crate::specs::Halves::begins))]
fn begins(half: u8) -> u64
    ensures place { result ≡ halves.begins half }
    ensures ends { result + (halves.layout_of half).journal_at < 2 ^ 62 }
{
    let layout = layout_of(half);
    if half == layout.low {
        layout.lower
    } else {
        layout.upper
    }
}

/// The gate, the body and the journal's first byte of a half.
#[tactic(auto, using(crate::proofs::Places::sound))]
pub(crate) fn head_area(half: u8) -> Area
    requires { half < 4 }
    ensures area { result ≡ halves.head_area half }
    ensures long { 13 + (halves.layout_of half).state_max < result.len }
    ensures inside { (bytes : List ℕ) → halves.HasHalf half bytes → IsInside result bytes }
{
    Area::of(begins(half), layout_of(half).journal_at + 1)
}

/// The journal of a half.
pub fn journal_area(half: u8) -> Area
    requires { half < 4 }
    ensures { result ≡ halves.journal_area half }
{
    let layout = layout_of(half);
    Area::of(begins(half) + layout.journal_at, layout.journal_len)
}
