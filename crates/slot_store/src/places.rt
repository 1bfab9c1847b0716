//! Where the extents lie.
ghost use Rattle.std.specs.Prelude.{◌≡◌, ◌≤◌, length};
ghost use Rattle.transfer_blocks.specs.Areas.{IsArea};
ghost use Rattle.slot_store.specs.Extents.{node_places, extent_in};

use disk_area::Area as Window;
use transfer_blocks::Area;

/// Where the extents of a disk begin, and how long each is, in bytes: those of the transfers' slots behind one another,
/// and those of the clusters' sides, the two of a place together.
#[derive(Clone, Copy, Debug, PartialEq, Eq, Drop)]
pub struct Places {
    pub slots: u64,
    pub sides: u64,
    pub len: u64,
}

impl Places {
    /// The places on a node's disk, behind its halves; the last extent ends at 2,348,810,240 bytes.
    pub fn of_node() -> Places
        ensures { result ≡ node_places }
    {
        Places {
            slots: 67_108_864,
            sides: 201_326_592,
            len: 16_777_216,
        }
    }
}

/// The extent of an area of a node.
pub fn extent(area: Area) -> Window
    requires { IsArea area }
    ensures { result ≡ extent_in node_places area }
{
    let places = Places::of_node();
    let at = match area {
        Area::Transfer { slot } => places.slots + slot as u64 * places.len,
        Area::Side { place, side } => {
            places.sides + (2 * place as u64 + side as u64) * places.len
        }
    };
    Window::of(at, places.len)
}
