//! What a store above extents builds on.
ghost use Rattle.std.specs.Prelude.{◌≡◌, ◌≢◌, ◌⊎◌, ◌+◌, ◌≤◌, ℕ, List, length};
ghost use Rattle.std.specs.List.{AllByRecursion};
ghost use Rattle.disk_core.specs.Bytes.{Torn};
ghost use Rattle.disk_core.specs.Images.{EachImage, From, Only};
ghost use Rattle.disk_core.specs.Moments.{LeavesOnly};
ghost use Rattle.disk_area.specs.Windows.{InArea};
ghost use Rattle.transfer_blocks.specs.declared.area.Area.{Area as an_area};
ghost use Rattle.ucm_base.specs.Limits.{package_limit};
ghost use Rattle.transfer_blocks.specs.Areas.{IsArea, content_of, LeavesOutside};
ghost use Rattle.transfer_blocks.specs.Steps.{Step, Ran, IsDone, HasNoFault};
ghost use Rattle.slot_store.specs.Extents.{node_places, node_end, extent_in, held_in, HasExtents};
ghost use Rattle.slot_store.specs.Leaves.{TornBy, Wrote, IsOnArea};
ghost use Rattle.slot_store.specs.declared.extents.Extents.{Extents as some_extents};

use crate::extents::Extents;
use disk_core::Disk;
use transfer_blocks::Staging;

/// A law: extents lie apart, behind a node's halves and within its disk, and an area holds the whole of its own; what
/// is torn in one leaves all that lies outside of its range, of this area and of the others; what is torn before the
/// extents leaves each area.
pub fn extents_lie_apart()
    ensures apart { (area other : an_area) → IsArea area → IsArea other → other ≢ area
        → let a = extent_in node_places area in let b = extent_in node_places other in
        (b.at + b.len ≤ a.at) ⊎ (a.at + a.len ≤ b.at) }
    ensures behind { (area : an_area) → IsArea area
        → node_places.slots ≤ (extent_in node_places area).at }
    ensures within { (area : an_area) → IsArea area
        → let a = extent_in node_places area in a.at + a.len ≤ node_end }
    ensures whole { (area : an_area) (image : List ℕ) → IsArea area → HasExtents node_places image
        → length (content_of area (held_in node_places image)) ≡ package_limit }
    ensures spared { (area : an_area) (at n : ℕ) (old new : List ℕ) → IsArea area
        → InArea (extent_in node_places area) (Torn at n) old new
        → LeavesOutside area at n (held_in node_places old) (held_in node_places new) }
    ensures before { (at n : ℕ) (old new : List ℕ) → at + n ≤ node_places.slots → Torn at n old new
        → held_in node_places new ≡ held_in node_places old }
{}

/// A law, on calls of extents one after another: a crash at any moment leaves what they may have torn; where each
/// succeeded the areas hold what they put; where none met a fault nothing is pending, if nothing was before.
pub fn runs_leave_what_they_put<D: Disk>()
    ensures any_moment { (steps : List Step) (old new : some_extents D)
        → Ran ⟦<Extents<D> as Staging>⟧.obeys steps old new
        → LeavesOnly D.moment D.left_since old.disk new.disk
        (From (D.images old.disk) (TornBy node_places steps)) }
    ensures put { (steps : List Step) (old new : some_extents D)
        → Ran ⟦<Extents<D> as Staging>⟧.obeys steps old new
        → AllByRecursion IsDone steps → AllByRecursion IsOnArea steps
        → EachImage (D.images new.disk) (From (D.images old.disk) (Wrote node_places steps)) }
    ensures durable { (steps : List Step) (old new : some_extents D)
        → Ran ⟦<Extents<D> as Staging>⟧.obeys steps old new → AllByRecursion HasNoFault steps
        → Only (D.seen old.disk) (D.images old.disk)
        → Only (D.seen new.disk) (D.images new.disk) }
    ensures plan { (steps : List Step) (old new : some_extents D)
        → Ran ⟦<Extents<D> as Staging>⟧.obeys steps old new
        → D.armed new.disk ≡ D.armed old.disk }
{}
