//! What an image may serve for.
ghost use Rattle.std.specs.Prelude.{List, ℕ, Some, None};
ghost use Rattle.checkpoint.specs.Halves.{HasPair, layout_of};
ghost use Rattle.campaign_core.specs.Standing.{IsWithin};
ghost use Rattle.campaign_core.specs.declared.events.MasterEvent.{MasterEvent as an_event};
ghost use Rattle.campaign_core.specs.declared.fold.Fold.{Fold as a_fold};
ghost use Rattle.event_log.specs.declared.log.Log.{Log as a_log};
ghost use Rattle.decision_log.specs.Known.{IsBeforeOrAfter, IsKnown, IsOf};
ghost use Rattle.decision_log.specs.Left.{MayOpen};

use disk_core::Disk;

/// A law: from an image that stands for a fold with no more campaigns than a master keeps a list can be opened, so from
/// each that a crash within an `add` or a `revive` may leave.
pub fn an_image_of_a_fold_can_be_opened()
    ensures size { (fold : a_fold) (image : List ℕ) → IsOf fold image
        → HasPair (layout_of 0) image }
    ensures may { (fold : a_fold) (image : List ℕ) → IsWithin fold → IsOf fold image
        → MayOpen image }
{}

/// A law: from each image that a crash may leave between two calls a list can be opened, and it stands for the fold, or
/// where an event is pending for the fold before it or after it. So one can be from what a crash within a call leaves.
pub fn a_known_list_can_be_opened<D: Disk>()
    ensures known { (log : a_log) (fold : a_fold) (disk : D) (image : List ℕ)
        → IsKnown log fold None (D.seen disk) (D.images disk) → D.images disk image
        → MayOpen image × IsOf fold image }
    ensures pending { (log : a_log) (fold : a_fold) (event : an_event) (disk : D)
        (image : List ℕ) → IsKnown log fold (Some event) (D.seen disk) (D.images disk)
        → D.images disk image → MayOpen image × IsBeforeOrAfter fold event image }
    ensures moment { (fold : a_fold) (event : an_event) (image : List ℕ) → IsWithin fold
        → IsBeforeOrAfter fold event image → MayOpen image }
{}
