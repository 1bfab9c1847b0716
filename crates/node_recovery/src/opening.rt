//! Finding the state that a disk stands for.
ghost use Rattle.std.specs.Prelude.{◌≡◌, Some, None, IfOk, OnOk, IsErrOf};
ghost use Rattle.disk_core.specs.Images.{EachImage, Only, Within};
ghost use Rattle.disk_core.specs.Moments.{LeavesOnly};
ghost use Rattle.disk_core.specs.Served.{IsServed};
ghost use Rattle.checkpoint.specs.Halves.{HasPair, layout_of};
ghost use Rattle.event_log.specs.Meaning.{current};
ghost use Rattle.event_log.specs.Holds.{Holds};
ghost use Rattle.event_codec.specs.DecidingStates.{state_told};
ghost use Rattle.node_recovery.specs.Images.{CanRecover, after_bytes, stored_in};

use crate::fold::folded;
use crate::present::Present;
use checkpoint::StoreError;
use disk_core::Disk;
use event_log::{Found as Text, Log, open};
use pm_types::State;
use std::alloc::{AllocError, Global};

/// Why no state was found.
#[derive(Clone, Copy, Debug, PartialEq, Eq, Drop)]
pub enum OpenError {
    /// The disk failed; its count of faults rose in this call.
    Failed,
    /// Neither half reads.
    Unformatted,
    OutOfMemory,
}

impl From<StoreError> for OpenError {
    ghost use Rattle.std.specs.Prelude.{◌≡◌};
    ghost use Rattle.node_recovery.specs.Errors.{error_of};

    ghost from_gives = { λ fault e. e ≡ error_of fault };

    fn from(fault: StoreError) -> OpenError {
        match fault {
            StoreError::Failed => OpenError::Failed,
            StoreError::OutOfMemory => OpenError::OutOfMemory,
        }
    }
}

impl From<AllocError> for OpenError {
    ghost use Rattle.std.specs.Prelude.{◌≡◌};
    ghost use Rattle.node_recovery.specs.declared.opening.OpenError.TheVariants.{OutOfMemory};

    ghost from_gives = { λ _ e. e ≡ OutOfMemory };

    fn from(_refused: AllocError) -> OpenError {
        OpenError::OutOfMemory
    }
}

/// What a disk stands for: where its log goes on, and the stored state.
#[derive(Drop)]
pub struct Found {
    pub log: Log,
    pub state: State,
}

/// Finds the state that a disk stands for, with the records folded in and without contents. Begins with a sync.
/// `Unformatted` exactly where neither half 2 nor half 3 reads. It takes time for each record, and none for the rest of
/// the journal.
pub fn recover<D: Disk>(alloc: Global, disk: &mut D) -> Result<Found, OpenError>
    requires size { HasPair (layout_of 2) (D.seen disk.old) }
    requires can { CanRecover (D.seen disk.old) }
    ensures found { IfOk result (λ found. stored_in (D.seen disk.old) ≡ Some found.state) }
    ensures holds { IfOk result (λ found. EachImage (D.images disk.new)
        (Holds state_told after_bytes found.log (Some found.state))) }
    ensures pair { IfOk result (λ found. layout_of found.log.half ≡ layout_of 2) }
    ensures unformatted { IsErrOf result OpenError.Unformatted
        → current state_told (layout_of 2) (D.seen disk.old) ≡ None }
    ensures formatted { OnOk result
        (current state_told (layout_of 2) (D.seen disk.old) ≡ None → ⊥) }
    ensures reads { D.seen disk.new ≡ D.seen disk.old }
    ensures durable { OnOk result (Only (D.seen disk.new) (D.images disk.new)) }

    // It writes nothing: a crash at any moment of the call leaves what one might have left before.
    ensures images { Within (D.images disk.old) (D.images disk.new) }
    ensures any_moment { LeavesOnly D.moment D.left_since disk.old disk.new (D.images disk.old) }
    ensures served { IsServed D.seen D.fault_count D.armed (IsErrOf result OpenError.Failed)
        disk.old disk.new }
{
    let Some(found) = open::<D, Present>(alloc, disk, 2)? else {
        return Err(OpenError::Unformatted);
    };
    let Text { log, text, records } = found;
    let state = folded(alloc, &text, records.as_slice())?;
    Ok(Found { log, state })
}
