//! Records and states that bytes are, from the first to the last.
ghost use Rattle.std.specs.Prelude.{◌≡◌, ◌≤◌, ◌↔◌, List, ℕ, IfOk, MatchOption, Some, length};
ghost use Rattle.ucm_base.specs.Limits.{campaign_limit};
ghost use Rattle.pm_types.specs.Stored.{State as AnyState};
ghost use Rattle.event_codec.specs.Spelling.{IsNone, IsUnique};
ghost use Rattle.event_codec.specs.Records.{record_spelled, RecordFits};
ghost use Rattle.event_codec.specs.States.{state_spelled, StateFits};
ghost use Rattle.event_codec.specs.Master.{EventFits, FoldFits, event_longest, event_spelled, fold_longest, fold_spelled};
ghost use Rattle.event_codec.specs.UniqueMaster.{unique-event, unique-fold};
ghost use Rattle.event_codec.specs.DecidingMaster.{event_of, fold_of};
ghost use Rattle.event_codec.specs.DecidingRecords.{record_told};
ghost use Rattle.event_codec.specs.DecidingStates.{state_told};
ghost use Rattle.event_codec.specs.declared.records.Record.{Record as AnyRecord};
ghost use Rattle.campaign_core.specs.declared.events.MasterEvent.{MasterEvent};
ghost use Rattle.campaign_core.specs.declared.fold.Fold.{Fold};
ghost use Rattle.event_codec.specs.UniqueRecords.{unique-record};
ghost use Rattle.event_codec.specs.UniqueStates.{unique-state};

use crate::Record;
use crate::taking::{Take, Unread};
use campaign_core::{Fold, MasterEvent};
use pm_types::State;
use std::alloc::{AllocError, Global};

/// The value that the bytes are the spelling of, if they are one.
fn take_whole<T: Take>(alloc: Global, bytes: &[u8]) -> Result<Option<T>, AllocError>
    ensures { IfOk result (λ o. MatchOption o (IsNone T.spelled T.fits bytes.now)
        (λ v. T.fits v × (bytes.now ≡ T.spelled v))) }
{
    match T::take(alloc, bytes) {
        Ok((value, rest)) => {
            if rest.is_empty() {
                Ok(Some(value))
            } else {
                Ok(None)
            }
        }
        Err(Unread::Outside) => Ok(None),
        Err(Unread::OutOfMemory) => Err(AllocError),
    }
}

/// The record that the bytes are the spelling of, if they are one.
pub fn take_record(alloc: Global, bytes: &[u8]) -> Result<Option<Record>, AllocError>
    ensures exactly { IfOk result (λ o. MatchOption o (IsNone record_spelled RecordFits bytes.now)
        (λ r. RecordFits r × (bytes.now ≡ record_spelled r))) }
    ensures read { IfOk result (λ o. o ≡ record_told bytes.now) }
{
    take_whole(alloc, bytes)
}

/// The state that the bytes are the spelling of, if they are one.
pub fn take_state(alloc: Global, bytes: &[u8]) -> Result<Option<State>, AllocError>
    ensures exactly { IfOk result (λ o. MatchOption o (IsNone state_spelled StateFits bytes.now)
        (λ s. StateFits s × (bytes.now ≡ state_spelled s))) }
    ensures read { IfOk result (λ o. o ≡ state_told bytes.now) }
{
    take_whole(alloc, bytes)
}

/// The event of the master that the bytes are the spelling of, if they are one.
pub fn take_event(alloc: Global, bytes: &[u8]) -> Result<Option<MasterEvent>, AllocError>
    ensures exactly { IfOk result (λ o. MatchOption o (IsNone event_spelled EventFits bytes.now)
        (λ e. EventFits e × (bytes.now ≡ event_spelled e))) }
    ensures read { IfOk result (λ o. o ≡ event_of bytes.now) }
{
    take_whole(alloc, bytes)
}

/// What the master's list says by the bytes, if they are a spelling of it.
pub fn take_fold(alloc: Global, bytes: &[u8]) -> Result<Option<Fold>, AllocError>
    ensures exactly { IfOk result (λ o. MatchOption o (IsNone fold_spelled FoldFits bytes.now)
        (λ f. FoldFits f × (bytes.now ≡ fold_spelled f))) }
    ensures read { IfOk result (λ o. o ≡ fold_of bytes.now) }
{
    take_whole(alloc, bytes)
}

/// Bytes that begin with the spelling of a record, an event or a state begin with no other's, so what is put is what is
/// taken back. It does nothing; its clauses are the law, over any lists of numbers.
pub fn no_spelling_begins_another()
    ensures records { IsUnique record_spelled RecordFits }
    ensures states { IsUnique state_spelled StateFits }
    ensures events { IsUnique event_spelled EventFits }
    ensures folds { IsUnique fold_spelled FoldFits }
{}

/// What any list of numbers is read as: the record, the state, the event or the fold that it is the spelling of, and
/// none where it is no value's. It does nothing; its clauses are the law.
pub fn what_is_spelled_is_read()
    ensures records { (bytes : List ℕ) (r : AnyRecord)
        → (record_told bytes ≡ Some r) ↔ (RecordFits r × (bytes ≡ record_spelled r)) }
    ensures states { (bytes : List ℕ) (state : AnyState)
        → (state_told bytes ≡ Some state) ↔ (StateFits state × (bytes ≡ state_spelled state)) }
    ensures events { (bytes : List ℕ) (event : MasterEvent)
        → (event_of bytes ≡ Some event) ↔ (EventFits event × (bytes ≡ event_spelled event)) }
    ensures folds { (bytes : List ℕ) (fold : Fold)
        → (fold_of bytes ≡ Some fold) ↔ (FoldFits fold × (bytes ≡ fold_spelled fold)) }
{}

/// How long the spellings of the master's values are at most, where no more campaigns than a master keeps were entered.
/// It does nothing; its clauses are the law.
pub fn spellings_of_the_master_are_short()
    ensures events { (event : MasterEvent) → EventFits event
        → length (event_spelled event) ≤ event_longest }
    ensures folds { (fold : Fold) → FoldFits fold → length fold.earlier ≤ campaign_limit
        → length (fold_spelled fold) ≤ fold_longest }
{}
