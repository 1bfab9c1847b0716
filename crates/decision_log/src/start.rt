//! Making and opening a list.
ghost use Rattle.std.specs.Prelude.{◌≡◌, ◌↔◌, ◌≤◌, ◌<◌, Some, None, length, IfOk, IfErr, MatchOption, OnErr};
ghost use Rattle.disk_core.specs.Images.{EachImage, Within};
ghost use Rattle.disk_core.specs.Moments.{LeavesOnly};
ghost use Rattle.fault_count.specs.Faults.{HasRisen};
ghost use Rattle.checkpoint.specs.Halves.{HasPair, half_of, layout_of};
ghost use Rattle.campaign_core.specs.Campaign.{nothing_yet};
ghost use Rattle.event_log.specs.Meaning.{current, meaning, state_of};
ghost use Rattle.event_codec.specs.DecidingMaster.{fold_of};
ghost use Rattle.decision_log.specs.Folds.{after_record};
ghost use Rattle.decision_log.specs.Known.{IsKnown};
ghost use Rattle.decision_log.specs.Left.{MayOpen};

use crate::fold::Present;
use crate::list::MasterLog;
use campaign_core::{Campaign, Fold};
use checkpoint::StoreError;
use disk_core::Disk;
use event_codec::{take_event, take_fold};
use event_log::{Found, Log, open};
use journal::Payload;
use std::alloc::{AllocError, Global};

/// Why a list wasn't opened.
#[derive(Clone, Copy, Debug, PartialEq, Eq, Drop)]
pub enum MasterOpenError {
    Failed,
    /// Neither half reads.
    Unformatted,
    OutOfMemory,
}

impl<D: Disk> MasterLog<D> {
    /// Writes an empty list to half 0 of a disk whose half 1 reads as nothing.
    pub fn format(alloc: Global, mut disk: D) -> Result<MasterLog<D>, (D, StoreError)>
        requires size { HasPair (layout_of 0) (D.seen disk) }
        requires other { EachImage (D.images disk) (λ image. half_of 1 image ≡ None) }
        ensures known { IfOk result (λ made. IsKnown made.log made.campaign.fold made.pending
            (D.seen made.disk) (D.images made.disk)) }
        ensures log { IfOk result
            (λ made. made.log ≡ record { half = 0; generation = 1; used = 0 }) }
        ensures fold { IfOk result (λ made. made.campaign.fold ≡ nothing_yet) }
        ensures open { IfOk result (λ made. made.pending ≡ None) }
        ensures count { IfOk result (λ made. made.count ≡ 0) }
        ensures faults { IfOk result
            (λ made. D.fault_count disk ≤ D.fault_count made.disk) }
        ensures plan { IfOk result (λ made. D.armed made.disk ≡ D.armed disk) }
        ensures other { IfErr result
            (λ e. EachImage (D.images e.0) (λ image. half_of 1 image ≡ None)) }
        ensures cause { IfErr result (λ e. e.1 ≡ StoreError.Failed
            → HasRisen (D.fault_count disk) (D.fault_count e.0)) }
        ensures same_plan { IfErr result (λ e. D.armed e.0 ≡ D.armed disk) }

        // So it may be called again.
        ensures same_size { IfErr result (λ e. length (D.seen e.0) ≡ length (D.seen disk)) }
        ensures no_fewer { IfErr result (λ e. D.fault_count disk ≤ D.fault_count e.0) }

        // At want of memory nothing was written.
        ensures memory_reads { IfErr result
            (λ e. e.1 ≡ StoreError.OutOfMemory → D.seen e.0 ≡ D.seen disk) }
        ensures memory_images { IfErr result
            (λ e. e.1 ≡ StoreError.OutOfMemory → Within (D.images disk) (D.images e.0)) }
    {
        let fold = Fold::empty(alloc);
        let made = Log::format(alloc, &mut disk, 0, &Present::of(&fold));
        match made {
            Ok(log) => Ok(MasterLog {
                disk,
                log,
                campaign: Campaign::at(fold),
                pending: None,
                count: 0,
            }),
            Err(fault) => Err((disk, fault)),
        }
    }

    /// Opens the list that a close or a crash has left. Begins with a sync.
    pub fn open(alloc: Global, mut disk: D) -> Result<MasterLog<D>, (D, MasterOpenError)>
        requires size { HasPair (layout_of 0) (D.seen disk) }
        requires left { MayOpen (D.seen disk) }
        ensures known { IfOk result (λ found. IsKnown found.log found.campaign.fold found.pending
            (D.seen found.disk) (D.images found.disk)) }
        ensures fold { IfOk result (λ found. Some found.campaign.fold
            ≡ meaning fold_of after_record (layout_of 0) (D.seen disk)) }
        ensures open { IfOk result (λ found. found.pending ≡ None) }
        ensures count { IfOk result (λ found. found.count ≡ 0) }
        ensures images { IfOk result (λ found. Within (D.images disk) (D.images found.disk)) }
        ensures reads { IfOk result (λ found. D.seen found.disk ≡ D.seen disk) }
        ensures faults { IfOk result
            (λ found. D.fault_count disk ≤ D.fault_count found.disk) }
        ensures plan { IfOk result (λ found. D.armed found.disk ≡ D.armed disk) }

        // It writes nothing: a crash at any moment of the call leaves what one might have left before.
        ensures any_moment { IfOk result
            (λ found. LeavesOnly D.moment D.left_since disk found.disk (D.images disk)) }
        ensures failed_moment { IfErr result
            (λ e. LeavesOnly D.moment D.left_since disk e.0 (D.images disk)) }
        ensures formatted { IfOk result
            (λ _. current fold_of (layout_of 0) (D.seen disk) ≡ None → ⊥) }
        ensures unformatted { IfErr result (λ e. e.1 ≡ MasterOpenError.Unformatted
            → current fold_of (layout_of 0) (D.seen disk) ≡ None) }
        ensures cause { IfErr result (λ e. e.1 ≡ MasterOpenError.Failed
            → HasRisen (D.fault_count disk) (D.fault_count e.0)) }
        ensures same_images { IfErr result (λ e. Within (D.images disk) (D.images e.0)) }
        ensures no_fewer { IfErr result (λ e. D.fault_count disk ≤ D.fault_count e.0) }
        ensures same_reads { IfErr result (λ e. D.seen e.0 ≡ D.seen disk) }
        ensures same_plan { IfErr result (λ e. D.armed e.0 ≡ D.armed disk) }
    {
        let found = match open::<D, Present>(alloc, &mut disk, 0) {
            Ok(Some(found)) => found,
            Ok(None) => return Err((disk, MasterOpenError::Unformatted)),
            Err(StoreError::Failed) => return Err((disk, MasterOpenError::Failed)),
            Err(StoreError::OutOfMemory) => return Err((disk, MasterOpenError::OutOfMemory)),
        };
        let Found { log, text, records } = found;
        match folded(alloc, &text, records.as_slice()) {
            Ok(Some(campaign)) => Ok(MasterLog {
                disk,
                log,
                campaign,
                pending: None,
                count: 0,
            }),
            Ok(None) => unreachable!(),
            Err(_) => Err((disk, MasterOpenError::OutOfMemory)),
        }
    }
}

/// The fold that a text tells, after the events of these records; none where one is no event, or isn't allowed.
fn folded(alloc: Global, text: &[u8], records: &[Payload]) -> Result<Option<Campaign>, AllocError>
    ensures { IfOk result (λ o. MatchOption o
        (state_of fold_of after_record text.now records.now ≡ None)
        (λ c. state_of fold_of after_record text.now records.now ≡ Some c.fold)) }
{
    let Some(fold) = take_fold(alloc, text)? else {
        return Ok(None);
    };
    let mut campaign = Campaign::at(fold);
    for record in records {
        campaign.reserve()?;
        let Some(event) = take_event(alloc, record.as_slice())? else {
            return Ok(None);
        };
        if campaign.apply(&event).is_err() {
            return Ok(None);
        }
    }
    Ok(Some(campaign))
}
