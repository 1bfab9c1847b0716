//! The list, its events, and what it tells.
ghost use Rattle.std.specs.Prelude.{◌≡◌, ◌⊎◌, ◌≤◌, true, false, Some, None, is_some, length, if◌then◌else◌, IfOk, IfSome, OnOk, OnErr, IsErrOf};
ghost use Rattle.disk_core.specs.Images.{EachImage, SameImages, Within};
ghost use Rattle.disk_core.specs.Moments.{LeavesOnly};
ghost use Rattle.disk_core.specs.Plans.{no_faults};
ghost use Rattle.disk_core.specs.Served.{IsServed};
ghost use Rattle.fault_count.specs.Faults.{HasRisen};
ghost use Rattle.event_log.specs.Doubts.{Fits, HasNoRoom, MaySwitch, behind, switched};
ghost use Rattle.event_log.specs.Settles.{settles};
ghost use Rattle.campaign_core.specs.Views.{state_of, view_of};
ghost use Rattle.campaign_core.specs.Campaign.{refusal_of};
ghost use Rattle.event_codec.specs.Master.{EventFits, event_spelled};
ghost use Rattle.event_codec.specs.DecidingMaster.{fold_of};
ghost use Rattle.decision_log.specs.Folds.{after_allowed, after_record};
ghost use Rattle.decision_log.specs.Known.{IsBeforeOrAfter, IsKnown, IsOf};
ghost use Rattle.decision_log.specs.Answers.{Adds, Carries, IsRise, IsUnacknowledged, Revives, counted, counted_again, told};

use crate::answers::{AddAnswer, MasterRevived};
use crate::fold::Present;
use campaign_core::{Campaign, CampaignState, CampaignView, MasterEvent};
use checkpoint::StoreError;
use disk_core::{Disk, FaultPlan};
use event_codec::event_bytes;
use event_log::{Log, Revived};
use std::alloc::{AllocError, Global};

/// The master's list on a disk, in halves 0 and 1. It is closed exactly while an event is pending.
#[derive(Drop)]
pub struct MasterLog<D: Disk> {
    pub disk: D,
    /// Where the list goes on.
    pub log: Log,
    /// The fold of the list.
    pub campaign: Campaign,
    /// The event that may be recorded or not, after a fault.
    pub pending: Option<MasterEvent>,
    /// How many events were recorded since the list was made or opened; it stays at the last value of a u64.
    pub count: u64,
}

impl<D: Disk> MasterLog<D> {
    /// Adds an event, where the table allows it.
    pub fn add(&mut self, alloc: Global, event: MasterEvent) -> AddAnswer
        requires known { IsKnown self.old.log self.old.campaign.fold self.old.pending
            (D.seen self.old.disk) (D.images self.old.disk) }
        requires open { self.old.pending ≡ None }
        ensures adds { Adds event result self.old.campaign.fold
            self.new.campaign.fold self.new.pending }
        ensures known { IsKnown self.new.log self.new.campaign.fold self.new.pending
            (D.seen self.new.disk) (D.images self.new.disk) }

        // A crash at any moment of the call leaves the fold before the event, or after it.
        ensures any_moment { LeavesOnly D.moment D.left_since self.old.disk self.new.disk
            (IsBeforeOrAfter self.old.campaign.fold event) }
        ensures memory_moment { result ≡ AddAnswer.OutOfMemory
            → LeavesOnly D.moment D.left_since self.old.disk self.new.disk
            (IsOf self.old.campaign.fold) }
        ensures refused { IfSome (refusal_of self.old.campaign.fold event)
            (λ _. self.new.disk ≡ self.old.disk) }

        // Where the record goes: behind the others where it fits, else first in the other half, with the next
        // generation.
        ensures here { result ≡ AddAnswer.Added
            → Fits self.old.log (length (event_spelled event))
            → self.new.log ≡ behind self.old.log (length (event_spelled event)) }
        ensures beyond { result ≡ AddAnswer.Added
            → HasNoRoom self.old.log (length (event_spelled event))
            → self.new.log ≡ behind (switched self.old.log) (length (event_spelled event)) }

        // An event that isn't acknowledged leaves the log where it was, or, where its record doesn't fit, maybe in the
        // other half. One that is refused leaves all as it was.
        ensures here_failed { IsUnacknowledged result
            → Fits self.old.log (length (event_spelled event)) → self.new.log ≡ self.old.log }
        ensures beyond_failed { IsUnacknowledged result
            → HasNoRoom self.old.log (length (event_spelled event))
            → (self.new.log ≡ self.old.log) ⊎ (self.new.log ≡ switched self.old.log) }
        ensures refused_log { IfSome (refusal_of self.old.campaign.fold event)
            (λ _. self.new.log ≡ self.old.log) }

        // After a fault, within a switch of halves too, the list is closed: each image stands for the fold before the
        // event or after it.
        ensures in_doubt { self.new.pending ≡ Some event
            → EachImage (D.images self.new.disk) (IsBeforeOrAfter self.old.campaign.fold event) }

        // Where a switch failed, `revive` will find the event lost.
        ensures switching { self.new.pending ≡ Some event
            → HasNoRoom self.old.log (length (event_spelled event))
            → self.new.log ≡ self.old.log → EachImage (D.images self.new.disk)
            (MaySwitch fold_of after_record self.old.log (Some self.old.campaign.fold)) }
        ensures carries { Carries result (D.fault_count self.old.disk)
            (D.fault_count self.new.disk) }
        ensures faults { D.fault_count self.old.disk ≤ D.fault_count self.new.disk }
        ensures plan { D.armed self.new.disk ≡ D.armed self.old.disk }
        ensures count { self.new.count ≡ counted result self.old.count }
    {
        if let Some(refusal) = self.campaign.refusal(&event) {
            return AddAnswer::Refused(refusal);
        }
        let before = self.disk.faults();
        match self.record(alloc, &event) {
            Ok(()) => {
                self.count = self.count.saturating_add(1);
                AddAnswer::Added
            }
            Err(StoreError::Failed) => {
                self.pending = Some(event);
                let faults = self.rise(before);
                AddAnswer::NoReply { faults }
            }
            Err(StoreError::OutOfMemory) => AddAnswer::OutOfMemory,
        }
    }

    /// Takes the memory of an event that is allowed, and records it.
    fn record(&mut self, alloc: Global, event: &MasterEvent) -> Result<(), StoreError>
        requires known { IsKnown self.old.log self.old.campaign.fold None
            (D.seen self.old.disk) (D.images self.old.disk) }
        requires allowed { refusal_of self.old.campaign.fold event.now ≡ None }
        ensures added { OnOk result
            (Some self.new.campaign.fold ≡ after_allowed self.old.campaign.fold event.now) }
        ensures same { OnErr result (self.new.campaign.fold ≡ self.old.campaign.fold) }
        ensures known { OnOk result (IsKnown self.new.log self.new.campaign.fold None
            (D.seen self.new.disk) (D.images self.new.disk)) }
        ensures memory { IsErrOf result StoreError.OutOfMemory
            → IsKnown self.new.log self.new.campaign.fold None
            (D.seen self.new.disk) (D.images self.new.disk) }
        ensures in_doubt { IsErrOf result StoreError.Failed
            → IsKnown self.new.log self.new.campaign.fold (Some event.now)
            (D.seen self.new.disk) (D.images self.new.disk) }
        ensures any_moment { LeavesOnly D.moment D.left_since self.old.disk self.new.disk
            (IsBeforeOrAfter self.old.campaign.fold event.now) }
        ensures memory_moment { IsErrOf result StoreError.OutOfMemory
            → LeavesOnly D.moment D.left_since self.old.disk self.new.disk
            (IsOf self.old.campaign.fold) }
        ensures here { Fits self.old.log (length (event_spelled event.now)) → OnOk result
            (self.new.log ≡ behind self.old.log (length (event_spelled event.now))) }
        ensures beyond { HasNoRoom self.old.log (length (event_spelled event.now)) → OnOk result
            (self.new.log ≡ behind (switched self.old.log) (length (event_spelled event.now))) }
        ensures here_failed { Fits self.old.log (length (event_spelled event.now))
            → OnErr result (self.new.log ≡ self.old.log) }
        ensures beyond_failed { HasNoRoom self.old.log (length (event_spelled event.now))
            → OnErr result ((self.new.log ≡ self.old.log) ⊎ (self.new.log ≡ switched self.old.log)) }
        ensures switching { IsErrOf result StoreError.Failed
            → HasNoRoom self.old.log (length (event_spelled event.now))
            → self.new.log ≡ self.old.log → EachImage (D.images self.new.disk)
            (MaySwitch fold_of after_record self.old.log (Some self.old.campaign.fold)) }
        ensures served { IsServed D.seen D.fault_count D.armed (IsErrOf result StoreError.Failed)
            self.old.disk self.new.disk }
        ensures pending { self.new.pending ≡ self.old.pending }
        ensures count { self.new.count ≡ self.old.count }
    {
        let text = spelled(alloc, &mut self.campaign, event)?;
        let present = Present::of(self.campaign.fold());
        self.log.append(alloc, &mut self.disk, &text, &present)?;
        let Ok(()) = self.campaign.apply(event) else {
            unreachable!()
        };
        Ok(())
    }

    /// Opens a closed list again: restarts the disk, recovers, and says whether the pending event stood. Where it
    /// fails, the list stays closed with the same event.
    pub fn revive(&mut self, alloc: Global) -> Result<MasterRevived, StoreError>
        requires known { IsKnown self.old.log self.old.campaign.fold self.old.pending
            (D.seen self.old.disk) (D.images self.old.disk) }
        ensures revives { IfOk result (λ revived. Revives revived self.old.campaign.fold
            self.old.pending self.new.campaign.fold) }
        ensures open { OnOk result (self.new.pending ≡ None) }
        ensures known { IsKnown self.new.log self.new.campaign.fold self.new.pending
            (D.seen self.new.disk) (D.images self.new.disk) }
        ensures fold { OnErr result (self.new.campaign.fold ≡ self.old.campaign.fold) }
        ensures pending { OnErr result (self.new.pending ≡ self.old.pending) }
        ensures log { OnErr result (self.new.log ≡ self.old.log) }

        // An event whose switch of halves failed is lost.
        ensures lost { EachImage (D.images self.old.disk)
            (MaySwitch fold_of after_record self.old.log (Some self.old.campaign.fold))
            → IfOk result (λ revived. (revived ≡ MasterRevived.Lost)
            ⊎ (revived ≡ MasterRevived.Nothing)) }

        // It stood exactly where the same half counts, with other records.
        ensures settled { IfSome self.old.pending (λ event. IfOk result
            (λ revived. revived ≡ told event (settles self.old.log self.new.log))) }

        // It writes nothing: a crash at any moment of the call, or after it, leaves what one might have left before.
        ensures images { Within (D.images self.old.disk) (D.images self.new.disk) }
        ensures no_writes { LeavesOnly D.moment D.left_since self.old.disk self.new.disk
            (D.images self.old.disk) }

        // A crash at any moment of the call leaves the fold before the event, or after it.
        ensures any_moment { IfSome self.old.pending (λ event.
            LeavesOnly D.moment D.left_since self.old.disk self.new.disk
            (IsBeforeOrAfter self.old.campaign.fold event)) }
        ensures nothing { self.old.pending ≡ None → self.new.disk ≡ self.old.disk }
        ensures cause { IsErrOf result StoreError.Failed
            → HasRisen (D.fault_count self.old.disk) (D.fault_count self.new.disk) }
        ensures faults { D.fault_count self.old.disk ≤ D.fault_count self.new.disk }
        ensures plan { D.armed self.new.disk ≡ D.armed self.old.disk }
        ensures count { IfOk result
            (λ revived. self.new.count ≡ counted_again revived self.old.count) }
        ensures same_count { OnErr result (self.new.count ≡ self.old.count) }
    {
        let Some(event) = self.pending else {
            return Ok(MasterRevived::Nothing);
        };
        let stood = self.settle(alloc, &event)?;
        self.pending = None;
        if stood {
            self.count = self.count.saturating_add(1);
            Ok(MasterRevived::Stood { event })
        } else {
            Ok(MasterRevived::Lost)
        }
    }

    /// Restarts the disk, and says whether the event stood, which is in doubt.
    fn settle(&mut self, alloc: Global, event: &MasterEvent) -> Result<bool, StoreError>
        requires known { IsKnown self.old.log self.old.campaign.fold (Some event.now)
            (D.seen self.old.disk) (D.images self.old.disk) }
        ensures fold { IfOk result (λ stood. Some self.new.campaign.fold
            ≡ if stood then after_allowed self.old.campaign.fold event.now
            else Some self.old.campaign.fold) }
        ensures known { OnOk result (IsKnown self.new.log self.new.campaign.fold None
            (D.seen self.new.disk) (D.images self.new.disk)) }
        ensures same { OnErr result (self.new.campaign.fold ≡ self.old.campaign.fold) }
        ensures in_doubt { OnErr result
            (IsKnown self.new.log self.new.campaign.fold (Some event.now)
            (D.seen self.new.disk) (D.images self.new.disk)) }
        ensures any_moment { LeavesOnly D.moment D.left_since self.old.disk self.new.disk
            (IsBeforeOrAfter self.old.campaign.fold event.now) }
        ensures log { OnErr result (self.new.log ≡ self.old.log) }
        ensures lost { EachImage (D.images self.old.disk)
            (MaySwitch fold_of after_record self.old.log (Some self.old.campaign.fold))
            → IfOk result (λ stood. stood ≡ false) }
        ensures settled { IfOk result (λ stood. settles self.old.log self.new.log
            ≡ if stood then Revived.Stood else Revived.Lost) }
        ensures images { Within (D.images self.old.disk) (D.images self.new.disk) }
        ensures no_writes { LeavesOnly D.moment D.left_since self.old.disk self.new.disk
            (D.images self.old.disk) }
        ensures served { IsServed D.seen D.fault_count D.armed (IsErrOf result StoreError.Failed)
            self.old.disk self.new.disk }
        ensures pending { self.new.pending ≡ self.old.pending }
        ensures count { self.new.count ≡ self.old.count }
    {
        let text = spelled(alloc, &mut self.campaign, event)?;
        let present = Present::of(self.campaign.fold());
        match self.log.revive(alloc, &mut self.disk, &text, &present)? {
            Revived::Stood => {
                let Ok(()) = self.campaign.apply(event) else {
                    unreachable!()
                };
                Ok(true)
            }
            Revived::Lost => Ok(false),
        }
    }

    /// What the list shows; of a closed one without the pending event.
    pub fn view(&self) -> CampaignView
        ensures { result ≡ view_of self.now.campaign.fold }
    {
        self.campaign.view()
    }

    /// The campaign's state; of a closed list without the pending event.
    pub fn state(&self) -> CampaignState
        ensures { result ≡ state_of self.now.campaign.fold }
    {
        self.campaign.state()
    }

    /// How many events were recorded since the list was made or opened.
    pub fn count(&self) -> u64
        ensures { result ≡ self.now.count }
    {
        self.count
    }

    /// The disk's count of faults.
    pub fn faults(&self) -> u64
        ensures { result ≡ D.fault_count self.now.disk }
    {
        self.disk.faults()
    }

    /// How far the disk's count of faults rose above an earlier one; 1 where it stands at its last value.
    pub fn rise(&self, before: u64) -> u64
        requires { HasRisen before (D.fault_count self.now.disk) }
        ensures { IsRise before (D.fault_count self.now.disk) result }
    {
        (self.disk.faults() - before).max(1)
    }

    /// Whether an event is pending: then `revive` comes before the next `add`.
    pub fn is_closed(&self) -> bool
        ensures { result ≡ is_some self.now.pending }
    {
        self.pending.is_some()
    }

    /// Arms the disk's plan, once.
    pub fn arm(&mut self, plan: &FaultPlan) -> Result<(), AllocError>
        requires known { IsKnown self.old.log self.old.campaign.fold self.old.pending
            (D.seen self.old.disk) (D.images self.old.disk) }
        requires unarmed { D.armed self.old.disk ≡ no_faults }
        ensures set { OnOk result (D.armed self.new.disk ≡ plan.now) }
        ensures unset { OnErr result (D.armed self.new.disk ≡ D.armed self.old.disk) }
        ensures known { IsKnown self.new.log self.new.campaign.fold self.new.pending
            (D.seen self.new.disk) (D.images self.new.disk) }
        ensures fold { self.new.campaign.fold ≡ self.old.campaign.fold }
        ensures pending { self.new.pending ≡ self.old.pending }
        ensures count { self.new.count ≡ self.old.count }
        ensures log { self.new.log ≡ self.old.log }
        ensures faults { D.fault_count self.new.disk ≡ D.fault_count self.old.disk }
        ensures reads { D.seen self.new.disk ≡ D.seen self.old.disk }
        ensures images { SameImages (D.images self.old.disk) (D.images self.new.disk) }
        ensures any_moment { LeavesOnly D.moment D.left_since self.old.disk self.new.disk
            (D.images self.old.disk) }
    {
        self.disk.arm(plan)
    }

    /// Hands the disk back.
    pub fn close(self) -> D
        ensures { result ≡ self.disk }
    {
        let MasterLog {
            disk,
            log: _,
            campaign: _,
            pending: _,
            count: _,
        } = self;
        disk
    }
}

/// Takes the memory of an event, and spells it.
fn spelled(
    alloc: Global,
    campaign: &mut Campaign,
    event: &MasterEvent,
) -> Result<Vec<u8>, AllocError>
    ensures text { IfOk result (λ text. text.items ≡ event_spelled event.now) }
    ensures fits { OnOk result (EventFits event.now) }
    ensures ready { OnOk result (campaign.new.ready ≡ true) }
    ensures fold { campaign.new.fold ≡ campaign.old.fold }
{
    campaign.reserve()?;
    event_bytes(alloc, event)
}
