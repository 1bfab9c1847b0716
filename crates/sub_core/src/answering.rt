//! What an answer makes of a driver.
ghost use Rattle.std.specs.Prelude.{◌≡◌, ◌+◌, ◌<◌, ◌≤◌, IfSome, IsTrue, length};
ghost use Rattle.pm_types.specs.NodeState.{is_working};
ghost use Rattle.sub_core.specs.Driving.{after_delete, after_send, after_unit, at_free, at_shown, at_status, end_after, end_step, is_answer, next_no, next_transfer, progress_after, replied, round_after, settled_after, status_of, whole_by, with_whole, worked};
ghost use Rattle.sub_core.specs.States.{number_limit, IsPlaced, IsPlacedEnd, NeedsNone};

use crate::progress::{EndProgress, Progress};
use crate::{Driver, Finding, Got, Rises, SendStep};
use pm_types::{IdList, Reply, Status, Synced, Worked};
use ucm_base::CallNo;
use ucm_base::limits::BLOCK_LIMIT;

impl Driver {
    /// An answer to a call. One of a kind that the call never has leaves what is asked.
    pub(crate) fn on_send(&mut self, asked: SendStep, got: Got)
        requires number { self.old.number < number_limit }
        requires misses { length self.old.misses < 8 }
        ensures { self.new ≡ after_send asked got self.old }
    {
        match got {
            Got::Replied(reply) if is_answer(asked, &reply) => self.on_reply(reply),
            Got::Replied(_) | Got::UnitOf(_) => self.is_open = true,
            Got::Miss { losses, faults } => {
                self.is_open = true;
                self.misses.push_reserved(Rises { losses, faults });
            }
        }
    }

    /// An answer to a unit.
    pub(crate) fn on_unit(&mut self, got: Got)
        requires misses { length self.old.misses < 8 }
        ensures { self.new ≡ after_unit got self.old }
    {
        match got {
            Got::Replied(_) => {}
            Got::UnitOf(worked) => self.on_status(status_of(worked)),
            Got::Miss { losses, faults } => self.misses.push_reserved(Rises { losses, faults }),
        }
    }

    /// A reply to the call that was asked.
    fn on_reply(&mut self, reply: Reply)
        requires number { self.old.number < number_limit }
        ensures { self.new ≡ replied reply self.old }
    {
        let progress = self.progress_after(&reply);
        if let Some(id) = self.whole_by(&reply) {
            self.ids.push_reserved(id);
        }
        self.progress = progress;
        self.number += 1;
        self.is_open = false;
        self.misses.clear();
    }

    /// What a reply makes of where it is.
    fn progress_after(&self, reply: &Reply) -> Progress
        requires number { self.now.number < number_limit }
        ensures is { result ≡ progress_after self.now self.now.progress reply.now }
        ensures placed { IsPlaced self.now.steps
            (with_whole self.now.ids (whole_by self.now.progress reply.now)) result }
    {
        let no = self.next_no();
        match self.progress {
            Progress::Ending { commit, at } => Progress::Ending {
                commit,
                at: end_after(commit, no, at, reply),
            },
            _ => self.round_after(no, reply),
        }
    }

    /// The transfer that is whole by this reply.
    fn whole_by(&self, reply: &Reply) -> Option<u32>
        ensures is { result ≡ whole_by self.now.progress reply.now }
        ensures room { IfSome result (λ id. length self.now.ids < length self.now.steps) }
    {
        match (self.progress, reply) {
            (Progress::Data { id, left: 0, .. }, Reply::Done) => Some(id),
            _ => None,
        }
    }

    /// What a reply makes of the rounds.
    fn round_after(&self, no: CallNo, reply: &Reply) -> Progress
        requires number { no ≡ next_no self.now }
        ensures is { result ≡ round_after self.now self.now.progress reply.now }
        ensures placed { IsPlaced self.now.steps
            (with_whole self.now.ids (whole_by self.now.progress reply.now)) result }
    {
        match (self.progress, reply) {
            (_, Reply::Refused(refusal)) => Progress::Voted(Finding::Refused {
                no,
                refusal: *refusal,
            }),
            (Progress::Sync, Reply::Synced(_)) => Progress::Transfer,
            (Progress::Transfer, Reply::Started { id }) => Progress::Data {
                id: *id,
                counter: 1,
                left: self.size_at(self.ids.len()).length,
            },
            (Progress::Data { left: 0, .. }, Reply::Done) => self.next_transfer(),
            (Progress::Data { id, counter, left }, Reply::Done) => Progress::Data {
                id,
                counter: next_counter(counter, self.size_at(self.ids.len()).length),
                left: left.saturating_sub(BLOCK_LIMIT as u32),
            },
            (Progress::Process { taken, .. }, Reply::Done) if taken < self.ids.len() => {
                Progress::Process {
                    taken: taken + 1,
                    is_settled: false,
                }
            }
            (Progress::Process { .. }, Reply::Done) => Progress::Activating,
            (progress, _) => progress,
        }
    }

    /// The next transfer, or the first package to be processed.
    fn next_transfer(&self) -> Progress
        requires { length self.now.ids < length self.now.steps }
        ensures { result ≡ next_transfer self.now }
    {
        if self.ids.len() + 1 < self.steps.len() {
            Progress::Transfer
        } else {
            Progress::Process {
                taken: 0,
                is_settled: true,
            }
        }
    }

    /// The status after a unit.
    fn on_status(&mut self, status: Status)
        ensures { self.new ≡ worked status self.old }
    {
        self.misses.clear();
        self.progress = settled_after(self.progress, status);
    }
}

/// The counter behind that of a block of a package of so many bytes.
fn next_counter(counter: u64, size: u32) -> u64
    requires { counter ≤ size + 1 }
    ensures { result ≡ counter + 1 }
{
    counter + 1
}

/// Whether the reply is of a kind that answers this call.
fn is_answer(asked: SendStep, reply: &Reply) -> bool
    ensures { result ≡ is_answer asked reply.now }
{
    match (asked, reply) {
        (SendStep::Sync, Reply::Synced(_)) => true,
        (SendStep::Sync, _) => false,
        (SendStep::Start { .. }, Reply::Started { .. }) => true,
        (SendStep::Start { .. }, Reply::Done) => false,
        (_, Reply::Done | Reply::Refused(_)) => true,
        _ => false,
    }
}

/// What the reply to its call makes of the end phase.
fn end_after(commit: bool, no: CallNo, at: EndProgress, reply: &Reply) -> EndProgress
    requires { IsPlacedEnd at }
    ensures is { result ≡ end_after commit no at reply.now }
    ensures placed { IsPlacedEnd result }
{
    match (at, reply) {
        (_, Reply::Refused(_)) => EndProgress::Call(SendStep::Sync),
        (_, Reply::Synced(shown)) => at_shown(commit, no, *shown),
        (EndProgress::Delete { listed, place }, Reply::Done) => after_delete(listed, place),
        (_, Reply::Done) => EndProgress::Units,
        (at, Reply::Started { .. }) => at,
    }
}

/// Where a Sync leads to.
fn at_shown(commit: bool, no: CallNo, shown: Synced) -> EndProgress
    ensures is { result ≡ at_shown commit no shown }
    ensures placed { IsPlacedEnd result }
{
    let Synced {
        session,
        transfers,
        ..
    } = shown;
    match session {
        Some(mark) if mark.owner.number() == 0 => at_status(commit, mark.status),
        _ => at_free(no, transfers),
    }
}

/// Where a Sync without a session of the master leads to.
fn at_free(no: CallNo, listed: IdList) -> EndProgress
    ensures is { result ≡ at_free no listed }
    ensures placed { IsPlacedEnd result }
{
    if listed.as_slice().is_empty() {
        EndProgress::Rest { no }
    } else {
        EndProgress::Delete { listed, place: 0 }
    }
}

/// The next transfer that is deleted, or a Sync.
fn after_delete(listed: IdList, place: usize) -> EndProgress
    requires { place < length listed }
    ensures is { result ≡ after_delete listed place }
    ensures placed { IsPlacedEnd result }
{
    if place + 1 < listed.as_slice().len() {
        EndProgress::Delete {
            listed,
            place: place + 1,
        }
    } else {
        EndProgress::Call(SendStep::Sync)
    }
}

/// Where a status of the node leads to.
fn at_status(commit: bool, status: Status) -> EndProgress
    ensures is { result ≡ at_status commit status }
    ensures placed { IsPlacedEnd result }
{
    if is_working(status) {
        EndProgress::Units
    } else {
        EndProgress::Call(end_step(commit, status))
    }
}

/// The call that the decision has for a status, or a Sync.
fn end_step(commit: bool, status: Status) -> SendStep
    ensures is { result ≡ end_step commit status }
    ensures bare { NeedsNone result }
{
    match (commit, status) {
        (true, Status::Activated) => SendStep::Finish,
        (false, Status::Activated) => SendStep::Rollback,
        (false, Status::RolledBack) => SendStep::Finish,
        (false, Status::Ready) => SendStep::Revert,
        _ => SendStep::Sync,
    }
}

/// What a status makes of where the driver is.
fn settled_after(progress: Progress, status: Status) -> Progress
    ensures { result ≡ settled_after progress status }
{
    match (progress, status) {
        (Progress::Activating, Status::Activated) => Progress::Voted(Finding::Yes),
        (Progress::Activating, Status::RolledBack) => Progress::Voted(Finding::RolledBack),
        (Progress::Process { taken, .. }, status) => Progress::Process {
            taken,
            is_settled: !is_working(status),
        },
        (Progress::Ending { commit, .. }, status) => Progress::Ending {
            commit,
            at: at_status(commit, status),
        },
        (progress, _) => progress,
    }
}

/// Whether there is a unit of work to do in this status.
fn is_working(status: Status) -> bool
    ensures { result ≡ is_working status }
{
    match status {
        Status::Processing
        | Status::Activating
        | Status::Verifying
        | Status::RollingBack
        | Status::CleaningUp => true,
        Status::Idle | Status::Ready | Status::Activated | Status::RolledBack => false,
    }
}

fn status_of(worked: Worked) -> Status
    ensures { result ≡ status_of worked }
{
    match worked {
        Worked::Unit { after, .. } => after,
        Worked::Nothing { status } => status,
    }
}
