//! What a driver asks for next.
ghost use Rattle.std.specs.Prelude.{◌≡◌, ◌<◌, length};
ghost use Rattle.sub_core.specs.Driving.{call_wish, end_wish, is_missed, is_over, next_no, round_step, unreached, wish};
ghost use Rattle.sub_core.specs.States.{number_limit, size_at, IsPlaced, IsPlacedEnd};

use crate::progress::{EndProgress, Progress, Wish};
use crate::{Driver, Finding, PackageSize, Rises, Round, SendStep};
use ucm_base::CallNo;
use ucm_base::limits::ATTEMPT_LIMIT;

impl Driver {
    /// The number of the next call, or of the one that is open.
    pub(crate) fn next_no(&self) -> CallNo
        requires number { self.now.number < number_limit }
        ensures { result ≡ next_no self.now }
    {
        CallNo {
            epoch: self.epoch,
            number: self.number as u32,
        }
    }

    /// Whether eight attempts in a row failed.
    pub(crate) fn is_missed(&self) -> bool
        ensures { result ≡ is_missed self.now }
    {
        self.misses.len() >= ATTEMPT_LIMIT as usize
    }

    /// What it asks for, however often it was missed.
    pub(crate) fn wish(&self) -> Wish
        ensures { result ≡ wish self.now }
    {
        match self.progress {
            Progress::Voted(finding) => Wish::Rest(finding),
            Progress::Activating => Wish::Unit,
            Progress::Process {
                is_settled: false,
                ..
            } => Wish::Unit,
            Progress::Ending { at, .. } => end_wish(at),
            _ => self.call_wish(),
        }
    }

    /// The next call of the rounds, or nothing where the round is over.
    fn call_wish(&self) -> Wish
        ensures { result ≡ call_wish self.now self.now.progress }
    {
        if self.is_over() {
            Wish::Rest(Finding::RoundDone)
        } else {
            Wish::Send(self.round_step())
        }
    }

    /// Whether each call of the round is answered; before the first round there is that of Sync.
    fn is_over(&self) -> bool
        ensures { result ≡ is_over self.now.round self.now.ids self.now.progress }
    {
        match (self.round, self.progress) {
            (_, Progress::Sync) => false,
            (None | Some(Round::Sync), _) => true,
            (Some(Round::Transfer), Progress::Process { .. }) => true,
            (Some(Round::Process), Progress::Process { taken, .. }) => self.ids.len() <= taken,
            _ => false,
        }
    }

    /// The package of the step at this place.
    pub(crate) fn size_at(&self, place: usize) -> PackageSize
        requires { place < length self.now.steps }
        ensures { result ≡ size_at self.now.steps place }
    {
        self.steps[place]
    }

    /// The call that comes next in the rounds.
    fn round_step(&self) -> SendStep
        ensures { result ≡ round_step self.now self.now.progress }
    {
        match self.progress {
            Progress::Sync => SendStep::Sync,
            Progress::Transfer => SendStep::Start {
                package: self.size_at(self.ids.len()).index,
            },
            Progress::Data { id, left: 0, .. } => SendStep::Exit { id },
            Progress::Data { id, counter, .. } => SendStep::Data {
                package: self.size_at(self.ids.len()).index,
                id,
                counter,
            },
            Progress::Process { taken, .. } if taken < self.ids.len() => SendStep::Process {
                id: self.ids[taken],
                tag: self.campaign,
            },
            _ => SendStep::Activate,
        }
    }
}

/// What the end phase asks for.
fn end_wish(at: EndProgress) -> Wish
    requires { IsPlacedEnd at }
    ensures { result ≡ end_wish at }
{
    match at {
        EndProgress::Call(step) => Wish::Send(step),
        EndProgress::Units => Wish::Unit,
        EndProgress::Delete { listed, place } => Wish::Send(SendStep::Delete {
            id: listed.as_slice()[place],
        }),
        EndProgress::Rest { no } => Wish::Rest(Finding::Ended { no }),
    }
}

/// The sums of the rises, each at most the last value of a count.
pub(crate) fn unreached(misses: &[Rises]) -> Finding
    ensures { result ≡ unreached misses.now }
{
    let mut losses: u64 = 0;
    let mut faults: u64 = 0;
    for rises in misses {
        losses = losses.saturating_add(rises.losses);
        faults = faults.saturating_add(rises.faults);
    }
    Finding::Unreached { losses, faults }
}
