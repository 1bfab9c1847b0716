//! Making and opening a tally.
ghost use Rattle.std.specs.Prelude.{◌≡◌, ◌≤◌, ◌<◌, Some, None, IfOk, IfErr};
ghost use Rattle.disk_core.specs.Images.{EachImage};
ghost use Rattle.fault_count.specs.Faults.{HasRisen};
ghost use Rattle.checkpoint.specs.Halves as halves;
ghost use Rattle.event_log.specs.Meaning.{meaning, state_of};
ghost use Rattle.event_log.specs.Holds.{CanOpen};
ghost use Rattle.disk_tries.specs.Tallies.{tally_of, with_note};
ghost use Rattle.disk_tries.specs.TallyLogs.{Knows};

use crate::tally::Tally;
use crate::tally_log::TallyLog;
use checkpoint::StoreError;
use disk_core::Disk;
use event_log::{Found, Log, open};
use journal::Payload;
use std::alloc::Global;

/// Why a tally wasn't opened.
#[derive(Clone, Copy, Debug, PartialEq, Eq, Drop)]
pub enum OpenError {
    Failed,
    /// The disk stands for no tally.
    Unformatted,
    OutOfMemory,
}

impl<D: Disk> TallyLog<D> {
    /// Writes a tally of no bytes to a half.
    pub fn format(alloc: Global, mut disk: D, half: u8) -> Result<TallyLog<D>, (D, StoreError)>
        requires half { half < 4 }
        requires size { halves.HasPair (halves.layout_of half) (D.seen disk) }
        requires other { EachImage (D.images disk)
            (λ image. halves.half_of (halves.other half) image ≡ None) }
        requires long { 8 ≤ (halves.layout_of half).state_max }
        ensures knows { IfOk result (λ made. Knows (D.seen made.disk) (D.images made.disk)
            made.log made.tally made.pending) }
        ensures tally { IfOk result (λ made. made.tally ≡ record { bytes = 0 }) }
        ensures open { IfOk result (λ made. made.pending ≡ None) }
        ensures half { IfOk result (λ made. made.log.half ≡ half) }
        ensures other { IfErr result (λ e. EachImage (D.images e.0)
            (λ image. halves.half_of (halves.other half) image ≡ None)) }
        ensures cause { IfErr result (λ e. e.1 ≡ StoreError.Failed
            → HasRisen (D.fault_count disk) (D.fault_count e.0)) }
    {
        let tally = Tally { bytes: 0 };
        match Log::format(alloc, &mut disk, half, &tally) {
            Ok(log) => Ok(TallyLog {
                disk,
                log,
                tally,
                pending: None,
            }),
            Err(fault) => Err((disk, fault)),
        }
    }

    /// Opens what a close or a crash has left.
    pub fn open(alloc: Global, mut disk: D, half: u8) -> Result<TallyLog<D>, (D, OpenError)>
        requires half { half < 4 }
        requires size { halves.HasPair (halves.layout_of half) (D.seen disk) }
        requires can { CanOpen tally_of (halves.layout_of half) (D.seen disk) }
        ensures knows { IfOk result (λ found. Knows (D.seen found.disk) (D.images found.disk)
            found.log found.tally found.pending) }
        ensures tally { IfOk result (λ found. Some found.tally
            ≡ meaning tally_of with_note (halves.layout_of half) (D.seen disk)) }
        ensures open { IfOk result (λ found. found.pending ≡ None) }
        ensures unformatted { IfErr result (λ e. e.1 ≡ OpenError.Unformatted
            → meaning tally_of with_note (halves.layout_of half) (D.seen disk) ≡ None) }
        ensures cause { IfErr result (λ e. e.1 ≡ OpenError.Failed
            → HasRisen (D.fault_count disk) (D.fault_count e.0)) }
    {
        let found = match open::<D, Tally>(alloc, &mut disk, half) {
            Ok(Some(found)) => found,
            Ok(None) => return Err((disk, OpenError::Unformatted)),
            Err(StoreError::Failed) => return Err((disk, OpenError::Failed)),
            Err(StoreError::OutOfMemory) => return Err((disk, OpenError::OutOfMemory)),
        };
        let Found { log, text, records } = found;
        match folded(&text, records.as_slice()) {
            Some(tally) => Ok(TallyLog {
                disk,
                log,
                tally,
                pending: None,
            }),
            None => Err((disk, OpenError::Unformatted)),
        }
    }
}

/// The tally that a text tells, with these notes.
fn folded(text: &[u8], notes: &[Payload]) -> Option<Tally>
    ensures { result ≡ state_of tally_of with_note text.now notes.now }
{
    let mut tally = Tally::read(text)?;
    for note in notes {
        tally = tally.with_note(note.as_slice())?;
    }
    Some(tally)
}
