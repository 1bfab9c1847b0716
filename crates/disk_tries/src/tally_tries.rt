//! A log of tallies under a plan, of which the third note switches the halves.
ghost use Rattle.std.specs.Prelude.{◌≡◌, None, IfOk, OnOk};
ghost use Rattle.checkpoint.specs.Halves.{layout_of};
ghost use Rattle.disk_tries.specs.Fits.{Fits};
ghost use Rattle.disk_tries.specs.TallyLogs.{Knows};
ghost use Rattle.disk_tries.specs.declared.tally_tries.NoteError.TheVariants.{Memory as no_memory};

use crate::tally_log::{Answer, TallyLog};
use disk_core::{Disk, FaultPlan};
use disk_mem::{MemDisk, Tear};
use event_log::Revived;
use journal::Payload;
use std::alloc::{AllocError, Global};

/// The bytes of a note: two fit behind one another in a half's journal, and a third one doesn't.
const NOTE: usize = 900_000;

/// The bytes of a disk with halves 0 and 1.
const TWO_HALVES: u64 = 4_194_304;

/// What a revive said of a third note that got no reply, and what is read again.
#[derive(Debug, Drop)]
pub struct NoteTried {
    pub revived: Option<Revived>,
    pub bytes: u64,
    pub generation: u64,
}

/// Why nothing was tried.
#[derive(Clone, Copy, Debug, PartialEq, Eq, Drop)]
pub enum NoteError {
    Memory,
    /// The log wasn't made, or one of the first two notes wasn't added.
    Before,
    /// The note wasn't revived.
    Revive,
    /// The disk wasn't opened again.
    Open,
}

impl From<AllocError> for NoteError {
    ghost from_gives = { λ _ e. e ≡ no_memory };

    fn from(_: AllocError) -> Self {
        NoteError::Memory
    }
}

/// Arms a fresh disk, makes a log on its half 0, and adds three notes; where the third got no reply, revives the log;
/// and reads it again from its disk. Formatting and each note make two writes and two syncs, and the third note, which
/// switches, four; formatting begins with a sync more.
pub fn try_third_note(alloc: Global, tear: Tear, plan: &FaultPlan) -> Result<NoteTried, NoteError> {
    let mut log = formatted(alloc, TWO_HALVES, tear, plan)?;
    add_note(&mut log, alloc)?;
    add_note(&mut log, alloc)?;
    let revived = settle_note(&mut log, alloc)?;
    let generation = log.log.generation;
    let bytes = read_again(alloc, log)?;
    Ok(NoteTried {
        revived,
        bytes,
        generation,
    })
}

/// A log of no notes on half 0 of a fresh disk of `size` bytes, under a plan.
fn formatted(
    alloc: Global,
    size: u64,
    tear: Tear,
    plan: &FaultPlan,
) -> Result<TallyLog<MemDisk>, NoteError>
    requires { Fits size (layout_of 0) }
    ensures knows { IfOk result (λ log. Knows (⟦<MemDisk as Disk>⟧.seen log.disk)
        (⟦<MemDisk as Disk>⟧.images log.disk) log.log log.tally log.pending) }
    ensures open { IfOk result (λ log. log.pending ≡ None) }
    ensures half { IfOk result (λ log. log.log.half ≡ 0) }
{
    let mut disk = MemDisk::torn(alloc, size, tear)?;
    disk.arm(plan)?;
    match TallyLog::format(alloc, disk, 0) {
        Ok(log) => Ok(log),
        Err((_disk, _fault)) => Err(NoteError::Before),
    }
}

/// Adds a note to an open log.
fn add_note<D: Disk>(log: &mut TallyLog<D>, alloc: Global) -> Result<(), NoteError>
    requires knows { Knows (D.seen log.old.disk) (D.images log.old.disk)
        log.old.log log.old.tally log.old.pending }
    requires open { log.old.pending ≡ None }
    requires pair { layout_of log.old.log.half ≡ layout_of 0 }
    ensures knows { Knows (D.seen log.new.disk) (D.images log.new.disk)
        log.new.log log.new.tally log.new.pending }
    ensures open { OnOk result (log.new.pending ≡ None) }
    ensures pair { layout_of log.new.log.half ≡ layout_of 0 }
{
    // A tally is a u64.
    let _bytes = log.tally.bytes;
    let note = Payload::of(vec![in alloc; 7u8; NOTE]?);
    match log.add(alloc, note) {
        Answer::Added => Ok(()),
        Answer::Refused | Answer::NoReply | Answer::OutOfMemory => Err(NoteError::Before),
    }
}

/// Adds a note to an open log, and revives the log where there is no reply.
fn settle_note<D: Disk>(log: &mut TallyLog<D>, alloc: Global) -> Result<Option<Revived>, NoteError>
    requires knows { Knows (D.seen log.old.disk) (D.images log.old.disk)
        log.old.log log.old.tally log.old.pending }
    requires open { log.old.pending ≡ None }
    requires pair { layout_of log.old.log.half ≡ layout_of 0 }
    ensures knows { OnOk result (Knows (D.seen log.new.disk) (D.images log.new.disk)
        log.new.log log.new.tally log.new.pending) }
    ensures open { OnOk result (log.new.pending ≡ None) }
    ensures pair { layout_of log.new.log.half ≡ layout_of 0 }
{
    if add_note(log, alloc).is_ok() {
        return Ok(None);
    }
    if log.pending.is_none() {
        return Err(NoteError::Before);
    }
    match log.revive(alloc) {
        Ok(revived) => Ok(Some(revived)),
        Err(_) => Err(NoteError::Revive),
    }
}

/// The bytes of the tally that an open log's disk stands for.
fn read_again<D: Disk + Drop>(alloc: Global, log: TallyLog<D>) -> Result<u64, NoteError>
    requires knows { Knows (D.seen log.disk) (D.images log.disk) log.log log.tally log.pending }
    requires open { log.pending ≡ None }
    requires pair { layout_of log.log.half ≡ layout_of 0 }
{
    match TallyLog::open(alloc, log.close(), 0) {
        Ok(again) => Ok(again.tally.bytes),
        Err((_disk, _fault)) => Err(NoteError::Open),
    }
}
