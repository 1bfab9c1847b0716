//! A tally on a disk: the smallest store above the log.
ghost use Rattle.std.specs.Prelude.{◌≡◌, ◌+◌, ◌≤◌, ◌<◌, ◌^◌, Some, None, IsSome, length, IfOk, OnOk, OnErr, IsErrOf, IfSome};
ghost use Rattle.disk_core.specs.Moments.{LeavesOnly};
ghost use Rattle.checkpoint.specs.Halves.{layout_of};
ghost use Rattle.fault_count.specs.Faults.{HasRisen};
ghost use Rattle.event_log.specs.Doubts.{Either, of_event};
ghost use Rattle.disk_tries.specs.Tallies.{tally_of, with_note};
ghost use Rattle.disk_tries.specs.TallyLogs.{Knows, Answers, Ends};

use crate::tally::Tally;
use checkpoint::StoreError;
use disk_core::Disk;
use event_log::{Log, Revived};
use journal::Payload;
use std::alloc::Global;

/// How a note was answered.
#[derive(Clone, Copy, Debug, PartialEq, Eq, Drop)]
pub enum Answer {
    Added,
    /// The tally would not fit a u64.
    Refused,
    /// The disk failed; the note is pending.
    NoReply,
    OutOfMemory,
}

/// A tally on a disk. It is closed while a note is pending.
#[derive(Drop)]
pub struct TallyLog<D: Disk> {
    pub disk: D,
    pub log: Log,
    pub tally: Tally,
    pub pending: Option<Payload>,
}

impl<D: Disk> TallyLog<D> {
    /// Adds the bytes of a note, which fits a journal.
    pub fn add(&mut self, alloc: Global, note: Payload) -> Answer
        requires knows { Knows (D.seen self.old.disk) (D.images self.old.disk)
            self.old.log self.old.tally self.old.pending }
        requires open { self.old.pending ≡ None }
        requires fits { self.old.tally.bytes < 2 ^ 64 }
        requires short { length note + 6 ≤ (layout_of self.old.log.half).journal_len }
        requires long { 8 ≤ (layout_of self.old.log.half).state_max }
        ensures answers { Answers result self.old.tally note self.new.tally self.new.pending }
        ensures knows { Knows (D.seen self.new.disk) (D.images self.new.disk)
            self.new.log self.new.tally self.new.pending }

        // A crash at any moment of the call leaves the tally before the note, or with it.
        ensures any_moment { LeavesOnly D.moment D.left_since self.old.disk self.new.disk
            (Either tally_of with_note (layout_of self.old.log.half)
            (of_event with_note self.old.tally note)) }
        ensures cause { result ≡ Answer.NoReply
            → HasRisen (D.fault_count self.old.disk) (D.fault_count self.new.disk) }
        ensures faults { D.fault_count self.old.disk ≤ D.fault_count self.new.disk }
        ensures plan { D.armed self.new.disk ≡ D.armed self.old.disk }
        ensures pair { layout_of self.new.log.half ≡ layout_of self.old.log.half }
    {
        let Some(next) = self.tally.with_note(note.as_slice()) else {
            return Answer::Refused;
        };
        match self
            .log
            .append(alloc, &mut self.disk, note.as_slice(), &self.tally)
        {
            Ok(()) => {
                self.tally = next;
                Answer::Added
            }
            Err(StoreError::Failed) => {
                self.pending = Some(note);
                Answer::NoReply
            }
            Err(StoreError::OutOfMemory) => Answer::OutOfMemory,
        }
    }

    /// Restarts the disk, and says whether the pending note stood. Where it fails, the note stays pending, and it may
    /// be called again.
    pub fn revive(&mut self, alloc: Global) -> Result<Revived, StoreError>
        requires knows { Knows (D.seen self.old.disk) (D.images self.old.disk)
            self.old.log self.old.tally self.old.pending }
        requires pending { IsSome self.old.pending }
        ensures ends { IfOk result (λ revived. IfSome self.old.pending (λ note.
            Ends revived self.old.tally note self.new.tally)) }
        ensures open { OnOk result (self.new.pending ≡ None) }
        ensures knows { Knows (D.seen self.new.disk) (D.images self.new.disk)
            self.new.log self.new.tally self.new.pending }
        ensures tally { OnErr result (self.new.tally ≡ self.old.tally) }
        ensures pending { OnErr result (self.new.pending ≡ self.old.pending) }

        // A crash at any moment of the call leaves the tally before the note, or with it.
        ensures any_moment { IfSome self.old.pending (λ note.
            LeavesOnly D.moment D.left_since self.old.disk self.new.disk
            (Either tally_of with_note (layout_of self.old.log.half)
            (of_event with_note self.old.tally note))) }
        ensures cause { IsErrOf result StoreError.Failed
            → HasRisen (D.fault_count self.old.disk) (D.fault_count self.new.disk) }
        ensures faults { D.fault_count self.old.disk ≤ D.fault_count self.new.disk }
        ensures plan { D.armed self.new.disk ≡ D.armed self.old.disk }
        ensures pair { layout_of self.new.log.half ≡ layout_of self.old.log.half }
    {
        let Some(note) = &self.pending else {
            unreachable!()
        };
        let Some(next) = self.tally.with_note(note.as_slice()) else {
            unreachable!()
        };
        let revived = self
            .log
            .revive(alloc, &mut self.disk, note.as_slice(), &self.tally)?;
        self.pending = None;
        match revived {
            Revived::Stood => self.tally = next,
            Revived::Lost => {}
        }
        Ok(revived)
    }

    /// Hands the disk back.
    pub fn close(self) -> D
        ensures { result ≡ self.disk }
    {
        let TallyLog {
            disk,
            log: _,
            tally: _,
            pending: _,
        } = self;
        disk
    }
}
