//! The log, and its event.
ghost use Rattle.std.specs.Prelude.{◌≡◌, ◌⊎◌, ◌+◌, ◌≤◌, ◌<◌, true, false, Some, length, OnOk, OnErr, IsErrOf};
ghost use Rattle.disk_core.specs.Images.{EachImage, Only};
ghost use Rattle.disk_core.specs.Moments.{LeavesOnly};
ghost use Rattle.disk_core.specs.Served.{IsServed};
ghost use Rattle.checkpoint.specs.Halves as halves;
ghost use Rattle.event_log.specs.Beside.{InHalves};
ghost use Rattle.event_log.specs.Holds.{Holds, StandsFor};
ghost use Rattle.event_log.specs.Doubts.{Either, Fits, HasNoRoom, InDoubt, MaySwitch, behind, switched, of_event};
ghost use Rattle.event_log.specs.Runs.{KnowsAfter, settled, append_turn};

use crate::stored::Stored;
use checkpoint::{StoreError, journal_area, layout_of, open_reserved, other, prepare};
use disk_core::Disk;
use journal::{Journal, JournalError};
use std::alloc::Global;

/// Where a log goes on: the half that counts, its generation, and how many bytes its journal's records take.
#[derive(Clone, Copy, Debug, PartialEq, Eq, Drop)]
pub struct Log {
    pub half: u8,
    pub generation: u64,
    pub used: u64,
}

impl Log {
    /// Adds the event of this record to the present state. Where the record doesn't fit behind the others, the halves
    /// are switched first.
    ///
    /// After `Failed` the event is in doubt, until `revive` says whether it stood.
    pub fn append<D: Disk, S: Stored>(
        &mut self,
        alloc: Global,
        disk: &mut D,
        event: &[u8],
        present: &S,
    ) -> Result<(), StoreError>
        requires holds { EachImage (D.images disk.old)
            (Holds S.start S.step self.old (Some present.now)) }
        requires durable { Only (D.seen disk.old) (D.images disk.old) }
        requires storable { S.storable present.now }
        requires short { length event.now + 6 ≤ (halves.layout_of self.old.half).journal_len }
        requires long { S.longest ≤ (halves.layout_of self.old.half).state_max }
        ensures acknowledged { OnOk result (EachImage (D.images disk.new)
            (Holds S.start S.step self.new (S.step present.now event.now))) }
        ensures durable { OnOk result (Only (D.seen disk.new) (D.images disk.new)) }

        // A crash at any moment of the call leaves the state before the event, or after it.
        ensures any_moment { LeavesOnly D.moment D.left_since disk.old disk.new
            (Either S.start S.step (halves.layout_of self.old.half)
            (of_event S.step present.now event.now)) }
        ensures in_doubt { IsErrOf result StoreError.Failed → EachImage (D.images disk.new)
            (InDoubt S.start S.step self.new (of_event S.step present.now event.now)) }

        // Where the last generation has no room, nothing is written.
        ensures last { self.old.generation ≡ 18446744073709551615
            → HasNoRoom self.old (length event.now) → IsErrOf result StoreError.OutOfMemory }

        // Where a switch failed, `revive` will find the event lost.
        ensures switching { IsErrOf result StoreError.Failed → self.new ≡ self.old
            → HasNoRoom self.old (length event.now)
            → EachImage (D.images disk.new) (MaySwitch S.start S.step self.old (Some present.now)) }

        // Where the record goes: behind the others where it fits, else first in the other half, with the next
        // generation.
        ensures here { Fits self.old (length event.now)
            → OnOk result (self.new ≡ behind self.old (length event.now)) }
        ensures beyond { HasNoRoom self.old (length event.now)
            → OnOk result (self.new ≡ behind (switched self.old) (length event.now)) }
        ensures here_failed { Fits self.old (length event.now)
            → OnErr result (self.new ≡ self.old) }
        ensures beyond_failed { HasNoRoom self.old (length event.now)
            → OnErr result ((self.new ≡ self.old) ⊎ (self.new ≡ switched self.old)) }
        ensures memory { IsErrOf result StoreError.OutOfMemory
            → EachImage (D.images disk.new) (Holds S.start S.step self.new (Some present.now))
            × Only (D.seen disk.new) (D.images disk.new) }
        ensures memory_moment { IsErrOf result StoreError.OutOfMemory
            → LeavesOnly D.moment D.left_since disk.old disk.new
            (StandsFor S.start S.step (halves.layout_of self.old.half) (Some present.now)) }
        ensures pair { halves.layout_of self.new.half ≡ halves.layout_of self.old.half }
        // What is known then, for runs of calls.
        ensures known { KnowsAfter S.start S.step self.new (settled present.now)
            (append_turn event.now result) (D.images disk.new) }
        // No byte outside the halves changes.
        ensures elsewhere { LeavesOnly D.moment D.left_since disk.old disk.new
            (InHalves (halves.layout_of self.old.half) (D.seen disk.old)) }
        ensures served { IsServed D.seen D.fault_count D.armed (IsErrOf result StoreError.Failed)
            disk.old disk.new }
    {
        self.make_room(alloc, disk, event, present)?;
        self.append_here(alloc, disk, event, present)
    }

    /// The record fits behind the others.
    fn fits(&self, event: &[u8]) -> bool
        requires half { self.now.half < 4 }
        requires used { self.now.used < (halves.layout_of self.now.half).journal_len }
        requires short { length event.now + 6 ≤ (halves.layout_of self.now.half).journal_len }
        ensures yes { result ≡ true → Fits self.now (length event.now) }
        ensures no { result ≡ false → HasNoRoom self.now (length event.now) }
    {
        self.used + 6 + event.len() as u64 <= layout_of(self.half).journal_len
    }

    /// Switches the halves where the record doesn't fit.
    fn make_room<D: Disk, S: Stored>(
        &mut self,
        alloc: Global,
        disk: &mut D,
        event: &[u8],
        present: &S,
    ) -> Result<(), StoreError>
        requires holds { EachImage (D.images disk.old)
            (Holds S.start S.step self.old (Some present.now)) }
        requires durable { Only (D.seen disk.old) (D.images disk.old) }
        requires storable { S.storable present.now }
        requires short { length event.now + 6 ≤ (halves.layout_of self.old.half).journal_len }
        requires long { S.longest ≤ (halves.layout_of self.old.half).state_max }
        ensures stays { Fits self.old (length event.now) → self.new ≡ self.old }
        ensures turns { HasNoRoom self.old (length event.now)
            → OnOk result (self.new ≡ switched self.old) }
        ensures last { self.old.generation ≡ 18446744073709551615
            → HasNoRoom self.old (length event.now) → IsErrOf result StoreError.OutOfMemory }
        ensures room { OnOk result (Fits self.new (length event.now)) }
        ensures holds { OnOk result (EachImage (D.images disk.new)
            (Holds S.start S.step self.new (Some present.now))) }
        ensures durable { OnOk result (Only (D.seen disk.new) (D.images disk.new)) }
        ensures any_moment { LeavesOnly D.moment D.left_since disk.old disk.new
            (MaySwitch S.start S.step self.old (Some present.now)) }
        ensures same { OnErr result (self.new ≡ self.old) }
        ensures memory { IsErrOf result StoreError.OutOfMemory
            → EachImage (D.images disk.new) (Holds S.start S.step self.old (Some present.now))
            × Only (D.seen disk.new) (D.images disk.new) }
        ensures pair { halves.layout_of self.new.half ≡ halves.layout_of self.old.half }
        // No byte outside the halves changes.
        ensures elsewhere { LeavesOnly D.moment D.left_since disk.old disk.new
            (InHalves (halves.layout_of self.old.half) (D.seen disk.old)) }
        ensures served { IsServed D.seen D.fault_count D.armed (IsErrOf result StoreError.Failed)
            disk.old disk.new }
    {
        if self.fits(event) {
            return Ok(());
        }
        self.switch(alloc, disk, present)
    }

    /// Writes the present state to the other half, with the next generation, and goes on there, behind no record.
    fn switch<D: Disk, S: Stored>(
        &mut self,
        alloc: Global,
        disk: &mut D,
        present: &S,
    ) -> Result<(), StoreError>
        requires holds { EachImage (D.images disk.old)
            (Holds S.start S.step self.old (Some present.now)) }
        requires durable { Only (D.seen disk.old) (D.images disk.old) }
        requires storable { S.storable present.now }
        requires long { S.longest ≤ (halves.layout_of self.old.half).state_max }
        ensures switched { OnOk result (self.new ≡ switched self.old) }
        // No generation is above the last u64.
        ensures last { self.old.generation ≡ 18446744073709551615
            → IsErrOf result StoreError.OutOfMemory }
        ensures holds { OnOk result (EachImage (D.images disk.new)
            (Holds S.start S.step self.new (Some present.now))) }
        ensures durable { OnOk result (Only (D.seen disk.new) (D.images disk.new)) }

        // A crash at any moment of the call leaves the present state, on one half or the other.
        ensures any_moment { LeavesOnly D.moment D.left_since disk.old disk.new
            (MaySwitch S.start S.step self.old (Some present.now)) }
        ensures same { OnErr result (self.new ≡ self.old) }
        ensures memory { IsErrOf result StoreError.OutOfMemory
            → EachImage (D.images disk.new) (Holds S.start S.step self.old (Some present.now))
            × Only (D.seen disk.new) (D.images disk.new) }
        ensures pair { halves.layout_of self.new.half ≡ halves.layout_of self.old.half }
        // No byte outside the halves changes.
        ensures elsewhere { LeavesOnly D.moment D.left_since disk.old disk.new
            (InHalves (halves.layout_of self.old.half) (D.seen disk.old)) }
        ensures served { IsServed D.seen D.fault_count D.armed (IsErrOf result StoreError.Failed)
            disk.old disk.new }
    {
        if self.generation == u64::MAX {
            return Err(StoreError::OutOfMemory);
        }
        let half = other(self.half);
        let generation = self.generation + 1;
        let text = present.text(alloc)?;
        prepare(alloc, disk, half, generation, &text)?;
        open_reserved(disk, half)?;
        *self = Log {
            half,
            generation,
            used: 0,
        };
        Ok(())
    }

    /// Adds the event's record, which fits, behind the others.
    fn append_here<D: Disk, S: Stored>(
        &mut self,
        alloc: Global,
        disk: &mut D,
        event: &[u8],
        present: &S,
    ) -> Result<(), StoreError>
        requires holds { EachImage (D.images disk.old)
            (Holds S.start S.step self.old (Some present.now)) }
        requires durable { Only (D.seen disk.old) (D.images disk.old) }
        requires room { Fits self.old (length event.now) }
        ensures acknowledged { OnOk result (EachImage (D.images disk.new)
            (Holds S.start S.step self.new (S.step present.now event.now))) }
        ensures durable { OnOk result (Only (D.seen disk.new) (D.images disk.new)) }
        ensures behind { OnOk result (self.new ≡ behind self.old (length event.now)) }
        ensures same { OnErr result (self.new ≡ self.old) }
        ensures any_moment { LeavesOnly D.moment D.left_since disk.old disk.new
            (InDoubt S.start S.step self.old (of_event S.step present.now event.now)) }
        ensures in_doubt { IsErrOf result StoreError.Failed → EachImage (D.images disk.new)
            (InDoubt S.start S.step self.new (of_event S.step present.now event.now)) }
        ensures memory { IsErrOf result StoreError.OutOfMemory
            → EachImage (D.images disk.new) (Holds S.start S.step self.new (Some present.now))
            × Only (D.seen disk.new) (D.images disk.new) }
        ensures memory_moment { IsErrOf result StoreError.OutOfMemory
            → LeavesOnly D.moment D.left_since disk.old disk.new
            (StandsFor S.start S.step (halves.layout_of self.old.half) (Some present.now)) }
        // No byte outside the halves changes.
        ensures elsewhere { LeavesOnly D.moment D.left_since disk.old disk.new
            (InHalves (halves.layout_of self.old.half) (D.seen disk.old)) }
        ensures served { IsServed D.seen D.fault_count D.armed (IsErrOf result StoreError.Failed)
            disk.old disk.new }
    {
        let mut journal = Journal::at(journal_area(self.half), self.used);
        match journal.append(alloc, disk, event) {
            Ok(()) => {
                self.used = journal.used;
                Ok(())
            }
            Err(JournalError::Full) => unreachable!(),
            Err(JournalError::Failed) => Err(StoreError::Failed),
            Err(JournalError::OutOfMemory) => Err(StoreError::OutOfMemory),
        }
    }
}
