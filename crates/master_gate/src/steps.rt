//! Adds and looks at the list, with its events in memory.
ghost use Rattle.std.specs.Prelude.{◌≡◌, ◌≤◌, ◌++◌, ◌∷◌, [], None, IsSome, OnOk, OnErr, IsErrOf};
ghost use Rattle.fault_count.specs.Faults.{HasRisen};
ghost use Rattle.turn_gate.specs.Mine.{Settles};
ghost use Rattle.decision_log.specs.Answers.{Carries};
ghost use Rattle.master_gate.specs.Adds.{AddsTo, CarriesRise, LooksAt};
ghost use Rattle.master_gate.specs.Room.{HasRoom};
ghost use Rattle.master_gate.specs.Stands.{Knows, StandsFor, listing_in};
ghost use Rattle.master_gate.specs.declared.opening.Opening.{Opening as an_opening};

use crate::answers::LookAnswer;
use crate::shared::SharedLog;
use campaign_core::MasterEvent;
use checkpoint::StoreError;
use decision_log::{AddAnswer, MasterRevived};
use disk_core::Disk;
use std::alloc::{AllocError, Global};

/// The most events of a list in memory.
const MOST: usize = 1 << 40;

impl<D: Disk> SharedLog<D> {
    /// Makes room for two events more: what is pending, and a new one.
    fn make_room(&mut self) -> Result<(), AllocError>
        ensures log { self.new.log ≡ self.old.log }
        ensures events { self.new.events.items ≡ self.old.events.items }
        ensures room { OnOk result (HasRoom 2 self.new.events) }
    {
        if self.events.len() >= MOST {
            return Err(AllocError);
        }
        self.events.reserve(2)
    }

    /// Lists an event that is recorded. In an Option it passes the check, which else finds no module for its parts (a
    /// fault of the kit).
    fn list(&mut self, event: MasterEvent)
        requires room { HasRoom 1 self.old.events }
        ensures log { self.new.log ≡ self.old.log }
        ensures events { self.new.events.items ≡ self.old.events.items ++ event ∷ [] }
        ensures room { HasRoom 2 self.old.events → HasRoom 1 self.new.events }
    {
        if let Some(event) = Some(event) {
            self.events.push_reserved(event);
        }
    }

    /// Opens a closed list again: what was pending stands behind the others, or is lost.
    fn settle(&mut self, alloc: Global) -> Result<(), StoreError>
        requires known { Knows D.seen D.images self.old.log }
        ensures settled { OnOk result
            (Settles self.old.log.pending self.old.events.items self.new.events.items) }
        ensures open { OnOk result (self.new.log.pending ≡ None) }
        ensures closed { OnErr result (IsSome self.old.log.pending) }
        ensures same { OnErr result (listing_in self.new ≡ listing_in self.old) }
        ensures known { Knows D.seen D.images self.new.log }
        ensures stands { (o : an_opening D)
            → StandsFor D.moment D.left_since D.seen D.images o self.old.log self.old.events.items
            → StandsFor D.moment D.left_since D.seen D.images o
            self.new.log self.new.events.items }
        ensures room { HasRoom 2 self.old.events → OnOk result (HasRoom 1 self.new.events) }
        ensures cause { IsErrOf result StoreError.Failed
            → HasRisen (D.fault_count self.old.log.disk) (D.fault_count self.new.log.disk) }
        ensures faults { D.fault_count self.old.log.disk ≤ D.fault_count self.new.log.disk }
        ensures plan { D.armed self.new.log.disk ≡ D.armed self.old.log.disk }
    {
        if !self.log.is_closed() {
            return Ok(());
        }
        self.make_room()?;
        match self.log.revive(alloc)? {
            MasterRevived::Stood { event: stood } => {
                self.list(stood);
                Ok(())
            }
            MasterRevived::Lost | MasterRevived::Nothing => Ok(()),
        }
    }

    /// Adds an event to a list that is open, in a call that began with this count of faults.
    fn add_open(&mut self, alloc: Global, event: &MasterEvent, before: u64) -> AddAnswer
        requires known { Knows D.seen D.images self.old.log }
        requires open { self.old.log.pending ≡ None }
        requires room { HasRoom 1 self.old.events }
        requires began { before ≤ D.fault_count self.old.log.disk }
        ensures adds { (o : an_opening D)
            → StandsFor D.moment D.left_since D.seen D.images o self.old.log self.old.events.items
            → AddsTo o.fold event.now result (listing_in self.old) (listing_in self.new) }
        ensures stands { (o : an_opening D)
            → StandsFor D.moment D.left_since D.seen D.images o self.old.log self.old.events.items
            → StandsFor D.moment D.left_since D.seen D.images o
            self.new.log self.new.events.items }
        ensures carries { Carries result before (D.fault_count self.new.log.disk) }
        ensures faults { D.fault_count self.old.log.disk ≤ D.fault_count self.new.log.disk }
        ensures plan { D.armed self.new.log.disk ≡ D.armed self.old.log.disk }
    {
        match self.log.add(alloc, *event) {
            AddAnswer::Added => {
                self.list(*event);
                AddAnswer::Added
            }
            AddAnswer::Refused(refusal) => AddAnswer::Refused(refusal),
            AddAnswer::NoReply { .. } => {
                let faults = self.log.rise(before);
                AddAnswer::NoReply { faults }
            }
            AddAnswer::OutOfMemory => AddAnswer::OutOfMemory,
        }
    }

    /// Adds an event, where the table allows it behind the list. A closed list is opened again first.
    pub(crate) fn add(&mut self, alloc: Global, event: MasterEvent) -> AddAnswer
        requires known { Knows D.seen D.images self.old.log }
        ensures adds { (o : an_opening D)
            → StandsFor D.moment D.left_since D.seen D.images o self.old.log self.old.events.items
            → AddsTo o.fold event result (listing_in self.old) (listing_in self.new) }
        ensures stands { (o : an_opening D)
            → StandsFor D.moment D.left_since D.seen D.images o self.old.log self.old.events.items
            → StandsFor D.moment D.left_since D.seen D.images o
            self.new.log self.new.events.items }

        // Without a reply it carries how far the count of faults rose in the call.
        ensures carries { Carries result (D.fault_count self.old.log.disk)
            (D.fault_count self.new.log.disk) }
        ensures faults { D.fault_count self.old.log.disk ≤ D.fault_count self.new.log.disk }
        ensures plan { D.armed self.new.log.disk ≡ D.armed self.old.log.disk }
    {
        let Ok(()) = self.make_room() else {
            return AddAnswer::OutOfMemory;
        };
        let before = self.log.faults();
        match self.settle(alloc) {
            Ok(()) => self.add_open(alloc, &event, before),
            Err(StoreError::Failed) => AddAnswer::NoReply {
                faults: self.log.rise(before),
            },
            Err(StoreError::OutOfMemory) => AddAnswer::OutOfMemory,
        }
    }

    /// What the list comes to. A closed list is opened again first.
    pub(crate) fn look(&mut self, alloc: Global) -> LookAnswer
        requires known { Knows D.seen D.images self.old.log }
        ensures looks { (o : an_opening D)
            → StandsFor D.moment D.left_since D.seen D.images o self.old.log self.old.events.items
            → LooksAt o.fold result (listing_in self.old) (listing_in self.new) }
        ensures stands { (o : an_opening D)
            → StandsFor D.moment D.left_since D.seen D.images o self.old.log self.old.events.items
            → StandsFor D.moment D.left_since D.seen D.images o
            self.new.log self.new.events.items }
        ensures carries { CarriesRise result (D.fault_count self.old.log.disk)
            (D.fault_count self.new.log.disk) }
        ensures faults { D.fault_count self.old.log.disk ≤ D.fault_count self.new.log.disk }
        ensures plan { D.armed self.new.log.disk ≡ D.armed self.old.log.disk }
    {
        let before = self.log.faults();
        match self.settle(alloc) {
            Ok(()) => LookAnswer::At {
                place: self.events.len() as u64,
                view: self.log.view(),
            },
            Err(StoreError::Failed) => LookAnswer::NoReply {
                faults: self.log.rise(before),
            },
            Err(StoreError::OutOfMemory) => LookAnswer::OutOfMemory,
        }
    }
}
