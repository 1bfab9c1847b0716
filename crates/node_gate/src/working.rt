//! Units of work of the node, with its entries in memory.
ghost use Rattle.std.specs.Prelude.{◌≡◌, ◌≤◌, ◌<◌, false};
ghost use Rattle.ucm_base.specs.Limits.{entry_limit};
ghost use Rattle.pm_types.specs.declared.replies.Worked.TheVariants.{Unit as UnitDone};
ghost use Rattle.node_core.specs.Core.{over};
ghost use Rattle.node_core.specs.Units.{IsReservedWork, answer_to};
ghost use Rattle.slot_store.specs.Extents.{held_in, node_places};
ghost use Rattle.node_store.specs.Answers.{CarriesWork};
ghost use Rattle.node_store.specs.Open.{IsOpen};
ghost use Rattle.node_store.specs.Serving.{node_on};
ghost use Rattle.node_gate.specs.Calls.{WorksTo};
ghost use Rattle.node_gate.specs.Room.{HasRoom};
ghost use Rattle.node_gate.specs.Stands.{Knows, StandsFor, listing_in, node_at};
ghost use Rattle.node_gate.specs.declared.opening.Opening.{Opening as an_opening};

use crate::shared::SharedNode;
use crate::steps::MOST_COUNTED;
use checkpoint::StoreError;
use disk_core::Disk;
use node_store::WorkAnswer;
use pm_types::{Entry, Status, Worked};
use std::alloc::Global;

impl<D: Disk> SharedNode<D> {
    /// Records a unit that was foreseen, in a call that began with this count of faults.
    fn enter_work(&mut self, alloc: Global, passed: bool, after: Status, before: u64) -> WorkAnswer
        requires open { self.old.node.is_closed ≡ false }
        requires known { IsOpen self.old.node.log self.old.node.ready
            (D.seen self.old.node.extents.disk) (D.images self.old.node.extents.disk) }
        requires entries { self.old.node.ready.state.entries < entry_limit }
        requires room { HasRoom 1 self.old.entries }
        requires began { before ≤ D.fault_count self.old.node.extents.disk }
        requires reserved { IsReservedWork
            (over (held_in node_places (D.seen self.old.node.extents.disk)) self.old.node.ready) }
        requires due { answer_to self.old.fails.items
            (node_on self.old.node.ready.state (D.seen self.old.node.extents.disk))
            ≡ UnitDone passed after }
        ensures works { (o : an_opening D)
            → StandsFor D.moment D.left_since D.seen D.images self.old.fails.items o
            self.old.node self.old.entries.items self.old.pending
            → WorksTo (node_at D.seen o) result (listing_in self.old) (listing_in self.new) }
        ensures stands { (o : an_opening D)
            → StandsFor D.moment D.left_since D.seen D.images self.old.fails.items o
            self.old.node self.old.entries.items self.old.pending
            → StandsFor D.moment D.left_since D.seen D.images self.new.fails.items o
            self.new.node self.new.entries.items self.new.pending }
        ensures fails { self.new.fails ≡ self.old.fails }
        ensures carries { CarriesWork result before (D.fault_count self.new.node.extents.disk) }
        ensures faults { D.fault_count self.old.node.extents.disk
            ≤ D.fault_count self.new.node.extents.disk }
        ensures plan { D.armed self.new.node.extents.disk ≡ D.armed self.old.node.extents.disk }
    {
        match self
            .node
            .enter_work(alloc, self.fails.as_slice(), passed, after)
        {
            Ok(worked) => {
                self.list(Entry::Unit { passed, after });
                WorkAnswer::Worked(worked)
            }
            Err(StoreError::OutOfMemory) => WorkAnswer::OutOfMemory,
            Err(StoreError::Failed) => {
                let pending = Entry::Unit { passed, after };
                let faults = self.shut(Some(pending), before);
                WorkAnswer::NoReply { faults }
            }
        }
    }

    /// Does the next unit of a node that is open, in a call that began with this count of faults.
    fn work_open(&mut self, alloc: Global, before: u64) -> WorkAnswer
        requires open { self.old.node.is_closed ≡ false }
        requires known { Knows D.seen D.images self.old.node }
        requires room { HasRoom 1 self.old.entries }
        requires began { before ≤ D.fault_count self.old.node.extents.disk }
        ensures works { (o : an_opening D)
            → StandsFor D.moment D.left_since D.seen D.images self.old.fails.items o
            self.old.node self.old.entries.items self.old.pending
            → WorksTo (node_at D.seen o) result (listing_in self.old) (listing_in self.new) }
        ensures stands { (o : an_opening D)
            → StandsFor D.moment D.left_since D.seen D.images self.old.fails.items o
            self.old.node self.old.entries.items self.old.pending
            → StandsFor D.moment D.left_since D.seen D.images self.new.fails.items o
            self.new.node self.new.entries.items self.new.pending }
        ensures fails { self.new.fails ≡ self.old.fails }
        ensures carries { CarriesWork result before (D.fault_count self.new.node.extents.disk) }
        ensures faults { D.fault_count self.old.node.extents.disk
            ≤ D.fault_count self.new.node.extents.disk }
        ensures plan { D.armed self.new.node.extents.disk ≡ D.armed self.old.node.extents.disk }
    {
        if self.node.count() >= MOST_COUNTED {
            return WorkAnswer::OutOfMemory;
        }
        match self.node.foresee_work(alloc, self.fails.as_slice()) {
            Ok(Worked::Unit { passed, after }) => self.enter_work(alloc, passed, after, before),
            Ok(Worked::Nothing { status }) => WorkAnswer::Worked(Worked::Nothing { status }),
            Err(StoreError::OutOfMemory) => WorkAnswer::OutOfMemory,
            Err(StoreError::Failed) => {
                let faults = self.shut(None, before);
                WorkAnswer::NoReply { faults }
            }
        }
    }

    /// Does the node's next unit of work. A closed node is opened again first.
    pub(crate) fn work(&mut self, alloc: Global) -> WorkAnswer
        requires known { Knows D.seen D.images self.old.node }
        ensures works { (o : an_opening D)
            → StandsFor D.moment D.left_since D.seen D.images self.old.fails.items o
            self.old.node self.old.entries.items self.old.pending
            → WorksTo (node_at D.seen o) result (listing_in self.old) (listing_in self.new) }
        ensures stands { (o : an_opening D)
            → StandsFor D.moment D.left_since D.seen D.images self.old.fails.items o
            self.old.node self.old.entries.items self.old.pending
            → StandsFor D.moment D.left_since D.seen D.images self.new.fails.items o
            self.new.node self.new.entries.items self.new.pending }
        ensures fails { self.new.fails ≡ self.old.fails }
        ensures carries { CarriesWork result (D.fault_count self.old.node.extents.disk)
            (D.fault_count self.new.node.extents.disk) }
        ensures faults { D.fault_count self.old.node.extents.disk
            ≤ D.fault_count self.new.node.extents.disk }
        ensures plan { D.armed self.new.node.extents.disk ≡ D.armed self.old.node.extents.disk }
    {
        let Ok(()) = self.make_room() else {
            return WorkAnswer::OutOfMemory;
        };
        let before = self.node.faults();
        match self.settle(alloc) {
            Ok(()) => self.work_open(alloc, before),
            Err(StoreError::OutOfMemory) => WorkAnswer::OutOfMemory,
            Err(StoreError::Failed) => WorkAnswer::NoReply {
                faults: self.rise(before),
            },
        }
    }
}
