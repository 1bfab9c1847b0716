//! Queries of the node, with its entries in memory.
ghost use Rattle.std.specs.Prelude.{◌≡◌, ◌≤◌};
ghost use Rattle.node_gate.specs.Calls.{AsksTo, CarriesRise};
ghost use Rattle.node_gate.specs.Stands.{Knows, StandsFor, listing_in, node_at};
ghost use Rattle.node_gate.specs.declared.opening.Opening.{Opening as an_opening};

use crate::answers::AskAnswer;
use crate::shared::SharedNode;
use checkpoint::StoreError;
use disk_core::Disk;
use pm_types::Query;
use std::alloc::{AllocError, Global};
use ucm_base::ClientId;

impl<D: Disk> SharedNode<D> {
    /// Answers a query after all entries. A closed node is opened again first.
    pub(crate) fn ask(&mut self, alloc: Global, client: ClientId, query: &Query) -> AskAnswer
        requires known { Knows D.seen D.images self.old.node }
        ensures asks { (o : an_opening D)
            → StandsFor D.moment D.left_since D.seen D.images self.old.fails.items o
            self.old.node self.old.entries.items self.old.pending
            → AsksTo (node_at D.seen o) client query.now result
            (listing_in self.old) (listing_in self.new) }
        ensures stands { (o : an_opening D)
            → StandsFor D.moment D.left_since D.seen D.images self.old.fails.items o
            self.old.node self.old.entries.items self.old.pending
            → StandsFor D.moment D.left_since D.seen D.images self.new.fails.items o
            self.new.node self.new.entries.items self.new.pending }
        ensures fails { self.new.fails ≡ self.old.fails }

        // Without a reply it carries how far the count of faults rose in the call.
        ensures carries { CarriesRise result (D.fault_count self.old.node.extents.disk)
            (D.fault_count self.new.node.extents.disk) }
        ensures faults { D.fault_count self.old.node.extents.disk
            ≤ D.fault_count self.new.node.extents.disk }
        ensures plan { D.armed self.new.node.extents.disk ≡ D.armed self.old.node.extents.disk }
    {
        let before = self.node.faults();
        match self.settle(alloc) {
            Ok(()) => {
                let place = self.entries.len() as u64;
                match self.node.query(alloc, client, query) {
                    Ok(answer) => AskAnswer::At { place, answer },
                    Err(AllocError) => AskAnswer::OutOfMemory,
                }
            }
            Err(StoreError::OutOfMemory) => AskAnswer::OutOfMemory,
            Err(StoreError::Failed) => AskAnswer::NoReply {
                faults: self.rise(before),
            },
        }
    }
}
