//! The calls of a durable node: what one needs is made ready, then its record is appended, then it is done.
ghost use Rattle.std.specs.Prelude.{◌≡◌, ◌<◌, ◌≤◌, ◌+◌, false, true, IfOk, OnOk, OnErr, IsErrOf};
ghost use Rattle.disk_core.specs.Images.{EachImage};
ghost use Rattle.disk_core.specs.Moments.{LeavesOnly};
ghost use Rattle.fault_count.specs.Faults.{HasRisen};
ghost use Rattle.ucm_base.specs.Limits.{entry_limit};
ghost use Rattle.node_core.specs.Core.{IsReserved, over};
ghost use Rattle.slot_store.specs.Extents.{held_in, node_places};
ghost use Rattle.node_store.specs.Answers.{Answers, Carries, closes};
ghost use Rattle.node_store.specs.Open.{IsOpen};
ghost use Rattle.node_store.specs.Serving.{Serves, ServesEither, node_on, stepped};

use crate::answers::NodeAnswer;
use crate::node::Node;
use checkpoint::StoreError;
use disk_core::Disk;
use node_core::ReserveError;
use pm_types::{Call, Reached};
use std::alloc::Global;
use ucm_base::{CallNo, ClientId};

impl<D: Disk> Node<D> {
    /// Executes a numbered call: puts the block that it brings, records it, and answers.
    pub fn exec(&mut self, alloc: Global, client: ClientId, no: CallNo, call: &Call) -> NodeAnswer
        requires known { IsOpen self.old.log self.old.ready
            (D.seen self.old.extents.disk) (D.images self.old.extents.disk) }
        requires open { self.old.is_closed ≡ false }
        requires entries { self.old.ready.state.entries < entry_limit }
        ensures answers { Answers
            (node_on self.old.ready.state (D.seen self.old.extents.disk)) client no call.now result
            (node_on self.new.ready.state (D.seen self.new.extents.disk)) }
        ensures closed { self.new.is_closed ≡ closes result }

        // After a fault the node in memory is as before, and a crash leaves it or the one after the call.
        ensures kept { self.new.is_closed ≡ true → self.new.ready.state ≡ self.old.ready.state }
        ensures pending { self.new.is_closed ≡ true → EachImage (D.images self.new.extents.disk)
            (ServesEither (node_on self.old.ready.state (D.seen self.old.extents.disk))
            (stepped (node_on self.old.ready.state (D.seen self.old.extents.disk))
            client no call.now).0) }
        ensures known { self.new.is_closed ≡ false → IsOpen self.new.log self.new.ready
            (D.seen self.new.extents.disk) (D.images self.new.extents.disk) }

        // After an answer each image serves for the node after the call.
        ensures durable { self.new.is_closed ≡ false → EachImage (D.images self.new.extents.disk)
            (Serves (node_on self.new.ready.state (D.seen self.new.extents.disk))) }

        // A crash at any moment of the call leaves the node before it, or after it.
        ensures any_moment { LeavesOnly D.moment D.left_since
            self.old.extents.disk self.new.extents.disk
            (ServesEither (node_on self.old.ready.state (D.seen self.old.extents.disk))
            (stepped (node_on self.old.ready.state (D.seen self.old.extents.disk))
            client no call.now).0) }
        ensures carries { Carries result (D.fault_count self.old.extents.disk)
            (D.fault_count self.new.extents.disk) }
        ensures faults { D.fault_count self.old.extents.disk
            ≤ D.fault_count self.new.extents.disk }
        ensures entries { self.new.ready.state.entries
            ≤ self.old.ready.state.entries + 1 }
        ensures plan { D.armed self.new.extents.disk ≡ D.armed self.old.extents.disk }
    {
        let before = self.extents.disk.faults();
        match self.step(alloc, client, no, call) {
            Ok(reached) => NodeAnswer::Reached(reached),
            Err(StoreError::OutOfMemory) => NodeAnswer::OutOfMemory,
            Err(StoreError::Failed) => {
                self.is_closed = true;
                NodeAnswer::NoReply {
                    faults: (self.extents.disk.faults() - before).max(1),
                }
            }
        }
    }

    /// Executes a call: what it needs is made ready, its record is appended, and it is done.
    pub(crate) fn step(
        &mut self,
        alloc: Global,
        client: ClientId,
        no: CallNo,
        call: &Call,
    ) -> Result<Reached, StoreError>
        requires known { IsOpen self.old.log self.old.ready
            (D.seen self.old.extents.disk) (D.images self.old.extents.disk) }
        requires entries { self.old.ready.state.entries < entry_limit }
        ensures stepped { IfOk result (λ reached.
            (node_on self.new.ready.state (D.seen self.new.extents.disk), reached)
            ≡ stepped (node_on self.old.ready.state (D.seen self.old.extents.disk))
            client no call.now) }
        ensures known { OnOk result (IsOpen self.new.log self.new.ready
            (D.seen self.new.extents.disk) (D.images self.new.extents.disk)) }
        ensures memory { IsErrOf result StoreError.OutOfMemory
            → IsOpen self.new.log self.new.ready
            (D.seen self.new.extents.disk) (D.images self.new.extents.disk)
            × (node_on self.new.ready.state (D.seen self.new.extents.disk)
            ≡ node_on self.old.ready.state (D.seen self.old.extents.disk)) }
        ensures any_moment { LeavesOnly D.moment D.left_since
            self.old.extents.disk self.new.extents.disk
            (ServesEither (node_on self.old.ready.state (D.seen self.old.extents.disk))
            (stepped (node_on self.old.ready.state (D.seen self.old.extents.disk))
            client no call.now).0) }
        ensures kept { OnErr result (self.new.ready.state ≡ self.old.ready.state) }
        ensures closed { self.new.is_closed ≡ self.old.is_closed }
        ensures cause { IsErrOf result StoreError.Failed
            → HasRisen (D.fault_count self.old.extents.disk)
            (D.fault_count self.new.extents.disk) }
        ensures faults { D.fault_count self.old.extents.disk
            ≤ D.fault_count self.new.extents.disk }
        ensures entries { self.new.ready.state.entries
            ≤ self.old.ready.state.entries + 1 }
        ensures plan { D.armed self.new.extents.disk ≡ D.armed self.old.extents.disk }
    {
        match self.foresee(alloc, client, no, call)? {
            Reached::Done(reply) => self.enter(alloc, client, no, call, &reply),
            Reached::Again(reply) => Ok(Reached::Again(reply)),
            Reached::Stale { last } => Ok(Reached::Stale { last }),
        }
    }

    /// Makes ready what a call needs, puts the block that it brings, and foresees what it gives. The node stays as it
    /// is, and nothing is pending after a fault.
    pub fn foresee(
        &mut self,
        alloc: Global,
        client: ClientId,
        no: CallNo,
        call: &Call,
    ) -> Result<Reached, StoreError>
        requires known { IsOpen self.old.log self.old.ready
            (D.seen self.old.extents.disk) (D.images self.old.extents.disk) }
        ensures reached { IfOk result (λ reached. reached
            ≡ (stepped (node_on self.old.ready.state (D.seen self.old.extents.disk))
            client no call.now).1) }
        ensures known { OnOk result (IsOpen self.new.log self.new.ready
            (D.seen self.new.extents.disk) (D.images self.new.extents.disk)) }
        ensures memory { IsErrOf result StoreError.OutOfMemory
            → IsOpen self.new.log self.new.ready
            (D.seen self.new.extents.disk) (D.images self.new.extents.disk) }
        ensures node { node_on self.new.ready.state (D.seen self.new.extents.disk)
            ≡ node_on self.old.ready.state (D.seen self.old.extents.disk) }
        ensures state { self.new.ready.state ≡ self.old.ready.state }
        ensures reserved { OnOk result (IsReserved
            (over (held_in node_places (D.seen self.new.extents.disk)) self.new.ready)
            client no call.now) }

        // A crash at any moment of the call leaves the node.
        ensures any_moment { LeavesOnly D.moment D.left_since
            self.old.extents.disk self.new.extents.disk
            (Serves (node_on self.old.ready.state (D.seen self.old.extents.disk))) }
        ensures closed { self.new.is_closed ≡ self.old.is_closed }
        ensures cause { IsErrOf result StoreError.Failed
            → HasRisen (D.fault_count self.old.extents.disk)
            (D.fault_count self.new.extents.disk) }
        ensures faults { D.fault_count self.old.extents.disk
            ≤ D.fault_count self.new.extents.disk }
        ensures plan { D.armed self.new.extents.disk ≡ D.armed self.old.extents.disk }
    {
        self.stage(alloc, client, no, call)?;
        Ok(self.ready.foresee(client, no, call))
    }

    /// Makes ready what the call needs, and puts the block that it brings.
    fn stage(
        &mut self,
        alloc: Global,
        client: ClientId,
        no: CallNo,
        call: &Call,
    ) -> Result<(), StoreError>
        requires known { IsOpen self.old.log self.old.ready
            (D.seen self.old.extents.disk) (D.images self.old.extents.disk) }
        ensures known { OnOk result (IsOpen self.new.log self.new.ready
            (D.seen self.new.extents.disk) (D.images self.new.extents.disk)) }
        ensures memory { IsErrOf result StoreError.OutOfMemory
            → IsOpen self.new.log self.new.ready
            (D.seen self.new.extents.disk) (D.images self.new.extents.disk) }
        ensures node { node_on self.new.ready.state (D.seen self.new.extents.disk)
            ≡ node_on self.old.ready.state (D.seen self.old.extents.disk) }
        ensures state { self.new.ready.state ≡ self.old.ready.state }
        ensures reserved { OnOk result (IsReserved
            (over (held_in node_places (D.seen self.new.extents.disk)) self.new.ready)
            client no call.now) }
        // A crash at any moment of the call leaves the node.
        ensures any_moment { LeavesOnly D.moment D.left_since
            self.old.extents.disk self.new.extents.disk
            (Serves (node_on self.old.ready.state (D.seen self.old.extents.disk))) }
        ensures closed { self.new.is_closed ≡ self.old.is_closed }
        ensures cause { IsErrOf result StoreError.Failed
            → HasRisen (D.fault_count self.old.extents.disk)
            (D.fault_count self.new.extents.disk) }
        ensures faults { D.fault_count self.old.extents.disk
            ≤ D.fault_count self.new.extents.disk }
        ensures plan { D.armed self.new.extents.disk ≡ D.armed self.old.extents.disk }
    {
        match self
            .ready
            .reserve(alloc, &mut self.extents, client, no, call)
        {
            Ok(()) => Ok(()),
            Err(ReserveError::StagingFailed) => Err(StoreError::Failed),
            Err(ReserveError::OutOfMemory) => Err(StoreError::OutOfMemory),
        }
    }
}
