//! The units of work of a durable node: what one needs is made ready, then its record is appended, then it is done.
ghost use Rattle.std.specs.Prelude.{◌≡◌, ◌<◌, ◌≤◌, ◌+◌, false, true, IfOk, OnOk, OnErr, IsErrOf};
ghost use Rattle.disk_core.specs.Images.{EachImage};
ghost use Rattle.disk_core.specs.Moments.{LeavesOnly};
ghost use Rattle.fault_count.specs.Faults.{HasRisen};
ghost use Rattle.ucm_base.specs.Limits.{entry_limit};
ghost use Rattle.pm_types.specs.declared.replies.Worked.TheVariants.{Unit as UnitDone};
ghost use Rattle.node_core.specs.Core.{over};
ghost use Rattle.node_core.specs.Units.{IsReservedWork, after_work, answer_to};
ghost use Rattle.slot_store.specs.Extents.{held_in, node_places};
ghost use Rattle.node_store.specs.Answers.{AnswersWork, CarriesWork, closes_work};
ghost use Rattle.node_store.specs.Open.{IsOpen};
ghost use Rattle.node_store.specs.Serving.{Serves, ServesEither, node_on};

use crate::answers::WorkAnswer;
use crate::node::Node;
use crate::text::text_of_unit;
use checkpoint::StoreError;
use disk_core::Disk;
use node_core::ReserveError;
use pm_types::{Status, Worked};
use std::alloc::Global;
use ucm_base::ClusterName;

impl<D: Disk> Node<D> {
    /// Does the next unit of work, where clusters of these names fail when they are verified: copies what it brings of a
    /// package to the inactive side, records it, and answers.
    pub fn work(&mut self, alloc: Global, fails: &[ClusterName]) -> WorkAnswer
        requires known { IsOpen self.old.log self.old.ready
            (D.seen self.old.extents.disk) (D.images self.old.extents.disk) }
        requires open { self.old.is_closed ≡ false }
        requires entries { self.old.ready.state.entries < entry_limit }
        ensures answers { AnswersWork
            (node_on self.old.ready.state (D.seen self.old.extents.disk)) fails.now result
            (node_on self.new.ready.state (D.seen self.new.extents.disk)) }
        ensures closed { self.new.is_closed ≡ closes_work result }

        // After a fault the node in memory is as before, and a crash leaves it or the one after the unit.
        ensures kept { self.new.is_closed ≡ true → self.new.ready.state ≡ self.old.ready.state }
        ensures pending { self.new.is_closed ≡ true → EachImage (D.images self.new.extents.disk)
            (ServesEither (node_on self.old.ready.state (D.seen self.old.extents.disk))
            (after_work fails.now
            (node_on self.old.ready.state (D.seen self.old.extents.disk)))) }
        ensures known { self.new.is_closed ≡ false → IsOpen self.new.log self.new.ready
            (D.seen self.new.extents.disk) (D.images self.new.extents.disk) }

        // After an answer each image serves for the node after the unit.
        ensures durable { self.new.is_closed ≡ false → EachImage (D.images self.new.extents.disk)
            (Serves (node_on self.new.ready.state (D.seen self.new.extents.disk))) }

        // A crash at any moment of the call leaves the node before it, or after it.
        ensures any_moment { LeavesOnly D.moment D.left_since
            self.old.extents.disk self.new.extents.disk
            (ServesEither (node_on self.old.ready.state (D.seen self.old.extents.disk))
            (after_work fails.now
            (node_on self.old.ready.state (D.seen self.old.extents.disk)))) }
        ensures carries { CarriesWork result (D.fault_count self.old.extents.disk)
            (D.fault_count self.new.extents.disk) }
        ensures faults { D.fault_count self.old.extents.disk
            ≤ D.fault_count self.new.extents.disk }
        ensures entries { self.new.ready.state.entries
            ≤ self.old.ready.state.entries + 1 }
        ensures plan { D.armed self.new.extents.disk ≡ D.armed self.old.extents.disk }
    {
        let before = self.extents.disk.faults();
        match self.step_work(alloc, fails) {
            Ok(worked) => WorkAnswer::Worked(worked),
            Err(StoreError::OutOfMemory) => WorkAnswer::OutOfMemory,
            Err(StoreError::Failed) => {
                self.is_closed = true;
                WorkAnswer::NoReply {
                    faults: (self.extents.disk.faults() - before).max(1),
                }
            }
        }
    }

    /// Does a unit: what it needs is made ready, its record is appended, and it is done.
    fn step_work(&mut self, alloc: Global, fails: &[ClusterName]) -> Result<Worked, StoreError>
        requires known { IsOpen self.old.log self.old.ready
            (D.seen self.old.extents.disk) (D.images self.old.extents.disk) }
        requires entries { self.old.ready.state.entries < entry_limit }
        ensures answer { IfOk result (λ worked. worked ≡ answer_to fails.now
            (node_on self.old.ready.state (D.seen self.old.extents.disk))) }
        ensures node { OnOk result (node_on self.new.ready.state (D.seen self.new.extents.disk)
            ≡ after_work fails.now
            (node_on self.old.ready.state (D.seen self.old.extents.disk))) }
        ensures known { OnOk result (IsOpen self.new.log self.new.ready
            (D.seen self.new.extents.disk) (D.images self.new.extents.disk)) }
        ensures memory { IsErrOf result StoreError.OutOfMemory
            → IsOpen self.new.log self.new.ready
            (D.seen self.new.extents.disk) (D.images self.new.extents.disk)
            × (node_on self.new.ready.state (D.seen self.new.extents.disk)
            ≡ node_on self.old.ready.state (D.seen self.old.extents.disk)) }
        ensures any_moment { LeavesOnly D.moment D.left_since
            self.old.extents.disk self.new.extents.disk
            (ServesEither (node_on self.old.ready.state (D.seen self.old.extents.disk))
            (after_work fails.now
            (node_on self.old.ready.state (D.seen self.old.extents.disk)))) }
        ensures kept { OnErr result (self.new.ready.state ≡ self.old.ready.state) }
        ensures closed { self.new.is_closed ≡ self.old.is_closed }
        ensures cause { IsErrOf result StoreError.Failed
            → HasRisen (D.fault_count self.old.extents.disk)
            (D.fault_count self.new.extents.disk) }
        ensures faults { D.fault_count self.old.extents.disk
            ≤ D.fault_count self.new.extents.disk }
        ensures entries { self.new.ready.state.entries
            ≤ self.old.ready.state.entries + 1 }
        ensures plan { D.armed self.new.extents.disk ≡ D.armed self.old.extents.disk }
    {
        match self.foresee_work(alloc, fails)? {
            Worked::Unit { passed, after } => self.enter_work(alloc, fails, passed, after),
            Worked::Nothing { status } => Ok(Worked::Nothing { status }),
        }
    }

    /// Makes ready what the next unit needs, copies what it brings of a package, and foresees what it gives. The node
    /// stays as it is, and nothing is pending after a fault.
    pub fn foresee_work(
        &mut self,
        alloc: Global,
        fails: &[ClusterName],
    ) -> Result<Worked, StoreError>
        requires known { IsOpen self.old.log self.old.ready
            (D.seen self.old.extents.disk) (D.images self.old.extents.disk) }
        ensures worked { IfOk result (λ worked. worked ≡ answer_to fails.now
            (node_on self.old.ready.state (D.seen self.old.extents.disk))) }
        ensures known { OnOk result (IsOpen self.new.log self.new.ready
            (D.seen self.new.extents.disk) (D.images self.new.extents.disk)) }
        ensures memory { IsErrOf result StoreError.OutOfMemory
            → IsOpen self.new.log self.new.ready
            (D.seen self.new.extents.disk) (D.images self.new.extents.disk) }
        ensures node { node_on self.new.ready.state (D.seen self.new.extents.disk)
            ≡ node_on self.old.ready.state (D.seen self.old.extents.disk) }
        ensures state { self.new.ready.state ≡ self.old.ready.state }
        ensures reserved { OnOk result (IsReservedWork
            (over (held_in node_places (D.seen self.new.extents.disk)) self.new.ready)) }

        // A crash at any moment of the call leaves the node.
        ensures any_moment { LeavesOnly D.moment D.left_since
            self.old.extents.disk self.new.extents.disk
            (Serves (node_on self.old.ready.state (D.seen self.old.extents.disk))) }
        ensures closed { self.new.is_closed ≡ self.old.is_closed }
        ensures cause { IsErrOf result StoreError.Failed
            → HasRisen (D.fault_count self.old.extents.disk)
            (D.fault_count self.new.extents.disk) }
        ensures faults { D.fault_count self.old.extents.disk
            ≤ D.fault_count self.new.extents.disk }
        ensures plan { D.armed self.new.extents.disk ≡ D.armed self.old.extents.disk }
    {
        self.stage_work(alloc)?;
        Ok(self.ready.foresee_work(fails))
    }

    /// Makes ready what the next unit needs, and copies what it brings of a package.
    fn stage_work(&mut self, alloc: Global) -> Result<(), StoreError>
        requires known { IsOpen self.old.log self.old.ready
            (D.seen self.old.extents.disk) (D.images self.old.extents.disk) }
        ensures known { OnOk result (IsOpen self.new.log self.new.ready
            (D.seen self.new.extents.disk) (D.images self.new.extents.disk)) }
        ensures memory { IsErrOf result StoreError.OutOfMemory
            → IsOpen self.new.log self.new.ready
            (D.seen self.new.extents.disk) (D.images self.new.extents.disk) }
        ensures node { node_on self.new.ready.state (D.seen self.new.extents.disk)
            ≡ node_on self.old.ready.state (D.seen self.old.extents.disk) }
        ensures state { self.new.ready.state ≡ self.old.ready.state }
        ensures reserved { OnOk result (IsReservedWork
            (over (held_in node_places (D.seen self.new.extents.disk)) self.new.ready)) }
        // A crash at any moment of the call leaves the node.
        ensures any_moment { LeavesOnly D.moment D.left_since
            self.old.extents.disk self.new.extents.disk
            (Serves (node_on self.old.ready.state (D.seen self.old.extents.disk))) }
        ensures closed { self.new.is_closed ≡ self.old.is_closed }
        ensures cause { IsErrOf result StoreError.Failed
            → HasRisen (D.fault_count self.old.extents.disk)
            (D.fault_count self.new.extents.disk) }
        ensures faults { D.fault_count self.old.extents.disk
            ≤ D.fault_count self.new.extents.disk }
        ensures plan { D.armed self.new.extents.disk ≡ D.armed self.old.extents.disk }
    {
        match self.ready.reserve_work(alloc, &mut self.extents) {
            Ok(()) => Ok(()),
            Err(ReserveError::StagingFailed) => Err(StoreError::Failed),
            Err(ReserveError::OutOfMemory) => Err(StoreError::OutOfMemory),
        }
    }

    /// Records a unit that was foreseen, for which all is ready, and does it.
    pub fn enter_work(
        &mut self,
        alloc: Global,
        fails: &[ClusterName],
        passed: bool,
        after: Status,
    ) -> Result<Worked, StoreError>
        requires known { IsOpen self.old.log self.old.ready
            (D.seen self.old.extents.disk) (D.images self.old.extents.disk) }
        requires entries { self.old.ready.state.entries < entry_limit }
        requires reserved { IsReservedWork
            (over (held_in node_places (D.seen self.old.extents.disk)) self.old.ready) }
        requires due { answer_to fails.now
            (node_on self.old.ready.state (D.seen self.old.extents.disk))
            ≡ UnitDone passed after }
        ensures answer { IfOk result (λ worked. worked ≡ answer_to fails.now
            (node_on self.old.ready.state (D.seen self.old.extents.disk))) }
        ensures node { OnOk result (node_on self.new.ready.state (D.seen self.new.extents.disk)
            ≡ after_work fails.now
            (node_on self.old.ready.state (D.seen self.old.extents.disk))) }
        ensures known { OnOk result (IsOpen self.new.log self.new.ready
            (D.seen self.new.extents.disk) (D.images self.new.extents.disk)) }
        ensures memory { IsErrOf result StoreError.OutOfMemory
            → IsOpen self.new.log self.new.ready
            (D.seen self.new.extents.disk) (D.images self.new.extents.disk)
            × (node_on self.new.ready.state (D.seen self.new.extents.disk)
            ≡ node_on self.old.ready.state (D.seen self.old.extents.disk)) }
        ensures any_moment { LeavesOnly D.moment D.left_since
            self.old.extents.disk self.new.extents.disk
            (ServesEither (node_on self.old.ready.state (D.seen self.old.extents.disk))
            (after_work fails.now
            (node_on self.old.ready.state (D.seen self.old.extents.disk)))) }
        ensures kept { OnErr result (self.new.ready.state ≡ self.old.ready.state) }
        ensures closed { self.new.is_closed ≡ self.old.is_closed }
        ensures cause { IsErrOf result StoreError.Failed
            → HasRisen (D.fault_count self.old.extents.disk)
            (D.fault_count self.new.extents.disk) }
        ensures faults { D.fault_count self.old.extents.disk
            ≤ D.fault_count self.new.extents.disk }
        ensures entries { self.new.ready.state.entries
            ≤ self.old.ready.state.entries + 1 }
        ensures plan { D.armed self.new.extents.disk ≡ D.armed self.old.extents.disk }
    {
        let text = text_of_unit(alloc, passed, after)?;
        self.record(alloc, &text)?;
        Ok(self.ready.work(fails))
    }
}
