//! Opening a node that a fault has closed.
ghost use Rattle.std.specs.Prelude.{◌≡◌, ◌≤◌, false, Some, IfOk, OnOk, OnErr, IsErrOf};
ghost use Rattle.disk_core.specs.Images.{EachImage, Within};
ghost use Rattle.disk_core.specs.Moments.{LeavesOnly};
ghost use Rattle.fault_count.specs.Faults.{HasRisen};
ghost use Rattle.pm_types.specs.NodeState.{NodeState as a_node};
ghost use Rattle.node_recovery.specs.Images.{stored_in};
ghost use Rattle.node_store.specs.Open.{IsOpen};
ghost use Rattle.node_store.specs.Serving.{MakesOne, ServesEither, ServesSome, ended_in, node_on};

use crate::laws::what_serves_can_be_opened;
use crate::node::Node;
use checkpoint::StoreError;
use disk_core::Disk;
use event_log::Revived;
use node_core::Ready;
use node_recovery::{OpenError, recover};
use std::alloc::Global;

impl<D: Disk> Node<D> {
    /// Opens a node that a fault has closed: restarts the disk and reads what it stands for. It says whether the event
    /// stood that was pending, by the number of entries; where none was it answers Lost. It writes nothing; after an
    /// error it can be tried again.
    pub fn revive(&mut self, alloc: Global) -> Result<Revived, StoreError>
        requires serves { EachImage (D.images self.old.extents.disk) ServesSome }
        ensures known { OnOk result (IsOpen self.new.log self.new.ready
            (D.seen self.new.extents.disk) (D.images self.new.extents.disk)) }
        ensures open { OnOk result (self.new.is_closed ≡ false) }
        ensures closed { OnErr result (self.new.is_closed ≡ self.old.is_closed) }
        ensures one { OnOk result (D.images self.old.extents.disk
            (D.seen self.new.extents.disk)) }

        // Of the nodes before an event and after it the disk stands for the one that the answer says.
        ensures ended { IfOk result (λ revived. (n m : a_node)
            → EachImage (D.images self.old.extents.disk) (ServesEither n m)
            → n.entries ≡ self.old.ready.state.entries → MakesOne n m
            → node_on self.new.ready.state (D.seen self.new.extents.disk) ≡ ended_in revived n m) }
        ensures kept { OnErr result (self.new.ready ≡ self.old.ready) }

        // A crash at any moment of the call leaves what one might have left before.
        ensures images { Within (D.images self.old.extents.disk) (D.images self.new.extents.disk) }
        ensures any_moment { LeavesOnly D.moment D.left_since self.old.extents.disk
            self.new.extents.disk (D.images self.old.extents.disk) }
        ensures cause { IsErrOf result StoreError.Failed
            → HasRisen (D.fault_count self.old.extents.disk)
            (D.fault_count self.new.extents.disk) }
        ensures faults { D.fault_count self.old.extents.disk
            ≤ D.fault_count self.new.extents.disk }
        ensures plan { D.armed self.new.extents.disk ≡ D.armed self.old.extents.disk }
    {
        what_serves_can_be_opened();
        let before = self.ready.state().entries;
        self.reopen(alloc)?;
        let has_grown = self.ready.state().entries > before;
        Ok(if has_grown {
            Revived::Stood
        } else {
            Revived::Lost
        })
    }

    /// Reads what the restarted disk stands for.
    fn reopen(&mut self, alloc: Global) -> Result<(), StoreError>
        requires serves { EachImage (D.images self.old.extents.disk) ServesSome }
        ensures known { OnOk result (IsOpen self.new.log self.new.ready
            (D.seen self.new.extents.disk) (D.images self.new.extents.disk)) }
        ensures found { OnOk result
            (stored_in (D.seen self.new.extents.disk) ≡ Some self.new.ready.state) }
        ensures open { OnOk result (self.new.is_closed ≡ false) }
        ensures closed { OnErr result (self.new.is_closed ≡ self.old.is_closed) }
        ensures one { OnOk result (D.images self.old.extents.disk
            (D.seen self.new.extents.disk)) }
        ensures kept { OnErr result (self.new.ready ≡ self.old.ready) }
        ensures images { Within (D.images self.old.extents.disk) (D.images self.new.extents.disk) }
        ensures any_moment { LeavesOnly D.moment D.left_since self.old.extents.disk
            self.new.extents.disk (D.images self.old.extents.disk) }
        ensures cause { IsErrOf result StoreError.Failed
            → HasRisen (D.fault_count self.old.extents.disk)
            (D.fault_count self.new.extents.disk) }
        ensures faults { D.fault_count self.old.extents.disk
            ≤ D.fault_count self.new.extents.disk }
        ensures plan { D.armed self.new.extents.disk ≡ D.armed self.old.extents.disk }
    {
        what_serves_can_be_opened();
        self.extents.disk.restart()?;
        match recover(alloc, &mut self.extents.disk) {
            Ok(found) => {
                self.ready = Ready::of(found.state);
                self.log = found.log;
                self.is_closed = false;
                Ok(())
            }
            Err(OpenError::Failed) => Err(StoreError::Failed),
            Err(OpenError::OutOfMemory) => Err(StoreError::OutOfMemory),
            Err(OpenError::Unformatted) => unreachable!(),
        }
    }
}
