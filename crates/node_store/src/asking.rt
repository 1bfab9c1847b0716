//! Queries, which change nothing, and the plan of a disk's faults.
ghost use Rattle.std.specs.Prelude.{◌≡◌, IfOk, OnOk, OnErr};
ghost use Rattle.disk_core.specs.Moments.{LeavesOnly};
ghost use Rattle.disk_core.specs.Plans.{no_faults};
ghost use Rattle.pm_types.specs.Queries.{answer};
ghost use Rattle.node_store.specs.Open.{IsOpen};
ghost use Rattle.node_store.specs.Serving.{Serves, node_on};

use crate::node::Node;
use disk_core::{Disk, FaultPlan};
use pm_types::{Answer, Query};
use std::alloc::{AllocError, Global};
use ucm_base::ClientId;

impl<D: Disk> Node<D> {
    /// Answers a query.
    pub fn query(
        &self,
        alloc: Global,
        client: ClientId,
        query: &Query,
    ) -> Result<Answer, AllocError>
        requires known { IsOpen self.now.log self.now.ready
            (D.seen self.now.extents.disk) (D.images self.now.extents.disk) }
        ensures { IfOk result (λ a. a ≡ answer
            (node_on self.now.ready.state (D.seen self.now.extents.disk)) client query.now) }
    {
        self.ready.query(alloc, client, query)
    }

    /// Arms the plan of the disk's faults, once and for good.
    pub fn arm(&mut self, plan: &FaultPlan) -> Result<(), AllocError>
        requires known { IsOpen self.old.log self.old.ready
            (D.seen self.old.extents.disk) (D.images self.old.extents.disk) }
        requires unarmed { D.armed self.old.extents.disk ≡ no_faults }
        ensures set { OnOk result (D.armed self.new.extents.disk ≡ plan.now) }
        ensures unset { OnErr result
            (D.armed self.new.extents.disk ≡ D.armed self.old.extents.disk) }
        ensures known { IsOpen self.new.log self.new.ready
            (D.seen self.new.extents.disk) (D.images self.new.extents.disk) }
        ensures node { node_on self.new.ready.state (D.seen self.new.extents.disk)
            ≡ node_on self.old.ready.state (D.seen self.old.extents.disk) }
        ensures entries { self.new.ready ≡ self.old.ready }
        ensures closed { self.new.is_closed ≡ self.old.is_closed }

        // A crash at any moment of the call leaves the node.
        ensures any_moment { LeavesOnly D.moment D.left_since
            self.old.extents.disk self.new.extents.disk
            (Serves (node_on self.old.ready.state (D.seen self.old.extents.disk))) }
        ensures faults { D.fault_count self.new.extents.disk
            ≡ D.fault_count self.old.extents.disk }
    {
        self.extents.disk.arm(plan)
    }
}
