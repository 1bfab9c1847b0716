//! The steps of a call for which all is ready: its record is appended, then it is done.
ghost use Rattle.std.specs.Prelude.{◌≡◌, ◌<◌, ◌≤◌, ◌+◌, IfOk, OnOk, OnErr, IsErrOf, length};
ghost use Rattle.disk_core.specs.Images.{EachImage, Only};
ghost use Rattle.disk_core.specs.Moments.{LeavesOnly};
ghost use Rattle.fault_count.specs.Faults.{HasRisen};
ghost use Rattle.checkpoint.specs.Halves.{layout_2, layout_of};
ghost use Rattle.event_log.specs.Holds.{Holds};
ghost use Rattle.event_log.specs.Doubts.{Either, of_event};
ghost use Rattle.ucm_base.specs.Limits.{entry_limit};
ghost use Rattle.pm_types.specs.declared.replies.Reached.TheVariants.{Done};
ghost use Rattle.event_codec.specs.DecidingStates.{state_told};
ghost use Rattle.node_core.specs.Core.{IsReserved, over};
ghost use Rattle.node_recovery.specs.Images.{after_bytes};
ghost use Rattle.slot_store.specs.Extents.{HasExtents, held_in, node_places};
ghost use Rattle.node_store.specs.Open.{IsOpen};
ghost use Rattle.node_store.specs.Serving.{Serves, ServesEither, node_on, stepped};

use crate::node::Node;
use crate::text::text_of;
use checkpoint::StoreError;
use disk_core::Disk;
use node_recovery::Present;
use pm_types::{Call, Reached, Reply};
use std::alloc::Global;
use ucm_base::{CallNo, ClientId};

impl<D: Disk> Node<D> {
    /// Records a newer call that was foreseen, for which all is ready, and does it.
    pub fn enter(
        &mut self,
        alloc: Global,
        client: ClientId,
        no: CallNo,
        call: &Call,
        reply: &Reply,
    ) -> Result<Reached, StoreError>
        requires known { IsOpen self.old.log self.old.ready
            (D.seen self.old.extents.disk) (D.images self.old.extents.disk) }
        requires entries { self.old.ready.state.entries < entry_limit }
        requires reserved { IsReserved
            (over (held_in node_places (D.seen self.old.extents.disk)) self.old.ready)
            client no call.now }
        requires due { Done reply.now
            ≡ (stepped (node_on self.old.ready.state (D.seen self.old.extents.disk))
            client no call.now).1 }
        ensures stepped { IfOk result (λ reached.
            (node_on self.new.ready.state (D.seen self.new.extents.disk), reached)
            ≡ stepped (node_on self.old.ready.state (D.seen self.old.extents.disk))
            client no call.now) }
        ensures known { OnOk result (IsOpen self.new.log self.new.ready
            (D.seen self.new.extents.disk) (D.images self.new.extents.disk)) }
        ensures memory { IsErrOf result StoreError.OutOfMemory
            → IsOpen self.new.log self.new.ready
            (D.seen self.new.extents.disk) (D.images self.new.extents.disk)
            × (node_on self.new.ready.state (D.seen self.new.extents.disk)
            ≡ node_on self.old.ready.state (D.seen self.old.extents.disk)) }
        ensures any_moment { LeavesOnly D.moment D.left_since
            self.old.extents.disk self.new.extents.disk
            (ServesEither (node_on self.old.ready.state (D.seen self.old.extents.disk))
            (stepped (node_on self.old.ready.state (D.seen self.old.extents.disk))
            client no call.now).0) }
        ensures kept { OnErr result (self.new.ready.state ≡ self.old.ready.state) }
        ensures closed { self.new.is_closed ≡ self.old.is_closed }
        ensures cause { IsErrOf result StoreError.Failed
            → HasRisen (D.fault_count self.old.extents.disk)
            (D.fault_count self.new.extents.disk) }
        ensures faults { D.fault_count self.old.extents.disk
            ≤ D.fault_count self.new.extents.disk }
        ensures entries { self.new.ready.state.entries
            ≤ self.old.ready.state.entries + 1 }
        ensures plan { D.armed self.new.extents.disk ≡ D.armed self.old.extents.disk }
    {
        let text = text_of(alloc, &self.ready, client, no, call, reply)?;
        self.record(alloc, &text)?;
        Ok(self.ready.exec(client, no, call))
    }

    /// Appends a record.
    pub(crate) fn record(&mut self, alloc: Global, text: &[u8]) -> Result<(), StoreError>
        requires known { IsOpen self.old.log self.old.ready
            (D.seen self.old.extents.disk) (D.images self.old.extents.disk) }
        requires short { length text.now + 6 ≤ layout_2.journal_len }
        ensures recorded { OnOk result (EachImage (D.images self.new.extents.disk)
            (Holds state_told after_bytes self.new.log
            (after_bytes self.old.ready.state text.now))) }
        ensures durable { OnOk result (Only (D.seen self.new.extents.disk)
            (D.images self.new.extents.disk)) }
        ensures memory { IsErrOf result StoreError.OutOfMemory
            → IsOpen self.new.log self.new.ready
            (D.seen self.new.extents.disk) (D.images self.new.extents.disk) }

        // A crash at any moment leaves the state before the record, or after it, and each area.
        ensures any_moment { LeavesOnly D.moment D.left_since
            self.old.extents.disk self.new.extents.disk (λ image.
            Either state_told after_bytes layout_2
            (of_event after_bytes self.old.ready.state text.now) image
            × HasExtents node_places image
            × (held_in node_places image
            ≡ held_in node_places (D.seen self.old.extents.disk))) }
        ensures areas { held_in node_places (D.seen self.new.extents.disk)
            ≡ held_in node_places (D.seen self.old.extents.disk) }
        ensures extents { HasExtents node_places (D.seen self.new.extents.disk) }
        ensures pair { layout_of self.new.log.half ≡ layout_2 }
        ensures ready { self.new.ready ≡ self.old.ready }
        ensures closed { self.new.is_closed ≡ self.old.is_closed }
        ensures cause { IsErrOf result StoreError.Failed
            → HasRisen (D.fault_count self.old.extents.disk)
            (D.fault_count self.new.extents.disk) }
        ensures faults { D.fault_count self.old.extents.disk
            ≤ D.fault_count self.new.extents.disk }
        ensures plan { D.armed self.new.extents.disk ≡ D.armed self.old.extents.disk }
    {
        let present = Present::of(self.ready.state());
        self.log
            .append(alloc, &mut self.extents.disk, text, &present)
    }
}
