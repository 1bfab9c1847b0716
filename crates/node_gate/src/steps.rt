//! Calls of the node, with its entries in memory.
ghost use Rattle.std.specs.Prelude.{◌≡◌, ◌≤◌, ◌<◌, ◌++◌, ◌∷◌, [], false, true, None, OnOk, OnErr, IsErrOf};
ghost use Rattle.fault_count.specs.Faults.{HasRisen};
ghost use Rattle.turn_gate.specs.Mine.{Settles};
ghost use Rattle.ucm_base.specs.Limits.{client_limit, entry_limit};
ghost use Rattle.pm_types.specs.declared.replies.Reached.TheVariants.{Done};
ghost use Rattle.node_core.specs.Core.{IsReserved, over};
ghost use Rattle.slot_store.specs.Extents.{held_in, node_places};
ghost use Rattle.node_store.specs.Answers.{Carries, IsRise};
ghost use Rattle.node_store.specs.Open.{IsOpen};
ghost use Rattle.node_store.specs.Serving.{node_on, stepped};
ghost use Rattle.node_gate.specs.Calls.{CallsTo};
ghost use Rattle.node_gate.specs.Room.{HasRoom};
ghost use Rattle.node_gate.specs.Stands.{Knows, StandsFor, listing_in, node_at, pending_list};
ghost use Rattle.node_gate.specs.declared.opening.Opening.{Opening as an_opening};

use crate::shared::SharedNode;
use checkpoint::StoreError;
use disk_core::Disk;
use event_log::Revived;
use node_store::NodeAnswer;
use pm_types::{Call, Entry, Reached, Reply};
use std::alloc::{AllocError, Global};
use ucm_base::{CallNo, ClientId};

/// The most entries of a list in memory.
const MOST: usize = 1 << 40;

/// The most entries of a node that is called.
pub(crate) const MOST_COUNTED: u64 = 1 << 59;

impl<D: Disk> SharedNode<D> {
    /// Makes room for two entries more: what is pending, and a new one.
    pub(crate) fn make_room(&mut self) -> Result<(), AllocError>
        ensures node { self.new.node ≡ self.old.node }
        ensures entries { self.new.entries.items ≡ self.old.entries.items }
        ensures pending { self.new.pending ≡ self.old.pending }
        ensures fails { self.new.fails ≡ self.old.fails }
        ensures room { OnOk result (HasRoom 2 self.new.entries) }
    {
        if self.entries.len() >= MOST {
            return Err(AllocError);
        }
        self.entries.reserve(2)
    }

    /// Lists an entry that stands.
    pub(crate) fn list(&mut self, entry: Entry)
        requires room { HasRoom 1 self.old.entries }
        ensures node { self.new.node ≡ self.old.node }
        ensures entries { self.new.entries.items ≡ self.old.entries.items ++ entry ∷ [] }
        ensures pending { self.new.pending ≡ self.old.pending }
        ensures fails { self.new.fails ≡ self.old.fails }
        ensures room { HasRoom 2 self.old.entries → HasRoom 1 self.new.entries }
    {
        if let Some(entry) = Some(entry) {
            self.entries.push_reserved(entry);
        }
    }

    /// Lists what is pending, which stood.
    fn list_pending(&mut self)
        requires room { HasRoom 2 self.old.entries }
        ensures node { self.new.node ≡ self.old.node }
        ensures entries { self.new.entries.items
            ≡ self.old.entries.items ++ pending_list self.old.pending }
        ensures pending { self.new.pending ≡ None }
        ensures fails { self.new.fails ≡ self.old.fails }
        ensures room { HasRoom 1 self.new.entries }
    {
        if let Some(stood) = self.pending.take() {
            self.list(stood);
        }
    }

    /// Opens a closed node again: what was pending stands behind the others, or is lost.
    pub(crate) fn settle(&mut self, alloc: Global) -> Result<(), StoreError>
        requires known { Knows D.seen D.images self.old.node }
        ensures settled { (o : an_opening D)
            → StandsFor D.moment D.left_since D.seen D.images self.old.fails.items o
            self.old.node self.old.entries.items self.old.pending
            → OnOk result
            (Settles self.old.pending self.old.entries.items self.new.entries.items) }
        ensures open { OnOk result (self.new.node.is_closed ≡ false) }
        ensures none { (o : an_opening D)
            → StandsFor D.moment D.left_since D.seen D.images self.old.fails.items o
            self.old.node self.old.entries.items self.old.pending
            → OnOk result (self.new.pending ≡ None) }
        ensures same { OnErr result (listing_in self.new ≡ listing_in self.old) }
        ensures known { Knows D.seen D.images self.new.node }
        ensures stands { (o : an_opening D)
            → StandsFor D.moment D.left_since D.seen D.images self.old.fails.items o
            self.old.node self.old.entries.items self.old.pending
            → StandsFor D.moment D.left_since D.seen D.images self.new.fails.items o
            self.new.node self.new.entries.items self.new.pending }
        ensures fails { self.new.fails ≡ self.old.fails }
        ensures room { HasRoom 2 self.old.entries → OnOk result (HasRoom 1 self.new.entries) }
        ensures cause { IsErrOf result StoreError.Failed
            → HasRisen (D.fault_count self.old.node.extents.disk)
            (D.fault_count self.new.node.extents.disk) }
        ensures faults { D.fault_count self.old.node.extents.disk
            ≤ D.fault_count self.new.node.extents.disk }
        ensures plan { D.armed self.new.node.extents.disk ≡ D.armed self.old.node.extents.disk }
    {
        if !self.node.is_closed() {
            return Ok(());
        }
        self.make_room()?;
        match self.node.revive(alloc)? {
            Revived::Stood => self.list_pending(),
            Revived::Lost => self.pending = None,
        }
        Ok(())
    }

    /// How far the disk's count of faults rose above an earlier one; 1 where it stands at its last value.
    pub(crate) fn rise(&self, before: u64) -> u64
        requires { HasRisen before (D.fault_count self.now.node.extents.disk) }
        ensures { IsRise before (D.fault_count self.now.node.extents.disk) result }
    {
        (self.node.faults() - before).max(1)
    }

    /// Closes the node after a fault in a call that began with this count of faults, and leaves this entry pending. It
    /// says how far the count rose.
    pub(crate) fn shut(&mut self, pending: Option<Entry>, before: u64) -> u64
        requires risen { HasRisen before (D.fault_count self.old.node.extents.disk) }
        ensures closed { self.new.node ≡ record self.old.node { is_closed = true } }
        ensures entries { self.new.entries ≡ self.old.entries }
        ensures pending { self.new.pending ≡ pending }
        ensures fails { self.new.fails ≡ self.old.fails }
        ensures rise { IsRise before (D.fault_count self.old.node.extents.disk) result }
    {
        self.node.is_closed = true;
        self.pending = pending;
        self.rise(before)
    }

    /// Records a call that was foreseen with this reply, in a call that began with this count of faults.
    fn enter(
        &mut self,
        alloc: Global,
        client: ClientId,
        no: CallNo,
        call: Call,
        reply: Reply,
        before: u64,
    ) -> NodeAnswer
        requires open { self.old.node.is_closed ≡ false }
        requires known { IsOpen self.old.node.log self.old.node.ready
            (D.seen self.old.node.extents.disk) (D.images self.old.node.extents.disk) }
        requires entries { self.old.node.ready.state.entries < entry_limit }
        requires room { HasRoom 1 self.old.entries }
        requires began { before ≤ D.fault_count self.old.node.extents.disk }
        requires client { client < client_limit }
        requires reserved { IsReserved
            (over (held_in node_places (D.seen self.old.node.extents.disk)) self.old.node.ready)
            client no call }
        requires due { Done reply
            ≡ (stepped (node_on self.old.node.ready.state (D.seen self.old.node.extents.disk))
            client no call).1 }
        ensures calls { (o : an_opening D)
            → StandsFor D.moment D.left_since D.seen D.images self.old.fails.items o
            self.old.node self.old.entries.items self.old.pending
            → CallsTo (node_at D.seen o) client no call result
            (listing_in self.old) (listing_in self.new) }
        ensures stands { (o : an_opening D)
            → StandsFor D.moment D.left_since D.seen D.images self.old.fails.items o
            self.old.node self.old.entries.items self.old.pending
            → StandsFor D.moment D.left_since D.seen D.images self.new.fails.items o
            self.new.node self.new.entries.items self.new.pending }
        ensures fails { self.new.fails ≡ self.old.fails }
        ensures carries { Carries result before (D.fault_count self.new.node.extents.disk) }
        ensures faults { D.fault_count self.old.node.extents.disk
            ≤ D.fault_count self.new.node.extents.disk }
        ensures plan { D.armed self.new.node.extents.disk ≡ D.armed self.old.node.extents.disk }
    {
        match self.node.enter(alloc, client, no, &call, &reply) {
            Ok(reached) => {
                self.list(Entry::Numbered {
                    client,
                    no,
                    call,
                    reply,
                });
                NodeAnswer::Reached(reached)
            }
            Err(StoreError::OutOfMemory) => NodeAnswer::OutOfMemory,
            Err(StoreError::Failed) => {
                let pending = Entry::Numbered {
                    client,
                    no,
                    call,
                    reply,
                };
                let faults = self.shut(Some(pending), before);
                NodeAnswer::NoReply { faults }
            }
        }
    }

    /// Calls a node that is open, in a call that began with this count of faults.
    fn call_open(
        &mut self,
        alloc: Global,
        client: ClientId,
        no: CallNo,
        call: Call,
        before: u64,
    ) -> NodeAnswer
        requires open { self.old.node.is_closed ≡ false }
        requires known { Knows D.seen D.images self.old.node }
        requires room { HasRoom 1 self.old.entries }
        requires began { before ≤ D.fault_count self.old.node.extents.disk }
        ensures calls { (o : an_opening D)
            → StandsFor D.moment D.left_since D.seen D.images self.old.fails.items o
            self.old.node self.old.entries.items self.old.pending
            → CallsTo (node_at D.seen o) client no call result
            (listing_in self.old) (listing_in self.new) }
        ensures stands { (o : an_opening D)
            → StandsFor D.moment D.left_since D.seen D.images self.old.fails.items o
            self.old.node self.old.entries.items self.old.pending
            → StandsFor D.moment D.left_since D.seen D.images self.new.fails.items o
            self.new.node self.new.entries.items self.new.pending }
        ensures fails { self.new.fails ≡ self.old.fails }
        ensures carries { Carries result before (D.fault_count self.new.node.extents.disk) }
        ensures faults { D.fault_count self.old.node.extents.disk
            ≤ D.fault_count self.new.node.extents.disk }
        ensures plan { D.armed self.new.node.extents.disk ≡ D.armed self.old.node.extents.disk }
    {
        // That the number is a client's is known once it was read.
        let _ = client.number();
        if self.node.count() >= MOST_COUNTED {
            return NodeAnswer::OutOfMemory;
        }
        match self.node.foresee(alloc, client, no, &call) {
            Ok(Reached::Done(reply)) => self.enter(alloc, client, no, call, reply, before),
            Ok(Reached::Again(reply)) => NodeAnswer::Reached(Reached::Again(reply)),
            Ok(Reached::Stale { last }) => NodeAnswer::Reached(Reached::Stale { last }),
            Err(StoreError::OutOfMemory) => NodeAnswer::OutOfMemory,
            Err(StoreError::Failed) => {
                let faults = self.shut(None, before);
                NodeAnswer::NoReply { faults }
            }
        }
    }

    /// Calls the node. A closed node is opened again first.
    pub(crate) fn call(
        &mut self,
        alloc: Global,
        client: ClientId,
        no: CallNo,
        call: Call,
    ) -> NodeAnswer
        requires known { Knows D.seen D.images self.old.node }
        ensures calls { (o : an_opening D)
            → StandsFor D.moment D.left_since D.seen D.images self.old.fails.items o
            self.old.node self.old.entries.items self.old.pending
            → CallsTo (node_at D.seen o) client no call result
            (listing_in self.old) (listing_in self.new) }
        ensures stands { (o : an_opening D)
            → StandsFor D.moment D.left_since D.seen D.images self.old.fails.items o
            self.old.node self.old.entries.items self.old.pending
            → StandsFor D.moment D.left_since D.seen D.images self.new.fails.items o
            self.new.node self.new.entries.items self.new.pending }
        ensures fails { self.new.fails ≡ self.old.fails }

        // Without a reply it carries how far the count of faults rose in the call.
        ensures carries { Carries result (D.fault_count self.old.node.extents.disk)
            (D.fault_count self.new.node.extents.disk) }
        ensures faults { D.fault_count self.old.node.extents.disk
            ≤ D.fault_count self.new.node.extents.disk }
        ensures plan { D.armed self.new.node.extents.disk ≡ D.armed self.old.node.extents.disk }
    {
        let Ok(()) = self.make_room() else {
            return NodeAnswer::OutOfMemory;
        };
        let before = self.node.faults();
        match self.settle(alloc) {
            Ok(()) => self.call_open(alloc, client, no, call, before),
            Err(StoreError::OutOfMemory) => NodeAnswer::OutOfMemory,
            Err(StoreError::Failed) => NodeAnswer::NoReply {
                faults: self.rise(before),
            },
        }
    }
}
