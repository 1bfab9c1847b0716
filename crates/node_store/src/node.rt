//! A durable node.
ghost use Rattle.std.specs.Prelude.{◌≡◌};
ghost use Rattle.node_store.specs.Serving.{node_on};

use disk_core::Disk;
use event_log::Log;
use node_core::Ready;
use pm_types::Status;
use slot_store::Extents;

/// A node on a disk, in halves 2 and 3 and the extents behind them. A fault of the disk closes it.
#[derive(Drop)]
pub struct Node<D: Disk> {
    pub extents: Extents<D>,
    /// The stored state, and what is ready for the next event.
    pub ready: Ready,
    /// Where the log goes on.
    pub log: Log,
    pub is_closed: bool,
}

impl<D: Disk> Node<D> {
    /// How often the disk has failed.
    pub fn faults(&self) -> u64
        ensures { result ≡ D.fault_count self.now.extents.disk }
    {
        self.extents.disk.faults()
    }

    /// Whether a fault has closed the node.
    pub fn is_closed(&self) -> bool
        ensures { result ≡ self.now.is_closed }
    {
        self.is_closed
    }

    /// How many entries its history has.
    pub fn count(&self) -> u64
        ensures { result ≡ (node_on self.now.ready.state (D.seen self.now.extents.disk)).entries }
    {
        self.ready.state().entries
    }

    /// The node's status.
    pub fn status(&self) -> Status
        ensures { result ≡ (node_on self.now.ready.state (D.seen self.now.extents.disk)).status }
    {
        self.ready.state().status
    }

    /// Gives the disk back.
    pub fn close(self) -> D
        ensures { result ≡ self.extents.disk }
    {
        let Node { extents, .. } = self;
        extents.into_disk()
    }
}
