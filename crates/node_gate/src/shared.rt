//! What the gate of a node holds.
ghost use Rattle.std.specs.Prelude.{◌<◌, ◌^◌, length};

use crate::opening::Opening;
use disk_core::Disk;
use node_store::Node;
use pm_types::Entry;
use turn_gate::Machine;
use ucm_base::ClusterName;

/// A node on its disk, its entries since the gate was made, the one that is pending, and the names of the clusters that
/// fail when they are verified.
#[derive(Drop)]
pub struct SharedNode<D: Disk> {
    pub(crate) node: Node<D>,
    pub(crate) entries: Vec<Entry>,
    pub(crate) pending: Option<Entry>,
    pub(crate) fails: Vec<ClusterName>,
    ghost short: { length entries.items < 2 ^ 58 },
}

impl<D: Disk> Machine for SharedNode<D> {
    ghost use Rattle.node_gate.specs.Laws.{code_fits, list_fits};
    ghost use Rattle.plan_numbers.specs.Plans.{fixed_numbers};
    ghost use Rattle.node_gate.specs.Stands.{StandsFor, account_of, node_after, opening, status_code_after, tells};

    type Entry = Entry;

    type Opening = Opening<D>;

    ghost account = { account_of D.fault_count };

    ghost tells = { tells };

    ghost fixed = { λ s. fixed_numbers s.fails.items (D.armed s.node.extents.disk) };

    ghost stands = { λ s o. StandsFor D.moment D.left_since D.seen D.images s.fails.items o s.node
        s.entries.items s.pending };

    ghost opening = { λ s. opening s.node };

    ghost code_after = { status_code_after D.seen };

    fn count(&self) -> u64 {
        self.entries.len() as u64
    }

    fn code(&self) -> u8 {
        self.node.status().code()
    }

    fn faults(&self) -> u64 {
        self.node.faults()
    }

    ghost code_fits = { λ o entries. code_fits (node_after D.seen o entries).status };

    ghost list_fits = { list_fits };
}
