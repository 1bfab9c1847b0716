//! A node's state as it is kept: where the bytes lie in place of the bytes.
ghost use Rattle.std.specs.Prelude.{◌≡◌, ◌==◌, ◌<◌, ◌≤◌, ◌+◌, ◌++◌, ◌∷◌, [], not, filter, length, slice_index_or, slice_set, IfOk};
ghost use Rattle.pm_types.specs.declared.state.StoredTransfer.{StoredTransfer as stored};
ghost use Rattle.pm_types.specs.NodeState.{outlasts};
ghost use Rattle.pm_types.specs.Stored.{fresh_state};
ghost use Rattle.ucm_base.specs.Limits.{cluster_limit, transfer_limit};

use crate::{
    Change, Cluster, Contents, EndMark, Extent, Header, NewestLines, Outcome, Reply, Status,
};
use std::alloc::{AllocError, Global};
use std::marker::Model;
use ucm_base::limits::{CLIENT_LIMIT, CLUSTER_LIMIT, TRANSFER_LIMIT};
use ucm_base::{CallNo, ClientId};

/// A client's last number, and the reply that is kept for it.
#[derive(Clone, Copy)]
pub struct Kept {
    pub no: CallNo,
    pub reply: Reply,
}

/// A transfer, with the slot in which its bytes lie.
#[derive(Drop)]
pub struct StoredTransfer {
    pub header: Header,
    /// 0 to 7.
    pub slot: u8,
    /// The parts of the package that its bytes are, once they are whole; none before.
    pub contents: Contents,
}

/// The transfers of a node, by rising ids, seen as their list. It has room for eight from its making.
#[derive(Drop)]
pub struct TransferList {
    items: Vec<StoredTransfer>,
}

impl Model for TransferList {
    ghost use Rattle.std.specs.Prelude.{List, ◌≤◌, length, vec_capacity};
    ghost use Rattle.ucm_base.specs.Limits.{transfer_limit};
    ghost use Rattle.pm_types.specs.declared.state.StoredTransfer.{StoredTransfer};

    ghost Value = { List StoredTransfer };

    ghost view = { λ a. a.items.items };

    ghost invariant = { λ a. (length a.items.items ≤ transfer_limit)
        × (transfer_limit ≤ vec_capacity a.items) };
}

impl TransferList {
    /// No transfer.
    pub fn new(alloc: Global) -> Result<TransferList, AllocError>
        ensures { IfOk result (λ list. list ≡ []) }
    {
        let items = Vec::with_capacity(alloc, TRANSFER_LIMIT as usize)?;
        Ok(TransferList { items })
    }

    /// The list of these transfers, with room for eight.
    pub fn of(mut items: Vec<StoredTransfer>) -> Result<TransferList, AllocError>
        requires { length items.items ≤ transfer_limit }
        ensures { IfOk result (λ list. list ≡ items.items) }
    {
        items.reserve(TRANSFER_LIMIT as usize - items.len())?;
        Ok(TransferList { items })
    }

    /// Adds a transfer behind the others. It takes no memory.
    pub fn push(&mut self, transfer: StoredTransfer)
        requires { length self.old < transfer_limit }
        ensures { self.new ≡ self.old ++ transfer ∷ [] }
    {
        self.items.push_reserved(transfer);
    }

    /// Adds a transfer that begins, behind the others. It takes no memory.
    pub fn begin(&mut self, header: Header, slot: u8)
        requires { length self.old < transfer_limit }
        ensures { self.new
            ≡ self.old ++ record { header = header; slot = slot; contents = [] } ∷ [] }
    {
        let contents = Contents::none(*self.items.allocator());
        self.push(StoredTransfer {
            header,
            slot,
            contents,
        });
    }

    /// Changes the header of the transfer at a place.
    pub fn set_header(&mut self, place: usize, header: Header)
        requires { place < length self.old }
        ensures { (t : stored) → t ≡ slice_index_or self.old place t
            → self.new ≡ slice_set self.old place (record t { header = header }) }
    {
        self.items[place].header = header;
    }

    /// Changes the header of the transfer at a place, and what its bytes are.
    pub fn set_whole(&mut self, place: usize, header: Header, contents: Contents)
        requires { place < length self.old }
        ensures { (t : stored) → t ≡ slice_index_or self.old place t → self.new
            ≡ slice_set self.old place (record t { header = header; contents = contents }) }
    {
        let transfer = &mut self.items[place];
        transfer.header = header;
        transfer.contents = contents;
    }

    /// Takes out the transfer of this id.
    pub fn remove(&mut self, id: u32)
        ensures { self.new ≡ filter (λ t. not (t.header.id == id)) self.old }
    {
        self.items.retain(|t| t.header.id != id);
    }

    /// Takes out the transfers that were processed or are in processing.
    pub fn remove_processed(&mut self)
        ensures { self.new ≡ filter (λ t. outlasts t.header) self.old }
    {
        self.items.retain(|t| t.header.outlasts());
    }

    /// The transfers, in order.
    pub fn as_slice(&self) -> &[StoredTransfer]
        ensures transfers { result.now ≡ self.now }
        ensures form { length self.now ≤ transfer_limit }
    {
        self.items.as_slice()
    }
}

/// A node's transfers, and the id that the next one gets.
#[derive(Drop)]
pub struct Transfers {
    pub next_id: u32,
    pub list: TransferList,
}

impl Transfers {
    /// These transfers, and the next id. It takes no memory.
    pub fn of(next: u32, list: TransferList) -> Transfers
        ensures { result ≡ record { next_id = next; list = list } }
    {
        Transfers {
            next_id: next,
            list,
        }
    }

    /// The next id, and the transfers. It takes no memory.
    pub fn into_parts(self) -> (u32, TransferList)
        ensures { result ≡ (self.next_id, self.list) }
    {
        (self.next_id, self.list)
    }
}

/// Installed clusters in order of name, with where their contents lie, seen as their list.
#[derive(Drop)]
pub struct Clusters {
    items: Vec<Cluster<Extent>>,
}

impl Model for Clusters {
    ghost use Rattle.std.specs.Prelude.{List};
    ghost use Rattle.pm_types.specs.declared.clusters.Cluster.{Cluster};
    ghost use Rattle.pm_types.specs.declared.clusters.Extent.{Extent};

    ghost Value = { List (Cluster Extent) };

    ghost view = { λ a. a.items.items };
}

impl Clusters {
    /// The list of these clusters. It takes no memory.
    pub fn of(items: Vec<Cluster<Extent>>) -> Clusters
        ensures { result ≡ items.items }
    {
        Clusters { items }
    }

    /// The clusters, in order.
    pub fn as_slice(&self) -> &[Cluster<Extent>]
        ensures { result.now ≡ self.now }
    {
        self.items.as_slice()
    }

    /// The same clusters.
    pub fn copied(&self, alloc: Global) -> Result<Clusters, AllocError>
        ensures { IfOk result (λ clusters. clusters ≡ self.now) }
    {
        let mut items = Vec::with_capacity(alloc, self.items.len())?;
        for cluster in &self.items {
            items.push(cluster.copied(alloc)?)?;
        }
        Ok(Clusters { items })
    }
}

/// At most 64 planned changes in order, with where their payloads lie, seen as their list. It has room for them from
/// its making.
#[derive(Drop)]
pub struct Changes {
    items: Vec<Change<Extent>>,
}

impl Model for Changes {
    ghost use Rattle.std.specs.Prelude.{List, ◌≤◌, length, vec_capacity};
    ghost use Rattle.ucm_base.specs.Limits.{cluster_limit};
    ghost use Rattle.pm_types.specs.declared.clusters.Change.{Change};
    ghost use Rattle.pm_types.specs.declared.clusters.Extent.{Extent};

    ghost Value = { List (Change Extent) };

    ghost view = { λ a. a.items.items };

    ghost invariant = { λ a. (length a.items.items ≤ cluster_limit)
        × (cluster_limit ≤ vec_capacity a.items) };
}

impl Changes {
    /// No change.
    pub fn new(alloc: Global) -> Result<Changes, AllocError>
        ensures { IfOk result (λ changes. changes ≡ []) }
    {
        let items = Vec::with_capacity(alloc, CLUSTER_LIMIT as usize)?;
        Ok(Changes { items })
    }

    /// Adds changes behind the others. It takes no memory.
    pub fn append(&mut self, mut changes: Vec<Change<Extent>>)
        requires { length self.old + length changes.items ≤ cluster_limit }
        ensures { self.new ≡ self.old ++ changes.items }
    {
        self.items.append(&mut changes).unwrap();
    }

    /// The changes, in order.
    pub fn as_slice(&self) -> &[Change<Extent>]
        ensures changes { result.now ≡ self.now }
        ensures form { length self.now ≤ cluster_limit }
    {
        self.items.as_slice()
    }
}

/// A node's session, from an accepted ProcessSwPackage in Idle to its clean-up.
#[derive(Drop)]
pub struct Session {
    pub owner: ClientId,
    /// The campaign's number where the owner is the master, else 0.
    pub tag: u32,
    /// The clusters that ran at its beginning.
    pub saved: Clusters,
    pub changes: Changes,
    /// The id of the transfer in processing.
    pub processing: Option<u32>,
    /// The units of work done of the transfer in processing, or of the one that was processed last.
    pub units_done: u32,
    /// The changes verified so far.
    pub verified: u8,
    /// How it ends, once that is known.
    pub outcome: Option<Outcome>,
}

impl Model for Session {
    ghost use Rattle.pm_types.specs.declared.clusters.Extent.{Extent};
    ghost use Rattle.pm_types.specs.NodeState.{SessionOf};

    ghost Value = { SessionOf Extent };

    ghost view = { λ x. record {
      owner = x.owner;
      tag = x.tag;
      saved = x.saved;
      changes = x.changes;
      processing = x.processing;
      units_done = x.units_done;
      verified = x.verified;
      outcome = x.outcome;
    } };
}

/// A node's state, without contents.
#[derive(Drop)]
pub struct State {
    pub status: Status,
    pub transfers: Transfers,
    pub running: Clusters,
    pub session: Option<Session>,
    /// For each client its last number and the reply to it.
    pub last: [Option<Kept>; CLIENT_LIMIT as usize],
    /// For each client how its last session ended.
    pub ended: [Option<EndMark>; CLIENT_LIMIT as usize],
    /// The entries of the history so far.
    pub entries: u64,
    pub lines: NewestLines,
}

impl Model for State {
    ghost use Rattle.pm_types.specs.declared.clusters.Extent.{Extent};
    ghost use Rattle.pm_types.specs.declared.state.StoredTransfer.{StoredTransfer};
    ghost use Rattle.pm_types.specs.NodeState.{NodeOf};

    ghost Value = { NodeOf Extent StoredTransfer };

    ghost view = { λ s. record {
      status = s.status;
      next_id = s.transfers.next_id;
      running = s.running;
      transfers = s.transfers.list;
      session = s.session;
      last = s.last;
      ended = s.ended;
      entries = s.entries;
      lines = s.lines;
    } };
}

impl State {
    /// The state of a node on which these clusters run, and nothing has happened.
    pub fn fresh(alloc: Global, running: Clusters) -> Result<State, AllocError>
        ensures { IfOk result (λ s. s ≡ fresh_state running) }
    {
        Ok(State {
            status: Status::Idle,
            transfers: Transfers::of(1, TransferList::new(alloc)?),
            running,
            session: None,
            last: [None; CLIENT_LIMIT as usize],
            ended: [None; CLIENT_LIMIT as usize],
            entries: 0,
            lines: NewestLines::new(alloc)?,
        })
    }
}
