//! What a run shows: the lists that its report is printed from.

use campaign_core::{CampaignRefusal, MasterList};
use pm_types::{Answer, Cluster, Entry, Reached, Worked};
use ucm_base::{Block, Manifest, NodeId, Rows};

/// A cluster that a node was formatted with.
#[derive(Drop)]
pub struct Opening {
    pub node: NodeId,
    pub cluster: Cluster<Block>,
}

/// Clusters of the formatting, in order of node and name.
pub type OpeningList = Rows<Opening>;

/// A part of a step's package, and the node that it is brought to.
#[derive(Drop)]
pub struct Named<'a> {
    pub node: NodeId,
    pub manifest: &'a Manifest,
    pub payload: &'a [u8],
}

/// Parts of packages, in order of the steps, and for each step of its package's parts.
pub type NamedList<'a> = Rows<Named<'a>>;

/// Entries of a node with their places, in order.
pub type EntryList = Rows<(u64, Entry)>;

/// What happened on a node that was used.
#[derive(Drop)]
pub struct NodeHistory {
    pub node: NodeId,
    pub entries: EntryList,
}

/// The histories of used nodes, in order of node.
pub type NodeHistories = Rows<NodeHistory>;

/// Whose attempts failed.
#[derive(Clone, Copy, Debug, PartialEq, Eq)]
pub enum Whose {
    Master,
    Node(NodeId),
}

/// What eight failed attempts left open, with the sums of their losses and faults.
#[derive(Clone, Copy, Debug, PartialEq, Eq)]
pub struct Unreached {
    pub whose: Whose,
    pub losses: u64,
    pub faults: u64,
}

/// What was left open, the master before the nodes.
pub type UnreachedList = Rows<Unreached>;

/// What the last attempt of a line gave.
#[derive(Drop)]
pub enum Gave {
    Replied(Reached),
    Did(Worked),
    /// An answer, and how many entries the node had.
    Saw { place: u64, answer: Answer },
    NoReply,
}

/// What the line of this number gave; lines are counted from 1.
#[derive(Drop)]
pub struct LineReply {
    pub line: u64,
    pub gave: Gave,
}

/// What the lines of the setup and of clients gave, in order of lines.
pub type ReplyList = Rows<LineReply>;

/// What a run shows of itself.
#[derive(Drop)]
pub struct Shown<'a> {
    /// The campaign's number, if there is one.
    pub campaign: Option<u32>,
    /// The time of a node's first place.
    pub time: u64,
    pub opening: OpeningList,
    pub named: NamedList<'a>,
    pub master: MasterList,
    pub nodes: NodeHistories,
    pub unreached: UnreachedList,
    pub replies: ReplyList,
    /// What a cancel was answered, where one was.
    pub cancel: Option<Result<(), CampaignRefusal>>,
}
