//! The lists of a run, as they grow.

use crate::answers::gave;
use crate::codes::{at, name, node, short_at};
use crate::events::{block, entry, event, unit};
use campaign_core::{CampaignRefusal, MasterList};
use pm_types::{Cluster, Entry};
use report::{
    EntryList, LineReply, Named, NamedList, NodeHistories, NodeHistory, Opening, OpeningList,
    ReplyList, Shown, Unreached, UnreachedList, Whose,
};
use std::alloc::{AllocError, Global};
use ucm_base::{Action, Block, Manifest, Need, Needs, NodeId, Part, ReqText, VersionText};

/// A part of a package, and its node.
#[derive(Drop)]
pub struct Brought {
    pub node: NodeId,
    pub part: Part<Block>,
}

/// The lists of a run.
#[derive(Drop)]
pub struct Lists {
    pub campaign: Option<u32>,
    pub time: u64,
    pub cancel: Option<Result<(), CampaignRefusal>>,
    pub opening: Vec<Opening>,
    pub master: MasterList,
    pub nodes: Vec<NodeHistory>,
    pub unreached: Vec<Unreached>,
    pub replies: Vec<LineReply>,
    /// The node whose entries come, and its entries so far.
    pub node: Option<NodeId>,
    pub entries: Vec<(u64, Entry)>,
    /// The bytes of a block that a row spells out.
    pub kept: Vec<u8>,
}

fn needs(alloc: Global, count: u64) -> Option<Needs> {
    let mut needs = Vec::new(alloc);
    if count > 0 {
        let req = ReqText::of(alloc, b"^1.0.0").ok()?;
        needs
            .push(Need {
                name: name(0)?,
                req,
            })
            .ok()?;
    }
    if needs.len() > 16 {
        return None;
    }
    Some(Needs::of(needs))
}

/// A part of a package: node, action, name, length and byte.
pub fn bring(alloc: Global, numbers: &[u64]) -> Option<Brought> {
    let manifest = Manifest {
        action: action(at(numbers, 1)),
        name: name(at(numbers, 2))?,
        version: VersionText::of(alloc, b"1.0.0").ok()?,
        needs: needs(alloc, 0)?,
        sha256: [0; 32],
    };
    let payload = block(alloc, at(numbers, 3), at(numbers, 4))?;
    let node = node(at(numbers, 0))?;
    let part = Part { manifest, payload };
    Some(Brought { node, part })
}

fn action(number: u64) -> Action {
    match number {
        0 => Action::Install,
        1 => Action::Update,
        _ => Action::Remove,
    }
}

impl Lists {
    pub fn new(alloc: Global) -> Lists {
        Lists {
            campaign: None,
            time: 0,
            cancel: None,
            opening: Vec::new(alloc),
            master: MasterList::new(alloc),
            nodes: Vec::new(alloc),
            unreached: Vec::new(alloc),
            replies: Vec::new(alloc),
            node: None,
            entries: Vec::new(alloc),
            kept: Vec::new(alloc),
        }
    }

    /// A cluster of the formatting: node, name, length, byte, and how many needs, at most one.
    pub fn open(&mut self, alloc: Global, numbers: &[u64]) -> Option<()> {
        let cluster = Cluster {
            name: name(at(numbers, 1))?,
            version: VersionText::of(alloc, b"1.0.0").ok()?,
            needs: needs(alloc, at(numbers, 4))?,
            content: block(alloc, at(numbers, 2), at(numbers, 3))?,
        };
        let node = node(at(numbers, 0))?;
        self.opening.push(Opening { node, cluster }).ok()
    }

    /// An event of the master's list, at its place or, where this is said, at one further on.
    pub fn happen(&mut self, numbers: &[u64], further: u64) -> Option<()> {
        let event = event(numbers)?;
        let place = (self.master.as_slice().len() as u64).saturating_add(further);
        self.master.push((place, event)).ok()
    }

    /// The histories go on with this node.
    pub fn go_on(&mut self, alloc: Global, next: Option<NodeId>) -> Option<()> {
        let entries = std::mem::replace(&mut self.entries, Vec::new(alloc));
        let entries = EntryList::of(entries);
        if let Some(node) = self.node {
            self.nodes.push(NodeHistory { node, entries }).ok()?;
        }
        self.node = next;
        Some(())
    }

    pub fn enter(&mut self, alloc: Global, numbers: &[u64]) -> Option<()> {
        let place = self.entries.len() as u64;
        let entry = entry(alloc, numbers, self.kept.as_slice())?;
        self.entries.push((place, entry)).ok()
    }

    pub fn work(&mut self, numbers: &[u64]) -> Option<()> {
        let place = self.entries.len() as u64;
        self.entries.push((place, unit(numbers))).ok()
    }

    /// What stayed open: a node, or 0 for the master, losses and faults.
    pub fn leave(&mut self, numbers: &[u64]) -> Option<()> {
        let whose = match at(numbers, 0) {
            0 => Whose::Master,
            number => Whose::Node(node(number)?),
        };
        self.unreached
            .push(Unreached {
                whose,
                losses: at(numbers, 1),
                faults: at(numbers, 2),
            })
            .ok()
    }

    /// What a line gave: its number first.
    pub fn answer(&mut self, alloc: Global, numbers: &[u64]) -> Option<()> {
        let line = at(numbers, 0);
        let gave = gave(alloc, numbers)?;
        self.replies.push(LineReply { line, gave }).ok()
    }

    /// The campaign's number, and what a cancel was answered: 1 Done, 2 not.
    pub fn begin(&mut self, numbers: &[u64]) -> Option<()> {
        self.campaign = Some(short_at(numbers, 0));
        self.time = at(numbers, 1);
        self.cancel = match at(numbers, 2) {
            0 => None,
            1 => Some(Ok(())),
            _ => Some(Err(CampaignRefusal::OperationNotPermitted)),
        };
        Some(())
    }
}

/// The parts, as a report names them.
pub fn named(alloc: Global, brought: &[Brought]) -> Result<NamedList<'_>, AllocError> {
    let mut named = NamedList::new(alloc);
    for one in brought {
        named.push(Named {
            node: one.node,
            manifest: &one.part.manifest,
            payload: one.part.payload.as_slice(),
        })?;
    }
    Ok(named)
}

/// What the lists show, beside the parts, which are lent.
pub fn shown<'a>(lists: Lists, named: NamedList<'a>) -> Shown<'a> {
    Shown {
        campaign: lists.campaign,
        time: lists.time,
        opening: OpeningList::of(lists.opening),
        named,
        master: lists.master,
        nodes: NodeHistories::of(lists.nodes),
        unreached: UnreachedList::of(lists.unreached),
        replies: ReplyList::of(lists.replies),
        cancel: lists.cancel,
    }
}
