//! A node in memory, with the entries of its history.
ghost use Rattle.std.specs.Prelude.{◌≡◌, ◌+◌, ◌<◌, ◌≤◌, IfSome, length};
ghost use Rattle.ucm_base.specs.Limits.{entry_limit, package_limit};

use node_core::{Core, Installed, format_areas};
use pm_types::{Call, Cluster, Entry, Reached, Reply, Worked};
use report::EntryList;
use std::alloc::{AllocError, Global};
use transfer_blocks::MemStaging;
use ucm_base::{Block, CallNo, ClientId, ClusterName, Needs, VersionText};

/// A node of which one cluster fails when it is verified, if any.
#[derive(Drop)]
pub struct CoreNode {
    alloc: Global,
    core: Core<MemStaging>,
    master: ClientId,
    fails: Vec<ClusterName>,
    /// How many calls and units it was asked for.
    asked: u32,
    entries: Vec<(u64, Entry)>,
}

/// A cluster of 10 bytes that a node begins with.
fn installed(alloc: Global, name: &str) -> Option<Installed>
    ensures { IfSome result (λ c. length c.content ≤ package_limit) }
{
    let bytes = vec![in alloc; 1u8; 10].ok()?;
    Some(Cluster {
        name: ClusterName::of(name.as_bytes()).ok()?,
        version: VersionText::of(alloc, b"1.0.0").ok()?,
        needs: Needs::of(Vec::new(alloc)),
        content: Block::of(bytes),
    })
}

/// A node that has done nothing, with this cluster.
fn formatted(alloc: Global, cluster: Installed) -> Option<Core<MemStaging>>
    requires { length cluster.content ≤ package_limit }
    ensures { IfSome result (λ core. core.held.state.entries ≡ 0) }
{
    let mut clusters = Vec::new(alloc);
    clusters.push(cluster).ok()?;
    let mut staging = MemStaging::new(alloc).ok()?;
    match format_areas(alloc, &mut staging, clusters.as_slice()) {
        Ok(state) => Some(Core::new(staging, state)),
        Err(_) => None,
    }
}

/// Executes a call of a client.
fn reach(
    alloc: Global,
    core: &mut Core<MemStaging>,
    client: ClientId,
    no: CallNo,
    call: &Call,
) -> Result<Reached, AllocError>
    requires { core.old.held.state.entries < entry_limit }
    ensures { core.new.held.state.entries ≤ core.old.held.state.entries + 1 }
{
    match core.reserve(alloc, client, no, call) {
        Ok(()) => Ok(core.exec(client, no, call)),
        Err(_) => Err(AllocError),
    }
}

/// Does a unit of work, where these clusters fail when they are verified.
fn do_work(
    alloc: Global,
    core: &mut Core<MemStaging>,
    fails: &[ClusterName],
) -> Result<Worked, AllocError>
    requires { core.old.held.state.entries < entry_limit }
    ensures { core.new.held.state.entries ≤ core.old.held.state.entries + 1 }
{
    match core.reserve_work(alloc) {
        Ok(()) => Ok(core.work(fails)),
        Err(_) => Err(AllocError),
    }
}

impl CoreNode {
    /// A node that has done nothing. It has the cluster `core`.
    pub fn new(alloc: Global, fails: Option<&str>) -> Option<CoreNode>
        ensures { IfSome result (λ n. n.core.held.state.entries ≤ n.asked) }
    {
        let core = formatted(alloc, installed(alloc, "core")?)?;
        let mut failing = Vec::new(alloc);
        if let Some(name) = fails {
            failing.push(ClusterName::of(name.as_bytes()).ok()?).ok()?;
        }
        Some(CoreNode {
            alloc,
            core,
            master: ClientId::of(0)?,
            fails: failing,
            asked: 0,
            entries: Vec::new(alloc),
        })
    }

    /// The entries of its history, with their places.
    pub fn into_entries(self) -> EntryList {
        EntryList::of(self.entries)
    }

    /// Executes a call of the master, unless it is stale.
    pub fn execute(&mut self, no: CallNo, call: Call) -> Result<Reply, AllocError>
        requires { self.old.core.held.state.entries ≤ self.old.asked }
        ensures { self.new.core.held.state.entries ≤ self.new.asked }
    {
        self.asked = self.asked.checked_add(1).ok_or(AllocError)?;
        let reached = reach(self.alloc, &mut self.core, self.master, no, &call)?;
        match &reached {
            Reached::Done(reply) => {
                let entry = Entry::Numbered {
                    client: self.master,
                    no,
                    call,
                    reply: *reply,
                };
                push(&mut self.entries, entry)?;
                Ok(*reply)
            }
            Reached::Again(reply) => Ok(*reply),
            Reached::Stale { .. } => Err(AllocError),
        }
    }

    /// Does a unit of work.
    pub fn work(&mut self) -> Result<Worked, AllocError>
        requires { self.old.core.held.state.entries ≤ self.old.asked }
        ensures { self.new.core.held.state.entries ≤ self.new.asked }
    {
        self.asked = self.asked.checked_add(1).ok_or(AllocError)?;
        let worked = do_work(self.alloc, &mut self.core, self.fails.as_slice())?;
        if let Worked::Unit { passed, after } = worked {
            push(&mut self.entries, Entry::Unit { passed, after })?;
        }
        Ok(worked)
    }
}

/// Adds an entry at the next place.
fn push(entries: &mut Vec<(u64, Entry)>, entry: Entry) -> Result<(), AllocError> {
    let place = entries.len() as u64;
    entries.push((place, entry))?;
    Ok(())
}
