//! A list of many campaigns, for a bench.
ghost use Rattle.decision_log.specs.Known.{IsKnown};

use crate::list_rows::of_one;
use crate::tries::{TryError, add_events, fresh};
use campaign_core::CampaignState;
use decision_log::MasterLog;
use disk_core::Disk;
use disk_mem::Tear;
use std::alloc::Global;
use std::io;
use ucm_base::NodeId;

/// Adds so many campaigns of node 1, of eight events each, and prints how many events the list has.
pub fn print<R: Print + AllocGlobal>(rt: &R, campaigns: u32) -> io::Result<()> {
    let added = add_campaigns(rt.alloc(), campaigns);
    println!(rt; "{campaigns} campaigns: {added:?}")
}

/// How many events a list has of so many campaigns, and its state.
fn add_campaigns(alloc: Global, campaigns: u32) -> Result<(u64, CampaignState), TryError> {
    let Some(node) = NodeId::of(1) else {
        return Err(TryError::Memory);
    };
    let mut log = fresh(alloc, Tear::Keep)?;
    add_all(&mut log, alloc, node, campaigns);
    Ok((log.count(), log.state()))
}

/// Adds so many campaigns of the node.
fn add_all<D: Disk>(log: &mut MasterLog<D>, alloc: Global, node: NodeId, campaigns: u32)
    requires known { IsKnown log.old.log log.old.campaign.fold log.old.pending
        (D.seen log.old.disk) (D.images log.old.disk) }
{
    'campaigns: for before in 0..campaigns {
        let events = of_one(node, before.saturating_add(1));
        let all = events.as_slice();
        let rest = if before == 0 { all } else { &all[1..] };
        if log.is_closed() {
            return;
        }
        add_events(log, alloc, rest);
    }
}
