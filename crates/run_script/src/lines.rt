//! What the lines of a script say, each with its number, from 1.

use campaign_core::Phase;
use disk_core::FailKind;
use scenario::{Event, Installed};
use std::alloc::Global;
use sub_core::Fate;
use ucm_base::{ClusterName, NodeId, Rows};

/// After which record the campaign is cancelled.
#[derive(Clone, Copy)]
pub enum Point {
    /// The campaign's begin.
    Syncing,
    InPhase(Phase),
    /// The last vote of the activate round.
    Voted,
    Decided,
}

/// The campaign's number.
#[derive(Clone, Copy)]
pub struct CampaignLine {
    pub line: u64,
    pub campaign: u32,
}

/// The start time.
#[derive(Clone, Copy)]
pub struct TimeLine {
    pub line: u64,
    pub time: u64,
}

/// Where the campaign is cancelled.
#[derive(Clone, Copy)]
pub struct CancelLine {
    pub line: u64,
    pub point: Point,
}

/// Bytes that are attached under a name.
#[derive(Clone, Copy)]
pub struct AttachLine {
    pub line: u64,
    pub name: ClusterName,
    pub len: u64,
}

/// A cluster that a node is formatted with.
#[derive(Drop)]
pub struct InstalledLine {
    pub line: u64,
    pub node: NodeId,
    pub cluster: Installed,
}

/// A cluster whose verdict fails on a node.
#[derive(Clone, Copy)]
pub struct FailsLine {
    pub line: u64,
    pub node: NodeId,
    pub name: ClusterName,
}

/// What a client does, in the setup or beside the campaign.
#[derive(Drop)]
pub struct ClientLine {
    pub line: u64,
    pub is_setup: bool,
    pub node: NodeId,
    pub event: Event,
}

/// Power stops at a write of a disk, of which so many bytes stay. Writes count from 1 since the disk was formatted.
#[derive(Clone, Copy)]
pub struct StopLine {
    pub line: u64,
    /// 0 is the master's disk, n that of node n.
    pub disk: u8,
    pub write: u64,
    pub keep: u64,
}

/// Calls of a disk that fail: those of a kind from the first to the last of these numbers, which count from 1 since the
/// disk was formatted.
#[derive(Clone, Copy)]
pub struct FaultLine {
    pub line: u64,
    pub disk: u8,
    pub kind: FailKind,
    pub first: u64,
    pub last: u64,
}

/// What becomes of the attempts at a node from the first to the last of these numbers, which count from 1.
#[derive(Clone, Copy)]
pub struct FateLine {
    pub line: u64,
    pub node: NodeId,
    pub first: u64,
    pub last: u64,
    pub fate: Fate,
}

/// The lines of each kind, in order.
#[derive(Drop)]
pub struct Lines {
    pub campaign: Option<CampaignLine>,
    pub time: Option<TimeLine>,
    pub cancel: Option<CancelLine>,
    pub attached: Rows<AttachLine>,
    pub installed: Rows<InstalledLine>,
    pub fails: Rows<FailsLine>,
    pub clients: Rows<ClientLine>,
    pub stops: Rows<StopLine>,
    pub faults: Rows<FaultLine>,
    pub fates: Rows<FateLine>,
}

impl Lines {
    ghost use Rattle.std.specs.Prelude.{◌≡◌};
    ghost use Rattle.run_script.specs.Above.{no_lines};
    ghost use Rattle.run_script.specs.InForm.{AreInForm};

    /// No lines of any kind.
    #[tactic(auto, using(crate::proofs::Forms::none_in_form))]
    pub fn new(alloc: Global) -> Lines
        ensures none { result ≡ no_lines }
        ensures form { AreInForm result }
    {
        Lines {
            campaign: None,
            time: None,
            cancel: None,
            attached: Rows::new(alloc),
            installed: Rows::new(alloc),
            fails: Rows::new(alloc),
            clients: Rows::new(alloc),
            stops: Rows::new(alloc),
            faults: Rows::new(alloc),
            fates: Rows::new(alloc),
        }
    }
}
