//! What a campaign shows.
ghost use Rattle.std.specs.Prelude.{◌≡◌, map};
ghost use Rattle.campaign_core.specs.Campaign.{has_ended};
ghost use Rattle.campaign_core.specs.Views.{current_view, is_abort, is_cancelling, phase_state, state_at, state_code, state_of, view_of};

use crate::{CampaignResult, Current, Decision, Fold, Phase};
use pm_types::Outcome;
use ucm_base::{NodeId, NodeSet};

/// The state of a campaign, as it is shown.
#[derive(Clone, Copy, Debug, PartialEq, Eq)]
pub enum CampaignState {
    Idle,
    Syncing,
    SoftwarePackageTransferring,
    Processing,
    Activating,
    VehicleChecking,
    Cancelling,
}

/// The epoch, the newest earlier campaign, and the current one.
#[derive(Clone, Copy)]
pub struct CampaignView {
    pub epoch: u32,
    pub last: Option<(u32, CampaignResult)>,
    pub current: Option<CurrentView>,
}

/// The current campaign without its votes.
#[derive(Clone, Copy)]
pub struct CurrentView {
    pub campaign: u32,
    pub named: NodeSet,
    pub phase: Option<Phase>,
    pub cancel: bool,
    pub restart: bool,
    /// The lowest node with a vote of no.
    pub first_no: Option<NodeId>,
    pub decision: Option<Decision>,
    /// The nodes that have ended.
    pub ended: NodeSet,
}

impl CampaignState {
    /// The code of the state, 0 to 6.
    pub fn code(self) -> u8
        ensures { result ≡ state_code self }
    {
        self as u8
    }

    /// The state of a code; Idle where no state has it.
    pub fn of_code(code: u8) -> CampaignState
        ensures { result ≡ state_at code }
    {
        match code {
            1 => CampaignState::Syncing,
            2 => CampaignState::SoftwarePackageTransferring,
            3 => CampaignState::Processing,
            4 => CampaignState::Activating,
            5 => CampaignState::VehicleChecking,
            6 => CampaignState::Cancelling,
            _ => CampaignState::Idle,
        }
    }
}

fn is_abort(decision: Option<Decision>) -> bool
    ensures { result ≡ is_abort decision }
{
    matches!(decision, Some(Decision::Abort(_)))
}

fn phase_state(phase: Option<Phase>) -> CampaignState
    ensures { result ≡ phase_state phase }
{
    match phase {
        None => CampaignState::Syncing,
        Some(Phase::Transferring) => CampaignState::SoftwarePackageTransferring,
        Some(Phase::Processing) => CampaignState::Processing,
        Some(Phase::Activating) => CampaignState::Activating,
    }
}

/// Which nodes have ended.
fn flags_of(ended: &[Option<Outcome>; 8]) -> [bool; 8]
    ensures { result ≡ map has_ended ended.now }
{
    let mut flags = [false; 8];
    for node in 0..8 {
        flags[node] = ended[node].is_some();
    }
    flags
}

impl Current {
    fn is_cancelling(&self) -> bool
        ensures { result ≡ is_cancelling self.now }
    {
        self.is_marked() || self.first_no().is_some() || is_abort(self.decision)
    }

    fn view(&self) -> CurrentView
        ensures { result ≡ current_view self.now }
    {
        CurrentView {
            campaign: self.campaign,
            named: self.named,
            phase: self.phase,
            cancel: self.cancel,
            restart: self.restart,
            first_no: self.first_no(),
            decision: self.decision,
            ended: NodeSet {
                flags: flags_of(&self.ended),
            },
        }
    }
}

impl Fold {
    /// The state that is shown.
    pub fn state(&self) -> CampaignState
        ensures { result ≡ state_of self.now }
    {
        match &self.current {
            None => CampaignState::Idle,
            Some(current) if current.is_cancelling() => CampaignState::Cancelling,
            Some(current) if current.all_yes() => CampaignState::VehicleChecking,
            Some(current) => phase_state(current.phase),
        }
    }

    /// The parts that are shown.
    pub fn view(&self) -> CampaignView
        ensures { result ≡ view_of self.now }
    {
        CampaignView {
            epoch: self.epoch,
            last: self.earlier.as_slice().last().copied(),
            current: self.current.as_ref().map(|current| current.view()),
        }
    }
}
