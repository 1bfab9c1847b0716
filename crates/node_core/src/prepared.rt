//! What is made ready before a call or a unit, so that making it takes no memory.
ghost use Rattle.std.specs.Prelude.{◌≡◌, None, option_map, unwrap_or};
ghost use Rattle.node_core.specs.Prepared.{session_kept, unmet_kept, verdict_in, verdict_kept};
ghost use Rattle.transfer_blocks.specs.Table.{bad_refusal, good_parts};
ghost use Rattle.node_core.specs.Units.{clusters_kept, plan_kept};

use pm_types::{Change, Clusters, ExitVerdict, Extent, Refusal, Session};
use std::mem;
use ucm_base::Part;

/// What `reserve` or `reserve_work` made ready.
#[derive(Drop)]
pub enum Prepared {
    Nothing,
    /// What the bytes of the transfer are that is to be closed.
    Verdict(ExitVerdict),
    /// The session that begins.
    Session(Session),
    /// What refuses the activation, if anything.
    Unmet(Option<Refusal>),
    /// The clusters that run after the unit.
    Clusters(Clusters),
    /// The changes that the last unit of a package plans.
    Changes(Vec<Change<Extent>>),
}

impl Prepared {
    /// The changes that a unit plans, if it does.
    pub(crate) fn planning(changes: Option<Vec<Change<Extent>>>) -> Prepared
        ensures { plan_kept result ≡ option_map (λ v. v.items) changes }
    {
        match changes {
            Some(changes) => Prepared::Changes(changes),
            None => Prepared::Nothing,
        }
    }

    /// Takes the verdict; where there is none the bytes are no package.
    pub(crate) fn take_verdict(&mut self) -> ExitVerdict
        ensures { result ≡ verdict_in (verdict_kept self.old) }
    {
        match mem::replace(self, Prepared::Nothing) {
            Prepared::Verdict(verdict) => verdict,
            _ => ExitVerdict::Bad(Refusal::InvalidManifest),
        }
    }

    /// The parts of the package by the verdict that is ready.
    pub(crate) fn brought(&self) -> &[Part<u32>]
        ensures { result.now ≡ good_parts (verdict_in (verdict_kept self.now)) }
    {
        match self {
            Prepared::Verdict(ExitVerdict::Good(contents)) => contents.as_slice(),
            _ => &[],
        }
    }

    /// What the bytes are refused with by the verdict that is ready, if they are.
    pub(crate) fn bad(&self) -> Option<Refusal>
        ensures { result ≡ bad_refusal (verdict_in (verdict_kept self.now)) }
    {
        match self {
            Prepared::Verdict(ExitVerdict::Good(_)) => None,
            Prepared::Verdict(ExitVerdict::Bad(refusal)) => Some(*refusal),
            _ => Some(Refusal::InvalidManifest),
        }
    }

    /// Takes the session that begins.
    pub(crate) fn take_session(&mut self) -> Option<Session>
        ensures { result ≡ session_kept self.old }
    {
        match mem::replace(self, Prepared::Nothing) {
            Prepared::Session(session) => Some(session),
            _ => None,
        }
    }

    /// What refuses the activation.
    pub(crate) fn unmet(&self) -> Option<Refusal>
        ensures { result ≡ unwrap_or (unmet_kept self.now) None }
    {
        match self {
            Prepared::Unmet(why) => *why,
            _ => None,
        }
    }

    /// Takes the clusters that are ready.
    pub(crate) fn take_clusters(&mut self) -> Option<Clusters>
        ensures { result ≡ clusters_kept self.old }
    {
        match mem::replace(self, Prepared::Nothing) {
            Prepared::Clusters(clusters) => Some(clusters),
            _ => None,
        }
    }

    /// Takes the changes that are ready.
    pub(crate) fn take_changes(&mut self) -> Option<Vec<Change<Extent>>>
        ensures { option_map (λ v. v.items) result ≡ plan_kept self.old }
    {
        match mem::replace(self, Prepared::Nothing) {
            Prepared::Changes(changes) => Some(changes),
            _ => None,
        }
    }
}
