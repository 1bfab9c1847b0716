//! What is made ready before a session begins, and before its changes are activated.
ghost use Rattle.std.specs.Prelude.{◌≡◌, map, option_map, IfOk, IsTrue};
ghost use Rattle.ucm_base.specs.Names.{names_rise};
ghost use Rattle.pm_types.specs.declared.calls.Call.TheVariants.{Activate, ProcessSwPackage};
ghost use Rattle.pm_types.specs.Clusters.{planned, unmet_among};
ghost use Rattle.pm_types.specs.Sessions.{activate_refusal, new_session};
ghost use Rattle.dependency_check.specs.Clusters.{needing};
ghost use Rattle.pm_types.specs.Stored.{Areas};
ghost use Rattle.node_core.specs.Core.{IsReady, IsSound, SomeSound, over};
ghost use Rattle.node_core.specs.Units.{planned_of};
ghost use Rattle.node_core.specs.Sessions.{missing_dependencies, needing_of};

use crate::plan::{Planned, plan};
use crate::prepared::Prepared;
use crate::ready::Ready;
use crate::sessions::session_refusal;
use dependency_check::{Needing, missing};
use pm_types::{Call, Change, Changes, Clusters, Extent, Refusal, Session, State};
use std::alloc::{AllocError, Global};
use ucm_base::ClientId;

impl Ready {
    /// The session that a package begins, where none is there.
    pub(crate) fn open(
        &self,
        alloc: Global,
        client: ClientId,
        id: u32,
        tag: u32,
    ) -> Result<Prepared, AllocError>
        ensures { IfOk result (λ p. (areas : Areas) → IsSound (over areas self.now)
            → IsReady (over areas (record self.now { prepared = p })) client
            (ProcessSwPackage id tag)) }
    {
        let state = &self.state;
        if state.session.is_some() || self.process_refusal(client, id, tag).is_some() {
            return Ok(Prepared::Nothing);
        }
        Ok(Prepared::Session(begin(alloc, state, client, tag)?))
    }

    /// What refuses an activation, where the session and the table let it pass.
    pub(crate) fn look(&self, alloc: Global, client: ClientId) -> Result<Prepared, AllocError>
        requires sound { SomeSound self.now.state }
        ensures { IfOk result (λ p. (areas : Areas) → IsSound (over areas self.now)
            → IsReady (over areas (record self.now { prepared = p })) client Activate) }
    {
        let state = &self.state;
        if session_refusal(state, client, &Call::Activate).is_some() {
            return Ok(Prepared::Nothing);
        }
        let why = find_unmet(alloc, state)?;
        Ok(Prepared::Unmet(why))
    }
}

/// What refuses the planned clusters.
fn find_unmet(alloc: Global, state: &State) -> Result<Option<Refusal>, AllocError>
    requires sound { SomeSound state.now }
    ensures { IfOk result (λ why. why ≡ activate_refusal state.now) }
{
    match &state.session {
        Some(session) => unmet_refusal(alloc, &session.saved, session.changes.as_slice()),
        None => unmet_refusal(alloc, &state.running, &[]),
    }
}

/// A session that begins on the running clusters.
fn begin(alloc: Global, state: &State, client: ClientId, tag: u32) -> Result<Session, AllocError>
    ensures { IfOk result (λ x. x ≡ new_session state.now client tag) }
{
    Ok(Session {
        owner: client,
        tag,
        saved: state.running.copied(alloc)?,
        changes: Changes::new(alloc)?,
        processing: None,
        units_done: 0,
        verified: 0,
        outcome: None,
    })
}

/// The refusal of the clusters that would run after changes, where they leave a need unmet.
fn unmet_refusal(
    alloc: Global,
    saved: &Clusters,
    changes: &[Change<Extent>],
) -> Result<Option<Refusal>, AllocError>
    requires rise { IsTrue (names_rise (map (λ c. c.name) saved.now)) }
    ensures { IfOk result (λ why. why
        ≡ option_map missing_dependencies (unmet_among (planned changes.now saved.now))) }
{
    let plan = plan(alloc, saved, changes)?;
    let all = needs_of(alloc, plan.as_slice())?;
    match missing(all.as_slice()) {
        Some((cluster, need)) => Ok(Some(Refusal::MissingDependencies {
            cluster,
            needed: need.name,
            req: need.req.text(),
        })),
        None => Ok(None),
    }
}

/// Clusters with their needs, in order.
fn needs_of<'a>(alloc: Global, plan: &[Planned<'a>]) -> Result<Vec<Needing<'a>>, AllocError>
    ensures { IfOk result (λ all. map needing all.items
        ≡ map needing_of (map planned_of plan.now)) }
{
    let mut all = Vec::with_capacity(alloc, plan.len())?;
    for planned in plan {
        all.push(Needing {
            name: planned.name,
            version: planned.version,
            needs: planned.needs,
        })?;
    }
    Ok(all)
}
