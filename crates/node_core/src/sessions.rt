//! What refuses the calls on a session, and what they do.
ghost use Rattle.std.specs.Prelude.{◌≡◌, ◌≤◌, [], None, Some, length};
ghost use Rattle.std.specs.Option.{option_or};
ghost use Rattle.ucm_base.specs.Limits.{cluster_limit};
ghost use Rattle.pm_types.specs.Refusals.{first_refusal};
ghost use Rattle.pm_types.specs.Sessions.{arrive, cancel_refusals, changes_in, clean_up, led_by, new_session, parts_refusal, put_back, session_refusals, take_up};
ghost use Rattle.node_core.specs.Core.{table_of};
ghost use Rattle.node_core.specs.Prepared.{session_kept};
ghost use Rattle.node_core.specs.Sessions.{contents_of, goal_of, package_refusals};
ghost use Rattle.transfer_blocks.specs.Table.{IsTable, stored_header, stored_of, with_slots};

use crate::ready::Ready;
use crate::session_rules::{self, Goal, goal_from, is_anothers};
use pm_types::{Call, Change, Extent, Outcome, Phase, Refusal, State, Status};
use transfer_blocks::{lookup, table};
use ucm_base::ClientId;

/// What the session and the status table refuse a call with, if they do.
pub(crate) fn session_refusal(state: &State, client: ClientId, call: &Call) -> Option<Refusal>
    ensures { result ≡ first_refusal (session_refusals state.now client call.now) }
{
    if is_anothers(&state.session, client) {
        return Some(Refusal::ServiceBusy);
    }
    match goal_from(state.status, call) {
        Some(_) => None,
        None => Some(Refusal::OperationNotPermitted),
    }
}

/// What a package is refused with that the session lets pass, if anything.
pub(crate) fn package_refusal(state: &State, client: ClientId, id: u32, tag: u32) -> Option<Refusal>
    ensures { result ≡ option_or
        (first_refusal (package_refusals state.now client tag
        (stored_header state.now.transfers client id)))
        (parts_refusal state.now.running (changes_in state.now) []
        (contents_of (stored_of state.now.transfers client id))) }
{
    let found = lookup::find(&state.transfers.list, client, id);
    match session_rules::package_refusal(state, client, tag, found) {
        Some(refusal) => Some(refusal),
        None => contents_refusal(state, client, id),
    }
}

/// What the contents of a transfer are refused with, if anything.
fn contents_refusal(state: &State, client: ClientId, id: u32) -> Option<Refusal>
    ensures { result ≡ parts_refusal state.now.running (changes_in state.now) []
        (contents_of (stored_of state.now.transfers client id)) }
{
    let transfer = lookup::stored(&state.transfers.list, client, id)?;
    session_rules::parts_refusal(
        state.running.as_slice(),
        changes(state),
        transfer.contents.as_slice(),
    )
}

/// What Cancel is refused with that the session lets pass, if anything.
pub(crate) fn cancel_refusal(state: &State, client: ClientId, id: u32) -> Option<Refusal>
    ensures { result ≡ first_refusal
        (cancel_refusals (stored_header state.now.transfers client id)) }
{
    session_rules::cancel_refusal(lookup::find(&state.transfers.list, client, id))
}

/// The planned changes.
fn changes(state: &State) -> &[Change<Extent>]
    ensures changes { result.now ≡ changes_in state.now }
    ensures few { length result.now ≤ cluster_limit }
{
    match &state.session {
        Some(session) => session.changes.as_slice(),
        None => &[],
    }
}

/// Goes where the status table leads, if anywhere.
pub(crate) fn lead(state: &mut State, call: &Call)
    ensures { state.new ≡ led_by call.now state.old }
{
    if let Some(goal) = goal_from(state.status, call) {
        arrive(state, goal);
    }
}

/// Goes where a call leads.
fn arrive(state: &mut State, goal: Goal)
    ensures { state.new ≡ arrive state.old (goal_of goal) }
{
    match goal {
        Goal::To(status) => state.status = status,
        Goal::CleanUp(outcome) => clean_up(state, outcome),
        Goal::Resume => {
            if changes(state).is_empty() {
                clean_up(state, Outcome::Old);
            } else {
                state.status = Status::Ready;
            }
        }
    }
}

/// The session ends so, once it is cleaned up.
fn clean_up(state: &mut State, outcome: Outcome)
    ensures { state.new ≡ clean_up outcome state.old }
{
    state.status = Status::CleaningUp;
    if let Some(session) = &mut state.session {
        session.outcome = Some(outcome);
    }
}

/// The package in processing is whole again.
pub(crate) fn put_back(state: &mut State, id: u32)
    requires table { IsTable (table_of state.old) }
    ensures { state.new ≡ put_back (with_slots state.old.transfers []) state.old id }
{
    table::set_phase(&mut state.transfers, id, Phase::Transferred);
    if let Some(session) = &mut state.session {
        session.processing = None;
    }
}

impl Ready {
    /// The session takes up the package, or the one that is ready begins with it.
    pub(crate) fn take_up(&mut self, client: ClientId, id: u32, tag: u32)
        requires table { IsTable (table_of self.old.state) }
        requires ready { self.old.state.session ≡ None
            → session_kept self.old.prepared ≡ Some (new_session self.old.state client tag) }
        ensures { self.new.state
            ≡ take_up (with_slots self.old.state.transfers []) self.old.state client id tag }
    {
        let state = &mut self.state;
        table::set_phase(&mut state.transfers, id, Phase::Processing);
        if state.session.is_none() {
            state.session = self.prepared.take_session();
        }
        if let Some(session) = &mut state.session {
            session.processing = Some(id);
            session.units_done = 0;
        }
    }
}
