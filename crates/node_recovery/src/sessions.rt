//! What an accepted call does to a session.
ghost use Rattle.std.specs.Prelude.{◌≡◌, [], OnOk, IfOk};
ghost use Rattle.pm_types.specs.declared.calls.Call.TheVariants as calls;
ghost use Rattle.pm_types.specs.Sessions.{Resume, arrive, changes_in, clean_up, led_by, new_session, put_back, take_up};
ghost use Rattle.transfer_blocks.specs.Table.{IsTable, with_slots};
ghost use Rattle.node_core.specs.Core.{table_of};
ghost use Rattle.node_recovery.specs.Folds.{call_of};

use event_codec::StoredCall;
use pm_types::{Change, Changes, Extent, Outcome, Phase, Session, State, Status};
use std::alloc::{AllocError, Global};
use transfer_blocks::table;
use ucm_base::ClientId;

/// Goes where the status table leads, if anywhere.
pub(crate) fn lead(state: &mut State, call: &StoredCall)
    ensures { state.new ≡ led_by (call_of call.now) state.old }
{
    match (state.status, call) {
        (Status::Idle, StoredCall::ProcessSwPackage { .. }) => state.status = Status::Processing,
        (Status::Ready, StoredCall::ProcessSwPackage { .. }) => state.status = Status::Processing,
        (Status::Ready, StoredCall::Activate) => state.status = Status::Activating,
        (Status::Ready, StoredCall::RevertProcessedSwPackages) => clean_up(state, Outcome::Old),
        (Status::Processing, StoredCall::Cancel { .. }) => resume(state),
        (Status::Verifying, StoredCall::Rollback) => state.status = Status::RollingBack,
        (Status::Activated, StoredCall::Finish) => clean_up(state, Outcome::New),
        (Status::Activated, StoredCall::Rollback) => state.status = Status::RollingBack,
        (Status::RolledBack, StoredCall::Finish) => clean_up(state, Outcome::Old),
        _ => {}
    }
}

/// Goes back to Ready where changes are planned; else nothing is left to do.
fn resume(state: &mut State)
    ensures { state.new ≡ arrive state.old Resume }
{
    if changes(state).is_empty() {
        clean_up(state, Outcome::Old);
    } else {
        state.status = Status::Ready;
    }
}

/// The planned changes.
fn changes(state: &State) -> &[Change<Extent>]
    ensures { result.now ≡ changes_in state.now }
{
    match &state.session {
        Some(session) => session.changes.as_slice(),
        None => &[],
    }
}

/// The session ends so, once it is cleaned up.
fn clean_up(state: &mut State, outcome: Outcome)
    ensures { state.new ≡ clean_up outcome state.old }
{
    state.status = Status::CleaningUp;
    if let Some(session) = &mut state.session {
        session.outcome = Some(outcome);
    }
}

/// The session takes up the package, or begins with it.
pub(crate) fn take_up(
    alloc: Global,
    state: &mut State,
    client: ClientId,
    id: u32,
    tag: u32,
) -> Result<(), AllocError>
    requires table { IsTable (table_of state.old) }
    ensures { OnOk result
        (state.new ≡ take_up (with_slots state.old.transfers []) state.old client id tag) }
{
    if state.session.is_none() {
        state.session = Some(begin(alloc, state, client, tag)?);
    }
    table::set_phase(&mut state.transfers, id, Phase::Processing);
    if let Some(session) = &mut state.session {
        session.processing = Some(id);
        session.units_done = 0;
    }
    Ok(())
}

/// A session that begins on the running clusters.
fn begin(alloc: Global, state: &State, client: ClientId, tag: u32) -> Result<Session, AllocError>
    ensures { IfOk result (λ x. x ≡ new_session state.now client tag) }
{
    Ok(Session {
        owner: client,
        tag,
        saved: state.running.copied(alloc)?,
        changes: Changes::new(alloc)?,
        processing: None,
        units_done: 0,
        verified: 0,
        outcome: None,
    })
}

/// The package in processing is whole again.
pub(crate) fn put_back(state: &mut State, id: u32)
    requires table { IsTable (table_of state.old) }
    ensures { state.new ≡ put_back (with_slots state.old.transfers []) state.old id }
{
    table::set_phase(&mut state.transfers, id, Phase::Transferred);
    if let Some(session) = &mut state.session {
        session.processing = None;
    }
}
