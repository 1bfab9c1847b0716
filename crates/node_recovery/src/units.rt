//! What a unit of work does to a stored state.
ghost use Rattle.std.specs.Prelude.{◌≡◌, ◌<◌, ◌≤◌, ◌+◌, [], false, length, nat_lt, option_map, if◌then◌else◌, IfOk, IfSome, IsSome, OnOk, Some};
ghost use Rattle.ucm_base.specs.Limits.{cluster_limit, entry_limit};
ghost use Rattle.pm_types.specs.declared.history.Happened.TheVariants.{Unit as UnitAfter};
ghost use Rattle.pm_types.specs.declared.status.Status.TheVariants.{Activated, RollingBack, Verifying};
ghost use Rattle.pm_types.specs.Clusters.{stored_units};
ghost use Rattle.pm_types.specs.Steps.{with_entry};
ghost use Rattle.pm_types.specs.Work.{activate_unit, end_mark, end_processing, end_session, roll_back_unit, verify_unit};
ghost use Rattle.transfer_blocks.specs.Table.{IsTable, stored_of, with_slots};
ghost use Rattle.node_core.specs.Core.{table_of};
ghost use Rattle.node_core.specs.Places.{extents_in};
ghost use Rattle.node_core.specs.Sessions.{contents_of};
ghost use Rattle.node_core.specs.Units.{changes_to};
ghost use Rattle.node_recovery.specs.Allowed.{MayProcess, MayWork};
ghost use Rattle.node_recovery.specs.Folds.{processed, unit_of};

use crate::destination::extents;
use crate::plan::planned;
use pm_types::{Change, EndMark, Extent, Happened, Phase, Session, State, Status};
use std::alloc::{AllocError, Global};
use transfer_blocks::{lookup, table};
use ucm_base::Part;

/// Does the next unit of work, and writes its line.
pub(crate) fn do_unit(alloc: Global, state: &mut State, passed: bool) -> Result<(), AllocError>
    requires table { IsTable (table_of state.old) }
    requires entries { state.old.entries < entry_limit }
    requires may { IfSome state.old.session (λ x. MayWork state.old x state.old.status) }
    requires there { IsSome (unit_of state.old passed) }
    ensures { OnOk result (Some state.new
        ≡ option_map (λ t. with_entry (UnitAfter t.status) t) (unit_of state.old passed)) }
{
    work(alloc, state, passed)?;
    let after = state.status;
    state.lines.push(state.entries, Happened::Unit { after });
    state.entries += 1;
    Ok(())
}

/// Does the next unit of work, where there is one.
fn work(alloc: Global, state: &mut State, passed: bool) -> Result<(), AllocError>
    requires table { IsTable (table_of state.old) }
    requires may { IfSome state.old.session (λ x. MayWork state.old x state.old.status) }
    ensures unit { OnOk result (IfSome (unit_of state.old passed) (λ s. state.new ≡ s)) }
    ensures entries { OnOk result (state.new.entries ≡ state.old.entries) }
{
    match state.status {
        Status::Processing => process_unit(alloc, state),
        Status::Activating => activate_unit(alloc, state),
        Status::Verifying => {
            verify_unit(state, passed);
            Ok(())
        }
        Status::RollingBack => roll_back_unit(alloc, state),
        Status::CleaningUp => {
            clean_up_unit(state);
            Ok(())
        }
        Status::Idle | Status::Ready | Status::Activated | Status::RolledBack => Ok(()),
    }
}

/// One unit more of the package in processing; with its last one the package is processed.
fn process_unit(alloc: Global, state: &mut State) -> Result<(), AllocError>
    requires table { IsTable (table_of state.old) }
    requires may { IfSome state.old.session (λ x. IfSome x.processing (MayProcess state.old x)) }
    ensures unit { OnOk result (IfSome state.old.session (λ x.
        IfSome x.processing (λ id. state.new ≡ processed state.old x id))) }
    ensures entries { OnOk result (state.new.entries ≡ state.old.entries) }
{
    let Some(session) = &mut state.session else {
        return Ok(());
    };
    let Some(id) = session.processing else {
        return Ok(());
    };
    let Some(transfer) = lookup::stored(&state.transfers.list, session.owner, id) else {
        return Ok(());
    };
    let units = transfer.contents.units();
    if u64::from(session.units_done) + 1 < units {
        session.units_done += 1;
        return Ok(());
    }
    end_processing(alloc, state, id)
}

/// The last unit of the package of this id, which is in processing: its changes are planned.
fn end_processing(alloc: Global, state: &mut State, id: u32) -> Result<(), AllocError>
    requires table { IsTable (table_of state.old) }
    requires may { IfSome state.old.session (λ x. MayProcess state.old x id) }
    ensures unit { OnOk result (IfSome state.old.session (λ x.
        IfSome (stored_of state.old.transfers x.owner id) (λ t.
        state.new ≡ end_processing (with_slots state.old.transfers []) state.old x id
        (changes_to id t.contents (extents_in state.old t))))) }
    ensures entries { OnOk result (state.new.entries ≡ state.old.entries) }
{
    let changes = changes(alloc, state, id)?;
    if let Some(session) = &mut state.session {
        session.units_done += 1;
        session.changes.append(changes);
        session.processing = None;
    }
    state.status = Status::Ready;
    table::set_phase(&mut state.transfers, id, Phase::Processed);
    Ok(())
}

/// The changes that the package of this id makes, which is in processing.
fn changes(alloc: Global, state: &State, id: u32) -> Result<Vec<Change<Extent>>, AllocError>
    ensures changes { IfOk result (λ v. IfSome state.now.session (λ x.
        IfSome (stored_of state.now.transfers x.owner id) (λ t.
        v.items ≡ changes_to id t.contents (extents_in state.now t)))) }
    ensures few { IfOk result (λ v. IfSome state.now.session (λ x.
        length v.items ≤ length (contents_of (stored_of state.now.transfers x.owner id)))) }
{
    let Some(session) = &state.session else {
        return Ok(Vec::new(alloc));
    };
    let Some(transfer) = lookup::stored(&state.transfers.list, session.owner, id) else {
        return Ok(Vec::new(alloc));
    };
    let parts = transfer.contents.as_slice();
    let extents = extents(alloc, state, parts)?;
    changes_to(alloc, id, parts, extents.as_slice())
}

/// The changes of parts whose payloads go to these extents.
fn changes_to(
    alloc: Global,
    id: u32,
    parts: &[Part<u32>],
    extents: &[Extent],
) -> Result<Vec<Change<Extent>>, AllocError>
    ensures changes { IfOk result (λ changes.
        changes.items ≡ changes_to id parts.now extents.now) }
    ensures few { IfOk result (λ changes. length changes.items ≤ length parts.now) }
{
    let count = parts.len().min(extents.len());
    let mut changes = Vec::new(alloc);
    for place in 0..count {
        let manifest = parts[place].manifest.copied(alloc)?;
        let payload = extents[place];
        let part = Part { manifest, payload };
        changes.push(Change { transfer: id, part })?;
    }
    Ok(changes)
}

/// The planned clusters run, and none is verified.
fn activate_unit(alloc: Global, state: &mut State) -> Result<(), AllocError>
    ensures unit { OnOk result
        (IfSome state.old.session (λ x. state.new ≡ activate_unit state.old x)) }
    ensures entries { OnOk result (state.new.entries ≡ state.old.entries) }
{
    let Some(session) = &mut state.session else {
        return Ok(());
    };
    state.running = planned(alloc, &session.saved, session.changes.as_slice())?;
    session.verified = 0;
    state.status = Status::Verifying;
    Ok(())
}

/// One change more is verified, or the node turns back.
fn verify_unit(state: &mut State, passed: bool)
    requires more { IfSome state.old.session (λ x. x.verified < length x.changes) }
    ensures unit { IfSome state.old.session (λ x. state.new ≡ verify_unit state.old x passed) }
    ensures entries { state.new.entries ≡ state.old.entries }
{
    let Some(session) = &mut state.session else {
        return;
    };
    let count = session.changes.as_slice().len();
    state.status = status_verified(session.verified, count, passed);
    if passed {
        session.verified += 1;
    }
}

/// The status behind the verification of one of so many changes, where these were verified.
fn status_verified(verified: u8, count: usize, passed: bool) -> Status
    ensures { result ≡ (if passed then (if nat_lt (verified + 1) count
        then Verifying else Activated) else RollingBack) }
{
    if !passed {
        Status::RollingBack
    } else if (verified as usize) + 1 < count {
        Status::Verifying
    } else {
        Status::Activated
    }
}

/// The saved clusters run again.
fn roll_back_unit(alloc: Global, state: &mut State) -> Result<(), AllocError>
    ensures unit { OnOk result
        (IfSome state.old.session (λ x. state.new ≡ roll_back_unit state.old x)) }
    ensures entries { OnOk result (state.new.entries ≡ state.old.entries) }
{
    let Some(session) = &state.session else {
        return Ok(());
    };
    state.running = session.saved.copied(alloc)?;
    state.status = Status::RolledBack;
    Ok(())
}

/// The session is over: its owner's end mark is kept, and the transfers that were processed are gone.
fn clean_up_unit(state: &mut State)
    requires table { IsTable (table_of state.old) }
    ensures unit { IfSome state.old.session (λ x.
        state.new ≡ end_session (with_slots state.old.transfers []) state.old x) }
    ensures entries { state.new.entries ≡ state.old.entries }
{
    let Some(session) = state.session.take() else {
        return;
    };
    state.status = Status::Idle;
    table::clean(&mut state.transfers);
    state.ended[session.owner.number() as usize] = end_mark(&session);
}

/// How a session ends.
fn end_mark(session: &Session) -> Option<EndMark>
    ensures { result ≡ end_mark session.now }
{
    match session.outcome {
        Some(outcome) => Some(EndMark {
            tag: session.tag,
            outcome,
        }),
        None => None,
    }
}
