//! Units of work: what the next one answers, and what it does.
ghost use Rattle.std.specs.Prelude.{◌≡◌, ◌<◌, ◌≤◌, ◌+◌, ◌↔◌, [], Some, IfSome, false, if◌then◌else◌, length, nat_lt, option_map};
ghost use Rattle.ucm_base.specs.Limits.{entry_limit};
ghost use Rattle.ucm_base.specs.Names.{has_name};
ghost use Rattle.pm_types.specs.declared.history.Happened.TheVariants.{Unit as UnitAfter};
ghost use Rattle.pm_types.specs.declared.status.Status.TheVariants.{Activated, Processing, RollingBack, Verifying};
ghost use Rattle.pm_types.specs.Clusters.{planned, stored_units};
ghost use Rattle.pm_types.specs.Histories.{passes, unit_passes};
ghost use Rattle.pm_types.specs.NodeState.{is_working};
ghost use Rattle.pm_types.specs.Steps.{with_entry};
ghost use Rattle.pm_types.specs.Stored.{Areas, meaning};
ghost use Rattle.pm_types.specs.Work.{activate_unit, end_mark, end_session, roll_back_unit, verify_unit};
ghost use Rattle.node_core.specs.Core.{node_of, over, table_of};
ghost use Rattle.node_core.specs.Packages.{package_reading};
ghost use Rattle.node_core.specs.Sessions.{contents_of};
ghost use Rattle.node_core.specs.Units.{AllWorkReady, IsWorked, SomeWorkReady, answer_to, clusters_kept, process_stored, state_worked, unit_stored};
ghost use Rattle.transfer_blocks.specs.Table.{IsTable, stored_of, with_slots};

use crate::ready::Ready;
use pm_types::{EndMark, Happened, Phase, Session, State, Status, Worked};
use transfer_blocks::{lookup, table};
use ucm_base::ClusterName;

impl Ready {
    /// Does the next unit of work, for which all is ready, where clusters of these names fail when they are verified.
    /// It takes no memory.
    pub fn work(&mut self, fails: &[ClusterName]) -> Worked
        requires reserved { SomeWorkReady self.old }
        requires entries { self.old.state.entries < entry_limit }
        ensures worked { AllWorkReady self.old (λ v.
            IsWorked v fails.now result (over v.areas self.new)) }
        ensures nothing { (result ≡ Worked.Nothing self.old.state.status)
            ↔ (is_working self.old.state.status ≡ false) }
        ensures state { self.new.state ≡ state_worked self.old result }
        ensures entries { self.new.state.entries ≤ self.old.state.entries + 1 }
    {
        let passed = unit_passes(&self.state, fails);
        let Some(after) = self.status_after(passed) else {
            return nothing(&self.state);
        };
        self.do_unit(passed);
        enter(&mut self.state);
        Worked::Unit { passed, after }
    }

    /// What `work` would answer of a unit that was reserved. It takes no memory and changes nothing.
    pub fn foresee_work(&self, fails: &[ClusterName]) -> Worked
        ensures answer { AllWorkReady self.now (λ v. result ≡ answer_to fails.now (node_of v)) }
        ensures nothing { AllWorkReady self.now (λ v. (result ≡ Worked.Nothing v.state.status)
            ↔ (is_working v.state.status ≡ false)) }
    {
        let passed = unit_passes(&self.state, fails);
        match self.status_after(passed) {
            Some(after) => Worked::Unit { passed, after },
            None => nothing(&self.state),
        }
    }

    /// The status behind the next unit, where there is one.
    fn status_after(&self, passed: bool) -> Option<Status>
        ensures { result ≡ option_map (λ s. s.status) (unit_stored self.now passed) }
    {
        let state = &self.state;
        let Some(session) = &state.session else {
            return None;
        };
        match state.status {
            Status::Processing => {
                let id = session.processing?;
                Some(status_processed(state, session, id))
            }
            Status::Activating => Some(Status::Verifying),
            Status::Verifying => {
                let count = session.changes.as_slice().len();
                Some(status_verified(session.verified, count, passed))
            }
            Status::RollingBack => Some(Status::RolledBack),
            Status::CleaningUp => Some(Status::Idle),
            Status::Idle | Status::Ready | Status::Activated | Status::RolledBack => None,
        }
    }

    /// Does the next unit, where there is one.
    fn do_unit(&mut self, passed: bool)
        requires reserved { SomeWorkReady self.old }
        ensures { IfSome (unit_stored self.old passed) (λ s. self.new.state ≡ s) }
    {
        match self.state.status {
            Status::Processing => self.process_unit(),
            Status::Activating => self.activate_unit(),
            Status::Verifying => verify_unit(&mut self.state, passed),
            Status::RollingBack => self.roll_back_unit(),
            Status::CleaningUp => clean_up_unit(&mut self.state),
            Status::Idle | Status::Ready | Status::Activated | Status::RolledBack => {}
        }
    }

    /// One unit more of the package in processing; with its last one the package is processed.
    fn process_unit(&mut self)
        requires status { self.old.state.status ≡ Processing }
        requires reserved { SomeWorkReady self.old }
        ensures { IfSome self.old.state.session (λ x.
            IfSome x.processing (λ id. self.new.state ≡ process_stored self.old x id)) }
    {
        let state = &mut self.state;
        let Some(session) = &mut state.session else {
            return;
        };
        let Some(id) = session.processing else {
            return;
        };
        let Some(transfer) = lookup::stored(&state.transfers.list, session.owner, id) else {
            return;
        };
        let units = transfer.contents.units();
        session.units_done += 1;
        if u64::from(session.units_done) < units {
            return;
        }
        let Some(changes) = self.prepared.take_changes() else {
            return;
        };
        session.changes.append(changes);
        session.processing = None;
        state.status = Status::Ready;
        table::set_phase(&mut state.transfers, id, Phase::Processed);
    }

    /// The planned clusters, which are ready, run, and none is verified.
    fn activate_unit(&mut self)
        requires ready { IfSome self.old.state.session (λ x.
            clusters_kept self.old.prepared ≡ Some (planned x.changes x.saved)) }
        ensures { IfSome self.old.state.session (λ x.
            self.new.state ≡ activate_unit self.old.state x) }
    {
        let state = &mut self.state;
        let Some(session) = &mut state.session else {
            return;
        };
        let Some(clusters) = self.prepared.take_clusters() else {
            return;
        };
        session.verified = 0;
        state.status = Status::Verifying;
        state.running = clusters;
    }

    /// The saved clusters, which are ready, run again.
    fn roll_back_unit(&mut self)
        requires ready { IfSome self.old.state.session (λ x.
            clusters_kept self.old.prepared ≡ Some x.saved) }
        ensures { IfSome self.old.state.session (λ x.
            self.new.state ≡ roll_back_unit self.old.state x) }
    {
        let Some(clusters) = self.prepared.take_clusters() else {
            return;
        };
        let state = &mut self.state;
        state.status = Status::RolledBack;
        state.running = clusters;
    }
}

/// The answer where there is no unit to do.
fn nothing(state: &State) -> Worked
    ensures { result ≡ Worked.Nothing state.now.status }
{
    Worked::Nothing {
        status: state.status,
    }
}

/// One change more is verified, or the node turns back.
fn verify_unit(state: &mut State, passed: bool)
    requires more { IfSome state.old.session (λ x. x.verified < length x.changes) }
    ensures { IfSome state.old.session (λ x. state.new ≡ verify_unit state.old x passed) }
{
    let Some(session) = &mut state.session else {
        return;
    };
    let count = session.changes.as_slice().len();
    state.status = status_verified(session.verified, count, passed);
    if passed {
        session.verified += 1;
    }
}

/// The session is over: its owner's end mark is kept, and the transfers that were processed are gone.
fn clean_up_unit(state: &mut State)
    requires table { IsTable (table_of state.old) }
    ensures { IfSome state.old.session (λ x.
        state.new ≡ end_session (with_slots [] []) state.old x) }
{
    state.status = Status::Idle;
    table::clean(&mut state.transfers);
    if let Some(session) = state.session.take() {
        state.ended[session.owner.number() as usize] = end_mark(&session);
    }
}

/// Writes a unit's line.
fn enter(state: &mut State)
    requires entries { state.old.entries < entry_limit }
    ensures { state.new ≡ with_entry (UnitAfter state.old.status) state.old }
{
    let after = state.status;
    state.lines.push(state.entries, Happened::Unit { after });
    state.entries += 1;
}

/// The status behind a unit of the package in processing.
fn status_processed(state: &State, session: &Session, id: u32) -> Status
    ensures { result ≡ (if nat_lt (session.now.units_done + 1)
        (stored_units (contents_of (stored_of state.now.transfers session.now.owner id)))
        then Processing else Status.Ready) }
{
    let units = match lookup::stored(&state.transfers.list, session.owner, id) {
        Some(transfer) => transfer.contents.units(),
        None => 0,
    };
    if u64::from(session.units_done) + 1 < units {
        Status::Processing
    } else {
        Status::Ready
    }
}

/// The status behind the verification of one of so many changes, where these were verified.
fn status_verified(verified: u8, count: usize, passed: bool) -> Status
    ensures { result ≡ (if passed then (if nat_lt (verified + 1) count
        then Verifying else Activated) else RollingBack) }
{
    if !passed {
        Status::RollingBack
    } else if (verified as usize) + 1 < count {
        Status::Verifying
    } else {
        Status::Activated
    }
}

/// How a session ends.
fn end_mark(session: &Session) -> Option<EndMark>
    ensures { result ≡ end_mark session.now }
{
    match session.outcome {
        Some(outcome) => Some(EndMark {
            tag: session.tag,
            outcome,
        }),
        None => None,
    }
}

/// The verdict of the next unit: true outside Verifying.
fn unit_passes(state: &State, fails: &[ClusterName]) -> bool
    ensures { (areas : Areas)
        → result ≡ unit_passes fails.now (meaning package_reading areas state.now) }
{
    state.status != Status::Verifying || passes(state, fails)
}

/// Whether the change that is verified next is of a cluster that doesn't fail.
fn passes(state: &State, fails: &[ClusterName]) -> bool
    ensures { (areas : Areas)
        → result ≡ passes fails.now (meaning package_reading areas state.now) }
{
    let Some(session) = &state.session else {
        return true;
    };
    match session.changes.as_slice().get(session.verified as usize) {
        Some(change) => !has_name(fails, &change.part.manifest.name),
        None => true,
    }
}

/// Whether one of the names is this.
fn has_name(names: &[ClusterName], name: &ClusterName) -> bool
    ensures { result ≡ has_name names.now name.now }
{
    names.iter().any(|other| name == other)
}
