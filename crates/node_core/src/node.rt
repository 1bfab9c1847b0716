//! A node in memory.
ghost use Rattle.std.specs.Prelude.{◌≡◌, ◌<◌, ◌≤◌, ◌+◌, ◌↔◌, false, OnOk, IsErrOf};
ghost use Rattle.pm_types.specs.NodeState.{is_working};
ghost use Rattle.ucm_base.specs.Limits.{entry_limit};
ghost use Rattle.fault_count.specs.Faults.{HasRisen};
ghost use Rattle.node_laws.specs.Fit.{IsFit};
ghost use Rattle.node_core.specs.Packages.{package_reading};
ghost use Rattle.node_core.specs.Core.{IsReserved, IsSound, holding, node_of, over, state_after, step_by, under};
ghost use Rattle.node_core.specs.Errors.{end_by};
ghost use Rattle.node_core.specs.Reserves.{Brings, Copies, Reserves};
ghost use Rattle.node_core.specs.Units.{IsReservedWork, after_work, answer_to, state_worked};

use crate::ready::Ready;
use pm_types::{Call, Reached, State, Worked};
use std::alloc::{AllocError, Global};
use std::marker::Model;
use transfer_blocks::{Staging, StagingError};
use ucm_base::{CallNo, ClientId, ClusterName};

/// Why nothing was reserved.
#[derive(Clone, Copy, Debug, PartialEq, Eq)]
pub enum ReserveError {
    /// What keeps the areas failed; its count of faults rose in this call.
    StagingFailed,
    OutOfMemory,
}

impl From<AllocError> for ReserveError {
    ghost use Rattle.std.specs.Prelude.{◌≡◌};
    ghost use Rattle.node_core.specs.declared.node.ReserveError.TheVariants.{OutOfMemory};

    ghost from_gives = { λ _ h. h ≡ OutOfMemory };

    fn from(_refused: AllocError) -> ReserveError {
        ReserveError::OutOfMemory
    }
}

impl From<StagingError> for ReserveError {
    ghost use Rattle.std.specs.Prelude.{◌≡◌};
    ghost use Rattle.node_core.specs.Errors.{error_of};

    ghost from_gives = { λ fault h. h ≡ error_of fault };

    fn from(fault: StagingError) -> ReserveError {
        match fault {
            StagingError::Failed => ReserveError::StagingFailed,
            StagingError::OutOfMemory => ReserveError::OutOfMemory,
        }
    }
}

/// A node that keeps its areas in a staging, and what is ready for its next call or unit.
#[derive(Drop)]
pub struct Core<S: Staging> {
    pub(crate) staging: S,
    pub(crate) ready: Ready,
}

impl<S: Staging> Model for Core<S> {
    ghost use Rattle.node_core.specs.Core.{IsSound, Owning, over};

    ghost Value = { Owning S };

    ghost view = { λ c. record {
      staging = c.staging;
      held = over (S.areas c.staging) c.ready;
    } };

    ghost invariant = { λ c. IsSound (over (S.areas c.staging) c.ready)
        × S.is_fit c.staging };
}

impl<S: Staging> Core<S> {
    /// A node that goes on from this state. It takes no memory.
    pub fn new(staging: S, state: State) -> Core<S>
        requires sound { IsSound (holding (S.areas staging) state) }
        requires fit { S.is_fit staging }
        ensures { result ≡ record {
          staging = staging;
          held = holding (S.areas staging) state;
        } }
    {
        let ready = Ready::of(state);
        Core { staging, ready }
    }

    /// The staging and the state, as where nothing was reserved. It takes no memory.
    pub fn parts(self) -> (S, State)
        ensures parts { result ≡ (self.staging, self.held.state) }
        ensures areas { self.held.areas ≡ S.areas self.staging }
        ensures sound { IsSound (holding (S.areas result.0) result.1) }
        ensures fit { S.is_fit result.0 }
    {
        (self.staging, self.ready.into_state())
    }

    /// The staging, and the state with what a reserve took. It takes no memory.
    pub fn ready(self) -> (S, Ready)
        ensures parts { result ≡ (self.staging, under self.held) }
        ensures areas { self.held.areas ≡ S.areas self.staging }
        ensures sound { IsSound (over (S.areas result.0) result.1) }
        ensures fit { S.is_fit result.0 }
    {
        (self.staging, self.ready)
    }

    /// Takes all memory that the call needs, stages a block that the table accepts behind the bytes that came, and
    /// reads a package that is closed. The node stays as it is.
    pub fn reserve(
        &mut self,
        alloc: Global,
        client: ClientId,
        no: CallNo,
        call: &Call,
    ) -> Result<(), ReserveError>
        ensures state { self.new.held.state ≡ self.old.held.state }
        ensures node { node_of self.new.held ≡ node_of self.old.held }
        ensures reserved { OnOk result (IsReserved self.new.held client no call.now) }
        // What was done to the staging, so that it holds of each image of a device, too.
        ensures reserves { Reserves S.obeys S.areas self.old.held.state
            (Brings self.old.held.state client no call.now)
            (λ held. IsReserved (over held (under self.new.held)) client no call.now)
            (end_by result) self.old.staging self.new.staging }
        ensures cause { IsErrOf result ReserveError.StagingFailed
            → HasRisen (S.fault_count self.old.staging) (S.fault_count self.new.staging) }
        ensures faults { S.fault_count self.old.staging ≤ S.fault_count self.new.staging }
    {
        self.ready
            .reserve(alloc, &mut self.staging, client, no, call)
    }

    /// What `exec` would give of a call that was reserved. It takes no memory and changes nothing.
    pub fn foresee(&self, client: ClientId, no: CallNo, call: &Call) -> Reached
        requires reserved { IsReserved self.now.held client no call.now }
        requires entries { self.now.held.state.entries < entry_limit }
        ensures reached { result ≡ (step_by self.now.held client no call.now).1 }
    {
        self.ready.foresee(client, no, call)
    }

    /// Executes a numbered call after `reserve` of the same. It takes no memory.
    pub fn exec(&mut self, client: ClientId, no: CallNo, call: &Call) -> Reached
        requires reserved { IsReserved self.old.held client no call.now }
        requires entries { self.old.held.state.entries < entry_limit }
        ensures reached { result ≡ (step_by self.old.held client no call.now).1 }
        ensures node { node_of self.new.held ≡ (step_by self.old.held client no call.now).0 }
        ensures state { self.new.held.state
            ≡ state_after (under self.old.held) client no call.now result }
        ensures valid { IsFit package_reading (node_of self.new.held) }
        ensures staging { self.new.staging ≡ self.old.staging }
        ensures entries { self.new.held.state.entries ≤ self.old.held.state.entries + 1 }
    {
        self.ready.exec(client, no, call)
    }

    /// Takes all memory that the next unit of work needs, and copies what it brings of a package. The node stays as
    /// it is.
    pub fn reserve_work(&mut self, alloc: Global) -> Result<(), ReserveError>
        ensures state { self.new.held.state ≡ self.old.held.state }
        ensures node { node_of self.new.held ≡ node_of self.old.held }
        ensures reserved { OnOk result (IsReservedWork self.new.held) }
        // What was done to the staging, so that it holds of each image of a device, too.
        ensures reserves { Reserves S.obeys S.areas self.old.held.state
            (Copies self.old.held.areas self.old.held.state)
            (λ held. IsReservedWork (over held (under self.new.held)))
            (end_by result) self.old.staging self.new.staging }
        ensures cause { IsErrOf result ReserveError.StagingFailed
            → HasRisen (S.fault_count self.old.staging) (S.fault_count self.new.staging) }
        ensures faults { S.fault_count self.old.staging ≤ S.fault_count self.new.staging }
    {
        self.ready.reserve_work(alloc, &mut self.staging)
    }

    /// What `work` would answer of a unit that was reserved. It takes no memory and changes nothing.
    pub fn foresee_work(&self, fails: &[ClusterName]) -> Worked
        requires reserved { IsReservedWork self.now.held }
        requires entries { self.now.held.state.entries < entry_limit }
        ensures answer { result ≡ answer_to fails.now (node_of self.now.held) }
        ensures nothing { (result ≡ Worked.Nothing self.now.held.state.status)
            ↔ (is_working self.now.held.state.status ≡ false) }
    {
        self.ready.foresee_work(fails)
    }

    /// Does the next unit of work after `reserve_work`, where clusters of these names fail when they are verified. It
    /// takes no memory.
    pub fn work(&mut self, fails: &[ClusterName]) -> Worked
        requires reserved { IsReservedWork self.old.held }
        requires entries { self.old.held.state.entries < entry_limit }
        ensures answer { result ≡ answer_to fails.now (node_of self.old.held) }
        ensures nothing { (result ≡ Worked.Nothing self.old.held.state.status)
            ↔ (is_working self.old.held.state.status ≡ false) }
        ensures node { node_of self.new.held ≡ after_work fails.now (node_of self.old.held) }
        ensures state { self.new.held.state ≡ state_worked (under self.old.held) result }
        ensures valid { IsFit package_reading (node_of self.new.held) }
        ensures staging { self.new.staging ≡ self.old.staging }
        ensures entries { self.new.held.state.entries ≤ self.old.held.state.entries + 1 }
    {
        self.ready.work(fails)
    }
}
