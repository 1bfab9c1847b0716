//! What a call or a unit needs, made ready.
ghost use Rattle.std.specs.Prelude.{◌≡◌, ◌≤◌, IfOk, OnOk, IsErrOf};
ghost use Rattle.fault_count.specs.Faults.{HasRisen};
ghost use Rattle.node_core.specs.Core.{IsReady, IsReserved, IsSound, node_of, over};
ghost use Rattle.node_core.specs.Errors.{end_by};
ghost use Rattle.node_core.specs.Reserves.{Brings, BringsNew, Copies, Reserves};
ghost use Rattle.node_core.specs.Units.{IsReservedWork};

use crate::copying::reserve_unit;
use crate::node::ReserveError;
use crate::prepared::Prepared;
use crate::ready::Ready;
use crate::transfers::{read, stage};
use pm_types::{Call, Status};
use std::alloc::Global;
use transfer_blocks::Staging;
use ucm_base::{CallNo, ClientId};

impl Ready {
    /// Takes all memory that the call needs, stages a block that the table accepts behind the bytes that came, and
    /// reads a package that is closed. The node stays as it is.
    pub fn reserve<S: Staging>(
        &mut self,
        alloc: Global,
        staging: &mut S,
        client: ClientId,
        no: CallNo,
        call: &Call,
    ) -> Result<(), ReserveError>
        requires sound { IsSound (over (S.areas staging.old) self.old) }
        requires fit { S.is_fit staging.old }
        ensures state { self.new.state ≡ self.old.state }
        ensures node { node_of (over (S.areas staging.new) self.new)
            ≡ node_of (over (S.areas staging.old) self.old) }
        ensures sound { IsSound (over (S.areas staging.new) self.new) }
        ensures reserved { OnOk result
            (IsReserved (over (S.areas staging.new) self.new) client no call.now) }
        // What was done to the staging, so that it holds of each image of a device, too.
        ensures reserves { Reserves S.obeys S.areas self.old.state
            (Brings self.old.state client no call.now)
            (λ held. IsReserved (over held self.new) client no call.now)
            (end_by result) staging.old staging.new }
        ensures fit { S.is_fit staging.new }
        ensures cause { IsErrOf result ReserveError.StagingFailed
            → HasRisen (S.fault_count staging.old) (S.fault_count staging.new) }
        ensures faults { S.fault_count staging.old ≤ S.fault_count staging.new }
    {
        self.make_ready(alloc, staging, client, no, call)
    }

    /// Takes all memory that the next unit of work needs, and copies what it brings of a package. The node stays as
    /// it is.
    pub fn reserve_work<S: Staging>(
        &mut self,
        alloc: Global,
        staging: &mut S,
    ) -> Result<(), ReserveError>
        requires sound { IsSound (over (S.areas staging.old) self.old) }
        requires fit { S.is_fit staging.old }
        ensures state { self.new.state ≡ self.old.state }
        ensures node { node_of (over (S.areas staging.new) self.new)
            ≡ node_of (over (S.areas staging.old) self.old) }
        ensures sound { IsSound (over (S.areas staging.new) self.new) }
        ensures reserved { OnOk result (IsReservedWork (over (S.areas staging.new) self.new)) }
        // What was done to the staging, so that it holds of each image of a device, too.
        ensures reserves { Reserves S.obeys S.areas self.old.state
            (Copies (S.areas staging.old) self.old.state)
            (λ held. IsReservedWork (over held self.new))
            (end_by result) staging.old staging.new }
        ensures fit { S.is_fit staging.new }
        ensures cause { IsErrOf result ReserveError.StagingFailed
            → HasRisen (S.fault_count staging.old) (S.fault_count staging.new) }
        ensures faults { S.fault_count staging.old ≤ S.fault_count staging.new }
    {
        self.make_unit_ready(alloc, staging)
    }

    /// Makes ready what the call needs.
    fn make_ready<S: Staging>(
        &mut self,
        alloc: Global,
        staging: &mut S,
        client: ClientId,
        no: CallNo,
        call: &Call,
    ) -> Result<(), ReserveError>
        requires sound { IsSound (over (S.areas staging.old) self.old) }
        requires fit { S.is_fit staging.old }
        ensures state { self.new.state ≡ self.old.state }
        ensures reserves { Reserves S.obeys S.areas self.old.state
            (Brings self.old.state client no call.now)
            (λ held. IsReserved (over held self.new) client no call.now)
            (end_by result) staging.old staging.new }
        ensures fit { S.is_fit staging.new }
        ensures cause { IsErrOf result ReserveError.StagingFailed
            → HasRisen (S.fault_count staging.old) (S.fault_count staging.new) }
        ensures faults { S.fault_count staging.old ≤ S.fault_count staging.new }
    {
        if self.repeated(client, no).is_some() {
            return Ok(());
        }
        let prepared = prepare(alloc, staging, self, client, call)?;
        self.prepared = prepared;
        Ok(())
    }

    /// Makes ready what the next unit needs.
    fn make_unit_ready<S: Staging>(
        &mut self,
        alloc: Global,
        staging: &mut S,
    ) -> Result<(), ReserveError>
        requires sound { IsSound (over (S.areas staging.old) self.old) }
        requires fit { S.is_fit staging.old }
        ensures state { self.new.state ≡ self.old.state }
        ensures reserves { Reserves S.obeys S.areas self.old.state
            (Copies (S.areas staging.old) self.old.state)
            (λ held. IsReservedWork (over held self.new))
            (end_by result) staging.old staging.new }
        ensures fit { S.is_fit staging.new }
        ensures cause { IsErrOf result ReserveError.StagingFailed
            → HasRisen (S.fault_count staging.old) (S.fault_count staging.new) }
        ensures faults { S.fault_count staging.old ≤ S.fault_count staging.new }
    {
        match self.state.status {
            Status::Processing => {
                let prepared = reserve_unit(alloc, staging, &self.state)?;
                self.prepared = prepared;
                Ok(())
            }
            _ => Ok(self.reserve_clusters(alloc)?),
        }
    }
}

/// Takes what a newer call needs, stages a block that the table accepts, and reads a package that is closed.
fn prepare<S: Staging>(
    alloc: Global,
    staging: &mut S,
    ready: &Ready,
    client: ClientId,
    call: &Call,
) -> Result<Prepared, ReserveError>
    requires fit { S.is_fit staging.old }
    requires sound { IsSound (over (S.areas staging.old) ready.now) }
    ensures reserves { Reserves S.obeys S.areas ready.now.state
        (BringsNew ready.now.state client call.now)
        (λ held. IfOk result (λ p.
        IsReady (over held (record ready.now { prepared = p })) client call.now))
        (end_by result) staging.old staging.new }
    ensures fit { S.is_fit staging.new }
    ensures cause { IsErrOf result ReserveError.StagingFailed
        → HasRisen (S.fault_count staging.old) (S.fault_count staging.new) }
    ensures faults { S.fault_count staging.old ≤ S.fault_count staging.new }
{
    match call {
        Call::TransferData { id, counter, bytes } => {
            stage(
                staging,
                &ready.state,
                client,
                *id,
                *counter,
                bytes.as_slice(),
            )?;
            Ok(Prepared::Nothing)
        }
        Call::TransferExit { id } => read(alloc, staging, &ready.state, client, *id),
        Call::ProcessSwPackage { id, tag } => Ok(ready.open(alloc, client, *id, *tag)?),
        Call::Activate => Ok(ready.look(alloc, client)?),
        _ => Ok(Prepared::Nothing),
    }
}
