//! The queries, which change nothing.
ghost use Rattle.std.specs.Prelude.{◌≡◌, IfOk};
ghost use Rattle.pm_types.specs.declared.queries.Query.TheVariants.{GetSwProcessProgress};
ghost use Rattle.pm_types.specs.Queries.{answer};
ghost use Rattle.history_query.specs.Shown.{progress_answer};
ghost use Rattle.node_core.specs.Core.{AllSound, SomeSound, node_of};

use crate::node::Core;
use crate::ready::Ready;
use history_query::{change_info, cluster_info, history, packages, process_progress};
use pm_types::{Answer, Query, Refusal, Status};
use std::alloc::{AllocError, Global};
use transfer_blocks::Staging;
use ucm_base::ClientId;

impl<S: Staging> Core<S> {
    /// Answers a query.
    pub fn query(
        &self,
        alloc: Global,
        client: ClientId,
        query: &Query,
    ) -> Result<Answer, AllocError>
        ensures { IfOk result (λ a. a ≡ answer (node_of self.now.held) client query.now) }
    {
        self.ready.query(alloc, client, query)
    }

    /// How much of the client's transfer is processed, in percent. It takes no memory.
    pub fn progress(&self, client: ClientId, id: u32) -> Result<u8, Refusal>
        ensures { progress_answer result
            ≡ answer (node_of self.now.held) client (GetSwProcessProgress id) }
    {
        self.ready.progress(client, id)
    }

    /// The node's status.
    pub fn status(&self) -> Status
        ensures { result ≡ (node_of self.now.held).status }
    {
        self.ready.status()
    }
}

impl Ready {
    /// Answers a query.
    pub fn query(
        &self,
        alloc: Global,
        client: ClientId,
        query: &Query,
    ) -> Result<Answer, AllocError>
        requires sound { SomeSound self.now.state }
        ensures { AllSound self.now.state (λ node.
            IfOk result (λ a. a ≡ answer node client query.now)) }
    {
        let state = &self.state;
        match query {
            Query::CurrentStatus => Ok(Answer::Status(state.status)),
            Query::GetSwClusterInfo => Ok(Answer::Clusters(cluster_info(alloc, &state.running)?)),
            Query::GetSwClusterChangeInfo => {
                Ok(Answer::Changes(change_info(alloc, state.session.as_ref())?))
            }
            Query::GetSwPackages => {
                let transfers = state.transfers.list.as_slice();
                Ok(Answer::Packages(packages(alloc, transfers, client)?))
            }
            Query::GetSwProcessProgress { id } => Ok(shown(self.progress(client, *id))),
            Query::GetHistory { ge, lt } => {
                Ok(Answer::History(history(alloc, &state.lines, *ge, *lt)?))
            }
        }
    }

    /// How much of the client's transfer is processed, in percent. It takes no memory.
    pub fn progress(&self, client: ClientId, id: u32) -> Result<u8, Refusal>
        requires sound { SomeSound self.now.state }
        ensures { AllSound self.now.state (λ node.
            progress_answer result ≡ answer node client (GetSwProcessProgress id)) }
    {
        let state = &self.state;
        let transfers = state.transfers.list.as_slice();
        process_progress(transfers, state.session.as_ref(), client, id)
    }

    /// The node's status.
    pub fn status(&self) -> Status
        ensures { result ≡ self.now.state.status }
    {
        self.state.status
    }
}

/// A progress, or its refusal, as an answer.
fn shown(progress: Result<u8, Refusal>) -> Answer
    ensures { result ≡ progress_answer progress }
{
    match progress {
        Ok(percent) => Answer::Progress(percent),
        Err(refusal) => Answer::Refused(refusal),
    }
}
