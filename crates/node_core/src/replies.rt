//! The replies to calls, by the tables and by what is ready.
ghost use Rattle.std.specs.Prelude.{◌≡◌, option_map};
ghost use Rattle.pm_types.specs.declared.calls.Call.TheVariants.{Activate, Cancel, ProcessSwPackage, TransferExit};
ghost use Rattle.pm_types.specs.Steps.{acceptance};
ghost use Rattle.pm_types.specs.NodeState.{of_client};
ghost use Rattle.pm_types.specs.Stored.{Areas};
ghost use Rattle.transfer_blocks.specs.Table.{stored_ids};
ghost use Rattle.node_core.specs.Core.{AllReady, IsSound, mark_of, node_of, over, refusal_by, reply_by};

use crate::ready::Ready;
use crate::sessions::{cancel_refusal, package_refusal, session_refusal};
use pm_types::{Call, Refusal, Reply, SessionMark, State, Synced};
use transfer_blocks::{lookup, table};
use ucm_base::ClientId;

impl Ready {
    /// The reply to a newer call for which all is ready.
    pub(crate) fn reply(&self, client: ClientId, call: &Call) -> Reply
        ensures { AllReady self.now client call.now (λ v. result ≡ reply_by v client call.now) }
    {
        match self.refusal(client, call) {
            Some(refusal) => Reply::Refused(refusal),
            None => self.acceptance(client, call),
        }
    }

    /// The reply to a call that is accepted.
    fn acceptance(&self, client: ClientId, call: &Call) -> Reply
        ensures { (areas : Areas)
            → result ≡ acceptance (node_of (over areas self.now)) client call.now }
    {
        let state = &self.state;
        match call {
            Call::Sync => Reply::Synced(synced(state, client)),
            Call::TransferStart { .. } => Reply::Started {
                id: state.transfers.next_id,
            },
            _ => Reply::Done,
        }
    }

    /// What a call is refused with for which all is ready, if anything.
    fn refusal(&self, client: ClientId, call: &Call) -> Option<Refusal>
        ensures { AllReady self.now client call.now (λ v. result ≡ refusal_by v client call.now) }
    {
        let state = &self.state;
        let transfers = &state.transfers;
        match call {
            Call::Sync => None,
            Call::TransferStart { size } => table::start_refusal(transfers, *size),
            Call::TransferData { id, counter, bytes } => {
                let length = bytes.as_slice().len() as u64;
                table::block_refusal(transfers, client, *id, *counter, length)
            }
            Call::TransferExit { id } => self.exit_refusal(client, *id),
            Call::DeleteTransfer { id } => table::delete_refusal(transfers, client, *id),
            Call::ProcessSwPackage { id, tag } => self.process_refusal(client, *id, *tag),
            Call::Activate => self.activate_refusal(client),
            Call::Finish => session_refusal(state, client, call),
            Call::Rollback => session_refusal(state, client, call),
            Call::RevertProcessedSwPackages => session_refusal(state, client, call),
            Call::Cancel { id } => self.cancel_refusal(client, *id),
        }
    }

    /// What TransferExit is refused with, by the verdict that is ready.
    fn exit_refusal(&self, client: ClientId, id: u32) -> Option<Refusal>
        ensures { AllReady self.now client (TransferExit id) (λ v.
            result ≡ refusal_by v client (TransferExit id)) }
    {
        let state = &self.state;
        match table::exit_refusal(&state.transfers, client, id) {
            Some(refusal) => Some(refusal),
            None => self.prepared.bad(),
        }
    }

    /// What ProcessSwPackage is refused with. For this nothing need be ready.
    pub(crate) fn process_refusal(&self, client: ClientId, id: u32, tag: u32) -> Option<Refusal>
        ensures { (areas : Areas) → IsSound (over areas self.now)
            → result ≡ refusal_by (over areas self.now) client (ProcessSwPackage id tag) }
    {
        let state = &self.state;
        let refused = session_refusal(state, client, &Call::ProcessSwPackage { id, tag });
        match refused {
            Some(refusal) => Some(refusal),
            None => package_refusal(state, client, id, tag),
        }
    }

    /// What Activate is refused with, by the unmet need that was looked for.
    fn activate_refusal(&self, client: ClientId) -> Option<Refusal>
        ensures { AllReady self.now client Activate (λ v.
            result ≡ refusal_by v client Activate) }
    {
        let state = &self.state;
        let refused = session_refusal(state, client, &Call::Activate);
        match refused {
            Some(refusal) => Some(refusal),
            None => self.prepared.unmet(),
        }
    }

    /// What Cancel is refused with.
    fn cancel_refusal(&self, client: ClientId, id: u32) -> Option<Refusal>
        ensures { (areas : Areas)
            → result ≡ refusal_by (over areas self.now) client (Cancel id) }
    {
        let state = &self.state;
        let refused = session_refusal(state, client, &Call::Cancel { id });
        match refused {
            Some(refusal) => Some(refusal),
            None => cancel_refusal(state, client, id),
        }
    }
}

/// What Sync shows.
fn synced(state: &State, client: ClientId) -> Synced
    ensures { result ≡ record {
      session = option_map (mark_of state.now.status) state.now.session;
      ended = of_client state.now.ended client;
      transfers = stored_ids state.now.transfers client;
    } }
{
    Synced {
        session: session_mark(state),
        ended: state.ended[client.number() as usize],
        transfers: lookup::ids(&state.transfers.list, client),
    }
}

/// What Sync shows of the session.
fn session_mark(state: &State) -> Option<SessionMark>
    ensures { result ≡ option_map (mark_of state.now.status) state.now.session }
{
    match &state.session {
        Some(session) => Some(SessionMark {
            owner: session.owner,
            tag: session.tag,
            status: state.status,
        }),
        None => None,
    }
}
