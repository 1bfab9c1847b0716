//! A node's state in memory with what is ready for its next call or unit, and what these make of it. Nothing here takes
//! memory or reaches a device.
ghost use Rattle.std.specs.Prelude.{◌≡◌, ◌<◌, ◌≤◌, ◌+◌, None, slice_index_or};
ghost use Rattle.ucm_base.specs.Limits.{client_limit, entry_limit};
ghost use Rattle.pm_types.specs.Steps.{accept, answer_with, execute, repeat_of};
ghost use Rattle.pm_types.specs.declared.calls.Call.TheVariants.{Cancel, DeleteTransfer, ProcessSwPackage, TransferData, TransferExit, TransferStart};
ghost use Rattle.transfer_blocks.specs.Table.{good_parts};
ghost use Rattle.node_core.specs.Prepared.{verdict_in, verdict_kept};
ghost use Rattle.node_core.specs.Core.{AllReserved, IsExecuted, SomeAccepted, SomeReady, SomeReserved, kept_by, over, reply_by, state_after, step_by};

use crate::prepared::Prepared;
use crate::sessions::{lead, put_back};
use pm_types::{Call, Happened, Kept, Reached, Reply, State};
use std::cmp::Ordering;
use std::marker::Model;
use transfer_blocks::table;
use ucm_base::{CallNo, ClientId, Part};

/// A node's state, and what a reserve took for the next call or unit.
#[derive(Drop)]
pub struct Ready {
    pub(crate) state: State,
    pub(crate) prepared: Prepared,
}

impl Model for Ready {
    ghost use Rattle.node_core.specs.Core.{Readied};

    ghost Value = { Readied };

    ghost view = { λ r. record { state = r.state; prepared = r.prepared } };
}

impl Ready {
    /// A state for which nothing is ready. It takes no memory.
    pub fn of(state: State) -> Ready
        ensures { result ≡ record { state = state; prepared = Prepared.Nothing } }
    {
        Ready {
            state,
            prepared: Prepared::Nothing,
        }
    }

    /// The state.
    pub fn state(&self) -> &State
        ensures { result.now ≡ self.now.state }
    {
        &self.state
    }

    /// The state, for which nothing is ready any more.
    pub fn into_state(self) -> State
        ensures { result ≡ self.state }
    {
        self.state
    }

    /// What is ready.
    pub fn prepared(&self) -> &Prepared
        ensures { result.now ≡ self.now.prepared }
    {
        &self.prepared
    }

    /// The parts of the package that a TransferExit, for which all is ready, brings; none where the bytes are no
    /// package.
    pub fn brought(&self) -> &[Part<u32>]
        ensures { result.now ≡ good_parts (verdict_in (verdict_kept self.now.prepared)) }
    {
        self.prepared.brought()
    }

    /// Executes a numbered call for which all is ready. It takes no memory.
    pub fn exec(&mut self, client: ClientId, no: CallNo, call: &Call) -> Reached
        requires reserved { SomeReserved self.old client no call.now }
        requires entries { self.old.state.entries < entry_limit }
        ensures executed { AllReserved self.old client no call.now (λ v.
            IsExecuted v client no call.now result (over v.areas self.new)) }
        ensures state { self.new.state ≡ state_after self.old client no call.now result }
        ensures entries { self.new.state.entries ≤ self.old.state.entries + 1 }
    {
        if let Some(reached) = self.repeated(client, no) {
            return reached;
        }
        let reply = self.reply(client, call);
        self.execute(client, no, call, &reply);
        Reached::Done(reply)
    }

    /// What `exec` would give of a call that was reserved. It takes no memory and changes nothing.
    pub fn foresee(&self, client: ClientId, no: CallNo, call: &Call) -> Reached
        ensures { AllReserved self.now client no call.now (λ v.
            result ≡ (step_by v client no call.now).1) }
    {
        match self.repeated(client, no) {
            Some(reached) => reached,
            None => Reached::Done(self.reply(client, call)),
        }
    }

    /// What a call gives that isn't newer than the client's last one.
    pub(crate) fn repeated(&self, client: ClientId, no: CallNo) -> Option<Reached>
        ensures repeat { result ≡ repeat_of no (slice_index_or self.now.state.last client None) }
        ensures client { client < client_limit }
    {
        let place = client.number() as usize;
        let state = &self.state;
        let kept = state.last[place]?;
        match no.cmp(&kept.no) {
            Ordering::Less => Some(Reached::Stale { last: kept.no }),
            Ordering::Equal => Some(Reached::Again(kept.reply)),
            Ordering::Greater => None,
        }
    }

    /// Does what a newer call does that has this reply, keeps its number and the reply, and writes its line.
    fn execute(&mut self, client: ClientId, no: CallNo, call: &Call, reply: &Reply)
        requires judged { SomeReady self.old client call.now (λ v.
            reply.now ≡ reply_by v client call.now) }
        requires entries { self.old.state.entries < entry_limit }
        ensures state { self.new.state
            ≡ execute (kept_by self.old) self.old.state client no call.now reply.now }
        ensures entries { self.new.state.entries ≡ self.old.state.entries + 1 }
    {
        self.answer_with(client, call, reply);
        let state = &mut self.state;
        state.last[client.number() as usize] = Some(Kept { no, reply: *reply });
        let happened = Happened::Numbered {
            client,
            no,
            call: call.name(),
            refusal: reply.code(),
        };
        state.lines.push(state.entries, happened);
        state.entries += 1;
    }

    /// Does what a call does that has this reply; one that is refused does nothing.
    fn answer_with(&mut self, client: ClientId, call: &Call, reply: &Reply)
        requires judged { SomeReady self.old client call.now (λ v.
            reply.now ≡ reply_by v client call.now) }
        ensures { self.new.state
            ≡ answer_with (kept_by self.old) self.old.state client call.now reply.now }
    {
        match reply {
            Reply::Refused(_) => {}
            _ => self.accept(client, call),
        }
    }

    /// Does what an accepted call does.
    fn accept(&mut self, client: ClientId, call: &Call)
        requires accepted { SomeAccepted self.old client call.now }
        ensures { self.new.state ≡ accept (kept_by self.old) self.old.state client call.now }
    {
        match call {
            Call::Sync => {}
            Call::TransferStart { size } => self.start(client, *size),
            Call::TransferData { id, counter, bytes } => {
                self.take_block(client, *id, *counter, bytes.as_slice())
            }
            Call::TransferExit { id } => self.close(client, *id),
            Call::DeleteTransfer { id } => self.delete(client, *id),
            Call::ProcessSwPackage { id, tag } => self.process(client, *id, *tag),
            Call::Activate => lead(&mut self.state, call),
            Call::Finish => lead(&mut self.state, call),
            Call::Rollback => lead(&mut self.state, call),
            Call::RevertProcessedSwPackages => lead(&mut self.state, call),
            Call::Cancel { id } => self.cancel(client, *id),
        }
    }

    /// TransferStart, which is accepted.
    fn start(&mut self, client: ClientId, size: u64)
        requires accepted { SomeAccepted self.old client (TransferStart size) }
        ensures { self.new.state
            ≡ accept (kept_by self.old) self.old.state client (TransferStart size) }
    {
        let state = &mut self.state;
        table::start(&mut state.transfers, client, size);
    }

    /// TransferData, which is accepted.
    fn take_block(&mut self, client: ClientId, id: u32, counter: u64, block: &[u8])
        requires accepted { SomeAccepted self.old client (TransferData id counter block.now) }
        ensures { self.new.state
            ≡ accept (kept_by self.old) self.old.state client (TransferData id counter block.now) }
    {
        let length = block.len() as u64;
        let state = &mut self.state;
        table::block(&mut state.transfers, client, id, counter, length);
    }

    /// TransferExit, which is accepted, by the verdict that is ready.
    fn close(&mut self, client: ClientId, id: u32)
        requires accepted { SomeAccepted self.old client (TransferExit id) }
        ensures { self.new.state
            ≡ accept (kept_by self.old) self.old.state client (TransferExit id) }
    {
        let verdict = self.prepared.take_verdict();
        let state = &mut self.state;
        table::exit(&mut state.transfers, client, id, verdict);
    }

    /// DeleteTransfer, which is accepted.
    fn delete(&mut self, client: ClientId, id: u32)
        requires accepted { SomeAccepted self.old client (DeleteTransfer id) }
        ensures { self.new.state
            ≡ accept (kept_by self.old) self.old.state client (DeleteTransfer id) }
    {
        let state = &mut self.state;
        table::delete(&mut state.transfers, client, id);
    }

    /// ProcessSwPackage, which is accepted, by the session that is ready where there is none.
    fn process(&mut self, client: ClientId, id: u32, tag: u32)
        requires accepted { SomeAccepted self.old client (ProcessSwPackage id tag) }
        ensures { self.new.state
            ≡ accept (kept_by self.old) self.old.state client (ProcessSwPackage id tag) }
    {
        self.take_up(client, id, tag);
        lead(&mut self.state, &Call::ProcessSwPackage { id, tag });
    }

    /// Cancel, which is accepted.
    fn cancel(&mut self, client: ClientId, id: u32)
        requires accepted { SomeAccepted self.old client (Cancel id) }
        ensures { self.new.state ≡ accept (kept_by self.old) self.old.state client (Cancel id) }
    {
        let state = &mut self.state;
        put_back(state, id);
        lead(state, &Call::Cancel { id });
    }
}
