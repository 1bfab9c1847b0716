//! The records behind a text, folded over the state that it tells.
ghost use Rattle.std.specs.Prelude.{◌≡◌, IfOk, IsSome, OnOk, Some};
ghost use Rattle.event_log.specs.Meaning.{state_of};
ghost use Rattle.event_codec.specs.DecidingStates.{state_told};
ghost use Rattle.node_recovery.specs.Allowed.{IsAllowed};
ghost use Rattle.node_recovery.specs.Folds.{effect};
ghost use Rattle.node_recovery.specs.Images.{after_bytes};

use crate::calls::{close, do_call};
use crate::units::do_unit;
use event_codec::{Record, take_record, take_state};
use journal::Payload;
use pm_types::State;
use std::alloc::{AllocError, Global};

/// The state that a text tells, after the records, each of which is allowed at its place.
pub(crate) fn folded(alloc: Global, text: &[u8], records: &[Payload]) -> Result<State, AllocError>
    requires { IsSome (state_of state_told after_bytes text.now records.now) }
    ensures { IfOk result
        (λ s. state_of state_told after_bytes text.now records.now ≡ Some s) }
{
    let Some(mut state) = take_state(alloc, text)? else {
        unreachable!()
    };
    for bytes in records {
        let Some(record) = take_record(alloc, bytes.as_slice())? else {
            unreachable!()
        };
        redo(alloc, &mut state, record)?;
    }
    Ok(state)
}

/// Does what a record tells of once more.
fn redo(alloc: Global, state: &mut State, record: Record) -> Result<(), AllocError>
    requires allowed { IsAllowed state.old «record» }
    requires there { IsSome (effect state.old «record») }
    ensures { OnOk result (effect state.old «record» ≡ Some state.new) }
{
    match record {
        Record::Called {
            client,
            no,
            call,
            reply,
        } => do_call(alloc, state, client, no, &call, &reply),
        Record::Exited {
            client,
            no,
            id,
            parts,
        } => {
            close(state, client, no, id, parts);
            Ok(())
        }
        Record::Worked { passed, after: _ } => do_unit(alloc, state, passed),
    }
}
