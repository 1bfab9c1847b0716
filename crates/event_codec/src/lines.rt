//! Lines of a node's history.
ghost use Rattle.std.specs.Prelude.{◌≡◌, ◌++◌, ◌≤◌, length, IfOk, IfErr};
ghost use Rattle.ucm_base.specs.Limits.{line_limit};
ghost use Rattle.wire.specs.Fields.{u8_field};
ghost use Rattle.event_codec.specs.Spelling.{Any, IsOutside, ListFits};
ghost use Rattle.event_codec.specs.Calls.{call_name_spelled};
ghost use Rattle.event_codec.specs.States.{happened_spelled, HappenedFits, line_spelled, LineFits, lines_spelled};
ghost use Rattle.event_codec.specs.UniqueCalls.{unique-call_name};
ghost use Rattle.event_codec.specs.UniqueStates.{unique-happened, unique-line, unique-lines};

use crate::fields::{put_many, take_many};
use crate::taking::{Put, Take, Unread};
use pm_types::{CallName, Happened, Line, NewestLines, Status};
use std::alloc::{AllocError, Global};
use ucm_base::limits::LINE_LIMIT;
use ucm_base::{CallNo, ClientId};

impl Take for CallName {
    ghost spelled = { call_name_spelled };

    ghost fits = { Any };

    ghost unique = { unique-call_name };

    fn take(alloc: Global, bytes: &[u8]) -> Result<(CallName, &[u8]), Unread> {
        let (code, rest) = u8::take(alloc, bytes)?;
        match code {
            0 => Ok((CallName::Sync, rest)),
            1 => Ok((CallName::TransferStart, rest)),
            2 => Ok((CallName::TransferData, rest)),
            3 => Ok((CallName::TransferExit, rest)),
            4 => Ok((CallName::DeleteTransfer, rest)),
            5 => Ok((CallName::ProcessSwPackage, rest)),
            6 => Ok((CallName::Activate, rest)),
            7 => Ok((CallName::Finish, rest)),
            8 => Ok((CallName::Rollback, rest)),
            9 => Ok((CallName::RevertProcessedSwPackages, rest)),
            10 => Ok((CallName::Cancel, rest)),
            _ => Err(Unread::Outside),
        }
    }
}

impl Put for CallName {
    fn put(&self, alloc: Global, into: &mut Vec<u8>) -> Result<(), AllocError> {
        let code: u8 = match self {
            CallName::Sync => 0,
            CallName::TransferStart => 1,
            CallName::TransferData => 2,
            CallName::TransferExit => 3,
            CallName::DeleteTransfer => 4,
            CallName::ProcessSwPackage => 5,
            CallName::Activate => 6,
            CallName::Finish => 7,
            CallName::Rollback => 8,
            CallName::RevertProcessedSwPackages => 9,
            CallName::Cancel => 10,
        };
        code.put(alloc, into)
    }
}

/// What a line says of a call, behind its kind.
fn take_numbered(alloc: Global, bytes: &[u8]) -> Result<(Happened, &[u8]), Unread>
    ensures taken { IfOk result (λ t. HappenedFits t.0
        × (u8_field 0 ++ bytes.now ≡ happened_spelled t.0 ++ t.1.now)) }
    ensures outside { IfErr result (λ e. e ≡ Unread.Outside
        → IsOutside happened_spelled HappenedFits (u8_field 0 ++ bytes.now)) }
{
    match <(ClientId, (CallNo, (CallName, u8)))>::take(alloc, bytes) {
        Ok(((client, (no, (call, refusal))), rest)) => {
            let happened = Happened::Numbered {
                client,
                no,
                call,
                refusal,
            };
            Ok((happened, rest))
        }
        Err(unread) => Err(unread),
    }
}

impl Take for Happened {
    ghost spelled = { happened_spelled };

    ghost fits = { HappenedFits };

    ghost unique = { unique-happened };

    fn take(alloc: Global, bytes: &[u8]) -> Result<(Happened, &[u8]), Unread> {
        let (kind, rest) = u8::take(alloc, bytes)?;
        match kind {
            0 => take_numbered(alloc, rest),
            1 => {
                let (after, rest) = Status::take(alloc, rest)?;
                Ok((Happened::Unit { after }, rest))
            }
            _ => Err(Unread::Outside),
        }
    }
}

impl Put for Happened {
    fn put(&self, alloc: Global, into: &mut Vec<u8>) -> Result<(), AllocError> {
        match self {
            Happened::Numbered {
                client,
                no,
                call,
                refusal,
            } => {
                0u8.put(alloc, into)?;
                client.put(alloc, into)?;
                no.put(alloc, into)?;
                call.put(alloc, into)?;
                refusal.put(alloc, into)
            }
            Happened::Unit { after } => {
                1u8.put(alloc, into)?;
                after.put(alloc, into)
            }
        }
    }
}

impl Take for Line {
    ghost spelled = { line_spelled };

    ghost fits = { LineFits };

    ghost unique = { unique-line };

    fn take(alloc: Global, bytes: &[u8]) -> Result<(Line, &[u8]), Unread> {
        match <(u64, Happened)>::take(alloc, bytes) {
            Ok(((place, happened), rest)) => Ok((Line { place, happened }, rest)),
            Err(unread) => Err(unread),
        }
    }
}

impl Put for Line {
    fn put(&self, alloc: Global, into: &mut Vec<u8>) -> Result<(), AllocError> {
        self.place.put(alloc, into)?;
        self.happened.put(alloc, into)
    }
}

/// The newest lines, as a ring.
fn ring_of(alloc: Global, lines: &[Line]) -> Result<NewestLines, AllocError>
    requires { length lines.now ≤ line_limit }
    ensures { IfOk result (λ ring. ring ≡ lines.now) }
{
    let mut ring = NewestLines::new(alloc)?;
    'lines: for line in lines {
        ring.push(line.place, line.happened);
    }
    Ok(ring)
}

impl Take for NewestLines {
    ghost spelled = { lines_spelled };

    ghost fits = { ListFits LineFits line_limit };

    ghost unique = { unique-lines };

    fn take(alloc: Global, bytes: &[u8]) -> Result<(NewestLines, &[u8]), Unread> {
        let (count, rest) = u16::take(alloc, bytes)?;
        if u64::from(count) > LINE_LIMIT {
            return Err(Unread::Outside);
        }
        match take_many::<Line>(alloc, rest, usize::from(count)) {
            Ok((lines, rest)) => Ok((ring_of(alloc, lines.as_slice())?, rest)),
            Err(unread) => Err(unread),
        }
    }
}

impl Put for NewestLines {
    fn put(&self, alloc: Global, into: &mut Vec<u8>) -> Result<(), AllocError> {
        (self.len() as u16).put(alloc, into)?;
        let (older, newer) = self.as_slices();
        put_many(alloc, into, older)?;
        put_many(alloc, into, newer)
    }
}
