//! Calls, without the bytes of their blocks.
ghost use Rattle.std.specs.Prelude.{◌≡◌, ◌++◌, IfOk, IfErr};
ghost use Rattle.wire.specs.Fields.{u8_field};
ghost use Rattle.event_codec.specs.Spelling.{IsOutside};
ghost use Rattle.event_codec.specs.Calls.{call_spelled, CallFits};
ghost use Rattle.event_codec.specs.UniqueCalls.{unique-call};

use crate::taking::{Put, Take, Unread};
use std::alloc::{AllocError, Global};

/// A numbered call, with the length of its block in place of the block.
#[derive(Clone, Copy, Debug, PartialEq, Eq)]
pub enum StoredCall {
    Sync,
    TransferStart {
        size: u64,
    },
    TransferData {
        id: u32,
        counter: u64,
        /// The block's bytes.
        length: u32,
    },
    TransferExit {
        id: u32,
    },
    DeleteTransfer {
        id: u32,
    },
    ProcessSwPackage {
        id: u32,
        tag: u32,
    },
    Activate,
    Finish,
    Rollback,
    RevertProcessedSwPackages,
    Cancel {
        id: u32,
    },
}

/// What follows the number of TransferData.
fn take_data(alloc: Global, bytes: &[u8]) -> Result<(StoredCall, &[u8]), Unread>
    ensures taken { IfOk result (λ t. CallFits t.0
        × (u8_field 2 ++ bytes.now ≡ call_spelled t.0 ++ t.1.now)) }
    ensures outside { IfErr result (λ e. e ≡ Unread.Outside
        → IsOutside call_spelled CallFits (u8_field 2 ++ bytes.now)) }
{
    match <(u32, (u64, u32))>::take(alloc, bytes) {
        Ok(((id, (counter, length)), rest)) => {
            let call = StoredCall::TransferData {
                id,
                counter,
                length,
            };
            Ok((call, rest))
        }
        Err(unread) => Err(unread),
    }
}

/// What follows the number of ProcessSwPackage.
fn take_process(alloc: Global, bytes: &[u8]) -> Result<(StoredCall, &[u8]), Unread>
    ensures taken { IfOk result (λ t. CallFits t.0
        × (u8_field 5 ++ bytes.now ≡ call_spelled t.0 ++ t.1.now)) }
    ensures outside { IfErr result (λ e. e ≡ Unread.Outside
        → IsOutside call_spelled CallFits (u8_field 5 ++ bytes.now)) }
{
    match <(u32, u32)>::take(alloc, bytes) {
        Ok(((id, tag), rest)) => Ok((StoredCall::ProcessSwPackage { id, tag }, rest)),
        Err(unread) => Err(unread),
    }
}

impl Take for StoredCall {
    ghost spelled = { call_spelled };

    ghost fits = { CallFits };

    ghost unique = { unique-call };

    fn take(alloc: Global, bytes: &[u8]) -> Result<(StoredCall, &[u8]), Unread> {
        let (number, rest) = u8::take(alloc, bytes)?;
        match number {
            0 => Ok((StoredCall::Sync, rest)),
            1 => {
                let (size, rest) = u64::take(alloc, rest)?;
                Ok((StoredCall::TransferStart { size }, rest))
            }
            2 => take_data(alloc, rest),
            3 => {
                let (id, rest) = u32::take(alloc, rest)?;
                Ok((StoredCall::TransferExit { id }, rest))
            }
            4 => {
                let (id, rest) = u32::take(alloc, rest)?;
                Ok((StoredCall::DeleteTransfer { id }, rest))
            }
            5 => take_process(alloc, rest),
            6 => Ok((StoredCall::Activate, rest)),
            7 => Ok((StoredCall::Finish, rest)),
            8 => Ok((StoredCall::Rollback, rest)),
            9 => Ok((StoredCall::RevertProcessedSwPackages, rest)),
            10 => {
                let (id, rest) = u32::take(alloc, rest)?;
                Ok((StoredCall::Cancel { id }, rest))
            }
            _ => Err(Unread::Outside),
        }
    }
}

impl Put for StoredCall {
    fn put(&self, alloc: Global, into: &mut Vec<u8>) -> Result<(), AllocError> {
        match *self {
            StoredCall::Sync => 0u8.put(alloc, into),
            StoredCall::TransferStart { size } => {
                1u8.put(alloc, into)?;
                size.put(alloc, into)
            }
            StoredCall::TransferData {
                id,
                counter,
                length,
            } => {
                2u8.put(alloc, into)?;
                id.put(alloc, into)?;
                counter.put(alloc, into)?;
                length.put(alloc, into)
            }
            StoredCall::TransferExit { id } => {
                3u8.put(alloc, into)?;
                id.put(alloc, into)
            }
            StoredCall::DeleteTransfer { id } => {
                4u8.put(alloc, into)?;
                id.put(alloc, into)
            }
            StoredCall::ProcessSwPackage { id, tag } => {
                5u8.put(alloc, into)?;
                id.put(alloc, into)?;
                tag.put(alloc, into)
            }
            StoredCall::Activate => 6u8.put(alloc, into),
            StoredCall::Finish => 7u8.put(alloc, into),
            StoredCall::Rollback => 8u8.put(alloc, into),
            StoredCall::RevertProcessedSwPackages => 9u8.put(alloc, into),
            StoredCall::Cancel { id } => {
                10u8.put(alloc, into)?;
                id.put(alloc, into)
            }
        }
    }
}
