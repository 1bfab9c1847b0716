//! The call that a step stands for.
ghost use Rattle.std.specs.Prelude.{◌≡◌, ◌≤◌, ◌<◌, ◌*◌, ◌-◌, IfOk, OnErr, length, map, slice_index_or};
ghost use Rattle.ucm_base.specs.Limits.{block_limit};
ghost use Rattle.world.specs.RoundsBySize.{block_of};
ghost use Rattle.sub_core.specs.Calls.{bytes_at, bytes_of, call_of, IsBlock, IsThere};

use crate::SendStep;
use package_reader::{Packages, Packed};
use pm_types::Call;
use std::alloc::{AllocError, Global};
use ucm_base::Block;
use ucm_base::limits::BLOCK_LIMIT;

/// The call of a step, over the packages of the campaign. A block of one is copied; no other step takes memory.
pub fn call_of(alloc: Global, step: &SendStep, packages: &Packages) -> Result<Call, AllocError>
    requires there { IsThere (bytes_of packages.now) step.now }
    ensures made { IfOk result (λ call. call ≡ call_of (bytes_of packages.now) step.now) }
    ensures block { OnErr result (IsBlock step.now) }
{
    Ok(match *step {
        SendStep::Sync => Call::Sync,
        SendStep::Start { package } => Call::TransferStart {
            size: bytes_at(packages.as_slice(), package).len() as u64,
        },
        SendStep::Data {
            package,
            id,
            counter,
        } => Call::TransferData {
            id,
            counter,
            bytes: block_of(alloc, bytes_at(packages.as_slice(), package), counter)?,
        },
        SendStep::Exit { id } => Call::TransferExit { id },
        SendStep::Process { id, tag } => Call::ProcessSwPackage { id, tag },
        SendStep::Activate => Call::Activate,
        SendStep::Finish => Call::Finish,
        SendStep::Rollback => Call::Rollback,
        SendStep::Revert => Call::RevertProcessedSwPackages,
        SendStep::Delete { id } => Call::DeleteTransfer { id },
    })
}

/// The bytes of the package of this index.
fn bytes_at(packages: &[Packed], index: u16) -> &[u8]
    requires { index < length packages.now }
    ensures { result.now ≡ bytes_at (bytes_of packages.now) index }
{
    packages[index as usize].as_slice()
}

/// A copy of the block of this counter, from 1 on.
fn block_of(alloc: Global, bytes: &[u8], counter: u64) -> Result<Block, AllocError>
    requires first { 1 ≤ counter }
    requires there { block_limit * (counter - 1) < length bytes.now }
    ensures { IfOk result (λ block. block ≡ block_of counter bytes.now) }
{
    let start = BLOCK_LIMIT as usize * (counter - 1) as usize;
    let rest = &bytes[start..];
    let end = (BLOCK_LIMIT as usize).min(rest.len());
    Ok(Block::of(rest[..end].to_vec(alloc)?))
}
