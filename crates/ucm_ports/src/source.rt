//! Sources of bytes.
ghost use Rattle.std.specs.Prelude.{◌≡◌, ◌++◌, ◌+◌, ◌<◌, ◌≤◌, ℕ, List, [], Option, None, Some, length, take, vec_len, option_map, IfOk, IfErr, OnErr, OnOk, IfSome};
ghost use Rattle.std.specs.Result.{result_ok};
ghost use Rattle.fault_count.specs.Faults.{HasRisen};
ghost use Rattle.ucm_ports.specs.Reading.{whole};

use crate::PortError;
use std::alloc::{AllocError, Global};

/// The bytes that one call of [`read_all`] asks for at a time.
const PIECE: usize = 65_536;

/// Where bytes come from.
pub trait Source {
    // The bytes that are left, where the source tells them.
    ghost left: { Self → Option (List ℕ) };

    // The failed calls so far, as far as a u64 counts.
    ghost fault_count: { Self → ℕ };

    // What this kind of source says of a take into so many bytes, and how many it gave: nothing, unless an impl says
    // more.
    ghost obeys: { Self → ℕ → Option ℕ → Self → Type 0 } = { λ _ _ _ _. Unit {0} };

    /// Takes bytes from the front of what is left, and answers how many: 0 only at the end, or into an empty buffer.
    fn take(&mut self, into: &mut [u8]) -> Result<usize, PortError>
        ensures within { IfOk result (λ n. n ≤ length into.new) }
        ensures taken { IfOk result (λ n. left self.old
            ≡ option_map (λ rest. take n into.new ++ rest) (left self.new)) }
        ensures end { IfOk result (λ n. n ≡ 0 → 0 < length into.new
            → IfSome (left self.old) (λ rest. rest ≡ [])) }
        ensures failed { OnErr result (left self.new ≡ left self.old) }
        ensures cause { OnErr result (HasRisen (fault_count self.old) (fault_count self.new)) }
        ensures count { fault_count self.old ≤ fault_count self.new }
        ensures steady { OnOk result (fault_count self.new ≡ fault_count self.old) }
        ensures own { obeys self.old (length into.new) (result_ok result) self.new };

    /// The count of failed calls. It stays at `u64::MAX` once it is there.
    fn faults(&self) -> u64
        ensures { result ≡ fault_count self.now };
}

/// Why not all bytes of a source were read.
#[derive(Clone, Copy, Debug, PartialEq, Eq)]
pub enum ReadError {
    /// A call of the source failed.
    Failed,
    /// More bytes came than the limit.
    TooLong,
    OutOfMemory,
}

impl From<PortError> for ReadError {
    ghost use Rattle.std.specs.Prelude.{◌≡◌};
    ghost use Rattle.ucm_ports.specs.declared.source.ReadError.TheVariants as fault;

    ghost from_gives = { λ _ e. e ≡ fault.Failed };

    fn from(_failed: PortError) -> ReadError {
        ReadError::Failed
    }
}

impl From<AllocError> for ReadError {
    ghost use Rattle.std.specs.Prelude.{◌≡◌};
    ghost use Rattle.ucm_ports.specs.declared.source.ReadError.TheVariants as fault;

    ghost from_gives = { λ _ e. e ≡ fault.OutOfMemory };

    fn from(_refused: AllocError) -> ReadError {
        ReadError::OutOfMemory
    }
}

/// Reads all bytes up to the end, at most `limit` of them.
pub fn read_all<S: Source>(
    alloc: Global,
    source: &mut S,
    limit: usize,
) -> Result<Vec<u8>, ReadError>
    ensures all { IfOk result (λ bytes. IfSome (S.left source.old)
        (λ left. whole limit left ≡ Some bytes.items)) }
    ensures end { OnOk result (IfSome (S.left source.new) (λ left. left ≡ [])) }
    ensures within { IfOk result (λ bytes. vec_len bytes ≤ limit) }
    ensures too_long { IfErr result (λ e. e ≡ ReadError.TooLong
        → IfSome (S.left source.old) (λ left. whole limit left ≡ None)) }
    ensures cause { IfErr result (λ e. e ≡ ReadError.Failed
        → HasRisen (S.fault_count source.old) (S.fault_count source.new)) }
    ensures count { S.fault_count source.old ≤ S.fault_count source.new }
{
    let mut bytes = Vec::new(alloc);
    let mut piece = [0u8; PIECE];
    'pieces: loop {
        let count = source.take(&mut piece)?;
        if count == 0 {
            return Ok(bytes);
        }
        if count > limit - bytes.len() {
            return Err(ReadError::TooLong);
        }
        bytes.extend_from_slice(&piece[..count])?;
    }
}
