//! Why nothing is packed.
ghost use Rattle.std.specs.Prelude.{◌≡◌, ℕ};
ghost use Rattle.scenario.specs.declared.why.Why.{Why};

use scenario::{Why, WordError};
use std::alloc::AllocError;

/// Why nothing is packed.
#[derive(Clone, Copy, Debug, PartialEq, Eq)]
pub enum PackError {
    /// The first line that is refused, counted from 1, or 0 for what is judged behind all lines.
    Refused { line: u64, why: Why },
    OutOfMemory,
}

impl From<AllocError> for PackError {
    ghost use Rattle.std.specs.Prelude.{◌≡◌, ℕ};
    ghost use Rattle.recipe.specs.declared.fault.PackError.TheVariants.{OutOfMemory};

    ghost from_gives = { λ _ e. e ≡ OutOfMemory };

    fn from(_refused: AllocError) -> PackError {
        PackError::OutOfMemory
    }
}

/// What a line's fault is at its number.
pub(crate) fn fault_at(line: u64, fault: WordError) -> PackError
    ensures { (n : ℕ) (why : Why) → result ≡ PackError.Refused n why
        → (n ≡ line) × (fault ≡ WordError.Refused why) }
{
    match fault {
        WordError::Refused(why) => PackError::Refused { line, why },
        WordError::OutOfMemory => PackError::OutOfMemory,
    }
}
