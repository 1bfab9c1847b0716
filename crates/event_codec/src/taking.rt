//! What is put in front of other bytes, and taken from there.
ghost use Rattle.std.specs.Prelude.{◌≡◌, ◌++◌, List, ℕ, IfOk, IfErr, OnOk};
ghost use Rattle.event_codec.specs.Spelling.{IsOutside, IsUnique};

use std::alloc::{AllocError, AllocFailed, Global};

/// Why no value was taken.
#[derive(Clone, Copy, PartialEq, Eq, Debug)]
pub(crate) enum Unread {
    /// The bytes begin with the spelling of no value.
    Outside,
    OutOfMemory,
}

impl From<AllocError> for Unread {
    ghost use Rattle.std.specs.Prelude.{◌≡◌};
    ghost use Rattle.event_codec.specs.declared.taking.Unread.TheVariants.{OutOfMemory};

    ghost from_gives = { λ _ e. e ≡ OutOfMemory };

    fn from(_refused: AllocError) -> Unread {
        Unread::OutOfMemory
    }
}

impl<T: Drop> From<AllocFailed<T>> for Unread {
    ghost use Rattle.std.specs.Prelude.{◌≡◌};
    ghost use Rattle.event_codec.specs.declared.taking.Unread.TheVariants.{OutOfMemory};

    ghost from_gives = { λ _ e. e ≡ OutOfMemory };

    fn from(_refused: AllocFailed<T>) -> Unread {
        Unread::OutOfMemory
    }
}

/// A type whose values have a spelling, none of which begins another.
pub(crate) trait Take: Drop {
    ghost spelled: { Self → List ℕ };

    ghost fits: { Self → Type 0 };

    /// The value whose spelling the bytes begin with, and the rest.
    fn take(alloc: Global, bytes: &[u8]) -> Result<(Self, &[u8]), Unread>
        ensures taken { IfOk result (λ t. fits t.0 × (bytes.now ≡ spelled t.0 ++ t.1.now)) }
        ensures outside { IfErr result
            (λ e. e ≡ Unread.Outside → IsOutside spelled fits bytes.now) };

    ghost unique: { IsUnique spelled fits };
}

/// A type whose values are put behind other bytes.
pub(crate) trait Put: Take {
    /// Appends the spelling.
    fn put(&self, alloc: Global, into: &mut Vec<u8>) -> Result<(), AllocError>
        ensures appended { OnOk result
            (into.new.items ≡ into.old.items ++ Self.spelled self.now) }
        ensures form { OnOk result (Self.fits self.now) };
}
