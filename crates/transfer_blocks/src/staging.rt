//! The trait of what keeps the areas.
ghost use Rattle.std.specs.Prelude.{◌≡◌, ◌+◌, ◌≤◌, ℕ, length, slice_range, IfOk, OnOk, OnErr, IsErrOf};
ghost use Rattle.ucm_base.specs.Limits.{package_limit};
ghost use Rattle.pm_types.specs.Stored.{Areas};
ghost use Rattle.transfer_blocks.specs.Areas.{content_of, IsArea, AreasFit, LeavesOutside};
ghost use Rattle.transfer_blocks.specs.Steps.{Step, puts, gets, ended, with_bytes};
ghost use Rattle.fault_count.specs.Faults.{HasRisen};

use crate::{Area, StagingError};

/// The bytes of eight transfers, and of 64 clusters with two sides each. Places and lengths are in bytes.
pub trait Staging {
    /// What lies in the areas now.
    ghost areas: { Self → Areas };

    /// The count of faults.
    ghost fault_count: { Self → ℕ };

    /// What must hold of what keeps the areas, before and after each call: nothing, unless an impl says more, as that a
    /// device is as large as its areas.
    ghost is_fit: { Self → Type 0 } = { λ _. Unit {0} };

    /// What a call leaves on a device at each of its moments: nothing, unless an impl says more. Calls one after
    /// another are a list of steps, so there is no law on it.
    ghost obeys: { Self → Step → Self → Type 0 } = { λ _ _ _. Unit {0} };

    /// Puts the bytes at `at` in place of those that lie there. The area grows where the range ends
    /// behind it. After a failure the bytes of the range may be any, and all others stand; where memory is wanting all
    /// do.
    fn put(&mut self, area: Area, at: u64, bytes: &[u8]) -> Result<(), StagingError>
        requires fit { is_fit self.old }
        requires area { IsArea area }
        requires at { at ≤ length (content_of area (areas self.old)) }
        requires fits { at + length bytes.now ≤ package_limit }
        ensures put { OnOk result
            (areas self.new ≡ with_bytes area at bytes.now (areas self.old)) }
        ensures outside { OnErr result
            (LeavesOutside area at (length bytes.now) (areas self.old) (areas self.new)) }
        ensures memory { IsErrOf result StagingError.OutOfMemory
            → areas self.new ≡ areas self.old }
        ensures obeys { obeys self.old (puts area at bytes.now (ended result)) self.new }
        ensures fit { is_fit self.new }
        ensures faults { fault_count self.old ≤ fault_count self.new }
        ensures cause { IsErrOf result StagingError.Failed
            → HasRisen (fault_count self.old) (fault_count self.new) };

    /// The `len` bytes of the area from `at` on.
    fn get(&mut self, area: Area, at: u64, len: usize) -> Result<Vec<u8>, StagingError>
        requires fit { is_fit self.old }
        requires area { IsArea area }
        requires range { at + len ≤ length (content_of area (areas self.old)) }
        ensures bytes { IfOk result (λ v. v.items
            ≡ slice_range (content_of area (areas self.old)) at (at + len)) }
        ensures areas { areas self.new ≡ areas self.old }
        ensures obeys { obeys self.old (gets (ended result)) self.new }
        ensures fit { is_fit self.new }
        ensures faults { fault_count self.old ≤ fault_count self.new }
        ensures cause { IsErrOf result StagingError.Failed
            → HasRisen (fault_count self.old) (fault_count self.new) };

    /// How often a put or a get has failed; it stays at the last value of a u64.
    fn faults(&self) -> u64
        ensures { result ≡ fault_count self.now };

    /// Every area is there, and fits.
    ghost areas_fit: { (s : Self) → AreasFit (areas s) };
}
