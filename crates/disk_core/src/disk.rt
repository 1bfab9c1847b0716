//! The trait, with each sentence of the disk model as a clause or a law.
ghost use Rattle.std.specs.Prelude.{◌≡◌, ◌+◌, ◌≤◌, ◌<◌, ◌^◌, List, ℕ, length, slice_range, IfOk, OnOk, OnErr, IsErrOf, is_err, is_ok};
ghost use Rattle.disk_core.specs.Bytes.{put_at, Torn};
ghost use Rattle.disk_core.specs.Images.{Only, Within, SameImages, Follows, Allows};
ghost use Rattle.fault_count.specs.Faults.{HasRisen};
ghost use Rattle.disk_core.specs.Moments.{Elapses};
ghost use Rattle.disk_core.specs.Room.{Room, HasRoom, UsesUp};
ghost use Rattle.disk_core.specs.Plans.{no_faults};
ghost use Rattle.disk_core.specs.Calls.{Call, reserves, reads, writes, syncs, restarts, arms, is_failed};
ghost use Rattle.disk_core.specs.declared.plan.FaultPlan.{FaultPlan};

use crate::{DeviceError, FaultPlan, ReadError};
use std::alloc::AllocError;

/// A disk of a fixed number of bytes. Places and lengths are in bytes, and ranges lie within the size.
///
/// Between two syncs a crash may leave any bytes in a range that was written, whether the write succeeded or not,
/// and leaves all other bytes. After a sync that succeeds a crash leaves what a read gives.
pub trait Disk {
    /// What a read gives now.
    ghost seen: { Self → List ℕ };

    /// What a crash now may leave.
    ghost images: { Self → List ℕ → Type 0 };

    /// The clock.
    ghost moment: { Self → ℕ };

    /// What a crash at some moment from that one on may have left.
    ghost left_since: { Self → ℕ → List ℕ → Type 0 };

    /// The count of faults.
    ghost fault_count: { Self → ℕ };

    /// The armed plan; the empty one before.
    ghost armed: { Self → FaultPlan };

    /// The room that `reserve` made and no write used up.
    ghost room: { Self → Room };

    /// What this kind of disk says of a call beyond the model: nothing, unless an impl says more.
    ghost obeys: { Self → Call → Self → Type 0 } = { λ _ _ _. Unit {0} };

    fn size(&self) -> u64
        ensures { result ≡ length (seen self.now) };

    /// How often a read, write, sync or restart has failed; it stays at the last value of a u64.
    fn faults(&self) -> u64
        ensures { result ≡ fault_count self.now };

    /// Makes room for `writes` further writes of at most `bytes` bytes together.
    fn reserve(&mut self, writes: u32, bytes: u64) -> Result<(), AllocError>
        ensures made { OnOk result (HasRoom writes bytes (room self.new)) }
        ensures room { HasRoom (room self.old).writes (room self.old).bytes (room self.new) }
        ensures reads { seen self.new ≡ seen self.old }
        ensures images { SameImages (images self.old) (images self.new) }
        ensures time { Elapses (moment self.old) (moment self.new)
            (left_since self.old) (left_since self.new) (images self.new) }
        ensures faults { fault_count self.new ≡ fault_count self.old }
        ensures plan { armed self.new ≡ armed self.old }
        ensures own { obeys self.old reserves self.new };

    /// The `len` bytes from `at` on.
    fn read(&mut self, at: u64, len: usize) -> Result<Vec<u8>, ReadError>
        requires { at + len ≤ length (seen self.old) }
        ensures bytes { IfOk result (λ v. v.items ≡ slice_range (seen self.old) at (at + len)) }
        ensures reads { seen self.new ≡ seen self.old }
        ensures images { SameImages (images self.old) (images self.new) }
        ensures time { Elapses (moment self.old) (moment self.new)
            (left_since self.old) (left_since self.new) (images self.new) }
        ensures faults { fault_count self.old ≤ fault_count self.new }
        ensures cause { IsErrOf result ReadError.Failed
            → HasRisen (fault_count self.old) (fault_count self.new) }
        ensures plan { armed self.new ≡ armed self.old }
        ensures room { room self.new ≡ room self.old }
        ensures own { obeys self.old (reads (is_failed result)) self.new };

    /// Puts the piece at `at`. It uses up room, also where it fails.
    fn write(&mut self, at: u64, bytes: &[u8]) -> Result<(), DeviceError>
        requires range { at + length bytes.now ≤ length (seen self.old) }
        requires room { HasRoom 1 (length bytes.now) (room self.old) }
        ensures written { OnOk result (seen self.new ≡ put_at (seen self.old) at bytes.now) }
        ensures reads { Torn at (length bytes.now) (seen self.old) (seen self.new) }

        // A crash may leave any bytes in the range, and no others elsewhere.
        ensures images { Follows (Torn at (length bytes.now)) (images self.old) (images self.new) }
        ensures any_bytes { Allows (Torn at (length bytes.now))
            (images self.old) (images self.new) }
        ensures time { Elapses (moment self.old) (moment self.new)
            (left_since self.old) (left_since self.new) (images self.new) }
        ensures faults { fault_count self.old ≤ fault_count self.new }
        ensures cause { OnErr result (HasRisen (fault_count self.old) (fault_count self.new)) }
        ensures plan { armed self.new ≡ armed self.old }
        ensures room { UsesUp (length bytes.now) (room self.old) (room self.new) }
        ensures own { obeys self.old (writes at bytes.now (is_err result)) self.new };

    /// Makes what a read gives durable.
    fn sync(&mut self) -> Result<(), DeviceError>
        ensures durable { OnOk result (Only (seen self.old) (images self.new)) }
        ensures reads { seen self.new ≡ seen self.old }
        ensures images { Within (images self.old) (images self.new) }
        ensures time { Elapses (moment self.old) (moment self.new)
            (left_since self.old) (left_since self.new) (images self.new) }
        ensures faults { fault_count self.old ≤ fault_count self.new }
        ensures cause { OnErr result (HasRisen (fault_count self.old) (fault_count self.new)) }
        ensures plan { armed self.new ≡ armed self.old }
        ensures room { room self.new ≡ room self.old }
        ensures own { obeys self.old (syncs (is_err result)) self.new };

    /// Starts anew, as after a crash: one of the images of before is the content, with nothing pending.
    /// There may be no room afterwards.
    fn restart(&mut self) -> Result<(), DeviceError>
        ensures one { OnOk result (images self.old (seen self.new)) }
        ensures durable { OnOk result (Only (seen self.new) (images self.new)) }
        ensures images { Within (images self.old) (images self.new) }
        ensures size { length (seen self.new) ≡ length (seen self.old) }
        ensures time { Elapses (moment self.old) (moment self.new)
            (left_since self.old) (left_since self.new) (images self.new) }
        ensures faults { fault_count self.old ≤ fault_count self.new }
        ensures cause { OnErr result (HasRisen (fault_count self.old) (fault_count self.new)) }
        ensures plan { armed self.new ≡ armed self.old }
        ensures own { obeys self.old (restarts (is_err result)) self.new };

    /// Arms the plan, once and for good.
    fn arm(&mut self, plan: &FaultPlan) -> Result<(), AllocError>
        requires { armed self.old ≡ no_faults }
        ensures set { OnOk result (armed self.new ≡ plan.now) }
        ensures unset { OnErr result (armed self.new ≡ armed self.old) }
        ensures reads { seen self.new ≡ seen self.old }
        ensures images { SameImages (images self.old) (images self.new) }
        ensures time { Elapses (moment self.old) (moment self.new)
            (left_since self.old) (left_since self.new) (images self.new) }
        ensures faults { fault_count self.new ≡ fault_count self.old }
        ensures room { room self.new ≡ room self.old }
        ensures own { obeys self.old (arms (is_ok result)) self.new };

    /// The disk as it reads is one of the images of now.
    ghost reads_as_image: { (d : Self) → images d (seen d) };

    /// An image has the size of the disk.
    ghost image_size: { (d : Self) (c : List ℕ) → images d c → length c ≡ length (seen d) };

    /// A size is a u64.
    ghost size_fits: { (d : Self) → length (seen d) < 2 ^ 64 };

    /// Now is one of the moments since an earlier one.
    ghost counts_now: { (d : Self) (t : ℕ) (c : List ℕ) → t ≤ moment d → images d c
        → left_since d t c };

    /// Since now there is no other moment.
    ghost only_now: { (d : Self) (c : List ℕ) → left_since d (moment d) c → images d c };
}
