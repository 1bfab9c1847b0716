//! Sinks of bytes.
ghost use Rattle.std.specs.Prelude.{◌≡◌, ◌++◌, ◌<◌, ◌≤◌, ℕ, List, Option, length, take, option_map, IfOk, OnErr, OnOk};
ghost use Rattle.std.specs.Result.{result_ok};
ghost use Rattle.fault_count.specs.Faults.{HasRisen};

use crate::PortError;

/// Where bytes go.
pub trait Sink {
    // The bytes that were put, where the sink tells them.
    ghost written: { Self → Option (List ℕ) };

    // The failed calls so far, as far as a u64 counts.
    ghost fault_count: { Self → ℕ };

    // What this kind of sink says of a put of a piece, and how much of it was put: nothing, unless an impl says more.
    ghost obeys: { Self → List ℕ → Option ℕ → Self → Type 0 } = { λ _ _ _ _. Unit {0} };

    /// Puts bytes from the front of a piece, and answers how many: at least one of a piece that isn't empty.
    fn put(&mut self, bytes: &[u8]) -> Result<usize, PortError>
        ensures within { IfOk result (λ n. n ≤ length bytes.now) }
        ensures some { IfOk result (λ n. 0 < length bytes.now → 0 < n) }
        ensures put { IfOk result (λ n. written self.new
            ≡ option_map (λ w. w ++ take n bytes.now) (written self.old)) }
        ensures failed { OnErr result (written self.new ≡ written self.old) }
        ensures cause { OnErr result (HasRisen (fault_count self.old) (fault_count self.new)) }
        ensures count { fault_count self.old ≤ fault_count self.new }
        ensures steady { OnOk result (fault_count self.new ≡ fault_count self.old) }
        ensures own { obeys self.old bytes.now (result_ok result) self.new };

    /// The count of failed calls. It stays at `u64::MAX` once it is there.
    fn faults(&self) -> u64
        ensures { result ≡ fault_count self.now };
}

/// Puts all the bytes. It takes no memory.
pub fn put_all<K: Sink>(sink: &mut K, bytes: &[u8]) -> Result<(), PortError>
    ensures all { OnOk result (K.written sink.new
        ≡ option_map (λ w. w ++ bytes.now) (K.written sink.old)) }
    ensures prefix { OnErr result ((n : ℕ) × (n ≤ length bytes.now)
        × (K.written sink.new ≡ option_map (λ w. w ++ take n bytes.now) (K.written sink.old))) }
    ensures cause { OnErr result (HasRisen (K.fault_count sink.old) (K.fault_count sink.new)) }
    ensures count { K.fault_count sink.old ≤ K.fault_count sink.new }
{
    let mut done = 0;
    while done < bytes.len() {
        done += sink.put(&bytes[done..])?;
    }
    Ok(())
}
