//! Counts of faults, which never fall and stand still at their last value.
//!
//! Layer: the lowest; ports, disks and areas count their failed calls by it.
//! Its one contract: a count rises by one fault, as `specs/Faults.antt` says, and the last value stays.
#![tactic(auto)]

ghost use Rattle.std.specs.Prelude.{◌≡◌};
ghost use Rattle.fault_count.specs.Faults.{HasRisen, one_more};

/// The count with one fault more; the last value of a `u64` stays.
pub fn one_more(count: u64) -> u64
    ensures counted { result ≡ one_more count }
    ensures risen { HasRisen count result }
{
    count.saturating_add(1)
}
