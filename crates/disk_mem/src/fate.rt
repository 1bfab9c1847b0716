//! What a plan says of one call.
ghost use Rattle.std.specs.Prelude.{◌≡◌};
ghost use Rattle.disk_mem.specs.Strikes.{same_kind, is_listed, stop_of, fate_by, planned};

use crate::strikes::Fate;
use disk_core::{FailKind, FaultPlan};

/// What the plan says of the call of this kind and number: the first stop of a write strikes alone.
pub fn fate_in_plan(plan: &FaultPlan, kind: FailKind, number: u64) -> Fate
    ensures { result ≡ planned plan.now kind number }
{
    let stop = match kind {
        FailKind::Write => first_stop(plan.stops.as_slice(), number),
        FailKind::Read | FailKind::Sync => None,
    };
    fate_by(stop, is_listed(plan.fails.as_slice(), kind, number))
}

fn fate_by(stop: Option<u64>, is_listed: bool) -> Fate
    ensures { result ≡ fate_by stop is_listed }
{
    match stop {
        Some(keep) => Fate::Stops(keep),
        None if is_listed => Fate::Fails,
        None => Fate::Whole,
    }
}

/// Whether the call is one of the failures.
fn is_listed(fails: &[(FailKind, u64)], kind: FailKind, number: u64) -> bool
    ensures { result ≡ is_listed fails.now kind number }
{
    fails
        .iter()
        .any(|fail| is_same(fail.0, kind) && fail.1 == number)
}

/// The bytes that the first stop of this write keeps.
fn first_stop(stops: &[(u64, u64)], number: u64) -> Option<u64>
    ensures { result ≡ stop_of stops.now number }
{
    stops
        .iter()
        .find(|stop| stop.0 == number)
        .map(|stop| stop.1)
}

fn is_same(a: FailKind, b: FailKind) -> bool
    ensures { result ≡ same_kind a b }
{
    match (a, b) {
        (FailKind::Read, FailKind::Read) => true,
        (FailKind::Write, FailKind::Write) => true,
        (FailKind::Sync, FailKind::Sync) => true,
        _ => false,
    }
}
