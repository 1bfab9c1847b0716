//! What writes outside the halves leave.
ghost use Rattle.std.specs.Prelude.{Option, List, ℕ};
ghost use Rattle.disk_core.specs.Bytes.{Torn};
ghost use Rattle.checkpoint.specs.Halves.{layout_of};
ghost use Rattle.event_log.specs.Holds.{Holds};
ghost use Rattle.event_log.specs.Doubts.{Doubt, InDoubt};
ghost use Rattle.event_log.specs.Beside.{IsBeside};
ghost use Rattle.event_log.specs.declared.log.Log.{Log as a_log};

use crate::stored::Stored;

/// A law, for a store that keeps more on its disk than the log: what it writes beside the halves changes nothing of
/// what an image stands for.
pub fn writes_elsewhere_leave_the_log<S: Stored>()
    ensures holds { (log : a_log) (now : Option S) (at n : ℕ) (x y : List ℕ)
        → IsBeside (layout_of log.half) at n → Torn at n x y
        → Holds S.start S.step log now x → Holds S.start S.step log now y }
    ensures in_doubt { (log : a_log) (doubt : Doubt S) (at n : ℕ) (x y : List ℕ)
        → IsBeside (layout_of log.half) at n → Torn at n x y
        → InDoubt S.start S.step log doubt x → InDoubt S.start S.step log doubt y }
{}
