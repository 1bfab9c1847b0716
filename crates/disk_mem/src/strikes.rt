//! What a plan lets happen to the calls of a disk.
ghost use Rattle.std.specs.Prelude.{◌≡◌, ◌||◌, false};
ghost use Rattle.disk_core.specs.Plans.{no_faults};

use crate::fate::fate_in_plan;
use disk_core::{FailKind, FaultPlan};
use fault_count::one_more;

/// What becomes of a call.
#[derive(Clone, Copy, Drop)]
pub enum Fate {
    /// It does its work.
    Whole,
    /// It fails without effect.
    Fails,
    /// A write keeps this many bytes of its piece and fails, and power is gone.
    Stops(u64),
}

/// The armed plan, and how many calls it has seen.
#[derive(Drop)]
pub struct Strikes {
    pub plan: FaultPlan,
    pub stopped: bool,
    pub reads: u64,
    pub writes: u64,
    pub syncs: u64,
    ghost calm: { plan ≡ no_faults → stopped ≡ false },
}

impl Strikes {
    ghost use Rattle.disk_mem.specs.Strikes.{fate_of, numbers_of, counted, number_of, is_stop};

    /// Counts the next call of this kind, and says what becomes of it.
    pub fn next_fate(&mut self, kind: FailKind) -> Fate
        ensures fate { result ≡ fate_of kind self.old }
        ensures stopped { self.new.stopped ≡ (self.old.stopped || is_stop result) }
        ensures numbers { numbers_of self.new ≡ counted kind self.old }
        ensures plan { self.new.plan ≡ self.old.plan }
    {
        let number = self.count(kind);
        if self.stopped {
            return Fate::Fails;
        }
        let fate = fate_in_plan(&self.plan, kind, number);
        if fate.is_stop() {
            self.stopped = true;
        }
        fate
    }

    fn count(&mut self, kind: FailKind) -> u64
        ensures number { result ≡ number_of kind self.old }
        ensures numbers { numbers_of self.new ≡ counted kind self.old }
        ensures stopped { self.new.stopped ≡ self.old.stopped }
        ensures plan { self.new.plan ≡ self.old.plan }
    {
        match kind {
            FailKind::Read => {
                self.reads = one_more(self.reads);
                self.reads
            }
            FailKind::Write => {
                self.writes = one_more(self.writes);
                self.writes
            }
            FailKind::Sync => {
                self.syncs = one_more(self.syncs);
                self.syncs
            }
        }
    }
}

impl Fate {
    ghost use Rattle.disk_mem.specs.Strikes.{is_bad, is_stop, kept_of};

    /// The call fails.
    pub fn is_bad(self) -> bool
        ensures { result ≡ is_bad self }
    {
        match self {
            Fate::Whole => false,
            Fate::Fails | Fate::Stops(_) => true,
        }
    }

    fn is_stop(self) -> bool
        ensures { result ≡ is_stop self }
    {
        matches!(self, Fate::Stops(_))
    }

    /// How many of `len` bytes a write keeps.
    pub fn kept(self, len: usize) -> usize
        ensures { result ≡ kept_of self len }
    {
        match self {
            Fate::Whole => len,
            Fate::Fails => 0,
            Fate::Stops(keep) => (len as u64).min(keep) as usize,
        }
    }
}
