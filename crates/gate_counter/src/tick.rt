//! Counts, and what became of one.
ghost use Rattle.std.specs.Prelude.{◌≡◌};
ghost use Rattle.gate_counter.specs.Rises.{rise_of};

/// One count: by which part, and its number among the counts of this part, from 1.
#[derive(Clone, Copy, Debug, PartialEq, Eq, Drop)]
pub struct Tick {
    pub by: u8,
    pub no: u32,
}

#[derive(Clone, Copy, Debug, PartialEq, Eq, Drop)]
pub enum Answer {
    Counted,
    /// The device failed this often, and the count is pending.
    NoReply { faults: u64 },
    OutOfMemory,
}

impl Answer {
    /// How often the device failed.
    pub fn faults(&self) -> u64
        ensures { result ≡ rise_of self.now }
    {
        match self {
            Answer::NoReply { faults } => *faults,
            Answer::Counted | Answer::OutOfMemory => 0,
        }
    }
}
