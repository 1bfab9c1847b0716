//! A source and a sink in memory, which tell their bytes and fail just by their plans.
ghost use Rattle.std.specs.Prelude.{◌≡◌, ◌+◌, ◌≤◌, ◌++◌, [], length, take, IfOk};

use crate::calls::Calls;
use crate::{Cuts, Fails, PortError, Sink, Source};
use std::alloc::{AllocError, Global};
use std::marker::Model;

/// The bytes of a list, as a source. A take fails just where its plan names it.
#[derive(Drop)]
pub struct MemSource {
    bytes: Vec<u8>,
    at: usize,
    cuts: Cuts,
    calls: Calls,
}

impl Model for MemSource {
    ghost use Rattle.std.specs.Prelude.{◌≤◌, drop, length};
    ghost use Rattle.ucm_ports.specs.Memory.{Input};

    ghost Value = { Input };

    ghost view = { λ s. record {
      bytes = drop s.at s.bytes.items;
      cuts = s.cuts;
      calls = s.calls;
    } };

    ghost invariant = { λ s. s.at ≤ length s.bytes.items };
}

impl MemSource {
    /// A source with these bytes left, in which the calls of the plan fail. Each take gives all that fits.
    /// It takes no memory.
    pub fn new(bytes: Vec<u8>, fails: Fails) -> MemSource
        ensures { result ≡ record {
          bytes = bytes.items;
          cuts = [];
          calls = record { so_far = 0; fails = fails; faults = 0 };
        } }
    {
        let uncut = Cuts::of(Vec::new(*bytes.allocator()));
        MemSource::cut(bytes, uncut, fails)
    }

    /// The same, in which the takes that succeed give at most as many bytes as the cuts say. It takes no memory.
    pub fn cut(bytes: Vec<u8>, cuts: Cuts, fails: Fails) -> MemSource
        ensures { result ≡ record {
          bytes = bytes.items;
          cuts = cuts;
          calls = record { so_far = 0; fails = fails; faults = 0 };
        } }
    {
        MemSource {
            bytes,
            at: 0,
            cuts,
            calls: Calls {
                so_far: 0,
                fails,
                faults: 0,
            },
        }
    }
}

/// Copies the first `count` bytes to the place `at`.
fn copy_at(from: &[u8], into: &mut [u8], at: usize, count: usize)
    requires there { count ≤ length from.now }
    requires within { at + count ≤ length into.old }
    ensures copied { take (at + count) into.new ≡ take at into.old ++ take count from.now }
{
    into[at..at + count].copy_from_slice(&from[..count]);
}

impl Source for MemSource {
    ghost use Rattle.std.specs.Prelude.{Some};
    ghost use Rattle.ucm_ports.specs.Memory.{Gives};

    ghost left = { λ s. Some s.bytes };

    ghost fault_count = { λ s. s.calls.faults };

    ghost obeys = { Gives };

    fn take(&mut self, into: &mut [u8]) -> Result<usize, PortError> {
        if self.calls.fails_next(false) {
            return Err(PortError);
        }
        let count = self.cuts.next(into.len()).min(self.bytes.len() - self.at);
        copy_at(&self.bytes[self.at..], into, 0, count);
        self.at += count;
        Ok(count)
    }

    fn faults(&self) -> u64 {
        self.calls.faults
    }
}

/// A sink that keeps the bytes, as a device of a fixed size. A put fails just where its plan names it, and where the
/// sink is full. It takes no memory.
#[derive(Drop)]
pub struct MemSink {
    bytes: Vec<u8>,
    len: usize,
    calls: Calls,
}

impl Model for MemSink {
    ghost use Rattle.std.specs.Prelude.{◌≤◌, ◌-◌, length, take};
    ghost use Rattle.ucm_ports.specs.Memory.{Held};

    ghost Value = { Held };

    ghost view = { λ s. record {
      bytes = take s.len s.bytes.items;
      room = length s.bytes.items - s.len;
      calls = s.calls;
    } };

    ghost invariant = { λ s. s.len ≤ length s.bytes.items };
}

impl MemSink {
    /// A sink without a byte so far and with room for so many, in which the calls of the plan fail.
    pub fn new(alloc: Global, room: usize, fails: Fails) -> Result<MemSink, AllocError>
        ensures { IfOk result (λ s. s ≡ record {
          bytes = [];
          room = room;
          calls = record { so_far = 0; fails = fails; faults = 0 };
        }) }
    {
        Ok(MemSink {
            bytes: vec![in alloc; 0; room]?,
            len: 0,
            calls: Calls {
                so_far: 0,
                fails,
                faults: 0,
            },
        })
    }

    /// The bytes that were put.
    pub fn as_slice(&self) -> &[u8]
        ensures { result.now ≡ self.now.bytes }
    {
        &self.bytes[..self.len]
    }
}

impl Sink for MemSink {
    ghost use Rattle.std.specs.Prelude.{Some};
    ghost use Rattle.ucm_ports.specs.Memory.{Takes};

    ghost written = { λ s. Some s.bytes };

    ghost fault_count = { λ s. s.calls.faults };

    ghost obeys = { Takes };

    fn put(&mut self, bytes: &[u8]) -> Result<usize, PortError> {
        let room = self.bytes.len() - self.len;
        if self.calls.fails_next(!bytes.is_empty() && room == 0) {
            return Err(PortError);
        }
        let count = bytes.len().min(room);
        copy_at(bytes, &mut self.bytes, self.len, count);
        self.len += count;
        Ok(count)
    }

    fn faults(&self) -> u64 {
        self.calls.faults
    }
}
