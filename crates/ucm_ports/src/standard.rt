//! Adapters over std's readers and writers, which tell nothing of their bytes.
ghost use Rattle.std.specs.Prelude.{◌≡◌, ℕ};

use crate::{PortError, Sink, Source};
use fault_count::one_more;
use std::io::{Read, Write};
use std::marker::Model;

/// A reader of std as a source. Each `Err` is a fault.
#[derive(Drop)]
pub struct StdSource<R: Drop> {
    reader: R,
    faults: u64,
}

impl<R: Drop> Model for StdSource<R> {
    ghost Value = { ℕ };

    // What is seen is the count of failed calls.
    ghost view = { λ s. s.faults };
}

impl<R: Read + Drop> StdSource<R> {
    /// A source over this reader, without a fault so far.
    pub fn new(reader: R) -> StdSource<R>
        ensures { result ≡ 0 }
    {
        StdSource { reader, faults: 0 }
    }
}

impl<R: Read + Drop> Source for StdSource<R> {
    ghost use Rattle.std.specs.Prelude.{None};

    ghost left = { λ _. None };

    ghost fault_count = { λ faults. faults };

    fn take(&mut self, into: &mut [u8]) -> Result<usize, PortError> {
        match self.reader.read(into) {
            Ok(count) => Ok(count),
            Err(_) => {
                self.faults = one_more(self.faults);
                Err(PortError)
            }
        }
    }

    fn faults(&self) -> u64 {
        self.faults
    }
}

/// A writer of std as a sink. Each `Err`, and each piece of which no byte is taken, is a fault.
#[derive(Drop)]
pub struct StdSink<W: Drop> {
    writer: W,
    faults: u64,
}

impl<W: Drop> Model for StdSink<W> {
    ghost Value = { ℕ };

    // What is seen is the count of failed calls.
    ghost view = { λ s. s.faults };
}

impl<W: Write + Drop> StdSink<W> {
    /// A sink over this writer, without a fault so far.
    pub fn new(writer: W) -> StdSink<W>
        ensures { result ≡ 0 }
    {
        StdSink { writer, faults: 0 }
    }
}

impl<W: Write + Drop> Sink for StdSink<W> {
    ghost use Rattle.std.specs.Prelude.{None};

    ghost written = { λ _. None };

    ghost fault_count = { λ faults. faults };

    fn put(&mut self, bytes: &[u8]) -> Result<usize, PortError> {
        match self.writer.write(bytes) {
            Ok(count) if count > 0 || bytes.is_empty() => Ok(count),
            _ => {
                self.faults = one_more(self.faults);
                Err(PortError)
            }
        }
    }

    fn faults(&self) -> u64 {
        self.faults
    }
}
