//! A node's history: its entries, and the lines that it keeps of the newest.
ghost use Rattle.std.specs.Prelude.{◌≡◌, ◌≤◌, ◌∷◌, ◌++◌, [], length, IfOk};
ghost use Rattle.ucm_base.specs.Limits.{line_limit};
ghost use Rattle.pm_types.specs.Steps.{newest};

use crate::{Call, CallName, Reply, Status};
use circular_buffer::HeapCircularBuffer;
use std::alloc::{AllocError, Global};
use std::marker::Model;
use ucm_base::limits::LINE_LIMIT;
use ucm_base::{CallNo, ClientId, Rows};

/// One event of a node's history.
#[derive(Drop)]
pub enum Entry {
    Numbered {
        client: ClientId,
        no: CallNo,
        call: Call,
        reply: Reply,
    },
    Unit {
        passed: bool,
        after: Status,
    },
}

/// What a line of the history says beside its place.
#[derive(Clone, Copy, Debug, PartialEq, Eq)]
pub enum Happened {
    Numbered {
        client: ClientId,
        no: CallNo,
        call: CallName,
        /// The refusal's number, or 0.
        refusal: u8,
    },
    Unit {
        after: Status,
    },
}

/// A line of the history. Its place counts from 0.
#[derive(Clone, Copy, Debug, PartialEq, Eq)]
pub struct Line {
    pub place: u64,
    pub happened: Happened,
}

/// Lines of the history, in order.
pub type LineList = Rows<Line>;

/// The newest 256 lines, seen as their list. It has room for them from its making.
#[derive(Drop)]
pub struct NewestLines {
    ring: HeapCircularBuffer<Line>,
}

impl Model for NewestLines {
    ghost use Rattle.std.specs.Prelude.{List, ◌≡◌};
    ghost use Rattle.ucm_base.specs.Limits.{line_limit};
    ghost use Rattle.pm_types.specs.declared.history.Line.{Line};

    ghost Value = { List Line };

    ghost view = { λ s. s.ring.items };

    ghost invariant = { λ s. s.ring.capacity ≡ line_limit };
}

impl NewestLines {
    /// No line.
    pub fn new(alloc: Global) -> Result<NewestLines, AllocError>
        ensures { IfOk result (λ s. s ≡ []) }
    {
        let ring = HeapCircularBuffer::with_capacity(alloc, LINE_LIMIT as usize)?;
        Ok(NewestLines { ring })
    }

    /// How many lines there are.
    pub fn len(&self) -> usize
        ensures count { result ≡ length self.now }
        ensures few { result ≤ line_limit }
    {
        self.ring.len()
    }

    /// The lines, in order, as two pieces.
    pub fn as_slices(&self) -> (&[Line], &[Line])
        ensures { result.0.now ++ result.1.now ≡ self.now }
    {
        self.ring.as_slices()
    }

    /// Adds a line, in place of the oldest where there are 256. It takes no memory.
    pub fn push(&mut self, place: u64, happened: Happened)
        ensures { self.new
            ≡ newest (self.old ++ record { place = place; happened = happened } ∷ []) }
    {
        self.ring.push_back(Line { place, happened });
    }
}
