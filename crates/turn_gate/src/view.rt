//! What a seat knows, as clauses see it. No value of these is made.
use std::collections::LinkedList;

/// How a machine stands: its list, the entry that is pending, and how often its device has failed.
pub struct Account<E> {
    pub entries: LinkedList<E>,
    pub pending: Option<E>,
    pub faults: u64,
}

/// What the making of a gate fixed: the opening, the machine's fixed list of numbers, its count of
/// faults then, and the part numbers of all seats.
pub struct Fixed<O> {
    pub opening: O,
    pub numbers: LinkedList<u64>,
    pub faults: u64,
    pub all: LinkedList<u8>,
}

/// A part of a seat: its number, the entries that tell it, and an entry that may stand or not.
pub struct Part<E> {
    pub number: u8,
    pub mine: LinkedList<E>,
    pub doubt: Option<E>,
}

/// What a seat knows of its gate.
pub struct View<E, O> {
    /// None before the making, and in a view that is spent; a `Seat` has one.
    pub fixed: Option<Fixed<O>>,
    /// The list, as far as it was seen.
    pub seen: LinkedList<E>,
    pub parts: LinkedList<Part<E>>,
    /// By how much the device's count of faults rose in this seat's turns.
    pub rises: u64,
    /// While this seat has the turn: the machine as it was found or published.
    pub held: Option<Account<E>>,
    /// Whether it was published in this turn.
    pub published: bool,
    /// What was polled, newest first: places and codes.
    pub notes: LinkedList<(u64, u8)>,
    /// What the seats that are being joined had seen.
    pub earlier: LinkedList<LinkedList<E>>,
}
