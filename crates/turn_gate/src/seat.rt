//! Seats: what a thread steps with.
use crate::machine::Machine;
use crate::view::View;
use std::alloc::Global;
use std::marker::Model;

/// A thread's right to ask for the turn of one gate, and what it knows of it. It takes no bytes.
/// Clauses see the gate that it is of, and its view.
#[derive(Drop)]
pub struct Seat<M: Machine> {
    pub(crate) inner: atomic_table::Seat<
        Option<M>,
        View<<M as Machine>::Entry, <M as Machine>::Opening>,
    >,
}

/// Seats of one gate, in the order of its parts.
pub type Seats<M> = Vec<Seat<M>, Global>;

impl<M: Machine> Model for Seat<M> {
    ghost use Rattle.turn_gate.specs.Known.{Known, known, IsSound};

    ghost Value = { Known M.Entry M.Opening };

    ghost view = { λ s. known s.inner.table_id s.inner.me.0 };

    ghost invariant = { λ s. IsSound s.inner.me.0 s.inner.me.1 };
}
