//! The making of a gate, seats split and joined, and its close.
ghost use Rattle.std.specs.Prelude.{◌≡◌, ◌+◌, ◌<◌, ◌≤◌, None, Some, IfOk, IfErr, IfSome, length};
ghost use mathlib.Core.List.{IsPrefix};
ghost use Rattle.turn_gate.specs.Parts.{numbers_of, parts_of, AllDiffer, IsAmong, PartsFit, TellsOnly, at_most_last};
ghost use Rattle.turn_gate.specs.Rule.{NotesFit};
ghost use Rattle.turn_gate.specs.Seats.{one_each, AllRest, HaveAll, OneSaw, AllSawBeginnings, parts_in, notes_in, rises_in, fixed_in};
ghost use Rattle.turn_gate.specs.Steps.{CoversRises, TellsParts, HasAll, IsTrueTo, NotesAreOf};
ghost use Rattle.turn_gate.specs.Views.{fixed_by, first_view, left_with, split_off, joined};

use crate::gate::{COUNT, Gate, TURN};
use crate::machine::Machine;
use crate::seat::{Seat, Seats};
use crate::steps::{Both, Compare, Cut, Give, Make, Moved, Numbers, TakeSlot};
use atomic_table::Table;
use std::alloc::{AllocError, Global};
use std::marker::Brand;
use std::sync::atomic::AtomicU64;

impl<M: Machine> Gate<M> {
    /// A gate, and one seat with all parts.
    fn make_as<J: Numbers>(
        alloc: Global,
        machine: M,
        parts: &[u8],
    ) -> Result<(Gate<M>, Seat<M>), (M, AllocError)>
        requires numbers { J.all ≡ parts.now }
        requires stands_for { M.stands machine (M.opening machine) }
        requires some_part { 0 < length parts.now }
        requires parts_differ { AllDiffer parts.now }
        requires tells_only_parts { TellsOnly M.tells parts.now (M.account machine) }
        ensures gate { IfOk result (λ made. made.1.gate ≡ made.0) }
        ensures seat { IfOk result
            (λ made. made.1.view ≡ first_view
            (fixed_by M.opening M.fixed M.account machine parts.now) (M.account machine)
            (parts_of M.tells (M.account machine) parts.now)) }
        ensures handed_back { IfErr result (λ refused. refused.0 ≡ machine) }
    {
        let _ = parts;
        let Ok((table, mut seat)) = Table::vacant(alloc, &[0, 1], 1, &()) else {
            return Err((machine, AllocError));
        };
        let word = 16 * machine.count() + machine.code() as u64;
        table.shared.swap::<TakeSlot>(&mut seat, TURN, 1);
        let none = table.shared.exchange(&mut seat, 0, Some(machine));
        let None = none else { unreachable!() };
        table.shared.store::<Make<J>>(&mut seat, COUNT, word);
        table.shared.store::<Give>(&mut seat, TURN, 0);
        let gate = Gate {
            table,
            asleep: AtomicU64::new(0),
        };
        Ok((gate, Seat { inner: seat }))
    }

    /// Makes a gate with this machine, and one seat for each part number, in order, with this part.
    /// Where there is no memory the machine comes back.
    pub fn new(
        alloc: Global,
        machine: M,
        parts: &[u8],
    ) -> Result<(Gate<M>, Seats<M>), (M, AllocError)>
        requires stands_for { M.stands machine (M.opening machine) }
        requires some_part { 0 < length parts.now }
        requires parts_differ { AllDiffer parts.now }
        requires tells_only_parts { TellsOnly M.tells parts.now (M.account machine) }
        ensures one_seat_each { IfOk result
            (λ made. made.1.items ≡ one_each made.0 (first_view
            (fixed_by M.opening M.fixed M.account machine parts.now) (M.account machine))
            (parts_of M.tells (M.account machine) parts.now)) }
        ensures handed_back { IfErr result (λ refused. refused.0 ≡ machine) }
    {
        let Ok(mut seats) = Vec::with_capacity(alloc, parts.len()) else {
            return Err((machine, AllocError));
        };
        let (gate, mut seat) = Gate::make_as::<Brand>(alloc, machine, parts)?;
        for part in parts {
            seats.push_reserved(gate.split(&mut seat, Some(*part)));
        }
        Ok((gate, seats))
    }

    fn split_as<J: Moved>(&self, seat: &mut Seat<M>, part: Option<u8>) -> Seat<M>
        requires moved { J.part ≡ part }
        requires of_this_gate { seat.old.gate ≡ self.now }
        requires no_turn { seat.old.view.held ≡ None }
        ensures same_gate { (seat.new.gate ≡ self.now) × (result.gate ≡ self.now) }
        ensures left { seat.new.view ≡ left_with part seat.old.view }
        ensures moved { result.view ≡ split_off part seat.old.view }
    {
        let _ = part;
        Seat {
            inner: self.table.shared.split_seat::<Cut<J>>(&mut seat.inner),
        }
    }

    /// A new seat, which has seen what this one has, and takes the named part from it.
    pub fn split(&self, seat: &mut Seat<M>, part: Option<u8>) -> Seat<M>
        requires of_this_gate { seat.old.gate ≡ self.now }
        requires no_turn { seat.old.view.held ≡ None }
        requires its_part { IsAmong part (numbers_of seat.old.view.parts) }
        ensures same_gate { (seat.new.gate ≡ self.now) × (result.gate ≡ self.now) }
        ensures left { seat.new.view ≡ left_with part seat.old.view }
        ensures moved { result.view ≡ split_off part seat.old.view }
    {
        self.split_as::<Brand>(seat, part)
    }

    /// Two seats are made one, which has seen what either had. It has the parts, the notes and the
    /// rises of both.
    pub fn join(&self, seat: &mut Seat<M>, other: Seat<M>)
        requires of_this_gate { (seat.old.gate ≡ self.now) × (other.gate ≡ self.now) }
        requires no_turn { (seat.old.view.held ≡ None) × (other.view.held ≡ None) }
        ensures same_gate { seat.new.gate ≡ self.now }
        ensures both { seat.new.view ≡ joined seat.old.view other.view }
        ensures goes_on { IsPrefix seat.old.view.seen seat.new.view.seen }
        ensures has_seen { IsPrefix other.view.seen seat.new.view.seen }
    {
        let Seat { inner } = other;
        self.table.shared.join_seat::<Both>(&mut seat.inner, inner);
        self.table.shared.load::<Compare>(&mut seat.inner, COUNT);
    }

    /// Ends the gate, by a seat with all parts, and hands the machine back.
    pub fn close_one(self, seat: Seat<M>) -> M
        requires of_this_gate { seat.gate ≡ self }
        requires no_turn { seat.view.held ≡ None }
        requires all_parts { HasAll seat.view }
        ensures list { (M.account result).entries ≡ seat.view.seen }
        ensures own_entries { PartsFit M.tells (M.account result) seat.view.parts }
        ensures tells_parts { TellsParts M.tells seat.view (M.account result) }
        ensures polled { NotesAreOf M.code_after seat.view (M.account result).entries }
        ensures faults { CoversRises seat.view (M.account result).faults }
        ensures is_true { IsTrueTo M.fixed M.stands seat.view result }
    {
        let Gate { table, asleep: _ } = self;
        let Seat { inner } = seat;
        let mut closed = table.close_with(inner);
        let slot = closed.take(0);
        closed.free();
        let Some(machine) = slot else { unreachable!() };
        machine
    }

    /// Ends the gate, by seats that together have all parts. They are joined into the first.
    pub fn close(self, seats: Seats<M>) -> M
        requires rest { AllRest self seats.items }
        requires all_parts { HaveAll seats.items }
        ensures list { OneSaw (M.account result).entries seats.items }
        ensures all_saw { AllSawBeginnings (M.account result).entries seats.items }
        ensures own_entries { PartsFit M.tells (M.account result) (parts_in seats.items) }
        ensures tells_parts { IfSome (fixed_in seats.items)
            (λ f. TellsOnly M.tells f.all (M.account result)) }
        ensures polled { IfSome (fixed_in seats.items)
            (λ f. NotesFit M.code_after f.opening (M.account result).entries
            (notes_in seats.items)) }
        ensures faults { IfSome (fixed_in seats.items)
            (λ f. at_most_last (f.faults + rises_in seats.items) ≤ (M.account result).faults) }
        ensures is_true { IfSome (fixed_in seats.items)
            (λ f. (M.fixed result ≡ f.numbers) × M.stands result f.opening) }
    {
        let mut seats = seats.into_iter();
        let Some(mut seat) = seats.next() else {
            unreachable!()
        };
        while let Some(other) = seats.next() {
            self.join(&mut seat, other);
        }
        self.close_one(seat)
    }
}
