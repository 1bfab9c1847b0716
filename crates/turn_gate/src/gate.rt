//! The steps of one seat: a turn, what it publishes, and a poll.
ghost use Rattle.std.specs.Prelude.{◌≡◌, ◌+◌, ◌*◌, ◌<◌, ◌≤◌, true, false, None, Some, Option, length};
ghost use mathlib.Core.List.{IsPrefix};
ghost use Rattle.turn_gate.specs.Parts.{PartsFit};
ghost use Rattle.turn_gate.specs.Rule.{NotAbove};
ghost use Rattle.turn_gate.specs.Steps.{HasTurn, MayPublish, HasAll, IsTrueTo, NotesAreOf, IsCodeAt};
ghost use Rattle.turn_gate.specs.Views.{with_turn, published, at_rest, noted};

use crate::machine::Machine;
use crate::seat::Seat;
use crate::steps::{Ask, Give, Law, Poll, Publish, Told};
use crate::view::View;
use atomic_table::Table;
use std::alloc::Global;
use std::marker::{Brand, Model};
use std::sync::Wait;
use std::sync::atomic::AtomicU64;
use std::sync::atomic::Ordering::SeqCst;

/// The count word: 16 times the length of the list, and the status code.
pub(crate) const COUNT: usize = 0;

/// The turn word: 1 while a seat has the turn.
pub(crate) const TURN: usize = 1;

/// How often a thread looks at the turn word before it sleeps.
const LOOKS: u32 = 100;

/// A machine behind a turn. Clauses see its name, which its seats have too.
#[derive(Drop)]
pub struct Gate<M: Machine> {
    pub(crate) table: Table<Option<M>, View<M::Entry, M::Opening>, (), Law, Global>,
    /// 1 where a thread may sleep on this word, so that nobody is woken where none does.
    pub(crate) asleep: AtomicU64,
}

impl<M: Machine> Model for Gate<M> {
    ghost use Rattle.atomic_table.specs.Seated.{TableId, table_id_coded};
    ghost use Rattle.turn_gate.specs.Known.{HasCounts};

    ghost Value = { TableId };

    ghost coded = { table_id_coded };

    ghost view = { λ g. g.table.shared.table_id };

    ghost invariant = { λ g. HasCounts g.table.shared.table_id };
}

impl<M: Machine> Gate<M> {
    /// Waits for the turn, and takes the machine. A thread that waits long sleeps.
    pub fn turn<R: Wait>(&self, rt: &R, seat: &mut Seat<M>) -> M
        requires of_this_gate { seat.old.gate ≡ self.now }
        requires has_a_part { 0 < length seat.old.view.parts }
        requires no_turn { seat.old.view.held ≡ None }
        ensures same_gate { seat.new.gate ≡ seat.old.gate }
        ensures turn { seat.new.view ≡ with_turn M.tells (M.account result) seat.old.view }
        ensures goes_on { IsPrefix seat.old.view.seen (M.account result).entries }
        ensures is_true { IsTrueTo M.fixed M.stands seat.old.view result }
        ensures own_entries { PartsFit M.tells (M.account result) seat.old.view.parts }
        ensures polled { NotesAreOf M.code_after seat.old.view (M.account result).entries }
        // While a seat has all parts, nothing comes between its turns.
        ensures nothing_came { HasAll seat.old.view
            → (M.account result).entries ≡ seat.old.view.seen }
    {
        for _ in rt.forever() {
            let free = self.table.shared.swap::<Ask>(&mut seat.inner, TURN, 1) == 0;
            if free {
                let machine = self.table.shared.exchange(&mut seat.inner, 0, None);
                let Some(machine) = machine else {
                    unreachable!()
                };
                return machine;
            }
            self.wait(rt);
        }
        unreachable!()
    }

    /// Looks for a free turn a bounded number of times, and then sleeps until one is given back. The
    /// second look comes after the note that it may sleep, so a give that it missed has seen the note.
    /// A thread that slept makes the note anew, since others may sleep too.
    fn wait<R: Wait>(&self, rt: &R) {
        for _ in 0..LOOKS {
            if self.table.shared.peek(TURN) == 0 {
                return;
            }
        }
        self.asleep.store(1, SeqCst);
        if self.table.shared.peek(TURN) != 0 {
            self.asleep.park(rt, 1);
            self.asleep.store(1, SeqCst);
        }
    }

    fn publish_as<J: Told<M>>(&self, seat: &mut Seat<M>, machine: &M, rise: u64)
        requires told { (J.told ≡ Some machine.now) × (J.rise ≡ rise) }
        requires of_this_gate { seat.old.gate ≡ self.now }
        requires in_turn { HasTurn seat.old.view }
        requires goes_on { MayPublish M.tells seat.old.view (M.account machine.now) rise }
        requires is_true { IsTrueTo M.fixed M.stands seat.old.view machine.now }
        ensures same_gate { seat.new.gate ≡ seat.old.gate }
        ensures published { seat.new.view
            ≡ published M.tells (M.account machine.now) rise seat.old.view }
        ensures goes_on { IsPrefix seat.old.view.seen (M.account machine.now).entries }
    {
        let _ = rise;
        let word = 16 * machine.count() + machine.code() as u64;
        self.table
            .shared
            .store::<Publish<J>>(&mut seat.inner, COUNT, word);
    }

    /// Tells all seats of the machine's list. It went on from that of the turn by the entry found
    /// pending or by nothing, and then by at most one entry, of this seat's parts or of none.
    pub fn publish(&self, seat: &mut Seat<M>, machine: &M, rise: u64)
        requires of_this_gate { seat.old.gate ≡ self.now }
        requires in_turn { HasTurn seat.old.view }
        requires not_yet { seat.old.view.published ≡ false }
        requires goes_on { MayPublish M.tells seat.old.view (M.account machine.now) rise }
        requires is_true { IsTrueTo M.fixed M.stands seat.old.view machine.now }
        ensures same_gate { seat.new.gate ≡ seat.old.gate }
        ensures published { seat.new.view
            ≡ published M.tells (M.account machine.now) rise seat.old.view }
        ensures goes_on { IsPrefix seat.old.view.seen (M.account machine.now).entries }
    {
        self.publish_as::<Brand>(seat, machine, rise);
    }

    /// Gives the turn back, with the machine as it was published.
    pub fn give(&self, seat: &mut Seat<M>, machine: M)
        requires of_this_gate { seat.old.gate ≡ self.now }
        requires published { seat.old.view.published ≡ true }
        requires as_published { seat.old.view.held ≡ Some (M.account machine) }
        requires is_true { IsTrueTo M.fixed M.stands seat.old.view machine }
        ensures same_gate { seat.new.gate ≡ seat.old.gate }
        ensures given { seat.new.view ≡ at_rest seat.old.view }
    {
        let none = self
            .table
            .shared
            .exchange(&mut seat.inner, 0, Some(machine));
        let None = none else { unreachable!() };
        self.table.shared.store::<Give>(&mut seat.inner, TURN, 0);
        if self.asleep.load(SeqCst) == 1 && self.asleep.swap(0, SeqCst) == 1 {
            self.asleep.wake_one();
        }
    }

    /// The length of the list and its status code. It never waits, and is one load.
    pub fn poll(&self, seat: &mut Seat<M>) -> (u64, u8)
        requires of_this_gate { seat.old.gate ≡ self.now }
        ensures same_gate { seat.new.gate ≡ seat.old.gate }
        ensures noted { seat.new.view ≡ noted result.0 result.1 seat.old.view }
        ensures not_before_seen { length seat.old.view.seen ≤ result.0 }
        ensures not_before_polled { NotAbove result.0 seat.old.view.notes }
        ensures is_code { IsCodeAt M.code_after seat.old.view result.0 result.1 }
    {
        let word = self.table.shared.load::<Poll>(&mut seat.inner, COUNT);
        (word / 16, (word % 16) as u8)
    }
}
