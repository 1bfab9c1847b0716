//! The rule of a gate, and the kinds of step that keep it.
ghost use Rattle.std.specs.Prelude.{None, Option, List, [], ℕ};
ghost use Rattle.turn_gate.specs.Rule.{Kept, meaning};
ghost use Rattle.turn_gate.specs.Steps.{asked, publishes, gave, polls, compares, takes_slot, makes};
ghost use Rattle.turn_gate.specs.Views.{fresh, spent, left_with, split_off, merged};

use crate::machine::Machine;
use crate::view::View;
use atomic_table::{Join, Play, Split, TableRule};
use std::marker::{Brand, PhantomData};

pub struct Law;

impl<M: Machine> TableRule<Option<M>, View<M::Entry, M::Opening>, ()> for Law {
    ghost holds = { λ _. Kept (meaning M.account M.fixed M.tells M.stands M.code_after) };

    ghost first = { λ _. fresh };
}

/// A machine that a step tells of, and the rise of its faults.
pub trait Told<M> {
    ghost told: { Option M };

    ghost rise: { ℕ };
}

impl<M> Told<M> for Brand {
    ghost told = { None };

    ghost rise = { 0 };
}

/// The part numbers of a making.
pub trait Numbers {
    ghost all: { List ℕ };
}

impl Numbers for Brand {
    ghost all = { [] };
}

/// The part that a split moves.
pub trait Moved {
    ghost part: { Option ℕ };
}

impl Moved for Brand {
    ghost part = { None };
}

/// 1: a swap of the turn word.
pub(crate) struct Ask;

impl<M: Machine> Play<Option<M>, View<M::Entry, M::Opening>> for Ask {
    ghost then = { λ _. asked (meaning M.account M.fixed M.tells M.stands M.code_after) };
}

/// 3: a store to the count word.
pub(crate) struct Publish<J> {
    told: PhantomData<J>,
}

impl<M: Machine, J: Told<M>> Play<Option<M>, View<M::Entry, M::Opening>> for Publish<J> {
    ghost then = { λ _.
        publishes (meaning M.account M.fixed M.tells M.stands M.code_after) J.told J.rise };
}

/// 4: a store to the turn word, the machine at home.
pub(crate) struct Give;

impl<M: Machine> Play<Option<M>, View<M::Entry, M::Opening>> for Give {
    ghost then = { λ _. gave (meaning M.account M.fixed M.tells M.stands M.code_after) };
}

/// 5: a load of the count word.
pub(crate) struct Poll;

impl<M: Machine> Play<Option<M>, View<M::Entry, M::Opening>> for Poll {
    ghost then = { λ _. polls (meaning M.account M.fixed M.tells M.stands M.code_after) };
}

/// 6: one view becomes two.
pub(crate) struct Cut<J> {
    part: PhantomData<J>,
}

impl<E, O, J: Moved> Split<View<E, O>> for Cut<J> {
    ghost left = { left_with J.part };

    ghost right = { split_off J.part };
}

/// 7: two views become one, and then what both had seen is compared.
pub(crate) struct Both;

impl<E, O> Join<View<E, O>> for Both {
    ghost both = { merged };

    ghost spent = { spent };
}

pub(crate) struct Compare;

impl<M: Machine> Play<Option<M>, View<M::Entry, M::Opening>> for Compare {
    ghost then = { λ _. compares (meaning M.account M.fixed M.tells M.stands M.code_after) };
}

/// The making: the empty slot is taken, and the machine put in and told.
pub(crate) struct TakeSlot;

impl<M: Machine> Play<Option<M>, View<M::Entry, M::Opening>> for TakeSlot {
    ghost then = { λ _. takes_slot (meaning M.account M.fixed M.tells M.stands M.code_after) };
}

pub(crate) struct Make<J> {
    numbers: PhantomData<J>,
}

impl<M: Machine, J: Numbers> Play<Option<M>, View<M::Entry, M::Opening>> for Make<J> {
    ghost then = { λ _.
        makes (meaning M.account M.fixed M.tells M.stands M.code_after) M.opening J.all };
}
