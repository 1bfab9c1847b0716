//! The driver of one subordinate, with no device and no thread.
ghost use Rattle.std.specs.Prelude.{◌≡◌, ◌<◌, ◌≤◌, ℕ, IfOk, IsTrue, List, length};
ghost use Rattle.sub_core.specs.Driving.{begun, fresh, has_number, next_no, step, todo, unanswered, CanBegin};
ghost use Rattle.sub_core.specs.Calls.{AreThere, CanMake};
ghost use Rattle.sub_core.specs.Numbers.{IsAt, IsLater};

use crate::asking::unreached;
use crate::progress::{EndProgress, Progress, Wish};
use crate::{Got, PackageSize, Rises, Round, SendStep, Todo};
use std::alloc::{AllocError, Global};
use std::marker::Model;
use ucm_base::limits::ATTEMPT_LIMIT;

/// Runs one subordinate through the rounds of a campaign and to its end. It goes on by what it is answered alone.
#[derive(Drop)]
pub struct Driver {
    pub(crate) epoch: u32,
    pub(crate) campaign: u32,
    pub(crate) steps: Vec<PackageSize>,
    pub(crate) ids: Vec<u32>,
    pub(crate) number: u64,
    pub(crate) is_open: bool,
    pub(crate) misses: Vec<Rises>,
    pub(crate) round: Option<Round>,
    pub(crate) progress: Progress,
}

impl Model for Driver {
    ghost use Rattle.std.specs.Prelude.{◌≤◌, length, vec_capacity};
    ghost use Rattle.ucm_base.specs.Limits.{attempt_limit};
    ghost use Rattle.sub_core.specs.States.{DriverState, IsSound};

    ghost Value = { DriverState };

    ghost view = { λ d. record {
      epoch = d.epoch;
      campaign = d.campaign;
      steps = d.steps.items;
      ids = d.ids.items;
      number = d.number;
      is_open = d.is_open;
      misses = d.misses.items;
      round = d.round;
      progress = d.progress;
    } };

    ghost invariant = { λ d. IsSound (record {
      epoch = d.epoch;
      campaign = d.campaign;
      steps = d.steps.items;
      ids = d.ids.items;
      number = d.number;
      is_open = d.is_open;
      misses = d.misses.items;
      round = d.round;
      progress = d.progress;
    }) × (length d.steps.items ≤ vec_capacity d.ids) × (attempt_limit ≤ vec_capacity d.misses) };
}

impl Driver {
    /// A driver in this epoch, from this number on, for the packages that the steps of the campaign bring to the node,
    /// in their order. Its node is one that a step names.
    pub fn new(
        alloc: Global,
        epoch: u32,
        first: u32,
        campaign: u32,
        steps: &[PackageSize],
    ) -> Result<Driver, AllocError>
        requires named { 0 < length steps.now }
        ensures { IfOk result (λ driver. driver ≡ fresh epoch first campaign steps.now) }
    {
        Ok(Driver {
            epoch,
            campaign,
            ids: Vec::with_capacity(alloc, steps.len())?,
            steps: steps.to_vec(alloc)?,
            number: first as u64,
            is_open: false,
            misses: Vec::with_capacity(alloc, ATTEMPT_LIMIT as usize)?,
            round: None,
            progress: Progress::Sync,
        })
    }

    /// Begins a round. It takes no memory. A message that stayed open has used up its number.
    pub fn begin(&mut self, round: Round)
        requires order { CanBegin round self.old }
        ensures is { self.new ≡ begun round self.old }
        ensures later { IsLater self.old self.new }
    {
        if self.is_open {
            self.number += 1;
            self.is_open = false;
        }
        self.misses.clear();
        self.round = Some(round);
        if let Round::End { commit } = round {
            self.progress = Progress::Ending {
                commit,
                at: EndProgress::Call(SendStep::Sync),
            };
        }
    }

    /// What it asks for. It takes no memory, and rests until the next `begin`.
    pub fn next(&self) -> Todo
        requires number { IsTrue (has_number self.now) }
        ensures is { result ≡ todo self.now }
        ensures number { IsAt (next_no self.now) result }
        // What it asks for can be made of the packages, where the steps' are among them.
        ensures there { (packages : List (List ℕ)) → AreThere packages self.now.steps
            → CanMake packages result }
    {
        match self.wish() {
            Wish::Rest(finding) => Todo::Rest(finding),
            _ if self.is_missed() => Todo::Rest(unreached(&self.misses)),
            Wish::Send(step) => Todo::Send {
                no: self.next_no(),
                step,
            },
            Wish::Unit => Todo::Unit,
        }
    }

    /// Whether a number is left for what it asks.
    pub fn has_number(&self) -> bool
        ensures { result ≡ has_number self.now }
    {
        match self.wish() {
            Wish::Send(_) => self.is_missed() || self.number <= u32::MAX as u64,
            Wish::Unit | Wish::Rest(_) => true,
        }
    }

    /// The failed attempts in a row at what it asks: eight where it rests with Unreached.
    pub fn series(&self) -> &[Rises]
        ensures { result.now ≡ self.now.misses }
    {
        self.misses.as_slice()
    }

    /// An attempt at what it asks gave nothing, for want of memory. The number of a call isn't used for another one.
    pub fn on_nothing(&mut self)
        ensures is { self.new ≡ unanswered self.old }
        ensures later { IsLater self.old self.new }
        ensures round { self.new.round ≡ self.old.round }
    {
        if !self.has_number() || self.is_missed() {
            return;
        }
        if let Wish::Send(_) = self.wish() {
            self.is_open = true;
        }
    }

    /// Takes what an attempt at what it asks gave. It takes no memory. An answer of a kind that what it asks never has
    /// leaves what it asks.
    pub fn on(&mut self, got: Got)
        ensures is { self.new ≡ step got self.old }
        ensures later { IsLater self.old self.new }
        ensures round { self.new.round ≡ self.old.round }
    {
        if !self.has_number() || self.is_missed() {
            return;
        }
        match self.wish() {
            Wish::Send(asked) => self.on_send(asked, got),
            Wish::Unit => self.on_unit(got),
            Wish::Rest(_) => {}
        }
    }
}
