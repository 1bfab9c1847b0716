//! The set.
ghost use Rattle.std.specs.Prelude.{◌≡◌, ◌≤◌, ◌||◌, [], ℕ, false, OnOk};
ghost use Rattle.range_set.specs.Ranges.{is_apart, is_met, meets, track_range};

use std::alloc::{AllocError, Global};
use std::collections::BTreeMap;
use std::marker::Model;

/// Ranges of numbers, each with its first and last number, on tracks. No two on one track have a number in common. It
/// is seen as its entries: a range's first number, under its track and its last number, in order of these.
#[derive(Drop)]
pub struct RangeSet {
    firsts: BTreeMap<(u8, u64), u64>,
}

impl Model for RangeSet {
    ghost use Rattle.std.specs.Prelude.{ℕ, List, IsTrue};
    ghost use Rattle.range_set.specs.Ranges.{is_apart};

    ghost Value = { List ((ℕ × ℕ) × ℕ) };

    ghost view = { λ a. a.firsts.entries };

    ghost invariant = { λ a. IsTrue (is_apart 0 0 a.firsts.entries) };
}

impl RangeSet {
    /// No ranges.
    pub fn new(alloc: Global) -> RangeSet
        ensures { result ≡ [] }
    {
        RangeSet {
            firsts: BTreeMap::new(alloc),
        }
    }

    /// Whether a range has a number in common with one of the set on its track.
    pub fn meets(&self, track: u8, first: u64, last: u64) -> bool
        ensures { result ≡ is_met self.now track first last }
    {
        match self.firsts.range((track, first)..).next() {
            Some((at, from)) => at.0 == track && *from <= last,
            None => false,
        }
    }

    /// Adds a range that meets none.
    pub fn add(&mut self, track: u8, first: u64, last: u64) -> Result<(), AllocError>
        requires order { first ≤ last }
        requires free { is_met self.old track first last ≡ false }
        ensures { OnOk result ((t a b : ℕ) → is_met self.new t a b
            ≡ (meets t a b (track_range track first last) || is_met self.old t a b)) }
    {
        self.firsts.insert((track, last), first)?;
        Ok(())
    }
}
