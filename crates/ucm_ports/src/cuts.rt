//! How a source in memory parts its bytes.
ghost use Rattle.std.specs.Prelude.{◌≡◌, drop, get_or, max, min};

use std::alloc::Global;
use std::marker::Model;

/// How many bytes the takes give at most, one after another, seen as their list. Behind the last one there is no bound.
/// A cut of 0 counts as one of 1, since a take gives at least a byte.
#[derive(Drop)]
pub struct Cuts {
    sizes: Vec<u64>,
    used: usize,
}

impl Model for Cuts {
    ghost use Rattle.std.specs.Prelude.{◌≤◌, ℕ, List, drop, length};

    ghost Value = { List ℕ };

    ghost view = { λ c. drop c.used c.sizes.items };

    ghost invariant = { λ c. c.used ≤ length c.sizes.items };
}

impl Cuts {
    /// The cuts of these sizes. It takes no memory.
    pub fn of(sizes: Vec<u64>) -> Cuts
        ensures { result ≡ sizes.items }
    {
        Cuts { sizes, used: 0 }
    }

    /// How much of `size` the next take gives at most.
    pub fn next(&mut self, size: usize) -> usize
        ensures piece { result ≡ min size (max 1 (get_or self.old 0 size)) }
        ensures rest { self.new ≡ drop 1 self.old }
    {
        match self.sizes.get(self.used) {
            Some(cut) => {
                let piece = (size as u64).min((*cut).max(1)) as usize;
                self.used += 1;
                piece
            }
            None => size,
        }
    }
}
