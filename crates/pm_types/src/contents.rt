//! What a software package has, without the bytes of its payloads.
ghost use Rattle.std.specs.Prelude.{◌≡◌, ◌<◌, ◌≤◌, ◌^◌, [], length};
ghost use Rattle.ucm_base.specs.Limits.{part_limit};
ghost use Rattle.pm_types.specs.Clusters.{stored_units, units_of};

use std::alloc::Global;
use std::marker::Model;
use ucm_base::Part;
use ucm_base::limits::BLOCK_LIMIT;

/// At most 16 parts with the lengths of their payloads, in order, seen as their list.
#[derive(Drop)]
pub struct Contents {
    parts: Vec<Part<u32>>,
}

impl Model for Contents {
    ghost use Rattle.std.specs.Prelude.{ℕ, List, ◌≤◌, length};
    ghost use Rattle.ucm_base.specs.Limits.{part_limit};
    ghost use Rattle.ucm_base.specs.declared.parts.Part.{Part};

    ghost Value = { List (Part ℕ) };

    ghost view = { λ a. a.parts.items };

    ghost invariant = { λ a. length a.parts.items ≤ part_limit };
}

impl Contents {
    /// No part. It takes no memory.
    pub fn none(alloc: Global) -> Contents
        ensures { result ≡ [] }
    {
        Contents {
            parts: Vec::new(alloc),
        }
    }

    /// The list of these parts. It takes no memory.
    pub fn of(parts: Vec<Part<u32>>) -> Contents
        requires { length parts.items ≤ part_limit }
        ensures { result ≡ parts.items }
    {
        Contents { parts }
    }

    /// The parts, in order.
    pub fn as_slice(&self) -> &[Part<u32>]
        ensures parts { result.now ≡ self.now }
        ensures form { length self.now ≤ part_limit }
    {
        self.parts.as_slice()
    }

    /// The units of work that bring all parts.
    pub fn units(&self) -> u64
        ensures units { result ≡ stored_units self.now }
        ensures few { result < 2 ^ 32 }
    {
        let mut units = 0;
        for part in &self.parts {
            units += units_of(part.payload);
        }
        units
    }
}

/// The units of work that bring a payload of this size: 4,096 bytes each, and one where there are none.
pub fn units_of(size: u32) -> u64
    ensures units { result ≡ units_of size }
    ensures few { result ≤ 2 ^ 20 }
{
    ((u64::from(size) + BLOCK_LIMIT - 1) / BLOCK_LIMIT).max(1)
}
