//! The bytes of all areas.
ghost use Rattle.std.specs.Prelude.{◌≡◌, ◌≤◌, length, IfOk, OnOk, OnErr};
ghost use Rattle.transfer_blocks.specs.Areas.{content_of, with_content, overwritten, no_contents, IsArea, AreasFit};

use crate::Area;
use crate::content::{Content, Pair};
use std::alloc::{AllocError, Global};
use std::marker::Model;
use ucm_base::limits::{CLUSTER_LIMIT, TRANSFER_LIMIT};

/// What lies in all areas.
#[derive(Drop)]
pub(crate) struct Contents {
    slots: Vec<Content>,
    sides: Vec<Pair>,
}

impl Model for Contents {
    ghost use Rattle.pm_types.specs.Stored.{Areas};

    ghost Value = { Areas };

    ghost view = { λ c. record { slots = c.slots.items; sides = c.sides.items } };
}

impl Contents {
    /// All areas, with nothing in them.
    pub(crate) fn new(alloc: Global) -> Result<Contents, AllocError>
        ensures { IfOk result (λ c. c ≡ no_contents) }
    {
        let mut slots = Vec::with_capacity(alloc, TRANSFER_LIMIT as usize)?;
        for _slot in 0..TRANSFER_LIMIT {
            slots.push(Content::new(alloc))?;
        }
        let mut sides = Vec::with_capacity(alloc, CLUSTER_LIMIT as usize)?;
        for _place in 0..CLUSTER_LIMIT {
            sides.push(Pair::new(alloc))?;
        }
        Ok(Contents { slots, sides })
    }

    /// Puts the bytes at `at` in the area. Where memory is wanting all stays.
    pub(crate) fn put(&mut self, area: Area, at: usize, bytes: &[u8]) -> Result<(), AllocError>
        requires area { IsArea area }
        requires areas { AreasFit self.old }
        requires at { at ≤ length (content_of area self.old) }
        ensures put { OnOk result (self.new ≡ with_content area
            (overwritten at bytes.now (content_of area self.old)) self.old) }
        ensures same { OnErr result (self.new ≡ self.old) }
    {
        match area {
            Area::Transfer { slot } => self.slots[slot as usize].put(at, bytes),
            Area::Side { place, side } => self.sides[place as usize].put(side, at, bytes),
        }
    }

    /// What lies in the area.
    pub(crate) fn content(&self, area: Area) -> &Content
        requires area { IsArea area }
        requires areas { AreasFit self.now }
        ensures { result.now ≡ content_of area self.now }
    {
        match area {
            Area::Transfer { slot } => &self.slots[slot as usize],
            Area::Side { place, side } => self.sides[place as usize].on(side),
        }
    }
}
