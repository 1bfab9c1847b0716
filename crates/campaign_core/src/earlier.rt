//! The earlier campaigns of the master's list.
ghost use Rattle.std.specs.Prelude.{◌≡◌, ◌<◌, ◌≤◌, ◌++◌, ◌∷◌, [], IfOk, OnOk, vec_len, vec_capacity};
ghost use Rattle.campaign_core.specs.Earlier.{IsFront, IsHighest, all_below};

use crate::CampaignResult;
use std::alloc::AllocError;
use std::marker::Model;
use std::mem;

/// Numbers of earlier campaigns with their results, in order, seen as their list.
#[derive(Drop)]
pub struct CampaignList {
    items: Vec<(u32, CampaignResult)>,
    /// The highest of their numbers, so that no event goes through them all.
    highest: u32,
}

impl Model for CampaignList {
    ghost use Rattle.std.specs.Prelude.{ℕ, List};
    ghost use Rattle.campaign_core.specs.declared.events.CampaignResult.{CampaignResult};
    ghost use Rattle.campaign_core.specs.Earlier.{IsHighest};

    ghost Value = { List (ℕ × CampaignResult) };

    ghost view = { λ a. a.items.items };

    ghost invariant = { λ a. IsHighest a.highest a.items.items };
}

impl CampaignList {
    /// The list of these campaigns. It takes no memory.
    pub fn of(items: Vec<(u32, CampaignResult)>) -> CampaignList
        ensures { result ≡ items.items }
    {
        let highest = highest_of(items.as_slice());
        CampaignList { items, highest }
    }

    /// Whether all of them have lower numbers than a campaign, which are at least 1.
    pub(crate) fn are_below(&self, campaign: u32) -> bool
        requires { 1 ≤ campaign }
        ensures { result ≡ all_below campaign self.now }
    {
        self.highest < campaign
    }

    /// The campaigns, in order.
    pub fn as_slice(&self) -> &[(u32, CampaignResult)]
        ensures { result.now ≡ self.now }
    {
        self.items.as_slice()
    }

    /// A copy.
    pub(crate) fn copy(&self) -> Result<Vec<(u32, CampaignResult)>, AllocError>
        ensures { IfOk result (λ v. v.items ≡ self.now) }
    {
        Vec::from_slice(*self.items.allocator(), self.items.as_slice())
    }

    /// A list of none, in the same memory.
    pub(crate) fn none(&self) -> Vec<(u32, CampaignResult)>
        ensures { result.items ≡ [] }
    {
        Vec::new(*self.items.allocator())
    }

    /// Brings the first of these campaigns up to all of them, with room for one more.
    pub(crate) fn make_room(&self, first: &mut Vec<(u32, CampaignResult)>) -> Result<(), AllocError>
        requires first { IsFront first.old.items self.now }
        ensures all { OnOk result (first.new.items ≡ self.now) }
        ensures room { OnOk result (vec_len first.new < vec_capacity first.new) }
        ensures front { IsFront first.new.items self.now }
    {
        let behind = &self.items[first.len()..];
        first.extend_from_slice(behind)?;
        first.reserve(1)
    }

    /// Enters a campaign behind the others, in the memory of a list that has all of them and room for it. That list
    /// goes on with the others.
    pub(crate) fn enter(
        &mut self,
        next: &mut Vec<(u32, CampaignResult)>,
        entry: (u32, CampaignResult),
    )
        requires same { next.old.items ≡ self.old }
        requires room { vec_len next.old < vec_capacity next.old }
        ensures entered { self.new ≡ self.old ++ entry ∷ [] }
        ensures others { next.new.items ≡ self.old }
    {
        next.push_reserved(entry);
        mem::swap(&mut self.items, next);
        self.highest = self.highest.max(entry.0);
    }
}

/// The highest number of these campaigns; 0 of none.
fn highest_of(items: &[(u32, CampaignResult)]) -> u32
    ensures { IsHighest result items.now }
{
    let mut highest = 0u32;
    'items: for item in items {
        highest = highest.max(item.0);
    }
    highest
}
