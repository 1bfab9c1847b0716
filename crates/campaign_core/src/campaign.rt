//! The master's table at work.
ghost use Rattle.std.specs.Prelude.{◌≡◌, ◌↔◌, IfOk, OnOk, OnErr, IsErrOf, Ok, Err, true, false, None};
ghost use Rattle.std.specs.Result.{result_err};
ghost use Rattle.campaign_core.specs.Campaign.{after_event, nothing_yet, refusal_of};
ghost use Rattle.campaign_core.specs.Views.{state_of, view_of};
ghost use Rattle.campaign_core.specs.Standing.{FindsNone};
ghost use Rattle.campaign_core.specs.declared.events.CampaignRefusal.{CampaignRefusal};

use crate::{
    CampaignList, CampaignRefusal, CampaignResult, CampaignState, CampaignView, Fold, MasterEvent,
};
use std::alloc::{AllocError, Global};
use std::marker::Model;

/// The fold of the events so far, seen as the fold and whether the next event has its memory.
#[derive(Drop)]
pub struct Campaign {
    fold: Fold,
    /// The first of the earlier campaigns again; all of them, with room for one more, where the memory is reserved. The
    /// two lists change places when a campaign is entered, so no event copies what the other ones entered.
    next: Vec<(u32, CampaignResult)>,
    ready: bool,
}

impl Model for Campaign {
    ghost use Rattle.std.specs.Prelude.{◌≡◌, ◌<◌, true, vec_len, vec_capacity};
    ghost use Rattle.campaign_core.specs.Earlier.{IsFront};
    ghost use Rattle.campaign_core.specs.Standing.{Standing};

    ghost Value = { Standing };

    ghost view = { λ a. record { fold = a.fold; ready = a.ready } };

    ghost invariant = { λ a. IsFront a.next.items a.fold.earlier
        × (a.ready ≡ true
        → (a.next.items ≡ a.fold.earlier) × (vec_len a.next < vec_capacity a.next)) };
}

impl Campaign {
    /// The campaign of no event.
    pub fn new(alloc: Global) -> Campaign
        ensures { result ≡ record { fold = nothing_yet; ready = false } }
    {
        Campaign::at(Fold::empty(alloc))
    }

    /// Goes on from a fold. It takes no memory.
    pub fn at(fold: Fold) -> Campaign
        ensures { result ≡ record { fold = fold; ready = false } }
    {
        let next = fold.earlier.none();
        Campaign {
            fold,
            next,
            ready: false,
        }
    }

    /// The fold of the events so far.
    pub fn fold(&self) -> &Fold
        ensures { result.now ≡ self.now.fold }
    {
        &self.fold
    }

    /// Whether the next event has its memory.
    pub fn is_ready(&self) -> bool
        ensures { result ≡ self.now.ready }
    {
        self.ready
    }

    /// Takes the memory of the next event.
    pub fn reserve(&mut self) -> Result<(), AllocError>
        ensures ready { OnOk result (self.new.ready ≡ true) }
        ensures fold { self.new.fold ≡ self.old.fold }
        ensures stays_ready { self.old.ready ≡ true → self.new.ready ≡ true }
    {
        if !self.ready {
            self.fold.earlier.make_room(&mut self.next)?;
            self.ready = true;
        }
        Ok(())
    }

    /// Why the table refuses the event here, if it does. It takes no memory.
    pub fn refusal(&self, event: &MasterEvent) -> Option<CampaignRefusal>
        ensures { result ≡ refusal_of self.now.fold event.now }
    {
        self.fold.refusal(event)
    }

    /// Adds an event to the list, if the table allows it there. It takes no memory.
    pub fn apply(&mut self, event: &MasterEvent) -> Result<(), CampaignRefusal>
        requires { self.old.ready ≡ true }
        ensures answer { result_err result ≡ refusal_of self.old.fold event.now }
        ensures ok { OnOk result (self.new.fold ≡ after_event self.old.fold event.now) }
        ensures err { OnErr result (self.new ≡ self.old) }

        // Each refusal has its cause.
        ensures none { IsErrOf result CampaignRefusal.NoCampaign
            ↔ FindsNone self.old.fold event.now }
    {
        if let Some(refusal) = self.fold.refusal(event) {
            return Err(refusal);
        }
        match event {
            MasterEvent::Enter { result: given } => self.enter(*given),
            _ => self.fold.advance(event),
        }
        Ok(())
    }

    /// Ends the current campaign with the result, in the memory that is ready.
    fn enter(&mut self, given: CampaignResult)
        requires { self.old.ready ≡ true }
        ensures { self.new.fold ≡ after_event self.old.fold (MasterEvent.Enter given) }
    {
        if let Some(current) = self.fold.current.take() {
            let entry = (current.campaign, given);
            self.fold.earlier.enter(&mut self.next, entry);
        }
        self.ready = false;
    }

    /// The state of the campaign. It takes no memory.
    pub fn state(&self) -> CampaignState
        ensures { result ≡ state_of self.now.fold }
    {
        self.fold.state()
    }

    /// What is shown of the fold. It takes no memory.
    pub fn view(&self) -> CampaignView
        ensures { result ≡ view_of self.now.fold }
    {
        self.fold.view()
    }

    /// The earlier campaigns, in order.
    pub fn history(&self) -> Result<CampaignList, AllocError>
        ensures { IfOk result (λ list. list ≡ self.now.fold.earlier) }
    {
        Ok(CampaignList::of(self.fold.earlier.copy()?))
    }
}
