//! The laws of the master's list.
ghost use Rattle.std.specs.Prelude.{◌≡◌, None};
ghost use Rattle.campaign_core.specs.Campaign.{after_event, nothing_yet, refusal_of};
ghost use Rattle.campaign_core.specs.Changes.{IsPlaced, NamesFew};
ghost use Rattle.campaign_core.specs.declared.events.MasterEvent.{MasterEvent as an_event};
ghost use Rattle.campaign_core.specs.declared.fold.Fold.{Fold as a_fold};

/// Each event that is allowed changes what the list says, where each node has its place among the votes; and so it has
/// in the fold of each list that the table allows. So a list that says what one said before the event hasn't the event.
pub fn an_allowed_event_changes_the_fold()
    ensures changes { (fold : a_fold) (event : an_event) → IsPlaced fold
        → refusal_of fold event ≡ None → after_event fold event ≡ fold → ⊥ }
    ensures begins { IsPlaced nothing_yet }
    ensures keeps { (fold : a_fold) (event : an_event) → IsPlaced fold → NamesFew event
        → refusal_of fold event ≡ None → IsPlaced (after_event fold event) }
{}
