//! The laws of drivers.
ghost use Rattle.sub_core.specs.Evidence.{DoneIsFound, EndIsFound, FindingsAreShown, MissesAreKept, OthersLeaveAll, RepliesFit, UnitsAreDue, UnreachedIsFound, VotesAreFound};
ghost use Rattle.sub_core.specs.Counting.{AnswersAreOfKind, NumbersLast, RestsStay, UnitsTell};
ghost use Rattle.sub_core.specs.Onward.{DoneLeadsToUnits, EndBeginsWithSync, EndGoesOn, ListedAreDeleted, RefusalsLeadToSync};
ghost use Rattle.sub_core.specs.Sends.{CallsAreNext, RepliesAreRead, SendsAreAllowed, SendsAreNumbered};
ghost use Rattle.sub_core.specs.Turns.{CallsAreInTurn, EndIsAsked, EndIsMade, MessagesAreInTurn, RoundsAreMade, VotesAreMade};

use world::campaign_law;

/// What drivers ask for and find, whatever they were given since they were made. It does nothing; its clauses are
/// the laws.
pub fn driver_law()
    ensures allowed { SendsAreAllowed }
    ensures numbered { SendsAreNumbered }
    ensures shown { FindingsAreShown }
    ensures found { DoneIsFound }
    ensures voted { VotesAreFound }
    ensures ended { EndIsFound }
    ensures unreached { UnreachedIsFound }
    ensures missed { MissesAreKept }
    ensures units { UnitsAreDue }
    ensures others { OthersLeaveAll }
    ensures calls { CallsAreNext }
    ensures read { RepliesAreRead }
    ensures fit { RepliesFit }
    ensures rounds { RoundsAreMade }
    ensures votes { VotesAreMade }
    ensures turns { CallsAreInTurn }
    ensures messages { MessagesAreInTurn }
    ensures at_end { EndIsAsked }
    ensures rest { EndIsMade }
    ensures begins { EndBeginsWithSync }
    ensures goes_on { EndGoesOn }
    ensures deletes { ListedAreDeleted }
    ensures done { DoneLeadsToUnits }
    ensures refused { RefusalsLeadToSync }
    ensures kinds { AnswersAreOfKind }
    ensures told { UnitsTell }
    ensures rests { RestsStay }
    ensures last { NumbersLast }
{
    campaign_law();
}
