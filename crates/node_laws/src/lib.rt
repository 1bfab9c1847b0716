//! Laws of a node's definitions: a consistent state stays one.
//!
//! Layer: stands on `pm_types`, whose definitions it speaks of; the node's core and the world of the
//! campaign law cite its law.
//! Its one contract: every judgment of a client's call, every unit of work and every legal history
//! leave a consistent state consistent; whatever is called and worked, the history is legal; and what
//! others call leaves a session.
#![tactic(auto)]

ghost use Rattle.pm_types.specs.Histories.{Reading};
ghost use Rattle.node_laws.specs.Appends.{GoesOn};
ghost use Rattle.node_laws.specs.Fit.{IsReading, KeepsFit};
ghost use Rattle.node_laws.specs.NewestKept.{KeepsNewest};
ghost use Rattle.node_laws.specs.Others.{LeavesSessions};
ghost use Rattle.node_laws.specs.Runs.{MakesLegal};

/// What a node does keeps its state consistent, where packages are read as parts of different clusters.
pub fn consistency_is_kept()
    ensures law { (read : Reading) → IsReading read → KeepsFit read }
{}

/// Over every list of calls and units, the entries of what was done are a legal history, in which
/// just the clusters with the names that fail don't pass, and which leads to the state that they led to.
pub fn histories_are_legal()
    ensures law { (read : Reading) → MakesLegal read }
{}

/// State, legality and truth to the names that fail, over one list of entries after another.
pub fn histories_go_on()
    ensures law { (read : Reading) → GoesOn read }
{}

/// What is kept of a client after a history is its newest entry's number and reply, or what was kept
/// before.
pub fn newest_is_kept()
    ensures law { (read : Reading) → KeepsNewest read }
{}

/// A session is its owner's: what others call leaves it, and no unit moves it where it awaits its owner.
pub fn sessions_await_their_owners()
    ensures law { (read : Reading) → LeavesSessions read }
{}
