//! What a run of a campaign promises of the lists that it ends with, as definitions over plain data.
//!
//! Layer: stands on `sub_core` (calls, misses, fates), `world` (rounds, spans), `campaign_core` (the
//! master's list) and `pm_types` (a node's histories); the run of a campaign cites its definitions.
//! Its one contract: what a campaign left on its nodes, and that it has a result, follow from what a
//! run promises of each node's history, of the master's list and of the series of failed attempts.
#![tactic(auto)]

ghost use Rattle.run_claim.specs.Asked.{SoundFollows};
ghost use Rattle.run_claim.specs.Calm.{CalmFollows, CalmNode};
ghost use Rattle.run_claim.specs.Law.{BlameFollows, EnteredFollows, LeftFollows, StaysAtRest};

/// Each named node is new after a successful campaign and old after a failed or cancelled one, in
/// every run that keeps to the rest. No order between the histories of two nodes is used.
pub fn what_is_left()
    ensures law { LeftFollows }
{}

/// Where no disk's count rose and no fate is asked for, nothing is left open.
pub fn what_is_open()
    ensures law { EnteredFollows }
{}

/// A session of the master that waits for its next call is as the master saw it last.
pub fn what_stays()
    ensures law { StaysAtRest }
{}

/// Where no disk's count rose and neither fate nor cancel is asked for, a campaign fails only by a
/// call that a named node refused or a check that failed there.
pub fn what_fails()
    ensures law { BlameFollows }
{}

/// One node whose other clients start no transfer refuses no call of an eligible campaign's rounds and
/// fails no check, where the master waits for the units of its session.
pub fn what_is_accepted()
    ensures law { CalmNode }
{}

/// An eligible or calm run succeeds where no disk's count rose.
pub fn what_succeeds()
    ensures law { CalmFollows }
{}

/// A script in form asks for what the laws ask of scripts, over a reading that reads packages.
pub fn what_is_asked()
    ensures law { SoundFollows }
{}
