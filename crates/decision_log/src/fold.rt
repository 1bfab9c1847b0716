//! A fold of the master's list as the state of a log.
ghost use Rattle.std.specs.Prelude.{◌≡◌, ◌≤◌, IfOk, Some, is_some, length};
ghost use Rattle.campaign_core.specs.Standing.{IsWithin};
ghost use Rattle.event_codec.specs.Master.{fold_longest};
ghost use Rattle.event_codec.specs.DecidingMaster.{fold_of};

use campaign_core::Fold;
use event_codec::{fold_bytes, take_fold};
use event_log::Stored;
use std::alloc::{AllocError, Global};
use std::marker::Model;

/// The present fold, lent to the log, seen as the fold.
#[derive(Drop)]
pub(crate) struct Present<'a> {
    fold: &'a Fold,
}

impl<'a> Model for Present<'a> {
    ghost use Rattle.campaign_core.specs.declared.fold.Fold.{Fold};

    ghost Value = { Fold };

    ghost view = { λ p. p.fold.now };
}

impl<'a> Present<'a> {
    pub(crate) fn of(fold: &'a Fold) -> Present<'a>
        ensures { result ≡ fold.now }
    {
        Present { fold }
    }
}

impl<'a> Stored for Present<'a> {
    ghost use Rattle.decision_log.specs.Folds.{after_record};

    ghost start = { fold_of };

    ghost step = { after_record };

    ghost storable = { IsWithin };

    ghost longest = { fold_longest };

    fn tells(alloc: Global, text: &[u8]) -> Result<bool, AllocError>
        ensures { IfOk result (λ tells. tells ≡ is_some (fold_of text.now)) }
    {
        Ok(take_fold(alloc, text)?.is_some())
    }

    fn text(&self, alloc: Global) -> Result<Vec<u8>, AllocError>
        requires { IsWithin self.now }
        ensures text { IfOk result (λ text. fold_of text.items ≡ Some self.now) }
        ensures short { IfOk result (λ text. length text.items ≤ fold_longest) }
    {
        let text = fold_bytes(alloc, self.fold)?;
        Ok(text)
    }
}
