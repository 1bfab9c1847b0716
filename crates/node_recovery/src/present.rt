//! A node's state as the state of a log.
ghost use Rattle.std.specs.Prelude.{◌≡◌, ◌<◌, ◌≤◌, true, IfOk, IfSome, Some, is_some, length};
ghost use Rattle.event_codec.specs.DecidingStates.{state_told};
ghost use Rattle.event_codec.specs.States.{HasSpelling};
ghost use Rattle.node_recovery.specs.Images.{state_longest};

use event_codec::{put_state, take_state};
use event_log::Stored;
use pm_types::{Session, State};
use std::alloc::{AllocError, Global};
use std::marker::Model;

/// The most bytes of a state's text.
const STATE_LONGEST: usize = 524_288;

/// The most things that one byte counts.
const COUNT_LIMIT: usize = 255;

/// The most entries of a history.
const ENTRY_LIMIT: u64 = 1 << 60;

/// The present state, lent to the log, seen as the state.
#[derive(Drop)]
pub struct Present<'a> {
    state: &'a State,
}

impl<'a> Model for Present<'a> {
    ghost use Rattle.pm_types.specs.Stored.{State};

    ghost Value = { State };

    ghost view = { λ p. p.state.now };
}

impl<'a> Present<'a> {
    pub fn of(state: &'a State) -> Present<'a>
        ensures { result ≡ state.now }
    {
        Present { state }
    }
}

impl<'a> Stored for Present<'a> {
    ghost use Rattle.std.specs.Prelude.{⊤};
    ghost use Rattle.node_recovery.specs.Images.{after_bytes};

    ghost start = { state_told };

    ghost step = { after_bytes };

    ghost storable = { λ _. ⊤ };

    ghost longest = { state_longest };

    fn tells(alloc: Global, text: &[u8]) -> Result<bool, AllocError>
        ensures { IfOk result (λ tells. tells ≡ is_some (state_told text.now)) }
    {
        Ok(take_state(alloc, text)?.is_some())
    }

    /// A text that a half takes; a state that has none is answered as want of memory.
    fn text(&self, alloc: Global) -> Result<Vec<u8>, AllocError>
        ensures text { IfOk result (λ text. state_told text.items ≡ Some self.now) }
        ensures short { IfOk result (λ text. length text.items ≤ state_longest) }
    {
        if !is_spelled(self.state) {
            return Err(AllocError);
        }
        let mut text = Vec::new(alloc);
        put_state(alloc, &mut text, self.state)?;
        if text.len() > STATE_LONGEST {
            return Err(AllocError);
        }
        Ok(text)
    }
}

/// Whether a state has a spelling.
fn is_spelled(state: &State) -> bool
    ensures { result ≡ true → HasSpelling state.now }
{
    state.running.as_slice().len() <= COUNT_LIMIT
        && state.entries <= ENTRY_LIMIT
        && is_saved_spelled(&state.session)
        && is_id_spelled(&state.session)
}

/// Whether the clusters that a session saved can be counted in one byte.
fn is_saved_spelled(session: &Option<Session>) -> bool
    ensures { result ≡ true → IfSome session.now (λ x. length x.saved ≤ 255) }
{
    match session {
        Some(session) => session.saved.as_slice().len() <= COUNT_LIMIT,
        None => true,
    }
}

/// Whether the id in processing isn't 0.
fn is_id_spelled(session: &Option<Session>) -> bool
    ensures { result ≡ true → IfSome session.now (λ x. IfSome x.processing (λ id. 0 < id)) }
{
    match session {
        Some(session) => session.processing != Some(0),
        None => true,
    }
}
