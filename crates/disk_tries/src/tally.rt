//! A tally of bytes, as a state that a log keeps.
ghost use Rattle.std.specs.Prelude.{◌≡◌, ◌<◌, ◌^◌};
ghost use Rattle.disk_tries.specs.Tallies.{tally_of, with_note};

use event_log::Stored;
use std::alloc::{AllocError, Global};
use wire::{put_u64, take_u64};

/// How many bytes the notes had together.
#[derive(Clone, Copy, Debug, PartialEq, Eq, Drop)]
pub struct Tally {
    pub bytes: u64,
}

impl Stored for Tally {
    ghost use Rattle.std.specs.Prelude.{◌<◌, ◌^◌};
    ghost use Rattle.disk_tries.specs.Tallies.{tally_of, with_note};

    ghost start = { tally_of };

    ghost step = { with_note };

    ghost storable = { λ tally. tally.bytes < 2 ^ 64 };

    ghost longest = { 8 };

    fn tells(_alloc: Global, text: &[u8]) -> Result<bool, AllocError> {
        Ok(Tally::read(text).is_some())
    }

    fn text(&self, alloc: Global) -> Result<Vec<u8>, AllocError> {
        let mut text = Vec::new(alloc);
        put_u64(&mut text, self.bytes)?;
        Ok(text)
    }
}

impl Tally {
    /// The tally with a note; nothing where it would not fit a u64.
    pub fn with_note(&self, note: &[u8]) -> Option<Tally>
        ensures { result ≡ with_note self.now note.now }
    {
        let bytes = self.bytes.checked_add(note.len() as u64)?;
        Some(Tally { bytes })
    }

    /// The tally that a text tells.
    pub fn read(text: &[u8]) -> Option<Tally>
        ensures { result ≡ tally_of text.now }
    {
        if text.len() != 8 {
            return None;
        }
        let (bytes, _) = take_u64(text)?;
        Some(Tally { bytes })
    }
}
