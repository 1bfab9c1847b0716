//! Short texts, which take no memory.
ghost use Rattle.std.specs.Prelude.{◌≡◌, ◌≤◌, ◌<◌, ◌↔◌, length, IfSome, IsSome, IsTrue, true, option_map, if◌then◌else◌};
ghost use Rattle.std.specs.List.{list_all};
ghost use Rattle.ucm_base.specs.Limits.{text_limit};
ghost use Rattle.ucm_base.specs.Short.{is_short, is_visible};

use crate::limits::TEXT_LIMIT;
use std::marker::Model;
use std::{fmt, str};

/// A text of 1 to 64 visible ASCII characters, seen as its bytes.
#[derive(Clone, Copy)]
pub struct ShortText {
    bytes: [u8; TEXT_LIMIT],
    len: usize,
}

impl Model for ShortText {
    ghost use Rattle.std.specs.Prelude.{ℕ, List, ◌≡◌, length, take, true};
    ghost use Rattle.ucm_base.specs.Limits.{text_limit};
    ghost use Rattle.ucm_base.specs.Short.{is_short};
    ghost use Rattle.ucm_base.specs.Padding.{IsPadded, padded, padded-again};

    ghost Value = { List ℕ };

    ghost view = { λ s. take s.len s.bytes };

    ghost invariant = { λ s.
        IsPadded text_limit s.bytes s.len × (is_short (take s.len s.bytes) ≡ true) };

    ghost inverse = { λ xs. record { bytes = padded text_limit xs; len = length xs } };

    ghost inverse_ok = { λ s h i. record {
      bytes = padded-again text_limit s.bytes s.len h.0 i;
      len = h.0.0 i;
    } };
}

fn is_visible_byte(b: u8) -> bool
    ensures { result ≡ is_visible b }
{
    b >= 0x21 && b <= 0x7e
}

pub(crate) fn is_short_text(bytes: &[u8]) -> bool
    ensures short { result ≡ is_short bytes.now }
    ensures fits { IsTrue result → length bytes.now ≤ text_limit }
{
    let len = bytes.len();
    len >= 1 && len <= TEXT_LIMIT && is_visible_text(bytes)
}

fn is_visible_text(bytes: &[u8]) -> bool
    ensures { result ≡ list_all is_visible bytes.now }
{
    bytes.iter().all(|b| is_visible_byte(*b))
}

impl ShortText {
    /// The text of these bytes, if they are one.
    pub fn of(bytes: &[u8]) -> Option<ShortText>
        ensures { result ≡ (if is_short bytes.now then Some bytes.now else None) }
    {
        if !is_short_text(bytes) {
            return None;
        }
        Some(ShortText::padded(bytes))
    }

    fn padded(text: &[u8]) -> ShortText
        requires fits { length text.now ≤ text_limit }
        requires short { is_short text.now ≡ true }
        ensures { result ≡ text.now }
    {
        let mut bytes = [0u8; TEXT_LIMIT];
        let len = text.len();
        bytes[..len].copy_from_slice(text);
        ShortText { bytes, len }
    }

    /// The bytes.
    pub fn as_bytes(&self) -> &[u8]
        ensures bytes { result.now ≡ self.now }
        ensures form { is_short self.now ≡ true }
    {
        &self.bytes[..self.len]
    }

    /// The text.
    pub fn as_str(&self) -> &str
        ensures { result.now ≡ self.now }
    {
        match str::from_utf8(self.as_bytes()) {
            Ok(text) => text,
            Err(_) => unreachable!(),
        }
    }
}

impl fmt::Display for ShortText {
    ghost use Rattle.std.specs.Prelude.{Some};

    ghost output = { λ text. Some text };

    fn fmt<W: fmt::Write>(&self, f: &mut fmt::Formatter<W>) -> fmt::Result {
        let text = self.as_str();
        write!(f, "{text}")
    }
}
