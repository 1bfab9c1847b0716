//! Hexadecimal text in lower case.
ghost use Rattle.std.specs.Prelude.{◌≡◌, ◌*◌, IfOk, IfSome, length, option_map};
ghost use Rattle.std.specs.List.{list_all};
ghost use Rattle.hex.specs.Hex.{decode_of};
ghost use Rattle.ucm_text.specs.Hexadecimal.{bytes_of_word, is_lower_digit, ok_of};

use hex::FromHexError;
use std::alloc::{AllocError, Global};

fn is_digit(c: u8) -> bool
    ensures { result ≡ is_lower_digit c }
{
    matches!(c, b'0'..=b'9' | b'a'..=b'f')
}

fn is_lower(word: &[u8]) -> bool
    ensures { result ≡ list_all is_lower_digit word.now }
{
    word.iter().all(|c| is_digit(*c))
}

fn decoded(alloc: Global, word: &[u8]) -> Result<Option<Vec<u8>>, AllocError>
    ensures bytes { IfOk result (λ o. option_map (λ v. v.items) o ≡ ok_of (decode_of word.now)) }
    ensures half { IfOk result (λ o. IfSome o (λ v. length word.now ≡ 2 * length v.items)) }
{
    match hex::decode(alloc, word) {
        Ok(bytes) => Ok(Some(bytes)),
        Err(FromHexError::OutOfMemory) => Err(AllocError),
        Err(_) => Ok(None),
    }
}

/// The bytes of a word of lower-case digits, if it is one and their number is even.
pub fn bytes_of_hex(alloc: Global, word: &[u8]) -> Result<Option<Vec<u8>>, AllocError>
    ensures bytes { IfOk result (λ o. option_map (λ v. v.items) o ≡ bytes_of_word word.now) }
    ensures half { IfOk result (λ o. IfSome o (λ v. length word.now ≡ 2 * length v.items)) }
{
    if !is_lower(word) {
        return Ok(None);
    }
    decoded(alloc, word)
}
