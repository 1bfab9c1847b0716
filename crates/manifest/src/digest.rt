//! Digests in hexadecimal text.
ghost use Rattle.std.specs.Prelude.{◌≡◌};
ghost use Rattle.std.specs.List.{list_all};
ghost use Rattle.manifest.specs.Digits.{digest_of_text, is_lower_digit};

use hex::FromHex;

fn is_digit(c: u8) -> bool
    ensures { result ≡ is_lower_digit c }
{
    matches!(c, b'0'..=b'9' | b'a'..=b'f')
}

fn is_lower(word: &[u8]) -> bool
    ensures { result ≡ list_all is_lower_digit word.now }
{
    word.iter().all(|c| is_digit(*c))
}

/// The 32 bytes of 64 lower-case hexadecimal digits, if the text is that. It takes no memory.
pub(crate) fn digest_of_hex(word: &[u8]) -> Option<[u8; 32]>
    ensures { result ≡ digest_of_text word.now }
{
    if !is_lower(word) {
        return None;
    }
    <[u8; 32] as FromHex>::from_hex(word).ok()
}
