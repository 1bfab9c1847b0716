//! What is printed of blocks of bytes.
ghost use Rattle.std.specs.Prelude.{◌≡◌, ◌++◌, OnOk, string_bytes};
ghost use Rattle.hex.specs.Hex.{encode_lower};
ghost use Rattle.report.specs.Entries.{block_text, hex_or_dash};

use sha2::{Digest, Sha256};
use std::alloc::{AllocError, Global};

/// How many bytes are spelled at a time, so that little memory is taken beside the text.
const PIECE: usize = 4096;

/// Adds bytes in hexadecimal.
fn add_hex(alloc: Global, text: &mut String, bytes: &[u8]) -> Result<(), AllocError>
    ensures { OnOk result (string_bytes text.new
        ≡ string_bytes text.old ++ encode_lower bytes.now) }
{
    let mut left = bytes;
    while !left.is_empty() {
        let (piece, more) = left.split_at(left.len().min(PIECE));
        let digits = hex::encode(alloc, piece)?;
        text.push_str(digits.as_str())?;
        left = more;
    }
    Ok(())
}

/// Adds bytes in hexadecimal, or a dash where there are none.
pub(crate) fn add_bytes(alloc: Global, text: &mut String, bytes: &[u8]) -> Result<(), AllocError>
    ensures { OnOk result (string_bytes text.new
        ≡ string_bytes text.old ++ hex_or_dash bytes.now) }
{
    match bytes {
        [] => text.push_str("-"),
        [..] => add_hex(alloc, text, bytes),
    }
}

/// Adds a block: in a full report its bytes, else its length and its digest (SHA-256, FIPS 180-4).
pub(crate) fn add_block(
    alloc: Global,
    text: &mut String,
    bytes: &[u8],
    full: bool,
) -> Result<(), AllocError>
    ensures { OnOk result (string_bytes text.new
        ≡ string_bytes text.old ++ block_text full bytes.now) }
{
    if full {
        return add_bytes(alloc, text, bytes);
    }
    let length = bytes.len();
    let digest = Sha256::digest(bytes);
    write!(text, "{length}:")?;
    add_hex(alloc, text, &digest)
}
