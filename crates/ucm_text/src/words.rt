//! Texts that are cut at a byte.
ghost use Rattle.std.specs.Prelude.{◌≡◌, ◌==◌, IfOk, List, ℕ, map};
ghost use Rattle.std.specs.List.{slice_split};

use std::alloc::{AllocError, Global};
use std::marker::Model;

/// The pieces of a text, seen as the list of their bytes.
#[derive(Drop)]
pub struct Words<'a> {
    pieces: Vec<&'a [u8]>,
}

impl<'a> Model for Words<'a> {
    ghost use Rattle.std.specs.Prelude.{List, ℕ, map};

    ghost Value = { List (List ℕ) };

    ghost view = { λ w. map (λ piece. piece.now) w.pieces.items };
}

impl<'a> Words<'a> {
    /// The pieces, in order.
    pub fn as_slice(&self) -> &[&'a [u8]]
        ensures { map (λ piece. piece.now) result.now ≡ self.now }
    {
        self.pieces.as_slice()
    }
}

fn pieces_of<'a>(alloc: Global, text: &'a [u8], at: u8) -> Result<Vec<&'a [u8]>, AllocError>
    ensures { IfOk result (λ v. map (λ piece. piece.now) v.items
        ≡ slice_split (λ b. b == at) text.now) }
{
    text.split(|b| *b == at).collect(alloc)
}

/// Cuts a text at each byte of this value: n such bytes give n + 1 pieces, which may be empty.
pub fn cut_at<'a>(alloc: Global, text: &'a [u8], at: u8) -> Result<Words<'a>, AllocError>
    ensures { IfOk result (λ w. w ≡ slice_split (λ b. b == at) text.now) }
{
    Ok(Words {
        pieces: pieces_of(alloc, text, at)?,
    })
}

/// Cuts a line into its words, at single spaces.
pub fn words_of<'a>(alloc: Global, line: &'a [u8]) -> Result<Words<'a>, AllocError>
    ensures { IfOk result (λ w. w ≡ slice_split (λ b. b == 32) line.now) }
{
    cut_at(alloc, line, b' ')
}
