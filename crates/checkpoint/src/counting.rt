//! The half that counts.
ghost use Rattle.std.specs.Prelude.{◌≡◌, ◌+◌, ◌<◌, ℕ, Bool, true, List, None, Some};
ghost use Rattle.checkpoint.specs.Halves.{Body, layout_of, half_of, stored_in};
ghost use Rattle.checkpoint.specs.Counting.{told, counting, IsSpare, KeepsCounting};
ghost use Rattle.checkpoint.specs.Counting.{MayClose, CanOpen, StaysShut, Opens};

/// A law, for a caller whose states have a grammar: the half that counts is one of its pair, reads as its body, whose
/// state passes; where none counts, no half of the pair has a state that passes.
pub fn the_half_that_counts()
    ensures reads { (tells : List ℕ → Bool) (half : ℕ) (body : Body) (image : List ℕ) → half < 4
        → counting tells (layout_of half).low image ≡ Some (half, body)
        → told tells (half_of half image) ≡ Some body }
    ensures none { (tells : List ℕ → Bool) (low : ℕ) (image : List ℕ)
        → counting tells low image ≡ None
        → (told tells (half_of low image) ≡ None) × (told tells (half_of (low + 1) image) ≡ None) }
{}

/// A law, on a switch to a half that doesn't count: while it is written, and until its gate is open, what counts stays,
/// with the records behind it; and from then on the half counts, with what was stored in it.
pub fn a_switch_keeps_the_state()
    ensures closing { (tells : List ℕ → Bool) (half : ℕ) (old new : List ℕ) → half < 4
        → IsSpare tells half old → MayClose half old new → KeepsCounting tells half old new }
    ensures shut { (tells : List ℕ → Bool) (half : ℕ) (old new : List ℕ) → half < 4
        → CanOpen half old → StaysShut half old new → KeepsCounting tells half old new }
    ensures opening { (tells : List ℕ → Bool) (half : ℕ) (body : Body) (old new : List ℕ) → half < 4
        → CanOpen half old → Opens half old new
        → stored_in half old ≡ Some body → tells body.state ≡ true
        → counting tells (layout_of half).low new ≡ Some (half, body) }
{}
