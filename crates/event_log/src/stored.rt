//! What a caller's state and records mean.
ghost use Rattle.std.specs.Prelude.{◌≡◌, ◌≤◌, List, ℕ, Option, Some, length, is_some, IfOk};

use std::alloc::{AllocError, Global};

/// A state that a log keeps: how a text tells it, and what a record makes of it.
pub trait Stored {
    /// The state that a text tells; nothing where the text is outside the grammar.
    ghost start: { List ℕ → Option Self };

    /// The state after a record; nothing where the record is outside the grammar or its event isn't legal there.
    ghost step: { Self → List ℕ → Option Self };

    /// The state has a text of at most `longest` bytes.
    ghost storable: { Self → Type 0 };

    /// The most bytes of a text.
    ghost longest: { ℕ };

    /// Whether the text tells a state.
    fn tells(alloc: Global, text: &[u8]) -> Result<bool, AllocError>
        ensures { IfOk result (λ tells. tells ≡ is_some (start text.now)) };

    /// A text of the state.
    fn text(&self, alloc: Global) -> Result<Vec<u8>, AllocError>
        requires { storable self.now }
        ensures text { IfOk result (λ text. start text.items ≡ Some self.now) }
        ensures short { IfOk result (λ text. length text.items ≤ longest) };
}
