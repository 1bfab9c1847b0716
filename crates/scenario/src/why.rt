//! Why a line is refused.
use std::alloc::{AllocError, AllocFailed};
use std::fmt;

/// What is wrong with a line. The first that holds is answered, in this order: that the line comes
/// later, its form, its words from left to right, what stands twice, a limit.
#[derive(Clone, Copy, Debug, PartialEq, Eq)]
pub enum Why {
    /// The first word is no line of the command, or no form of it has this number of words.
    Form,
    /// A word isn't in its form or range.
    Value,
    /// A block or a size names what no line above attaches, or lies outside it.
    Unknown,
    /// What stands once stands again.
    Twice,
    /// There is more than fits.
    Limit,
    /// The bytes behind `end` aren't exactly the attached ones.
    Bytes,
    /// A line that the command needs isn't there.
    Missing,
    /// The line is one that the command doesn't serve yet.
    Later,
}

impl fmt::Display for Why {
    ghost use Rattle.std.specs.Prelude.{Some};
    ghost use Rattle.scenario.specs.Reasons.{why_text};

    ghost output = { λ why. Some (why_text why) };

    fn fmt<W: fmt::Write>(&self, f: &mut fmt::Formatter<W>) -> fmt::Result {
        let word = match self {
            Why::Form => "form",
            Why::Value => "value",
            Why::Unknown => "unknown",
            Why::Twice => "twice",
            Why::Limit => "limit",
            Why::Bytes => "bytes",
            Why::Missing => "missing",
            Why::Later => "later",
        };
        write!(f, "{word}")
    }
}

/// Why a word or a line was not read.
#[derive(Clone, Copy, Debug, PartialEq, Eq)]
pub enum WordError {
    Refused(Why),
    OutOfMemory,
}

impl From<Why> for WordError {
    ghost use Rattle.std.specs.Prelude.{◌≡◌};
    ghost use Rattle.scenario.specs.declared.why.WordError.TheVariants.{Refused};

    ghost from_gives = { λ why e. e ≡ Refused why };

    fn from(why: Why) -> WordError {
        WordError::Refused(why)
    }
}

impl From<AllocError> for WordError {
    ghost use Rattle.std.specs.Prelude.{◌≡◌};
    ghost use Rattle.scenario.specs.declared.why.WordError.TheVariants.{OutOfMemory};

    ghost from_gives = { λ _ e. e ≡ OutOfMemory };

    fn from(_refused: AllocError) -> WordError {
        WordError::OutOfMemory
    }
}

impl<T: Drop> From<AllocFailed<T>> for WordError {
    ghost use Rattle.std.specs.Prelude.{◌≡◌};
    ghost use Rattle.scenario.specs.declared.why.WordError.TheVariants.{OutOfMemory};

    ghost from_gives = { λ _ e. e ≡ OutOfMemory };

    fn from(_refused: AllocFailed<T>) -> WordError {
        WordError::OutOfMemory
    }
}

/// Why no script was read.
#[derive(Clone, Copy, Debug, PartialEq, Eq)]
pub enum ScriptError {
    /// The first line that is refused, counted from 1, or 0 for what is judged behind all lines.
    BadScenario { line: u64, why: Why },
    OutOfMemory,
}

impl From<AllocError> for ScriptError {
    ghost use Rattle.std.specs.Prelude.{◌≡◌};
    ghost use Rattle.scenario.specs.declared.why.ScriptError.TheVariants.{OutOfMemory};

    ghost from_gives = { λ _ e. e ≡ OutOfMemory };

    fn from(_refused: AllocError) -> ScriptError {
        ScriptError::OutOfMemory
    }
}
