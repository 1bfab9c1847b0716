//! Why a text is no script of a run.

use scenario::Why;
use std::alloc::AllocError;
use std::fmt;
use vehicle_package::VehicleError;

/// The first refusal.
#[derive(Clone, Copy)]
pub enum Refusal {
    /// A line, counted from 1, or 0 for what is judged behind all lines.
    Line { line: u64, why: Why },
    /// The attached vehicle package is none.
    Vehicle(VehicleError),
}

impl fmt::Display for Refusal {
    ghost use Rattle.std.specs.Prelude.{Some};
    ghost use Rattle.run_script.specs.Printed.{refusal_text};

    ghost output = { λ refusal. Some (refusal_text refusal) };

    fn fmt<W: fmt::Write>(&self, f: &mut fmt::Formatter<W>) -> fmt::Result {
        match self {
            Refusal::Line { line, why } => write!(f, "line {line} {why}"),
            Refusal::Vehicle(fault) => write!(f, "{fault}"),
        }
    }
}

/// Why no script was read.
#[derive(Clone, Copy)]
pub enum ScriptError {
    Refused(Refusal),
    OutOfMemory,
}

impl From<AllocError> for ScriptError {
    ghost use Rattle.std.specs.Prelude.{◌≡◌};
    ghost use Rattle.run_script.specs.declared.fault.ScriptError.TheVariants.{OutOfMemory};

    ghost from_gives = { λ _ e. e ≡ OutOfMemory };

    fn from(_refused: AllocError) -> ScriptError {
        ScriptError::OutOfMemory
    }
}
