//! What is printed of what an event gave.
ghost use Rattle.std.specs.Prelude.{◌≡◌, ◌++◌, OnOk, string_bytes};
ghost use Rattle.node_replay.specs.Lines.{answer_line, answer_text};

use pm_types::{Answer, Reached, Worked};
use report::add_answer;
use std::alloc::AllocError;

/// What an event gave: what became of a call or of a unit of work, or the answer to a query.
#[derive(Drop)]
pub enum Given {
    Reached(Reached),
    Worked(Worked),
    Answer(Answer),
}

/// Adds a line's number and what its event gave, of a script that begins at this time; nothing was given where the disk
/// failed.
pub(crate) fn add_line(
    text: &mut String,
    line: u64,
    start: u64,
    given: &Option<Given>,
) -> Result<(), AllocError>
    ensures { OnOk result (string_bytes text.new
        ≡ string_bytes text.old ++ answer_line start line given.now) }
{
    write!(text, "{line} ")?;
    add_given(text, start, given)?;
    write!(text, "\n")
}

fn add_given(text: &mut String, start: u64, given: &Option<Given>) -> Result<(), AllocError>
    ensures { OnOk result (string_bytes text.new
        ≡ string_bytes text.old ++ answer_text start given.now) }
{
    match given {
        Some(Given::Reached(reached)) => write!(text, "{reached}"),
        Some(Given::Worked(worked)) => write!(text, "{worked}"),
        Some(Given::Answer(answer)) => add_answer(text, start, answer),
        None => write!(text, "NoReply"),
    }
}
