//! What a command writes, and with what status it ends.
ghost use Rattle.std.specs.Prelude.{◌≡◌, IfOk, string_bytes};
ghost use Rattle.ucm_prog.specs.Outputs.{IsOutput, unformatted_line};
ghost use Rattle.ucm_prog.specs.Refusals.{line_refusal, refused_output, too_long_output};

use crate::status::ExitStatus;
use scenario::Why;
use std::alloc::{AllocError, Global};

/// A status, and the bytes that are written.
#[derive(Drop)]
pub struct Output {
    pub status: ExitStatus,
    pub bytes: Vec<u8>,
}

/// What is written of an input that is longer than its limit.
pub fn too_long(alloc: Global) -> Result<Output, AllocError>
    ensures { IfOk result (λ o. IsOutput too_long_output o.status o.bytes.items) }
{
    let text = String::from_str(alloc, "refused too long\n")?;
    Ok(refused(text))
}

/// What is written where a line is refused, or, at 0, what is judged behind all lines.
pub fn refused_line(alloc: Global, line: u64, why: Why) -> Result<Output, AllocError>
    ensures { IfOk result (λ o. IsOutput (refused_output (line_refusal line why))
        o.status o.bytes.items) }
{
    let mut text = String::new(alloc);
    write!(text, "refused line {line} {why}\n")?;
    Ok(refused(text))
}

/// What is written where no attempt formatted the disk of node 1, in which its faults rose by this much.
pub fn unformatted(alloc: Global, faults: u64) -> Result<Output, AllocError>
    ensures { IfOk result (λ o. (o.status ≡ ExitStatus.LeftUnfinished)
        × (o.bytes.items ≡ unformatted_line faults)) }
{
    let mut text = String::new(alloc);
    write!(text, "open node 1 losses 0 faults {faults}\n")?;
    Ok(Output {
        status: ExitStatus::LeftUnfinished,
        bytes: text.into_bytes(),
    })
}

/// A refusal of this text.
pub fn refused(text: String) -> Output
    ensures status { result.status ≡ ExitStatus.InputRefused }
    ensures text { result.bytes.items ≡ string_bytes text }
{
    Output {
        status: ExitStatus::InputRefused,
        bytes: text.into_bytes(),
    }
}
