//! The commands `pack package`, `pack vehicle` and `pack script`: what a recipe makes.
ghost use Rattle.std.specs.Prelude.{IfOk};
ghost use Rattle.recipe.specs.Packing.{packed};
ghost use Rattle.ucm_prog.specs.Outputs.{IsOutput, packed_output};

use crate::output::{Output, refused_line};
use crate::status::ExitStatus;
use recipe::{Kind, PackError, pack};
use std::alloc::{AllocError, Global};

/// What packing of a whole input writes.
pub fn pack_input(alloc: Global, input: &[u8], kind: Kind) -> Result<Output, AllocError>
    ensures { IfOk result (λ o. IsOutput (packed_output (packed kind input.now))
        o.status o.bytes.items) }
{
    match pack(alloc, input, kind) {
        Ok(bytes) => Ok(Output {
            status: ExitStatus::Successful,
            bytes,
        }),
        Err(PackError::Refused { line, why }) => refused_line(alloc, line, why),
        Err(PackError::OutOfMemory) => Err(AllocError),
    }
}
