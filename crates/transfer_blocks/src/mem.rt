//! Areas in memory.
ghost use Rattle.std.specs.Prelude.{◌≡◌, IfOk};
ghost use Rattle.transfer_blocks.specs.Areas.{no_contents, AreasFit};

use crate::contents::Contents;
use crate::{Area, Staging, StagingError};
use std::alloc::{AllocError, Global};

/// Areas in memory. It never fails but for want of memory.
#[derive(Drop)]
pub struct MemStaging {
    alloc: Global,
    contents: Contents,
    ghost fit: { AreasFit contents },
}

impl MemStaging {
    /// All areas, with nothing in them.
    #[tactic(auto, using(crate::proofs::Areas::nothing_fits))]
    pub fn new(alloc: Global) -> Result<MemStaging, AllocError>
        ensures { IfOk result (λ s. ⟦<MemStaging as Staging>⟧.areas s ≡ no_contents) }
    {
        let contents = Contents::new(alloc)?;
        Ok(MemStaging { alloc, contents })
    }
}

impl Staging for MemStaging {
    ghost areas = { λ s. s.contents };

    ghost fault_count = { λ _. 0 };

    fn put(&mut self, area: Area, at: u64, bytes: &[u8]) -> Result<(), StagingError> {
        self.contents.put(area, at as usize, bytes)?;
        Ok(())
    }

    fn get(&mut self, area: Area, at: u64, len: usize) -> Result<Vec<u8>, StagingError> {
        let bytes = self
            .contents
            .content(area)
            .get(self.alloc, at as usize, len)?;
        Ok(bytes)
    }

    fn faults(&self) -> u64 {
        0
    }

    ghost areas_fit = { λ s. s.fit };
}
