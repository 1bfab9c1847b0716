//! Packages that keep their bytes.
ghost use Rattle.std.specs.Prelude.{◌≡◌, ◌⊎◌, Ok, Err, IfOk, IfErr, map};
ghost use Rattle.package_reader.specs.Reading.{contents_of, reading, with_payload};

use crate::{Contents, PackageError, Span, read_package};
use std::alloc::Global;
use std::marker::Model;
use ucm_base::{Block, Part, Rows};

/// The bytes of a package, kept once, beside its parts, whose payloads lie in them. Seen as the bytes and the parts.
#[derive(Drop)]
pub struct Packed {
    bytes: Block,
    contents: Contents,
}

impl Model for Packed {
    ghost use Rattle.std.specs.Prelude.{◌≡◌, Ok, map};
    ghost use Rattle.package_reader.specs.Packed.{PackedOf};
    ghost use Rattle.package_reader.specs.Reading.{contents_of, with_payload};

    ghost Value = { PackedOf };

    ghost view = { λ a. record {
      bytes = a.bytes;
      parts = map (with_payload a.bytes) a.contents;
    } };

    ghost invariant = { λ a. contents_of a.bytes ≡ Ok a.contents };
}

/// Packages, in order.
pub type Packages = Rows<Packed>;

impl Packed {
    /// The package that these bytes are. The bytes aren't copied.
    #[tactic(auto, unfolding(crate::specs::Reading::reading))]
    pub fn read(alloc: Global, bytes: Block) -> Result<Packed, PackageError>
        ensures bytes { IfOk result (λ packed. packed.bytes ≡ bytes) }
        ensures ok { IfOk result (λ packed. reading bytes ≡ Ok packed.parts) }
        ensures err { IfErr result (λ e. (e ≡ PackageError.OutOfMemory)
            ⊎ (reading bytes ≡ Err e)) }
    {
        let contents = read_package(alloc, bytes.as_slice())?;
        Ok(Packed { bytes, contents })
    }

    /// The bytes.
    #[tactic(auto, unfolding(crate::specs::Reading::reading))]
    pub fn as_slice(&self) -> &[u8]
        ensures bytes { result.now ≡ self.now.bytes }
        ensures form { reading self.now.bytes ≡ Ok self.now.parts }
    {
        self.bytes.as_slice()
    }

    /// The parts, in order, whose payloads lie in the bytes.
    pub fn parts(&self) -> &[Part<Span>]
        ensures parts { map (with_payload self.now.bytes) result.now ≡ self.now.parts }
        ensures contents { contents_of self.now.bytes ≡ Ok result.now }
    {
        self.contents.as_slice()
    }
}
