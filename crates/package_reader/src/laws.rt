//! The laws of packages.
ghost use Rattle.std.specs.Prelude.{◌≡◌, ◌↔◌, List, Ok, true};
ghost use Rattle.ucm_base.specs.Parts.{Bytes};
ghost use Rattle.ucm_base.specs.declared.parts.Part.{Part as AnyPart};
ghost use Rattle.package_reader.specs.Reading.{are_parts, reading};
ghost use Rattle.package_reader.specs.Spelling.{AreBytes, IsPackage};

/// Bytes are the package of at most one list of parts, which is what reading gives. It does nothing; its clauses are
/// the laws.
pub fn a_package_is_one()
    ensures one { (bytes : Bytes) (parts others : List (AnyPart Bytes)) → IsPackage bytes parts
        → IsPackage bytes others → parts ≡ others }
    ensures read { (bytes : Bytes) (parts : List (AnyPart Bytes)) → AreBytes bytes
        → ((reading bytes ≡ Ok parts) ↔ IsPackage bytes parts) }
    // What is read are one to sixteen parts of different clusters.
    ensures parts { (bytes : Bytes) (parts : List (AnyPart Bytes)) → reading bytes ≡ Ok parts
        → are_parts parts ≡ true }
{}
