//! The widths of a package's fields, in bytes.
ghost use Rattle.std.specs.Prelude.{◌≡◌};
ghost use Rattle.package_reader.specs.Layout.{parts_place};

/// The mark that a package begins with.
pub const MARK_SIZE: usize = 4;

/// The number of parts, behind the mark of a package of more than one.
pub const COUNT_SIZE: usize = 1;

/// A length, the most significant byte first.
pub const LENGTH_SIZE: usize = 4;

/// A SHA-256 digest (FIPS 180-4).
pub const DIGEST_SIZE: usize = 32;

/// Where the first of so many parts begins: behind the mark, and behind their number where there are more than one.
pub fn parts_place(count: usize) -> usize
    ensures { result ≡ parts_place count }
{
    if count == 1 {
        MARK_SIZE
    } else {
        MARK_SIZE + COUNT_SIZE
    }
}
