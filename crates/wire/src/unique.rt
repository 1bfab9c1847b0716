//! A law of the spellings.
ghost use Rattle.std.specs.Prelude.{◌≡◌, ◌++◌, ◌^◌, ◌<◌, List, ℕ, length};
ghost use Rattle.wire.specs.Fields.{u8_field, u16_field, u32_field, u64_field, bytes_field};

/// Bytes that begin with one spelling of a field begin with no other: what is taken, and what is left, are one.
/// It does nothing; its clauses are the law.
pub fn no_spelling_begins_another()
    ensures u8s { (v w : ℕ) (rest others : List ℕ) → u8_field v ++ rest ≡ u8_field w ++ others
        → (v ≡ w) × (rest ≡ others) }
    ensures u16s { (v w : ℕ) (rest others : List ℕ) → v < 2 ^ 16 → w < 2 ^ 16
        → u16_field v ++ rest ≡ u16_field w ++ others → (v ≡ w) × (rest ≡ others) }
    ensures u32s { (v w : ℕ) (rest others : List ℕ) → v < 2 ^ 32 → w < 2 ^ 32
        → u32_field v ++ rest ≡ u32_field w ++ others → (v ≡ w) × (rest ≡ others) }
    ensures u64s { (v w : ℕ) (rest others : List ℕ) → v < 2 ^ 64 → w < 2 ^ 64
        → u64_field v ++ rest ≡ u64_field w ++ others → (v ≡ w) × (rest ≡ others) }
    ensures byte_strings { (v w rest others : List ℕ) → length v < 2 ^ 32 → length w < 2 ^ 32
        → bytes_field v ++ rest ≡ bytes_field w ++ others → (v ≡ w) × (rest ≡ others) }
{}
