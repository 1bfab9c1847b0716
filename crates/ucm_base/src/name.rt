//! Names of clusters, which are copied and take no memory.
ghost use Rattle.std.specs.Prelude.{◌≡◌, ◌≤◌, ◌↔◌, length, Ok, Err, Some, refl, nat_eq, true, IsTrue, if◌then◌else◌};
ghost use Rattle.std.specs.List.{list_all};
ghost use Rattle.std.specs.Ordering.{nat_cmp};
ghost use Rattle.std.specs.Cmp.{partial_equiv_from_equiv};
ghost use Rattle.std.specs.Cmp.Lexicographic.{nat_list_cmp_total, nat_list_eq_equiv, pointwise, slice_cmp, texts_po, texts_ties};
ghost use Rattle.ucm_base.specs.Limits.{name_limit};
ghost use Rattle.ucm_base.specs.Name.{begins_with_letter, is_cluster_name, is_letter, is_name_byte};

use crate::limits::NAME_LIMIT;
use std::cmp::Ordering;
use std::marker::Model;
use std::{fmt, str};

/// A name of 1 to 32 bytes `a`-`z`, `0`-`9` and `_`, a letter first, seen as its bytes.
///
/// Names are ordered by their bytes.
#[derive(Clone, Copy)]
pub struct ClusterName {
    bytes: [u8; NAME_LIMIT],
    len: usize,
}

impl Model for ClusterName {
    ghost use Rattle.std.specs.Prelude.{ℕ, List, ◌≡◌, length, take, true};
    ghost use Rattle.ucm_base.specs.Limits.{name_limit};
    ghost use Rattle.ucm_base.specs.Name.{is_cluster_name};
    ghost use Rattle.ucm_base.specs.Padding.{IsPadded, padded, padded-again};

    ghost Value = { List ℕ };

    ghost view = { λ s. take s.len s.bytes };

    ghost invariant = { λ s. IsPadded name_limit s.bytes s.len
        × (is_cluster_name (take s.len s.bytes) ≡ true) };

    ghost inverse = { λ xs. record { bytes = padded name_limit xs; len = length xs } };

    ghost inverse_ok = { λ s h i. record {
      bytes = padded-again name_limit s.bytes s.len h.0 i;
      len = h.0.0 i;
    } };
}

/// The bytes are no name.
#[derive(Clone, Copy, PartialEq, Eq, Debug)]
pub struct NameError;

fn is_letter_byte(b: u8) -> bool
    ensures { result ≡ is_letter b }
{
    b >= b'a' && b <= b'z'
}

fn is_allowed(b: u8) -> bool
    ensures { result ≡ is_name_byte b }
{
    is_letter_byte(b) || (b >= b'0' && b <= b'9') || b == b'_'
}

fn starts(bytes: &[u8]) -> bool
    ensures { result ≡ begins_with_letter bytes.now }
{
    match bytes {
        [first, ..] => is_letter_byte(*first),
        [] => false,
    }
}

fn all_allowed(bytes: &[u8]) -> bool
    ensures { result ≡ list_all is_name_byte bytes.now }
{
    bytes.iter().all(|b| is_allowed(*b))
}

fn is_name(bytes: &[u8]) -> bool
    ensures name { result ≡ is_cluster_name bytes.now }
    ensures fits { IsTrue result → length bytes.now ≤ name_limit }
{
    starts(bytes) && bytes.len() <= NAME_LIMIT && all_allowed(bytes)
}

impl ClusterName {
    /// The name of these bytes, if they are one.
    pub fn of(bytes: &[u8]) -> Result<ClusterName, NameError>
        ensures { result ≡ (if is_cluster_name bytes.now then Ok bytes.now else Err (record {})) }
    {
        if is_name(bytes) {
            Ok(ClusterName::padded(bytes))
        } else {
            Err(NameError)
        }
    }

    fn padded(text: &[u8]) -> ClusterName
        requires fits { length text.now ≤ name_limit }
        requires name { is_cluster_name text.now ≡ true }
        ensures { result ≡ text.now }
    {
        let mut bytes = [0u8; NAME_LIMIT];
        let len = text.len();
        bytes[..len].copy_from_slice(text);
        ClusterName { bytes, len }
    }

    /// The bytes.
    pub fn as_bytes(&self) -> &[u8]
        ensures bytes { result.now ≡ self.now }
        ensures form { is_cluster_name self.now ≡ true }
    {
        &self.bytes[..self.len]
    }

    /// The name.
    pub fn as_str(&self) -> &str
        ensures { result.now ≡ self.now }
    {
        match str::from_utf8(self.as_bytes()) {
            Ok(text) => text,
            Err(_) => unreachable!(),
        }
    }
}

impl fmt::Display for ClusterName {
    ghost use Rattle.std.specs.Prelude.{Some};

    ghost output = { λ text. Some text };

    fn fmt<W: fmt::Write>(&self, f: &mut fmt::Formatter<W>) -> fmt::Result {
        let text = self.as_str();
        write!(f, "{text}")
    }
}

impl PartialEq for ClusterName {
    ghost eq = { λ a b. pointwise nat_eq a b };

    ghost laws = { partial_equiv_from_equiv nat_list_eq_equiv };

    fn eq(&self, other: &ClusterName) -> bool {
        self.as_bytes() == other.as_bytes()
    }
}

impl Eq for ClusterName {
    ghost laws = { nat_list_eq_equiv };
}

impl PartialOrd for ClusterName {
    ghost partial_cmp = { λ a b. Some (slice_cmp nat_cmp a b) };

    ghost laws = { texts_po };

    fn partial_cmp(&self, other: &ClusterName) -> Option<Ordering> {
        Some(self.cmp(other))
    }
}

impl Ord for ClusterName {
    ghost cmp = { λ a b. slice_cmp nat_cmp a b };

    ghost total = { nat_list_cmp_total };

    ghost matches_partial_cmp = { λ a b. refl };

    ghost matches_eq = { texts_ties };

    fn cmp(&self, other: &ClusterName) -> Ordering {
        self.as_bytes().cmp(other.as_bytes())
    }
}

#[cfg(test)]
mod tests {
    use super::*;
    use std::test::Fail;

    #[test]
    fn names_are_ordered_by_their_bytes(rt: HostRuntime) -> Result<(), Fail> {
        let (Ok(a), Ok(b)) = (ClusterName::of(b"core"), ClusterName::of(b"core_2")) else {
            return Err(Fail::from("a name is refused"));
        };
        assert!(rt; a < b);
        assert!(rt; a == ClusterName::of(b"core").unwrap_or(b));
        assert!(rt; ClusterName::of(b"2core").is_err());
        assert!(rt; ClusterName::of(b"").is_err());
        Ok(())
    }
}
