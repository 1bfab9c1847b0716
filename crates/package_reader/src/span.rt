//! Where a part lies in its package's bytes.
ghost use Rattle.std.specs.Prelude.{◌≡◌};
ghost use Rattle.package_reader.specs.Fields.{bytes_of, end_of};

/// So many bytes, from a place on that counts from 0.
#[derive(Clone, Copy, Debug, Default, PartialEq, Eq)]
pub struct Span {
    pub at: usize,
    pub len: u32,
}

impl Span {
    /// The bytes that lie there, as far as there are any.
    pub fn of<'a>(&self, bytes: &'a [u8]) -> &'a [u8]
        ensures { result.now ≡ bytes_of bytes.now self.now }
    {
        let (_, rest) = bytes.split_at(self.at.min(bytes.len()));
        let (here, _) = rest.split_at(rest.len().min(self.len as usize));
        here
    }
}

/// Where a part's fields lie: the text of its manifest, and its payload.
#[derive(Clone, Copy, Debug, Default, PartialEq, Eq)]
pub(crate) struct PartPlace {
    pub(crate) text: Span,
    pub(crate) payload: Span,
}
