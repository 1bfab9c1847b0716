//! The areas of a node.

/// An area in which bytes lie.
#[derive(Clone, Copy, Debug, PartialEq, Eq)]
pub enum Area {
    /// Of a transfer. A slot is 0 to 7.
    Transfer { slot: u8 },
    /// Of a cluster. A place is 0 to 63, a side 0 or 1.
    Side { place: u8, side: u8 },
}
