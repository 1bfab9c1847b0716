//! What a look-up of a transfer gives.
use pm_types::Header;

/// A transfer's header, and the slot in which its bytes lie.
#[derive(Clone, Copy, Debug, PartialEq, Eq)]
pub struct Found {
    pub header: Header,
    /// 0 to 7.
    pub slot: u8,
}
