//! Names, numbers, texts and limits that every other crate speaks of.
//!
//! Layer: the bottom. It stands on the kit's `semver` alone.
//! Its one contract: a value of one of these types has its form, and each reader answers the value
//! exactly where the bytes or numbers have it.
#![tactic(auto)]

mod display;
mod ids;
pub mod limits;
mod name;
mod parts;
mod rows;
mod short;
mod versions;

pub use ids::{CallNo, ClientId, NodeId, NodeSet};
pub use name::{ClusterName, NameError};
pub use parts::{Action, Block, Manifest, Need, Needs, Part};
pub use rows::Rows;
pub use short::ShortText;
pub use versions::{ReqText, TextError, VersionText};
