//! One node's calls and units of work, judged by its tables, in memory.
//!
//! Layer: stands on `pm_types`, whose definitions it carries out, on `package_reader`, by which it reads what was
//! transferred, on `transfer_blocks` and on `history_query`; `ucm_prog` stands on it. Its one contract: after `reserve`
//! one `exec` is one step of the definition, and takes no memory; a query is answered as the definition says.
#![tactic(auto)]

ghost use Rattle.node_laws.specs.Appends.{GoesOn};
ghost use Rattle.node_laws.specs.Fit.{IsReading, KeepsFit};
ghost use Rattle.node_laws.specs.NewestKept.{KeepsNewest};
ghost use Rattle.node_laws.specs.Others.{LeavesSessions};
ghost use Rattle.node_laws.specs.Runs.{MakesLegal};
ghost use Rattle.node_core.specs.Core.{Holding, IsSound};
ghost use Rattle.node_core.specs.Packages.{package_reading};
ghost use Rattle.node_core.specs.Units.{CanProcess};

mod copying;
mod destination;
mod format;
mod node;
mod opening;
mod plan;
mod prepared;
mod query;
mod ready;
mod replies;
mod reserving;
mod session_rules;
mod sessions;
mod transfers;
mod units;

pub use format::{Installed, format_areas};
pub use node::{Core, ReserveError};
pub use prepared::Prepared;
pub use ready::Ready;

/// What the laws of nodes and campaigns ask of a reading holds of that of software packages.
pub fn packages_have_parts()
    ensures law { IsReading package_reading }
{}

/// The laws of a node's definitions, where packages are read as they are here.
pub fn nodes_keep_their_laws()
    ensures consistent { KeepsFit package_reading }
    ensures legal { MakesLegal package_reading }
    ensures goes_on { GoesOn package_reading }
    ensures newest { KeepsNewest package_reading }
    ensures sessions { LeavesSessions package_reading }
{}

/// A sound node can do each unit of a package that is in processing: they can be counted in four bytes, and the changes
/// that they bring find room.
pub fn packages_can_be_processed()
    ensures law { (v : Holding) → IsSound v → CanProcess v.state }
{}
