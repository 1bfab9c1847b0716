//! The driver of one subordinate: which call or unit of a campaign comes next at one node.
//!
//! Layer: stands on `world` (the campaign law), `package_reader`, `pm_types` and `ucm_base`; workers run it.
//! Its one contract: a driver goes on by what it is answered alone, and each call that it asks for is allowed
//! by the campaign law for what it was answered.
#![tactic(auto)]

mod answering;
mod answers;
mod asking;
mod calls;
mod driver;
mod laws;
mod progress;
mod subordinate;

pub use answers::{Finding, Got, PackageSize, Rises, Round, SendStep, Todo};
pub use calls::call_of;
pub use driver::Driver;
pub use laws::driver_law;
pub use subordinate::{Fate, Link, Sent, Subordinate, UnitSent};
