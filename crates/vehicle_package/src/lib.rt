//! Vehicle packages: a plan of steps and the software packages that it brings, read and printed.
//!
//! Layer: stands on `package_reader`, `manifest`, `wire` and the kit's `serde_json` and `sha2`; recipes, the program
//! and the run of a campaign stand on it.
//! Its one contract: bytes are read exactly where they are a vehicle package, the first fault is answered where they
//! are not, and what is printed is read as what it was printed of.
#![tactic(auto)]

mod changes;
mod display;
mod fault;
mod fields;
mod laws;
mod plan;
mod print;
mod read;
mod vehicle;

pub use fault::VehicleError;
pub use fields::MARK;
pub use laws::a_vehicle_is_one;
pub use print::{print_plan, print_vehicle, seal_vehicle};
pub use read::read_vehicle;
pub use vehicle::{Step, Steps, Vehicle};
