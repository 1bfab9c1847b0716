//! A machine that threads share: one history behind a turn, and polls that never wait.
//!
//! Layer: stands on the kit's `atomic_table`, and on no crate of this repository. The gates of a
//! node and of the master stand on it.
//! Its one contract: between any two steps of all seats the gate rule holds (`specs/Rule.antt`),
//! for every `Machine`; so what a seat has seen begins the one list that `close` hands back.
#![tactic(auto)]

mod gate;
mod machine;
mod seat;
mod share;
mod steps;
mod view;

pub use gate::Gate;
pub use machine::Machine;
pub use seat::{Seat, Seats};
pub use view::{Account, Fixed, Part, View};
