//! A counter with a failing device behind a gate, counted up by threads: what a machine, its turns
//! and its seats look like to a caller of `turn_gate`.
//!
//! Layer: stands on `turn_gate`; `gate_bench`, which shows it with threads, stands on it, and no
//! part of the product does.
//! Its one contract: a turn counts once for the part of its seat, and nothing else.
#![tactic(auto)]

mod counter;
mod run;
mod tick;

pub use counter::Counter;
pub use run::{count_all, count_beside, count_once, count_together, watch_once};
pub use tick::{Answer, Tick};
