//! Rows on what comes in and goes out: sources that part their bytes or fail, and packages and vehicles that are
//! printed and read again.
//!
//! Layer: beside the program; it has no contract for others, and its tests are the rows.
#![tactic(auto)]

#[cfg(test)]
mod packages;
#[cfg(test)]
mod ports;
#[cfg(test)]
mod vehicles;
