//! What a driver found, in words.

use anyhow::Result;
use std::io::Print;
use sub_core::Finding;

/// Prints a finding, within a line.
pub fn print_finding(rt: &impl Print, finding: Finding) -> Result<()> {
    match finding {
        Finding::RoundDone => print!(rt; "the round is done")?,
        Finding::Yes => print!(rt; "Yes")?,
        Finding::Refused { no, refusal } => {
            let code = refusal.code();
            print!(rt; "{no} refused with {code}")?;
        }
        Finding::RolledBack => print!(rt; "RolledBack")?,
        Finding::Unreached { losses, faults } => {
            print!(rt; "unreached, {losses} losses and {faults} faults")?;
        }
        Finding::Ended { no } => print!(rt; "at rest by {no}")?,
    }
    Ok(())
}
