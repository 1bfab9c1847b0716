//! The script of a number.
ghost use Rattle.std.specs.Prelude.{◌≡◌, ◌<◌, IfOk, map};
ghost use Rattle.std.specs.List.{AllByRecursion, range_with_len};
ghost use Rattle.run_script.specs.InForm.{IsInForm};
ghost use Rattle.run_script.specs.Scripts.{said};
ghost use Rattle.vehicle_package.specs.Spelling.{IsCarried};
ghost use Rattle.generator.specs.Demo.{demo_of, numbers, package_of, step_of};

use crate::packages::{PACKAGES, package_of};
use package_reader::Packages;
use run_script::{Lines, Script};
use std::alloc::{AllocError, Global};
use ucm_base::NodeId;
use vehicle_package::{Step, Steps, Vehicle};

/// The number of the campaign.
const CAMPAIGN: u32 = 1;

/// The step that brings a package to its node.
fn step_of(place: u16) -> Step
    requires { place < 16 }
    ensures { result ≡ step_of place }
{
    match NodeId::of(u64::from(1 + place / 2)) {
        Some(node) => Step {
            node,
            package: place,
        },
        None => unreachable!(),
    }
}

#[tactic(auto, using(crate::proofs::Words::one_more))]
fn steps(alloc: Global) -> Result<Steps, AllocError>
    ensures { IfOk result (λ steps. steps ≡ map step_of numbers) }
{
    let mut steps = Steps::new(alloc);
    for place in 0..PACKAGES {
        steps.push(step_of(place))?;
    }
    Ok(steps)
}

#[tactic(auto, using(crate::proofs::Words::one_more, crate::proofs::Loaded::one_carried))]
fn packages(alloc: Global, number: u32) -> Result<Packages, AllocError>
    ensures made { IfOk result (λ packages. packages ≡ map (package_of number) numbers) }
    ensures carried { IfOk result (AllByRecursion IsCarried) }
{
    let mut packages = Packages::new(alloc);
    for place in 0..PACKAGES {
        packages.push(package_of(alloc, number, place)?)?;
    }
    Ok(packages)
}

/// The script of a number, with nothing attached. Nothing but memory can be wanting.
pub fn demo_script(alloc: Global, number: u32) -> Result<Script<'static>, AllocError>
    ensures demo { IfOk result (λ script. said script ≡ demo_of number) }
    ensures form { IfOk result IsInForm }
{
    let vehicle = Vehicle {
        steps: steps(alloc)?,
        packages: packages(alloc, number)?,
    };
    Ok(Script {
        campaign: CAMPAIGN,
        lines: Lines::new(alloc),
        vehicle,
        attached: b"".as_slice(),
    })
}

#[cfg(test)]
mod tests {
    use super::*;
    use std::test::Fail;

    /// The bytes of all payloads together.
    fn payloads(script: &Script<'_>) -> u64 {
        let mut bytes = 0u64;
        for packed in script.vehicle.packages.as_slice() {
            for part in packed.parts() {
                bytes = bytes.wrapping_add(u64::from(part.payload.len));
            }
        }
        bytes
    }

    #[test]
    fn sixteen_packages_are_brought(rt: HostRuntime) -> Result<(), Fail> {
        let first = demo_script(rt.alloc(), 0)?;
        let second = demo_script(rt.alloc(), 1)?;
        assert!(rt; first.vehicle.packages.as_slice().len() == 16);
        assert!(rt; payloads(&first) == 4_600_000);
        assert!(rt; payloads(&second) == 4_701_392);
        Ok(())
    }
}
