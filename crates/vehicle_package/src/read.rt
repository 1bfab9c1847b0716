//! Reading vehicle packages.
ghost use Rattle.std.specs.Prelude.{◌≡◌, ◌⊎◌, ◌<◌, ◌≤◌, ◌^◌, List, Ok, Err, IfOk, IfErr, length, map};
ghost use Rattle.ucm_base.specs.Limits.{carried_limit, vehicle_limit};
ghost use Rattle.package_reader.specs.Fields.{bytes_of};
ghost use Rattle.vehicle_package.specs.Answers.{IsAnswer};
ghost use Rattle.vehicle_package.specs.Fields.{fields_of};
ghost use Rattle.vehicle_package.specs.Reading.{each_once, package_in, packages_in, vehicle_of};
ghost use Rattle.vehicle_package.specs.Spelling.{IsVehicle};
ghost use Rattle.vehicle_package.specs.declared.fault.VehicleError.{VehicleError as AnyFault};
ghost use Rattle.vehicle_package.specs.declared.vehicle.Vehicle.{Vehicle as AnyVehicle};

use crate::VehicleError;
use crate::changes::twice_in;
use crate::fields::fields_of;
use crate::plan::read_plan;
use crate::vehicle::{Step, Vehicle};
use package_reader::{PackageError, Packages, Packed, Span};
use std::alloc::Global;
use ucm_base::Block;

/// The package that these bytes are, of which one copy is made.
fn package_in(alloc: Global, bytes: &[u8], index: u16) -> Result<Packed, VehicleError>
    requires { length bytes.now < 2 ^ 32 }
    ensures { IsAnswer result (package_in index bytes.now) }
{
    let block = Block::of(Vec::from_slice(alloc, bytes)?);
    match Packed::read(alloc, block) {
        Ok(packed) => Ok(packed),
        Err(PackageError::OutOfMemory) => Err(VehicleError::OutOfMemory),
        Err(fault) => Err(VehicleError::PackageRefused { index, fault }),
    }
}

/// The packages at these places.
fn packages_in(alloc: Global, bytes: &[u8], places: &[Span]) -> Result<Packages, VehicleError>
    requires whole { length bytes.now ≤ vehicle_limit }
    requires few { length places.now ≤ carried_limit }
    ensures { IsAnswer result (packages_in 0 (map (bytes_of bytes.now) places.now)) }
{
    let mut packages = Packages::new(alloc);
    let mut index = 0u16;
    'places: for place in places {
        let packed = package_in(alloc, place.of(bytes), index)?;
        packages.push(packed)?;
        index += 1;
    }
    Ok(packages)
}

/// Refuses a step that changes a cluster which an earlier step changes on the same node.
fn check_each_once(alloc: Global, packages: &[Packed], steps: &[Step]) -> Result<(), VehicleError>
    ensures { IsAnswer result (each_once packages.now steps.now) }
{
    match twice_in(alloc, packages, steps)? {
        Some(change) => Err(VehicleError::ClusterTwice {
            node: change.node,
            name: change.cluster,
        }),
        None => Ok(()),
    }
}

/// Reads a vehicle package. All bytes before the digest are hashed once, each package's once, and each payload once;
/// each package's bytes are copied once. A fault has the place, in bytes from 0, from which the bytes are no vehicle.
pub fn read_vehicle(alloc: Global, bytes: &[u8]) -> Result<Vehicle, VehicleError>
    // What is read is a vehicle package.
    ensures vehicle { IfOk result (λ v. IsVehicle bytes.now v) }
    ensures ok { IfOk result (λ v. vehicle_of bytes.now ≡ Ok v) }
    // A vehicle package is refused for want of memory alone.
    ensures only { (v : AnyVehicle) → IsVehicle bytes.now v
        → IfErr result (λ e. e ≡ VehicleError.OutOfMemory) }
    // What isn't want of memory is the first fault.
    ensures err { IfErr result (λ e. (e ≡ VehicleError.OutOfMemory)
        ⊎ (vehicle_of bytes.now ≡ Err e)) }
    // A fault of the fields is answered without a call for memory.
    ensures fields { (f : AnyFault) → fields_of bytes.now ≡ Err f → result ≡ Err f }
{
    vehicle_of(alloc, bytes)
}

/// What bytes are a vehicle package of, by the order of refusals.
#[tactic(auto, unfolding(crate::specs::Reading::vehicle_of))]
fn vehicle_of(alloc: Global, bytes: &[u8]) -> Result<Vehicle, VehicleError>
    ensures answer { IsAnswer result (vehicle_of bytes.now) }
    ensures fields { (f : AnyFault) → fields_of bytes.now ≡ Err f → result ≡ Err f }
{
    let fields = fields_of(bytes)?;
    let places = fields.packages.as_slice();
    let steps = read_plan(alloc, fields.plan.of(bytes), places.len() as u16)?;
    let packages = packages_in(alloc, bytes, places)?;
    check_each_once(alloc, packages.as_slice(), steps.as_slice())?;
    Ok(Vehicle { steps, packages })
}
