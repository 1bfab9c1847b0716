//! What `inspect` writes of a vehicle package.
ghost use Rattle.std.specs.Prelude.{◌≡◌, ◌++◌, IfOk, OnOk, map, string_bytes};
ghost use Rattle.std.specs.List.{flat_map};
ghost use Rattle.vehicle_package.specs.Printed.{fault_text};
ghost use Rattle.vehicle_package.specs.Reading.{vehicle_of};
ghost use Rattle.ucm_prog.specs.Inspect.{inspected_vehicle, step_line, step_shown, vehicle_line, vehicle_shown};
ghost use Rattle.ucm_prog.specs.Outputs.{IsOutput};
ghost use Rattle.ucm_prog.specs.Refusals.{refused_output};

use crate::output::{Output, refused};
use crate::status::ExitStatus;
use package_reader::Span;
use std::alloc::{AllocError, Global};
use ucm_base::{Manifest, NodeId, Part};
use vehicle_package::{Vehicle, VehicleError, read_vehicle};

/// What `inspect` of a vehicle package writes. Each package's bytes are copied once.
pub fn inspect_vehicle(alloc: Global, input: &[u8]) -> Result<Output, AllocError>
    ensures { IfOk result
        (λ o. IsOutput (inspected_vehicle (vehicle_of input.now)) o.status o.bytes.items) }
{
    match read_vehicle(alloc, input) {
        Ok(vehicle) => {
            let text = shown(alloc, &vehicle)?;
            Ok(Output {
                status: ExitStatus::Successful,
                bytes: text.into_bytes(),
            })
        }
        Err(VehicleError::OutOfMemory) => Err(AllocError),
        Err(fault) => refused_vehicle(alloc, fault),
    }
}

fn refused_vehicle(alloc: Global, fault: VehicleError) -> Result<Output, AllocError>
    ensures { IfOk result (λ o. IsOutput (refused_output (fault_text fault))
        o.status o.bytes.items) }
{
    let mut text = String::new(alloc);
    write!(text, "refused {fault}\n")?;
    Ok(refused(text))
}

fn shown(alloc: Global, vehicle: &Vehicle) -> Result<String, AllocError>
    ensures { IfOk result (λ text. string_bytes text ≡ vehicle_shown vehicle.now) }
{
    let mut text = String::new(alloc);
    add_counts(&mut text, vehicle)?;
    add_steps(&mut text, vehicle)?;
    Ok(text)
}

fn add_counts(text: &mut String, vehicle: &Vehicle) -> Result<(), AllocError>
    ensures { OnOk result
        (string_bytes text.new ≡ string_bytes text.old ++ vehicle_line vehicle.now) }
{
    let steps = vehicle.steps.as_slice().len();
    let packages = vehicle.packages.as_slice().len();
    write!(text, "vehicle steps {steps} packages {packages}\n")
}

fn add_steps(text: &mut String, vehicle: &Vehicle) -> Result<(), AllocError>
    ensures { OnOk result (string_bytes text.new ≡ string_bytes text.old
        ++ flat_map (step_shown vehicle.now.packages) vehicle.now.steps) }
{
    'steps: for step in vehicle.steps.as_slice() {
        add_parts(text, step.node, vehicle.parts_of(*step))?;
    }
    Ok(())
}

fn add_parts(text: &mut String, node: NodeId, parts: &[Part<Span>]) -> Result<(), AllocError>
    ensures { OnOk result (string_bytes text.new ≡ string_bytes text.old
        ++ flat_map (step_line node) (map (λ part. part.manifest) parts.now)) }
{
    'parts: for part in parts {
        add_step(text, node, &part.manifest)?;
    }
    Ok(())
}

fn add_step(text: &mut String, node: NodeId, manifest: &Manifest) -> Result<(), AllocError>
    ensures { OnOk result
        (string_bytes text.new ≡ string_bytes text.old ++ step_line node manifest.now) }
{
    let name = manifest.name;
    let version = manifest.version.text();
    let action = manifest.action;
    write!(text, "step {node} {name} {version} {action}\n")
}
