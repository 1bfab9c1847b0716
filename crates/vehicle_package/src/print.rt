//! Printing vehicle packages.
ghost use Rattle.std.specs.Prelude.{◌≡◌, ◌++◌, Ok, IfOk, OnOk, map};
ghost use Rattle.std.specs.List.{flat_map};
ghost use Rattle.serde_json.specs.View.{view};
ghost use Rattle.wire.specs.Fields.{bytes_field};
ghost use Rattle.vehicle_package.specs.Plan.{plan_text};
ghost use Rattle.vehicle_package.specs.Reading.{vehicle_of};
ghost use Rattle.vehicle_package.specs.Spelling.{IsInForm, IsVehicle, vehicle_text};
ghost use Rattle.vehicle_package.specs.Written.{ReadsBack, plan_tree, step_tree, steps_tree};

use crate::fields::MARK;
use crate::vehicle::{Step, Vehicle};
use package_reader::Packed;
use serde_json::{Value, json};
use sha2::{Digest, Sha256};
use std::alloc::{AllocError, Global};
use wire::{put_bytes, put_u16};

fn step_value(alloc: Global, step: Step) -> Result<Value, AllocError>
    ensures { IfOk result (λ v. view v ≡ step_tree step) }
{
    let node = step.node.number();
    let package = step.package;
    json!(in alloc; {"node": node, "package": package})
}

fn steps_value(alloc: Global, steps: &[Step]) -> Result<Value, AllocError>
    ensures { IfOk result (λ v. view v ≡ steps_tree steps.now) }
{
    let mut list = Vec::new(alloc);
    'steps: for step in steps {
        let value = step_value(alloc, *step)?;
        list.push(value)?;
    }
    Ok(Value::Array(list))
}

fn plan_value(alloc: Global, steps: &[Step]) -> Result<Value, AllocError>
    ensures { IfOk result (λ v. view v ≡ plan_tree steps.now) }
{
    let steps = steps_value(alloc, steps)?;
    json!(in alloc; {"steps": steps})
}

/// The canonical text of a plan: JSON (RFC 8259) without blanks.
pub fn print_plan(alloc: Global, steps: &[Step]) -> Result<Vec<u8>, AllocError>
    ensures text { IfOk result (λ b. b.items ≡ plan_text steps.now) }
    ensures back { IfOk result (λ _. ReadsBack steps.now) }
{
    let value = plan_value(alloc, steps)?;
    value.to_vec(alloc)
}

/// Adds a block behind its length. One of 2^32 bytes or more has none, and is answered as want of memory.
fn put_block(bytes: &mut Vec<u8>, block: &[u8]) -> Result<(), AllocError>
    ensures { OnOk result (bytes.new.items ≡ bytes.old.items ++ bytes_field block.now) }
{
    if block.len() > u32::MAX as usize {
        return Err(AllocError);
    }
    put_bytes(bytes, block)
}

/// The bytes of a vehicle package of these steps and packages, whose bytes stand as they are: only all bytes before the
/// digest are hashed. Nothing is refused; what has no spelling, as 2^16 packages, is answered as want of memory.
#[tactic(auto, unfolding(crate::specs::Spelling::vehicle_text))]
pub fn seal_vehicle(
    alloc: Global,
    steps: &[Step],
    packages: &[&[u8]],
) -> Result<Vec<u8>, AllocError>
    ensures text { IfOk result
        (λ b. b.items ≡ vehicle_text steps.now (map (λ p. p.now) packages.now)) }
    ensures back { IfOk result (λ _. ReadsBack steps.now) }
{
    let Ok(count) = u16::try_from(packages.len()) else {
        return Err(AllocError);
    };
    let plan = print_plan(alloc, steps)?;
    let mut bytes = Vec::new(alloc);
    bytes.extend_from_slice(MARK)?;
    put_block(&mut bytes, plan.as_slice())?;
    put_u16(&mut bytes, count)?;
    'packages: for package in packages {
        put_block(&mut bytes, package)?;
    }
    let digest: [u8; 32] = Sha256::digest(bytes.as_slice());
    bytes.extend_from_slice(&digest)?;
    Ok(bytes)
}

/// The packages' bytes, in order.
fn bytes_of<'a>(alloc: Global, packages: &'a [Packed]) -> Result<Vec<&'a [u8]>, AllocError>
    ensures { IfOk result
        (λ all. map (λ p. p.now) all.items ≡ map (λ p. p.bytes) packages.now) }
{
    let mut all = Vec::new(alloc);
    'packages: for packed in packages {
        all.push(packed.as_slice())?;
    }
    Ok(all)
}

/// The bytes of a vehicle package, which are read as the vehicle. Only all bytes before the digest are hashed.
pub fn print_vehicle(alloc: Global, vehicle: &Vehicle) -> Result<Vec<u8>, AllocError>
    requires form { IsInForm vehicle.now }
    ensures text { IfOk result
        (λ b. b.items ≡ vehicle_text vehicle.now.steps (map (λ p. p.bytes) vehicle.now.packages)) }
    ensures vehicle { IfOk result (λ b. IsVehicle b.items vehicle.now) }
    // What is printed is read back.
    ensures back { IfOk result (λ b. vehicle_of b.items ≡ Ok vehicle.now) }
{
    let packages = bytes_of(alloc, vehicle.packages.as_slice())?;
    seal_vehicle(alloc, vehicle.steps.as_slice(), packages.as_slice())
}
