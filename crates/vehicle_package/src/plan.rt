//! Reading plans.
ghost use Rattle.std.specs.Prelude.{◌≡◌, ◌<◌, ◌≤◌, ◌&&◌, ◌^◌, IfOk, IfErr, Some, None, map, option_map, length, nat_le};
ghost use Rattle.serde_json.specs.View.{view};
ghost use Rattle.ucm_base.specs.Limits.{step_limit};
ghost use Rattle.manifest.specs.Trees.{all_of, field, has_keys};
ghost use Rattle.vehicle_package.specs.Answers.{IsPlanFault, IsPlanRead};
ghost use Rattle.vehicle_package.specs.Plan.{are_few, node_of_tree, number_of_tree, package_of_tree, plan_of, plan_of_tree, step_of_tree, steps_of_tree};

use crate::VehicleError;
use crate::vehicle::{Step, Steps};
use serde_json::Value;
use std::alloc::Global;
use ucm_base::NodeId;
use ucm_base::limits::STEP_LIMIT;

fn has_count(value: &Value, count: usize) -> bool
    ensures { result ≡ has_keys count (view value.now) }
{
    match value.as_object() {
        Some(members) => members.len() == count,
        None => false,
    }
}

fn number_at(value: &Value, key: &str) -> Option<u64>
    ensures { result ≡ field key.now number_of_tree (view value.now) }
{
    value.get(key).and_then(Value::as_u64)
}

fn node_at(value: &Value, key: &str) -> Option<NodeId>
    ensures { result ≡ field key.now node_of_tree (view value.now) }
{
    match number_at(value, key) {
        Some(number) => NodeId::of(number),
        None => None,
    }
}

/// The number of a package, which is below their count.
fn package_at(value: &Value, key: &str, count: u16) -> Option<u16>
    ensures { result ≡ field key.now (package_of_tree count) (view value.now) }
{
    match number_at(value, key) {
        Some(number) if number < u64::from(count) => Some(number as u16),
        _ => None,
    }
}

fn step_in(value: &Value, count: u16) -> Option<Step>
    ensures { result ≡ step_of_tree count (view value.now) }
{
    if !has_count(value, 2) {
        return None;
    }
    match (node_at(value, "node"), package_at(value, "package", count)) {
        (Some(node), Some(package)) => Some(Step { node, package }),
        _ => None,
    }
}

fn all_steps(alloc: Global, values: &[Value], count: u16) -> Result<Vec<Step>, VehicleError>
    ensures ok { IfOk result
        (λ v. all_of (step_of_tree count) (map view values.now) ≡ Some v.items) }
    ensures err { IfErr result (λ e. IsPlanFault e
        (all_of (step_of_tree count) (map view values.now) ≡ None)) }
{
    let mut steps = Vec::new(alloc);
    'steps: for i in 0..values.len() {
        let Some(step) = step_in(&values[i], count) else {
            return Err(VehicleError::InvalidPlan);
        };
        steps.push(step)?;
    }
    Ok(steps)
}

fn are_few(values: &[Value]) -> bool
    ensures { result ≡ are_few (length values.now) }
{
    !values.is_empty() && values.len() as u64 <= STEP_LIMIT
}

fn steps_in(alloc: Global, value: &Value, count: u16) -> Result<Steps, VehicleError>
    ensures { IsPlanRead result (steps_of_tree count (view value.now)) }
{
    let Some(list) = value.as_array() else {
        return Err(VehicleError::InvalidPlan);
    };
    let values = list.as_slice();
    if !are_few(values) {
        return Err(VehicleError::InvalidPlan);
    }
    let items = all_steps(alloc, values, count)?;
    Ok(Steps::of(items))
}

fn plan_in(alloc: Global, value: &Value, count: u16) -> Result<Steps, VehicleError>
    ensures { IsPlanRead result (plan_of_tree count (view value.now)) }
{
    if !has_count(value, 1) {
        return Err(VehicleError::InvalidPlan);
    }
    match value.get("steps") {
        Some(inner) => steps_in(alloc, inner, count),
        None => Err(VehicleError::InvalidPlan),
    }
}

/// The steps of a plan's text over so many packages, if it is one: JSON (RFC 8259), an object of exactly one key.
pub(crate) fn read_plan(alloc: Global, text: &[u8], count: u16) -> Result<Steps, VehicleError>
    ensures { IsPlanRead result (plan_of count text.now) }
{
    match Value::from_slice(alloc, text) {
        Ok(value) => plan_in(alloc, &value, count),
        Err(e) if e.is_memory() => Err(VehicleError::OutOfMemory),
        Err(_) => Err(VehicleError::InvalidPlan),
    }
}
