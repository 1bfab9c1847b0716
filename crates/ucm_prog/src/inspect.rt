//! The command `inspect`: what a software package has, part by part, or a vehicle package, step by step.
ghost use Rattle.std.specs.Prelude.{◌≡◌, ◌++◌, IfOk, OnOk, string_bytes};
ghost use Rattle.std.specs.List.{flat_map};
ghost use Rattle.package_reader.specs.Printed.{fault_text};
ghost use Rattle.package_reader.specs.Reading.{contents_of};
ghost use Rattle.ucm_prog.specs.Inspect.{inspected, inspected_input, need_line, package_line, shown};
ghost use Rattle.ucm_prog.specs.Outputs.{IsOutput};
ghost use Rattle.ucm_prog.specs.Refusals.{refused_output};

use crate::inspect_vehicle::inspect_vehicle;
use crate::output::{Output, refused};
use crate::status::ExitStatus;
use package_reader::{PackageError, Span, read_package};
use std::alloc::{AllocError, Global};
use ucm_base::{Manifest, Need, Part};
use vehicle_package::MARK;

/// What `inspect` of a whole input writes.
pub fn inspect(alloc: Global, input: &[u8]) -> Result<Output, AllocError>
    ensures { IfOk result
        (λ o. IsOutput (inspected_input input.now) o.status o.bytes.items) }
{
    if input.starts_with(MARK) {
        inspect_vehicle(alloc, input)
    } else {
        inspect_package(alloc, input)
    }
}

/// What `inspect` of a software package writes. No payload is copied.
fn inspect_package(alloc: Global, input: &[u8]) -> Result<Output, AllocError>
    ensures { IfOk result
        (λ o. IsOutput (inspected (contents_of input.now)) o.status o.bytes.items) }
{
    match read_package(alloc, input) {
        Ok(parts) => {
            let text = shown_parts(alloc, parts.as_slice())?;
            Ok(Output {
                status: ExitStatus::Successful,
                bytes: text.into_bytes(),
            })
        }
        Err(PackageError::OutOfMemory) => Err(AllocError),
        Err(fault) => refused_package(alloc, fault),
    }
}

fn refused_package(alloc: Global, fault: PackageError) -> Result<Output, AllocError>
    ensures { IfOk result (λ o. IsOutput (refused_output (fault_text fault))
        o.status o.bytes.items) }
{
    let mut text = String::new(alloc);
    write!(text, "refused {fault}\n")?;
    Ok(refused(text))
}

fn shown_parts(alloc: Global, parts: &[Part<Span>]) -> Result<String, AllocError>
    ensures { IfOk result (λ text. string_bytes text ≡ flat_map shown parts.now) }
{
    let mut text = String::new(alloc);
    'parts: for part in parts {
        add_part(&mut text, part)?;
    }
    Ok(text)
}

fn add_part(text: &mut String, part: &Part<Span>) -> Result<(), AllocError>
    ensures { OnOk result (string_bytes text.new ≡ string_bytes text.old ++ shown part.now) }
{
    add_package(text, &part.manifest, part.payload.len)?;
    add_needs(text, part.manifest.needs.as_slice())
}

fn add_package(text: &mut String, manifest: &Manifest, size: u32) -> Result<(), AllocError>
    ensures { OnOk result (string_bytes text.new
        ≡ string_bytes text.old ++ package_line manifest.now size) }
{
    let name = manifest.name;
    let version = manifest.version.text();
    let action = manifest.action;
    write!(text, "package {name} {version} {action} payload {size}\n")
}

fn add_needs(text: &mut String, needs: &[Need]) -> Result<(), AllocError>
    ensures { OnOk result (string_bytes text.new
        ≡ string_bytes text.old ++ flat_map need_line needs.now) }
{
    for need in needs {
        write!(text, "need {need}\n")?;
    }
    Ok(())
}
