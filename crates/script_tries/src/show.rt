//! What is printed of a script.
use run_script::{CancelLine, ClientLine, Lines, Point, Script};
use scenario::{BlockSource, Event, ScriptCall};
use std::io;
use ucm_base::Need;
use vehicle_package::{Step, Vehicle};

/// Prints what a script says, one line for each of its own and for each part of a step.
pub fn show_script<R: Print + AllocGlobal>(rt: &R, script: &Script<'_>) -> io::Result<()> {
    let campaign = script.campaign;
    let attached = script.attached.len();
    println!(rt; "  campaign {campaign}, {attached} bytes attached")?;
    for step in script.vehicle.steps.as_slice() {
        show_step(rt, &script.vehicle, *step)?;
    }
    show_once(rt, &script.lines)?;
    show_nodes(rt, &script.lines)?;
    for line in script.lines.clients.as_slice() {
        show_client(rt, line)?;
    }
    show_mishaps(rt, &script.lines)
}

/// What a step brings.
fn show_step<R: Print>(rt: &R, vehicle: &Vehicle, step: Step) -> io::Result<()> {
    let Step { node, package } = step;
    let len = match vehicle.packages.as_slice().get(package as usize) {
        Some(packed) => packed.as_slice().len(),
        None => 0,
    };
    println!(rt; "  step {node}: package {package} of {len} bytes")?;
    for part in vehicle.parts_of(step) {
        let name = part.manifest.name;
        let action = part.manifest.action;
        let version = part.manifest.version.text();
        let payload = part.payload.len;
        print!(rt; "    {action} {name} {version} payload {payload}")?;
        show_needs(rt, part.manifest.needs.as_slice())?;
    }
    Ok(())
}

/// Needs, and the line's end.
fn show_needs<R: Print>(rt: &R, needs: &[Need]) -> io::Result<()> {
    for need in needs {
        print!(rt; " {need}")?;
    }
    println!(rt; "")
}

/// What stands once, and what is attached.
fn show_once<R: Print>(rt: &R, lines: &Lines) -> io::Result<()> {
    if let Some(first) = lines.campaign {
        let (line, campaign) = (first.line, first.campaign);
        println!(rt; "  {line}: campaign {campaign}")?;
    }
    if let Some(start) = lines.time {
        let (line, time) = (start.line, start.time);
        println!(rt; "  {line}: time {time}")?;
    }
    if let Some(cancel) = lines.cancel {
        show_cancel(rt, cancel)?;
    }
    for attached in lines.attached.as_slice() {
        let (line, name, len) = (attached.line, attached.name, attached.len);
        println!(rt; "  {line}: attach {name} {len}")?;
    }
    Ok(())
}

fn show_cancel<R: Print>(rt: &R, cancel: CancelLine) -> io::Result<()> {
    let line = cancel.line;
    match cancel.point {
        Point::Syncing => println!(rt; "  {line}: cancel syncing"),
        Point::InPhase(phase) => println!(rt; "  {line}: cancel {phase}"),
        Point::Voted => println!(rt; "  {line}: cancel voted"),
        Point::Decided => println!(rt; "  {line}: cancel decided"),
    }
}

/// What nodes are formatted with, and what fails there.
fn show_nodes<R: Print>(rt: &R, lines: &Lines) -> io::Result<()> {
    for installed in lines.installed.as_slice() {
        let line = installed.line;
        let node = installed.node;
        let name = installed.cluster.name;
        let version = installed.cluster.version.text();
        print!(rt; "  {line}: installed {node} {name} {version} ")?;
        show_block(rt, &installed.cluster.block)?;
        show_needs(rt, installed.cluster.needs.as_slice())?;
    }
    for fails in lines.fails.as_slice() {
        let (line, node, name) = (fails.line, fails.node, fails.name);
        println!(rt; "  {line}: fails {node} {name}")?;
    }
    Ok(())
}

/// Where a block's bytes come from.
fn show_block<R: Print>(rt: &R, block: &BlockSource) -> io::Result<()> {
    match block {
        BlockSource::Fill { size, byte } => print!(rt; "fill {size} {byte}"),
        BlockSource::Bytes(bytes) => {
            let len = bytes.as_slice().len();
            print!(rt; "hex {len}")
        }
        BlockSource::Piece { at, len } => print!(rt; "attached {at} {len}"),
    }
}

/// What a client does.
fn show_client<R: Print>(rt: &R, done: &ClientLine) -> io::Result<()> {
    let line = done.line;
    let node = done.node;
    let setup = if done.is_setup { "setup " } else { "" };
    match &done.event {
        Event::Call { client, no, call } => {
            print!(rt; "  {line}: {setup}call {node} {client} {no} ")?;
            show_call(rt, call)
        }
        Event::Work { client } => println!(rt; "  {line}: {setup}work {node} {client}"),
        Event::Ask { client, query } => {
            println!(rt; "  {line}: {setup}ask {node} {client} {query:?}")
        }
    }
}

/// A call, and the line's end.
fn show_call<R: Print>(rt: &R, call: &ScriptCall) -> io::Result<()> {
    match call {
        ScriptCall::Sync => println!(rt; "sync"),
        ScriptCall::TransferStart { size } => println!(rt; "start {size}"),
        ScriptCall::TransferData { id, counter, block } => {
            print!(rt; "data {id} {counter} ")?;
            show_block(rt, block)?;
            println!(rt; "")
        }
        ScriptCall::TransferExit { id } => println!(rt; "exit {id}"),
        ScriptCall::DeleteTransfer { id } => println!(rt; "delete {id}"),
        ScriptCall::ProcessSwPackage { id, tag } => println!(rt; "process {id} {tag}"),
        ScriptCall::Activate => println!(rt; "activate"),
        ScriptCall::Finish => println!(rt; "finish"),
        ScriptCall::Rollback => println!(rt; "rollback"),
        ScriptCall::RevertProcessedSwPackages => println!(rt; "revert"),
        ScriptCall::Cancel { id } => println!(rt; "cancel {id}"),
    }
}

/// What goes wrong, and how much of it the plan of each disk lists.
pub fn show_mishaps<R: Print + AllocGlobal>(rt: &R, lines: &Lines) -> io::Result<()> {
    for stop in lines.stops.as_slice() {
        let (line, disk, write, keep) = (stop.line, stop.disk, stop.write, stop.keep);
        println!(rt; "  {line}: stop {disk} {write} {keep}")?;
    }
    for fault in lines.faults.as_slice() {
        let (line, disk, first, last) = (fault.line, fault.disk, fault.first, fault.last);
        let kind = fault.kind;
        println!(rt; "  {line}: fault {disk} {kind:?} {first}-{last}")?;
    }
    for fate in lines.fates.as_slice() {
        let (line, node, first, last) = (fate.line, fate.node, fate.first, fate.last);
        let fate = fate.fate;
        println!(rt; "  {line}: fate {node} {first}-{last} {fate:?}")?;
    }
    for disk in 0..9u8 {
        show_plan(rt, lines, disk)?;
    }
    Ok(())
}

fn show_plan<R: Print + AllocGlobal>(rt: &R, lines: &Lines, disk: u8) -> io::Result<()> {
    let Ok(plan) = lines.plan_of(rt.alloc(), disk) else {
        return println!(rt; "  disk {disk}: no memory");
    };
    let stops = plan.stops.as_slice().len();
    let fails = plan.fails.as_slice().len();
    if stops + fails == 0 {
        return Ok(());
    }
    println!(rt; "  disk {disk}: {stops} stops, {fails} failing calls")
}
