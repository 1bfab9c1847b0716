//! The lines of a report, list by list.
ghost use Rattle.std.specs.Prelude.{◌≡◌, ◌++◌, OnOk, string_bytes};
ghost use Rattle.std.specs.List.{flat_map};
ghost use Rattle.ucm_base.specs.Printed.{need_text};
ghost use Rattle.report.specs.Answers.{spaced};
ghost use Rattle.report.specs.Lines.{change_text, gave_text, master_line, named_line, node_line, node_lines, open_line, opening_line, reply_line, whose_text};

use crate::answers::add_answer;
use crate::blocks::add_bytes;
use crate::entries::add_entry;
use crate::{Gave, LineReply, Named, NodeHistory, Opening, Unreached, Whose};
use campaign_core::MasterEvent;
use pm_types::Entry;
use std::alloc::{AllocError, Global};
use ucm_base::{Manifest, Need, NodeId};

fn add_needs(text: &mut String, needs: &[Need]) -> Result<(), AllocError>
    ensures { OnOk result (string_bytes text.new
        ≡ string_bytes text.old ++ flat_map (λ need. spaced (need_text need)) needs.now) }
{
    for need in needs {
        write!(text, " {need}")?;
    }
    Ok(())
}

fn add_opened(alloc: Global, text: &mut String, opening: &Opening) -> Result<(), AllocError>
    ensures { OnOk result (string_bytes text.new
        ≡ string_bytes text.old ++ opening_line opening.now) }
{
    let node = opening.node;
    let name = opening.cluster.name;
    let version = opening.cluster.version.text();
    write!(text, "opening {node} {name} {version} ")?;
    add_bytes(alloc, text, opening.cluster.content.as_slice())?;
    add_needs(text, opening.cluster.needs.as_slice())?;
    text.push_str("\n")
}

pub(crate) fn add_opening(
    alloc: Global,
    text: &mut String,
    clusters: &[Opening],
) -> Result<(), AllocError>
    ensures { OnOk result (string_bytes text.new
        ≡ string_bytes text.old ++ flat_map opening_line clusters.now) }
{
    for cluster in clusters {
        add_opened(alloc, text, cluster)?;
    }
    Ok(())
}

fn add_change(text: &mut String, node: NodeId, manifest: &Manifest) -> Result<(), AllocError>
    ensures { OnOk result (string_bytes text.new
        ≡ string_bytes text.old ++ change_text node manifest.now) }
{
    let name = manifest.name;
    let action = manifest.action;
    let version = manifest.version.text();
    write!(text, "named {node} {name} {action} {version} ")
}

fn add_part(alloc: Global, text: &mut String, part: &Named<'_>) -> Result<(), AllocError>
    ensures { OnOk result (string_bytes text.new
        ≡ string_bytes text.old ++ named_line part.now) }
{
    add_change(text, part.node, part.manifest)?;
    add_bytes(alloc, text, part.payload)?;
    text.push_str("\n")
}

pub(crate) fn add_named(
    alloc: Global,
    text: &mut String,
    parts: &[Named<'_>],
) -> Result<(), AllocError>
    ensures { OnOk result (string_bytes text.new
        ≡ string_bytes text.old ++ flat_map named_line parts.now) }
{
    for part in parts {
        add_part(alloc, text, part)?;
    }
    Ok(())
}

pub(crate) fn add_events(text: &mut String, events: &[(u64, MasterEvent)]) -> Result<(), AllocError>
    ensures { OnOk result (string_bytes text.new
        ≡ string_bytes text.old ++ flat_map master_line events.now) }
{
    for event in events {
        let (place, event) = *event;
        write!(text, "master {place} {event}\n")?;
    }
    Ok(())
}

fn add_placed(
    alloc: Global,
    text: &mut String,
    node: NodeId,
    placed: &(u64, Entry),
    full: bool,
) -> Result<(), AllocError>
    ensures { OnOk result (string_bytes text.new
        ≡ string_bytes text.old ++ node_line full node placed.now) }
{
    let place = placed.0;
    write!(text, "node {node} {place} ")?;
    add_entry(alloc, text, &placed.1, full)?;
    text.push_str("\n")
}

fn add_entries(
    alloc: Global,
    text: &mut String,
    node: NodeId,
    entries: &[(u64, Entry)],
    full: bool,
) -> Result<(), AllocError>
    ensures { OnOk result (string_bytes text.new
        ≡ string_bytes text.old ++ flat_map (node_line full node) entries.now) }
{
    for placed in entries {
        add_placed(alloc, text, node, placed, full)?;
    }
    Ok(())
}

fn add_history(
    alloc: Global,
    text: &mut String,
    history: &NodeHistory,
    full: bool,
) -> Result<(), AllocError>
    ensures { OnOk result (string_bytes text.new
        ≡ string_bytes text.old ++ node_lines full history.now) }
{
    add_entries(alloc, text, history.node, history.entries.as_slice(), full)
}

pub(crate) fn add_histories(
    alloc: Global,
    text: &mut String,
    nodes: &[NodeHistory],
    full: bool,
) -> Result<(), AllocError>
    ensures { OnOk result (string_bytes text.new
        ≡ string_bytes text.old ++ flat_map (node_lines full) nodes.now) }
{
    for history in nodes {
        add_history(alloc, text, history, full)?;
    }
    Ok(())
}

fn add_open(text: &mut String, unreached: Unreached) -> Result<(), AllocError>
    ensures { OnOk result (string_bytes text.new
        ≡ string_bytes text.old ++ open_line unreached) }
{
    let Unreached {
        whose,
        losses,
        faults,
    } = unreached;
    match whose {
        Whose::Master => write!(text, "open master losses {losses} faults {faults}\n"),
        Whose::Node(node) => write!(text, "open node {node} losses {losses} faults {faults}\n"),
    }
}

pub(crate) fn add_unreached(text: &mut String, unreached: &[Unreached]) -> Result<(), AllocError>
    ensures { OnOk result (string_bytes text.new
        ≡ string_bytes text.old ++ flat_map open_line unreached.now) }
{
    for open in unreached {
        add_open(text, *open)?;
    }
    Ok(())
}

fn add_gave(text: &mut String, start: u64, gave: &Gave) -> Result<(), AllocError>
    ensures { OnOk result (string_bytes text.new
        ≡ string_bytes text.old ++ gave_text start gave.now) }
{
    match gave {
        Gave::Replied(reached) => write!(text, "{reached}"),
        Gave::Did(worked) => write!(text, "{worked}"),
        Gave::Saw { place, answer } => {
            write!(text, "at {place} ")?;
            add_answer(text, start, answer)
        }
        Gave::NoReply => write!(text, "NoReply"),
    }
}

fn add_reply(text: &mut String, start: u64, reply: &LineReply) -> Result<(), AllocError>
    ensures { OnOk result (string_bytes text.new
        ≡ string_bytes text.old ++ reply_line start reply.now) }
{
    let line = reply.line;
    write!(text, "line {line} ")?;
    add_gave(text, start, &reply.gave)?;
    text.push_str("\n")
}

pub(crate) fn add_replies(
    text: &mut String,
    start: u64,
    replies: &[LineReply],
) -> Result<(), AllocError>
    ensures { OnOk result (string_bytes text.new
        ≡ string_bytes text.old ++ flat_map (reply_line start) replies.now) }
{
    for reply in replies {
        add_reply(text, start, reply)?;
    }
    Ok(())
}
