//! What is printed of a node's entries.
ghost use Rattle.std.specs.Prelude.{◌≡◌, ◌++◌, OnOk, string_bytes};
ghost use Rattle.report.specs.Entries.{arguments_text, call_text, entry_text};

use crate::blocks::add_block;
use pm_types::{Call, Entry};
use std::alloc::{AllocError, Global};

/// Adds a call's arguments, each behind a blank.
fn add_arguments(
    alloc: Global,
    text: &mut String,
    call: &Call,
    full: bool,
) -> Result<(), AllocError>
    ensures { OnOk result (string_bytes text.new
        ≡ string_bytes text.old ++ arguments_text full call.now) }
{
    match call {
        Call::TransferStart { size } => write!(text, " {size}"),
        Call::TransferData { id, counter, bytes } => {
            write!(text, " {id} {counter} ")?;
            add_block(alloc, text, bytes.as_slice(), full)
        }
        Call::TransferExit { id } | Call::DeleteTransfer { id } | Call::Cancel { id } => {
            write!(text, " {id}")
        }
        Call::ProcessSwPackage { id, tag } => write!(text, " {id} {tag}"),
        Call::Sync
        | Call::Activate
        | Call::Finish
        | Call::Rollback
        | Call::RevertProcessedSwPackages => Ok(()),
    }
}

fn add_call(alloc: Global, text: &mut String, call: &Call, full: bool) -> Result<(), AllocError>
    ensures { OnOk result (string_bytes text.new
        ≡ string_bytes text.old ++ call_text full call.now) }
{
    let name = call.name();
    write!(text, "{name}")?;
    add_arguments(alloc, text, call, full)
}

/// Adds a call with what it was answered, or a unit with the status after it.
pub(crate) fn add_entry(
    alloc: Global,
    text: &mut String,
    entry: &Entry,
    full: bool,
) -> Result<(), AllocError>
    ensures { OnOk result (string_bytes text.new
        ≡ string_bytes text.old ++ entry_text full entry.now) }
{
    match entry {
        Entry::Numbered {
            client,
            no,
            call,
            reply,
        } => {
            write!(text, "{client} {no} ")?;
            add_call(alloc, text, call, full)?;
            write!(text, " -> {reply}")
        }
        Entry::Unit { passed, after } => {
            if *passed {
                write!(text, "unit pass -> {after}")
            } else {
                write!(text, "unit fail -> {after}")
            }
        }
    }
}
