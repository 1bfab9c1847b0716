//! The report of a run: its parts, in their order.
ghost use Rattle.std.specs.Prelude.{◌≡◌, ◌++◌, IfOk, OnOk, string_bytes};
ghost use Rattle.report.specs.Lines.{campaign_line, cancel_line, last_result, result_in};
ghost use Rattle.report.specs.Report.{beginning, happenings, heading, report_text};

use crate::Shown;
use crate::lines::{add_events, add_histories, add_named, add_opening, add_replies, add_unreached};
use campaign_core::{CampaignRefusal, CampaignResult, MasterEvent};
use std::alloc::{AllocError, Global};

/// The report of a run. A full one has what the run began with, too, and the bytes of blocks in place of their digests.
pub fn print_report(alloc: Global, shown: &Shown<'_>, full: bool) -> Result<Vec<u8>, AllocError>
    ensures { IfOk result (λ report. report.items ≡ report_text full shown.now) }
{
    let mut text = String::new(alloc);
    add_heading(&mut text, shown)?;
    add_beginning(alloc, &mut text, shown, full)?;
    add_happenings(alloc, &mut text, shown, full)?;
    Ok(text.into_bytes())
}

/// The result that an event enters.
fn result_in(event: &MasterEvent) -> Option<CampaignResult>
    ensures { result ≡ result_in event.now }
{
    match event {
        MasterEvent::Enter { result } => Some(*result),
        _ => None,
    }
}

/// The result that the list enters last.
fn last_result(events: &[(u64, MasterEvent)]) -> Option<CampaignResult>
    ensures { result ≡ last_result events.now }
{
    let mut last = None;
    for event in events {
        last = result_in(&event.1).or(last);
    }
    last
}

fn add_campaign(
    text: &mut String,
    campaign: Option<u32>,
    entered: Option<CampaignResult>,
) -> Result<(), AllocError>
    ensures { OnOk result (string_bytes text.new
        ≡ string_bytes text.old ++ campaign_line campaign entered) }
{
    match (campaign, entered) {
        (None, _) => write!(text, "campaign none\n"),
        (Some(number), None) => write!(text, "campaign {number} open\n"),
        (Some(number), Some(result)) => write!(text, "campaign {number} {result}\n"),
    }
}

fn add_cancel(
    text: &mut String,
    cancel: Option<Result<(), CampaignRefusal>>,
) -> Result<(), AllocError>
    ensures { OnOk result (string_bytes text.new
        ≡ string_bytes text.old ++ cancel_line cancel) }
{
    match cancel {
        None => Ok(()),
        Some(Ok(())) => write!(text, "cancel Done\n"),
        Some(Err(refusal)) => write!(text, "cancel {refusal}\n"),
    }
}

fn add_heading(text: &mut String, shown: &Shown<'_>) -> Result<(), AllocError>
    ensures { OnOk result (string_bytes text.new
        ≡ string_bytes text.old ++ heading shown.now) }
{
    let entered = last_result(shown.master.as_slice());
    add_campaign(text, shown.campaign, entered)?;
    add_cancel(text, shown.cancel)
}

fn add_beginning(
    alloc: Global,
    text: &mut String,
    shown: &Shown<'_>,
    full: bool,
) -> Result<(), AllocError>
    ensures { OnOk result (string_bytes text.new
        ≡ string_bytes text.old ++ beginning full shown.now) }
{
    if !full {
        return Ok(());
    }
    add_opening(alloc, text, shown.opening.as_slice())?;
    add_named(alloc, text, shown.named.as_slice())?;
    let time = shown.time;
    write!(text, "time {time}\n")
}

fn add_happenings(
    alloc: Global,
    text: &mut String,
    shown: &Shown<'_>,
    full: bool,
) -> Result<(), AllocError>
    ensures { OnOk result (string_bytes text.new
        ≡ string_bytes text.old ++ happenings full shown.now) }
{
    add_events(text, shown.master.as_slice())?;
    add_histories(alloc, text, shown.nodes.as_slice(), full)?;
    add_unreached(text, shown.unreached.as_slice())?;
    add_replies(text, shown.time, shown.replies.as_slice())
}
