//! What nodes in memory did under drivers: each entry of their histories, as a report prints it.

use crate::campaigns::{Campaign, Outcome, run};
use crate::findings::print_finding;
use crate::linked::Trouble;
use crate::packing::{PartRow, install, packages, removal};
use anyhow::Result;
use campaign_core::MasterList;
use report::{
    NamedList, NodeHistories, NodeHistory, OpeningList, ReplyList, Shown, UnreachedList,
    print_report,
};
use std::alloc::Global;
use std::io::Print;
use std::sync::Wait;
use std::thread::Threads;
use sub_core::{Fate, Finding, Round};
use ucm_base::NodeId;

/// The report of a run in which just this node did something.
fn report_of(alloc: Global, node: NodeHistory) -> Option<Vec<u8>> {
    let shown = Shown {
        campaign: Some(7),
        time: 0,
        opening: OpeningList::new(alloc),
        named: NamedList::new(alloc),
        master: MasterList::new(alloc),
        nodes: NodeHistories::of(vec![in alloc; node].ok()?),
        unreached: UnreachedList::new(alloc),
        replies: ReplyList::new(alloc),
        cancel: None,
    };
    print_report(alloc, &shown, false).ok()
}

fn show_finding(rt: &impl Print, of: &str, found: Option<Finding>) -> Result<()> {
    print!(rt; "{of}: ")?;
    match found {
        None => print!(rt; "nothing")?,
        Some(finding) => print_finding(rt, finding)?,
    }
    println!(rt; "")?;
    Ok(())
}

/// The numbers of the attempts, what the rounds and the end found, and the history.
fn show(rt: &impl Print, alloc: Global, outcome: Outcome) -> Result<()> {
    print!(rt; "sent")?;
    for no in outcome.sent.iter() {
        print!(rt; " {no}")?;
    }
    println!(rt; "")?;
    show_finding(rt, "rounds", outcome.vote)?;
    show_finding(rt, "end", outcome.end)?;
    let report = NodeId::of(1)
        .map(|node| NodeHistory {
            node,
            entries: outcome.entries,
        })
        .and_then(|history| report_of(alloc, history));
    match report.as_deref().map(str::from_utf8) {
        Some(Ok(text)) => print!(rt; "{text}")?,
        _ => println!(rt; "no report")?,
    }
    Ok(())
}

/// A row: what it shows, the packages, and the campaign.
fn row<R: Threads + Wait + Print + Sync>(
    rt: &R,
    alloc: Global,
    heading: &str,
    lists: &[&[PartRow]],
    campaign: &Campaign,
) -> Result<()> {
    println!(rt; "{heading}")?;
    let outcome = packages(alloc, lists).and_then(|packages| run(rt, alloc, &packages, campaign));
    match outcome {
        Some(outcome) => show(rt, alloc, outcome),
        None => Ok(println!(rt; "nothing")?),
    }
}

/// Each attempt is delivered, and each cluster is verified.
fn smooth(last: Round, commit: bool) -> Campaign {
    Campaign {
        fails: None,
        trouble: None,
        last,
        commit,
    }
}

/// Attempts from one to another have this fate.
fn troubled(first: u32, last: u32, fate: Fate, commit: bool) -> Campaign {
    Campaign {
        trouble: Some(Trouble { first, last, fate }),
        ..smooth(Round::Activate, commit)
    }
}

/// Rows in which each attempt is delivered.
fn print_smooth<R: Threads + Wait + Print + Sync>(rt: &R, alloc: Global) -> Result<()> {
    let core: [&[PartRow]; 1] = [&[removal("core")]];
    let pairs: [&[PartRow]; 2] = [
        &[install("app", 1, 10), install("log", 2, 5_000)],
        &[install("map", 3, 10), install("radio", 4, 10)],
    ];
    let commit = smooth(Round::Activate, true);
    let abort = smooth(Round::Activate, false);
    row(rt, alloc, "a removal, and Commit", &core, &commit)?;
    row(rt, alloc, "two pairs, and Commit", &pairs, &commit)?;
    row(rt, alloc, "two pairs, and Abort", &pairs, &abort)?;
    let processed = smooth(Round::Process, false);
    row(
        rt,
        alloc,
        "two pairs are processed, and Abort",
        &pairs,
        &processed,
    )?;
    let transferred = smooth(Round::Transfer, false);
    row(
        rt,
        alloc,
        "two pairs are transferred, and Abort",
        &pairs,
        &transferred,
    )?;
    let fails = Campaign {
        fails: Some("radio"),
        ..abort
    };
    row(
        rt,
        alloc,
        "a pair of which one fails, and Abort",
        &pairs[1..],
        &fails,
    )?;
    let absent: [&[PartRow]; 1] = [&[removal("app")]];
    row(
        rt,
        alloc,
        "a removal of what isn't there, and Abort",
        &absent,
        &abort,
    )
}

/// Rows over one removal, in which attempts are lost or not answered.
fn print_troubled<R: Threads + Wait + Print + Sync>(rt: &R, alloc: Global) -> Result<()> {
    let core: [&[PartRow]; 1] = [&[removal("core")]];
    let finish = troubled(8, 14, Fate::Lost, true);
    row(
        rt,
        alloc,
        "seven attempts at Finish are lost",
        &core,
        &finish,
    )?;
    let last = troubled(8, 15, Fate::Lost, true);
    row(rt, alloc, "eight attempts at Finish are lost", &core, &last)?;
    let block = troubled(3, 10, Fate::Lost, false);
    row(
        rt,
        alloc,
        "eight attempts at a block are lost",
        &core,
        &block,
    )?;
    let activate = troubled(6, 6, Fate::Unanswered, true);
    row(rt, alloc, "an Activate isn't answered", &core, &activate)
}

/// Prints the rows.
pub fn print<R: Threads + Wait + Print + Sync>(rt: &R, alloc: Global) -> Result<()> {
    print_smooth(rt, alloc)?;
    print_troubled(rt, alloc)
}
