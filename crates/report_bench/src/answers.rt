//! What lines of clients gave, by numbers.

use crate::codes::{at, call_no, client, name, refusal, status};
use crate::events::reached;
use pm_types::{
    Answer, CallName, ChangeInfo, ChangeList, ClusterInfo, ClusterList, Happened, Line, LineList,
    PackageInfo, PackageList, Phase, Worked,
};
use report::Gave;
use std::alloc::Global;
use ucm_base::{Action, VersionText};

fn phase(number: u64) -> Phase {
    match number {
        0 => Phase::Transferring,
        1 => Phase::Transferred,
        2 => Phase::Processing,
        _ => Phase::Processed,
    }
}

fn clusters(alloc: Global) -> Option<ClusterList> {
    let mut clusters = ClusterList::new(alloc);
    for number in 0..2u64 {
        let version = VersionText::of(alloc, b"1.0.0").ok()?;
        let name = name(number)?;
        clusters.push(ClusterInfo { name, version }).ok()?;
    }
    Some(clusters)
}

fn changes(alloc: Global) -> Option<ChangeList> {
    let mut changes = ChangeList::new(alloc);
    for action in [Action::Install, Action::Update, Action::Remove] {
        let version = VersionText::of(alloc, b"1.1.0").ok()?;
        let name = name(0)?;
        changes
            .push(ChangeInfo {
                name,
                action,
                version,
            })
            .ok()?;
    }
    Some(changes)
}

fn packages(alloc: Global) -> Option<PackageList> {
    let mut packages = PackageList::new(alloc);
    for number in 0..4u32 {
        packages
            .push(PackageInfo {
                id: number,
                phase: phase(u64::from(number)),
                received: 10,
                size: 20,
            })
            .ok()?;
    }
    Some(packages)
}

/// A call that was refused, a call that wasn't, and a unit.
fn history(alloc: Global, place: u64) -> Option<LineList> {
    let mut lines = LineList::new(alloc);
    for refusal in [11u8, 0] {
        let happened = Happened::Numbered {
            client: client(1)?,
            no: call_no(&[1, 5], 0)?,
            call: CallName::ProcessSwPackage,
            refusal,
        };
        lines.push(Line { place, happened }).ok()?;
    }
    let happened = Happened::Unit { after: status(1) };
    lines.push(Line { place, happened }).ok()?;
    Some(lines)
}

/// An answer: 0 and a status, 1 clusters, 2 changes, 3 packages, 4 and a percentage, 5 and a refusal, 6 and a place.
fn answer(alloc: Global, numbers: &[u64]) -> Option<Answer> {
    let number = at(numbers, 4);
    match at(numbers, 3) {
        0 => Some(Answer::Status(status(number))),
        1 => Some(Answer::Clusters(clusters(alloc)?)),
        2 => Some(Answer::Changes(changes(alloc)?)),
        3 => Some(Answer::Packages(packages(alloc)?)),
        4 => Some(Answer::Progress(u8::try_from(number).ok()?)),
        5 => Some(Answer::Refused(refusal(number, 0)?)),
        _ => Some(Answer::History(history(alloc, number)?)),
    }
}

fn worked(numbers: &[u64]) -> Worked {
    let after = status(at(numbers, 1));
    match at(numbers, 0) {
        0 => Worked::Unit {
            passed: true,
            after,
        },
        _ => Worked::Nothing { status: after },
    }
}

/// What a line gave: 0 and what a call gave, 1 and what a unit did, 2, a place and an answer, or 3 nothing.
pub fn gave(alloc: Global, numbers: &[u64]) -> Option<Gave> {
    match at(numbers, 1) {
        0 => Some(Gave::Replied(reached(numbers.get(2..)?)?)),
        1 => Some(Gave::Did(worked(numbers.get(2..)?))),
        2 => Some(Gave::Saw {
            place: at(numbers, 2),
            answer: answer(alloc, numbers)?,
        }),
        _ => Some(Gave::NoReply),
    }
}
