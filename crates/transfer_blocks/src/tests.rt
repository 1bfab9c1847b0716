//! Rows over areas in memory, and over the transfer table. A put goes over bytes that lie there and past their end; a
//! slot that becomes free is taken again; a whole transfer has the contents that were read, and goes no further.
use crate::{Area, MemStaging, Staging, StagingError, lookup, table};
use pm_types::{Contents, ExitVerdict, Phase, Refusal, Reply, TransferList, Transfers};
use std::alloc::{AllocError, Global};
use ucm_base::{Action, ClientId, ClusterName, Manifest, Needs, Part, VersionText};

#[test]
fn an_area_holds_what_was_put(rt: HostRuntime) -> Result<(), StagingError> {
    let mut staging = MemStaging::new(rt.alloc())?;
    let area = Area::Transfer { slot: 7 };
    staging.put(area, 0, b"abcd")?;
    staging.put(area, 2, b"XYZ")?;
    staging.put(Area::Side { place: 63, side: 1 }, 0, b"side")?;
    let bytes = staging.get(area, 0, 5)?;
    assert!(rt; bytes.as_slice() == b"abXYZ".as_slice());
    let bytes = staging.get(Area::Side { place: 63, side: 1 }, 1, 3)?;
    assert!(rt; bytes.as_slice() == b"ide".as_slice());
    assert_eq!(rt; staging.faults(), 0);
    Ok(())
}

/// What was read of a package whose one payload has five bytes.
fn contents(alloc: Global) -> Option<Contents> {
    let name = ClusterName::of(b"brake").ok()?;
    let version = VersionText::of(alloc, b"1.2.3").ok()?;
    let mut parts = Vec::new(alloc);
    parts
        .push(Part {
            manifest: Manifest {
                action: Action::Install,
                name,
                version,
                needs: Needs::of(Vec::new(alloc)),
                sha256: [7; 32],
            },
            payload: 5,
        })
        .ok()?;
    Some(Contents::of(parts))
}

#[test]
fn a_transfer_runs_to_its_end(rt: HostRuntime) -> Result<(), AllocError> {
    let alloc = rt.alloc();
    let Some(client) = ClientId::of(3) else {
        panic!(rt; "client 3");
    };
    let Some(contents) = contents(alloc) else {
        panic!(rt; "contents");
    };
    let mut transfers = Transfers::of(1, TransferList::new(alloc)?);
    assert!(rt;
        matches!(
            table::start(&mut transfers, client, 9),
            Reply::Started { id: 1 }
        )
    );
    assert!(rt;
        matches!(
            table::start(&mut transfers, client, 4),
            Reply::Started { id: 2 }
        )
    );
    assert!(rt; matches!(table::delete(&mut transfers, client, 1), Reply::Done));
    assert!(rt;
        matches!(
            table::start(&mut transfers, client, 9),
            Reply::Started { id: 3 }
        )
    );
    assert!(rt; lookup::ids(&transfers.list, client).as_slice() == [2, 3].as_slice());
    assert!(rt; matches!(lookup::find(&transfers.list, client, 3), Some(found) if found.slot == 0));
    assert!(rt; matches!(table::block(&mut transfers, client, 3, 1, 8), Reply::Done));
    assert!(rt;
        matches!(
            table::block(&mut transfers, client, 3, 1, 1),
            Reply::Refused(Refusal::IncorrectBlock)
        )
    );
    let early = table::exit(
        &mut transfers,
        client,
        3,
        ExitVerdict::Bad(Refusal::InvalidManifest),
    );
    assert!(rt; matches!(early, Reply::Refused(Refusal::InsufficientData)));
    assert!(rt; matches!(table::block(&mut transfers, client, 3, 2, 1), Reply::Done));
    let bad = table::exit(
        &mut transfers,
        client,
        3,
        ExitVerdict::Bad(Refusal::InvalidManifest),
    );
    assert!(rt; matches!(bad, Reply::Refused(Refusal::InvalidManifest)));
    assert!(rt;
        matches!(
            table::exit(&mut transfers, client, 3, ExitVerdict::Good(contents)),
            Reply::Done
        )
    );
    assert!(rt;
        matches!(
            table::block(&mut transfers, client, 3, 3, 1),
            Reply::Refused(Refusal::OperationNotPermitted)
        )
    );
    let (next, list) = transfers.into_parts();
    assert_eq!(rt; next, 4);
    let [_, last] = list.as_slice() else {
        panic!(rt; "two transfers");
    };
    assert_eq!(rt; last.header.phase, Phase::Transferred);
    assert!(rt; matches!(last.contents.as_slice(), [part] if part.payload == 5));
    Ok(())
}
