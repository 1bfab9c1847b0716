//! Sources and sinks in memory: what is taken in parts is the whole, and a call fails where its plan says.
use std::alloc::{AllocError, Global};
use std::test::Fail;
use ucm_ports::{Cuts, Fails, MemSink, MemSource, ReadError, Sink, Source, put_all, read_all};

const BYTES: &[u8] = b"call 1 1 1.1 start 5000\n";

/// The bytes as a source that parts them so, and of which the takes of these numbers fail.
fn source(alloc: Global, cuts: &[u64], fails: &[u64]) -> Result<MemSource, AllocError> {
    let bytes = Vec::from_slice(alloc, BYTES)?;
    let cuts = Cuts::of(Vec::from_slice(alloc, cuts)?);
    Ok(MemSource::cut(bytes, cuts, Fails::of(Vec::from_slice(alloc, fails)?)))
}

#[test]
fn bytes_in_parts_are_the_whole(rt: HostRuntime) -> Result<(), Fail> {
    let alloc = rt.alloc();
    let rows: [&[u64]; 3] = [&[], &[1, 2, 0, 5], &[24]];
    for cuts in rows {
        let mut source = source(alloc, cuts, &[])?;
        let Ok(bytes) = read_all(alloc, &mut source, BYTES.len()) else {
            return Err(Fail::from("not read"));
        };
        assert!(rt; bytes.as_slice() == BYTES);
        assert_eq!(rt; source.faults(), 0);
    }
    let mut short = source(alloc, &[], &[])?;
    let read = read_all(alloc, &mut short, BYTES.len() - 1);
    assert!(rt; matches!(read, Err(ReadError::TooLong)));
    Ok(())
}

#[test]
fn a_call_fails_where_its_plan_says(rt: HostRuntime) -> Result<(), Fail> {
    let alloc = rt.alloc();
    for call in 1..3 {
        let mut source = source(alloc, &[], &[call])?;
        let read = read_all(alloc, &mut source, BYTES.len());
        assert!(rt; matches!(read, Err(ReadError::Failed)));
        assert_eq!(rt; source.faults(), 1);
    }
    // The room of the sink, the puts that fail, and what it holds in the end.
    let rows: [(usize, &[u64], bool, &[u8]); 4] = [
        (100, &[], true, BYTES),
        (100, &[2], true, BYTES),
        (100, &[1], false, b""),
        (5, &[], false, b"call "),
    ];
    for (room, fails, whole, written) in rows {
        let fails = Fails::of(Vec::from_slice(alloc, fails)?);
        let mut sink = MemSink::new(alloc, room, fails)?;
        assert_eq!(rt; put_all(&mut sink, BYTES).is_ok(), whole);
        assert!(rt; sink.as_slice() == written);
        assert_eq!(rt; sink.faults(), u64::from(!whole));
    }
    Ok(())
}
