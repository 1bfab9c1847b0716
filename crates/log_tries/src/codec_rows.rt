//! How bytes are read.
use event_codec::{
    event_bytes, fold_bytes, put_record, put_state, take_event, take_fold, take_record, take_state,
};
use std::alloc::{AllocError, Global};

/// What bytes may be.
#[derive(Clone, Copy, Debug, PartialEq, Eq)]
pub enum Kind {
    Record,
    State,
    Event,
    Fold,
}

/// How so many bytes were read as a kind: whether they are taken, whether what was taken is put as they were, and how
/// many of their fronts are taken.
#[derive(Debug, Drop)]
pub struct Read {
    kind: Kind,
    len: usize,
    taken: bool,
    same: bool,
    fronts: usize,
}

/// A fold is put with at most so many earlier campaigns.
const MOST_EARLIER: usize = 65_535;

/// How bytes of a kind are read.
pub fn read_as(alloc: Global, kind: Kind, bytes: &[u8]) -> Result<Read, AllocError> {
    let again = put_again(alloc, kind, bytes)?;
    let mut fronts = 0usize;
    for len in 0..bytes.len() {
        if put_again(alloc, kind, &bytes[..len])?.is_some() {
            fronts = fronts.saturating_add(1);
        }
    }
    Ok(Read {
        kind,
        len: bytes.len(),
        taken: again.is_some(),
        same: matches!(&again, Some(put) if put.as_slice() == bytes),
        fronts,
    })
}

/// The bytes of what is taken from these.
fn put_again(alloc: Global, kind: Kind, bytes: &[u8]) -> Result<Option<Vec<u8>>, AllocError> {
    let mut again = Vec::new(alloc);
    match kind {
        Kind::Record => match take_record(alloc, bytes)? {
            Some(record) => put_record(alloc, &mut again, &record)?,
            None => return Ok(None),
        },
        Kind::State => match take_state(alloc, bytes)? {
            Some(state) => put_state(alloc, &mut again, &state)?,
            None => return Ok(None),
        },
        Kind::Event => match take_event(alloc, bytes)? {
            Some(event) => again = event_bytes(alloc, &event)?,
            None => return Ok(None),
        },
        Kind::Fold => match take_fold(alloc, bytes)? {
            Some(fold) if fold.earlier.as_slice().len() <= MOST_EARLIER => {
                again = fold_bytes(alloc, &fold)?
            }
            _ => return Ok(None),
        },
    }
    Ok(Some(again))
}
