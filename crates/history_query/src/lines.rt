//! The query on the history.
ghost use Rattle.std.specs.Prelude.{◌≡◌, ◌-◌, ◌++◌, filter, min, IfOk, IsTrue};
ghost use Rattle.history_query.specs.Shown.{are_consecutive, is_between};

use pm_types::{Line, LineList, NewestLines};
use std::alloc::{AllocError, Global};

/// The kept lines whose place is at least `ge` and below `lt`, in order. It looks at no other line than the first of
/// each piece, since the places count up by one.
pub fn history(alloc: Global, lines: &NewestLines, ge: u64, lt: u64) -> Result<LineList, AllocError>
    requires consecutive { IsTrue (are_consecutive lines.now) }
    ensures { IfOk result (λ list. list ≡ filter (is_between ge lt) lines.now) }
{
    let (older, newer) = lines.as_slices();
    let items = joined(alloc, between(older, ge, lt), between(newer, ge, lt))?;
    Ok(LineList::of(items))
}

fn joined(alloc: Global, older: &[Line], newer: &[Line]) -> Result<Vec<Line>, AllocError>
    ensures { IfOk result (λ all. all.items ≡ older.now ++ newer.now) }
{
    let mut all = Vec::new(alloc);
    all.extend_from_slice(older)?;
    all.extend_from_slice(newer)?;
    Ok(all)
}

/// The lines of one piece whose places are in the range.
fn between(lines: &[Line], ge: u64, lt: u64) -> &[Line]
    requires consecutive { IsTrue (are_consecutive lines.now) }
    ensures { result.now ≡ filter (is_between ge lt) lines.now }
{
    let Some(oldest) = lines.first() else {
        return lines;
    };
    let end = index_of(lt, oldest.place, lines.len());
    let start = index_of(ge, oldest.place, end);
    &lines[start..end]
}

/// How far a place is behind the oldest, at most so far as the end.
fn index_of(place: u64, oldest: u64, end: usize) -> usize
    ensures { result ≡ min (place - oldest) end }
{
    place.saturating_sub(oldest).min(end as u64) as usize
}
