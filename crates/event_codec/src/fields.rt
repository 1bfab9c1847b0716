//! Fields behind one another, options and lists.
ghost use Rattle.std.specs.Prelude.{◌≡◌, ◌++◌, ◌<◌, ◌^◌, IfOk, IfErr, OnOk, length};
ghost use Rattle.std.specs.List.{AllByRecursion, flat_map};
ghost use Rattle.event_codec.specs.Spelling.{IsOutside, pair_spelled, PairFits, option_spelled, OptionFits, ManyFit, list_spelled, ListFits};
ghost use Rattle.event_codec.specs.Unique.{unique-pair, unique-option};

use crate::taking::{Put, Take, Unread};
use std::alloc::{AllocError, Global};

impl<A: Take, B: Take> Take for (A, B) {
    ghost spelled = { pair_spelled A.spelled B.spelled };

    ghost fits = { PairFits A.fits B.fits };

    ghost unique = { unique-pair A.unique B.unique };

    fn take(alloc: Global, bytes: &[u8]) -> Result<((A, B), &[u8]), Unread> {
        let (first, rest) = A::take(alloc, bytes)?;
        let (second, rest) = B::take(alloc, rest)?;
        Ok(((first, second), rest))
    }
}

impl<A: Put, B: Put> Put for (A, B) {
    fn put(&self, alloc: Global, into: &mut Vec<u8>) -> Result<(), AllocError> {
        let (first, second) = self;
        first.put(alloc, into)?;
        second.put(alloc, into)
    }
}

impl<T: Take> Take for Option<T> {
    ghost spelled = { option_spelled T.spelled };

    ghost fits = { OptionFits T.fits };

    ghost unique = { unique-option T.unique };

    fn take(alloc: Global, bytes: &[u8]) -> Result<(Option<T>, &[u8]), Unread> {
        let (there, rest) = u8::take(alloc, bytes)?;
        match there {
            0 => Ok((None, rest)),
            1 => {
                let (value, rest) = T::take(alloc, rest)?;
                Ok((Some(value), rest))
            }
            _ => Err(Unread::Outside),
        }
    }
}

impl<T: Put> Put for Option<T> {
    fn put(&self, alloc: Global, into: &mut Vec<u8>) -> Result<(), AllocError> {
        match self {
            None => false.put(alloc, into),
            Some(value) => {
                true.put(alloc, into)?;
                value.put(alloc, into)
            }
        }
    }
}

/// So many values, in order.
pub(crate) fn take_many<T: Take>(
    alloc: Global,
    bytes: &[u8],
    count: usize,
) -> Result<(Vec<T>, &[u8]), Unread>
    ensures taken { IfOk result (λ t. ManyFit T.fits count t.0.items
        × (bytes.now ≡ flat_map T.spelled t.0.items ++ t.1.now)) }
    ensures outside { IfErr result (λ e. e ≡ Unread.Outside
        → IsOutside (flat_map T.spelled) (ManyFit T.fits count) bytes.now) }
{
    let mut values = Vec::new(alloc);
    let mut rest = bytes;
    'values: for _ in 0..count {
        let (value, after) = T::take(alloc, rest)?;
        values.push(value)?;
        rest = after;
    }
    Ok((values, rest))
}

/// A count of one byte, at most the limit, and so many values.
pub(crate) fn take_list<T: Take>(
    alloc: Global,
    bytes: &[u8],
    limit: u8,
) -> Result<(Vec<T>, &[u8]), Unread>
    ensures taken { IfOk result (λ t. ListFits T.fits limit t.0.items
        × (bytes.now ≡ list_spelled T.spelled t.0.items ++ t.1.now)) }
    ensures outside { IfErr result (λ e. e ≡ Unread.Outside
        → IsOutside (list_spelled T.spelled) (ListFits T.fits limit) bytes.now) }
{
    let (count, rest) = u8::take(alloc, bytes)?;
    if count > limit {
        return Err(Unread::Outside);
    }
    take_many(alloc, rest, usize::from(count))
}

/// Appends the values, in order.
pub(crate) fn put_many<T: Put>(
    alloc: Global,
    into: &mut Vec<u8>,
    values: &[T],
) -> Result<(), AllocError>
    ensures appended { OnOk result
        (into.new.items ≡ into.old.items ++ flat_map T.spelled values.now) }
    ensures form { OnOk result (AllByRecursion T.fits values.now) }
{
    'values: for value in values {
        value.put(alloc, into)?;
    }
    Ok(())
}

/// Appends a count of one byte, and the values in order.
pub(crate) fn put_list<T: Put>(
    alloc: Global,
    into: &mut Vec<u8>,
    values: &[T],
) -> Result<(), AllocError>
    requires { length values.now < 2 ^ 8 }
    ensures appended { OnOk result
        (into.new.items ≡ into.old.items ++ list_spelled T.spelled values.now) }
    ensures form { OnOk result (AllByRecursion T.fits values.now) }
{
    (values.len() as u8).put(alloc, into)?;
    put_many(alloc, into, values)
}
