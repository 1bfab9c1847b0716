//! Numbers of one to eight bytes, the highest byte first, and truth values.
ghost use Rattle.wire.specs.Fields.{u8_field, u16_field, u32_field, u64_field};
ghost use Rattle.event_codec.specs.Spelling.{Any, HasBits, bool_spelled};
ghost use Rattle.event_codec.specs.Unique.{unique-u8, unique-u16, unique-u32, unique-u64, unique-bool};

use crate::taking::{Put, Take, Unread};
use std::alloc::{AllocError, Global};
use wire::{put_u8, put_u16, put_u32, put_u64, take_u8, take_u16, take_u32, take_u64};

impl Take for u8 {
    ghost spelled = { u8_field };

    ghost fits = { HasBits 8 };

    ghost unique = { unique-u8 };

    fn take(_alloc: Global, bytes: &[u8]) -> Result<(u8, &[u8]), Unread> {
        take_u8(bytes).ok_or(Unread::Outside)
    }
}

impl Put for u8 {
    fn put(&self, _alloc: Global, into: &mut Vec<u8>) -> Result<(), AllocError> {
        put_u8(into, *self)
    }
}

impl Take for u16 {
    ghost spelled = { u16_field };

    ghost fits = { HasBits 16 };

    ghost unique = { unique-u16 };

    fn take(_alloc: Global, bytes: &[u8]) -> Result<(u16, &[u8]), Unread> {
        take_u16(bytes).ok_or(Unread::Outside)
    }
}

impl Put for u16 {
    fn put(&self, _alloc: Global, into: &mut Vec<u8>) -> Result<(), AllocError> {
        put_u16(into, *self)
    }
}

impl Take for u32 {
    ghost spelled = { u32_field };

    ghost fits = { HasBits 32 };

    ghost unique = { unique-u32 };

    fn take(_alloc: Global, bytes: &[u8]) -> Result<(u32, &[u8]), Unread> {
        take_u32(bytes).ok_or(Unread::Outside)
    }
}

impl Put for u32 {
    fn put(&self, _alloc: Global, into: &mut Vec<u8>) -> Result<(), AllocError> {
        put_u32(into, *self)
    }
}

impl Take for u64 {
    ghost spelled = { u64_field };

    ghost fits = { HasBits 64 };

    ghost unique = { unique-u64 };

    fn take(_alloc: Global, bytes: &[u8]) -> Result<(u64, &[u8]), Unread> {
        take_u64(bytes).ok_or(Unread::Outside)
    }
}

impl Put for u64 {
    fn put(&self, _alloc: Global, into: &mut Vec<u8>) -> Result<(), AllocError> {
        put_u64(into, *self)
    }
}

impl Take for bool {
    ghost spelled = { bool_spelled };

    ghost fits = { Any };

    ghost unique = { unique-bool };

    fn take(alloc: Global, bytes: &[u8]) -> Result<(bool, &[u8]), Unread> {
        let (value, rest) = u8::take(alloc, bytes)?;
        match value {
            0 => Ok((false, rest)),
            1 => Ok((true, rest)),
            _ => Err(Unread::Outside),
        }
    }
}

impl Put for bool {
    fn put(&self, _alloc: Global, into: &mut Vec<u8>) -> Result<(), AllocError> {
        put_u8(into, u8::from(*self))
    }
}
