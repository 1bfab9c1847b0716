//! Putting fields: each call appends one spelling, or leaves the bytes as they are.
ghost use Rattle.std.specs.Prelude.{◌≡◌, ◌++◌, ◌^◌, ◌<◌, length, OnOk, OnErr};
ghost use Rattle.wire.specs.Fields.{u8_field, u16_field, u32_field, u64_field, bytes_field};

use std::alloc::AllocError;

/// One byte.
pub fn put_u8(into: &mut Vec<u8>, value: u8) -> Result<(), AllocError>
    ensures ok { OnOk result (into.new.items ≡ into.old.items ++ u8_field value) }
    ensures err { OnErr result (into.new.items ≡ into.old.items) }
{
    Ok(into.push(value)?)
}

/// Two bytes, the high one first.
pub fn put_u16(into: &mut Vec<u8>, value: u16) -> Result<(), AllocError>
    ensures ok { OnOk result (into.new.items ≡ into.old.items ++ u16_field value) }
    ensures err { OnErr result (into.new.items ≡ into.old.items) }
{
    Ok(into.extend_from_slice(&value.to_be_bytes())?)
}

/// Four bytes, the highest first.
pub fn put_u32(into: &mut Vec<u8>, value: u32) -> Result<(), AllocError>
    ensures ok { OnOk result (into.new.items ≡ into.old.items ++ u32_field value) }
    ensures err { OnErr result (into.new.items ≡ into.old.items) }
{
    Ok(into.extend_from_slice(&value.to_be_bytes())?)
}

/// Eight bytes, the highest first.
pub fn put_u64(into: &mut Vec<u8>, value: u64) -> Result<(), AllocError>
    ensures ok { OnOk result (into.new.items ≡ into.old.items ++ u64_field value) }
    ensures err { OnErr result (into.new.items ≡ into.old.items) }
{
    Ok(into.extend_from_slice(&value.to_be_bytes())?)
}

/// A length of four bytes, and the bytes.
pub fn put_bytes(into: &mut Vec<u8>, value: &[u8]) -> Result<(), AllocError>
    requires { length value.now < 2 ^ 32 }
    ensures ok { OnOk result (into.new.items ≡ into.old.items ++ bytes_field value.now) }
    ensures err { OnErr result (into.new.items ≡ into.old.items) }
{
    into.reserve(4 + value.len())?;
    into.extend_from_slice(&(value.len() as u32).to_be_bytes())?;
    Ok(into.extend_from_slice(value)?)
}
