//! Each put, run once with ample memory.
use crate::{put_bytes, put_u8, put_u16, put_u32, put_u64};
use std::alloc::AllocError;

#[test]
fn fields_are_put_one_after_another(rt: HostRuntime) -> Result<(), AllocError> {
    let mut bytes = Vec::new(rt.alloc());
    put_u8(&mut bytes, 1)?;
    put_u16(&mut bytes, 0x0203)?;
    put_u32(&mut bytes, 0x0405_0607)?;
    put_u64(&mut bytes, 0x0809_0a0b_0c0d_0e0f)?;
    put_bytes(&mut bytes, b"ab")?;
    let wanted = b"\x01\x02\x03\x04\x05\x06\x07\x08\x09\x0a\x0b\x0c\x0d\x0e\x0f\x00\x00\x00\x02ab";
    assert!(rt; bytes.as_slice() == wanted.as_slice());
    Ok(())
}
