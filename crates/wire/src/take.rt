//! Taking fields: the value and the rest, or nothing exactly where the bytes are too few. No call takes memory.
ghost use Rattle.std.specs.Prelude.{◌≡◌, ◌++◌, ◌^◌, ◌<◌, length, MatchOption};
ghost use Rattle.wire.specs.Fields.{u8_field, u16_field, u32_field, u64_field, bytes_field, HasNoBytesField};

pub fn take_u8(bytes: &[u8]) -> Option<(u8, &[u8])>
    ensures { MatchOption result (length bytes.now < 1)
        (λ taken. bytes.now ≡ u8_field taken.0 ++ taken.1.now) }
{
    let (first, rest) = bytes.split_first()?;
    Some((*first, rest))
}

pub fn take_u16(bytes: &[u8]) -> Option<(u16, &[u8])>
    ensures { MatchOption result (length bytes.now < 2)
        (λ taken. bytes.now ≡ u16_field taken.0 ++ taken.1.now) }
{
    let (field, rest) = bytes.split_first_chunk::<2>()?;
    Some((u16::from_be_bytes(*field), rest))
}

pub fn take_u32(bytes: &[u8]) -> Option<(u32, &[u8])>
    ensures { MatchOption result (length bytes.now < 4)
        (λ taken. bytes.now ≡ u32_field taken.0 ++ taken.1.now) }
{
    let (field, rest) = bytes.split_first_chunk::<4>()?;
    Some((u32::from_be_bytes(*field), rest))
}

pub fn take_u64(bytes: &[u8]) -> Option<(u64, &[u8])>
    ensures { MatchOption result (length bytes.now < 8)
        (λ taken. bytes.now ≡ u64_field taken.0 ++ taken.1.now) }
{
    let (field, rest) = bytes.split_first_chunk::<8>()?;
    Some((u64::from_be_bytes(*field), rest))
}

pub fn take_bytes(bytes: &[u8]) -> Option<(&[u8], &[u8])>
    ensures { MatchOption result (HasNoBytesField bytes.now)
        (λ taken. (bytes.now ≡ bytes_field taken.0.now ++ taken.1.now)
        × (length taken.0.now < 2 ^ 32)) }
{
    let (len, rest) = take_u32(bytes)?;
    rest.split_at_checked(len as usize)
}
