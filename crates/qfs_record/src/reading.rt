//! Values at the front of bytes. Each answers the value and what follows it, or None where no front
//! of the bytes spells one; none takes memory.

ghost use Rattle.std.specs.Prelude.{◌≡◌, length, ◌≤◌, codes};
ghost use Rattle.std.specs.Option.{option_map};
ghost use Rattle.std.specs.Int.{w8, w16, w32, w64};
ghost use Rattle.qfs_record.specs.Part.{number_at, counted_at};

/// The byte at the front.
pub fn u8_at(bytes: &[u8]) -> Option<(u8, &[u8])>
    ensures { option_map (λ front. (front.0, front.1.now)) result ≡ number_at w8 bytes.now }
{
    let (number, rest) = bytes.split_first()?;
    Some((*number, rest))
}

/// The number in the two bytes at the front.
pub fn u16_at(bytes: &[u8]) -> Option<(u16, &[u8])>
    ensures { option_map (λ front. (front.0, front.1.now)) result ≡ number_at w16 bytes.now }
{
    if bytes.len() < 2 {
        return None;
    }
    let (front, rest) = bytes.split_at(2);
    Some((u16::from_be_bytes([front[0], front[1]]), rest))
}

/// The number in the four bytes at the front.
pub fn u32_at(bytes: &[u8]) -> Option<(u32, &[u8])>
    ensures { option_map (λ front. (front.0, front.1.now)) result ≡ number_at w32 bytes.now }
{
    if bytes.len() < 4 {
        return None;
    }
    let (front, rest) = bytes.split_at(4);
    Some((
        u32::from_be_bytes([front[0], front[1], front[2], front[3]]),
        rest,
    ))
}

/// The number in the eight bytes at the front.
pub fn u64_at(bytes: &[u8]) -> Option<(u64, &[u8])>
    ensures { option_map (λ front. (front.0, front.1.now)) result ≡ number_at w64 bytes.now }
{
    if bytes.len() < 8 {
        return None;
    }
    let (front, rest) = bytes.split_at(8);
    let number = u64::from_be_bytes([
        front[0], front[1], front[2], front[3], front[4], front[5], front[6], front[7],
    ]);
    Some((number, rest))
}

/// Bytes whose count stands before them in two bytes.
pub fn counted_u16_at(bytes: &[u8]) -> Option<(&[u8], &[u8])>
    ensures { option_map (λ front. (front.0.now, front.1.now)) result ≡ counted_at w16 bytes.now }
{
    let (count, rest) = u16_at(bytes)?;
    if rest.len() < count as usize {
        return None;
    }
    Some(rest.split_at(count as usize))
}

/// Bytes whose count stands before them in four bytes.
pub fn counted_u32_at(bytes: &[u8]) -> Option<(&[u8], &[u8])>
    ensures { option_map (λ front. (front.0.now, front.1.now)) result ≡ counted_at w32 bytes.now }
{
    let (count, rest) = u32_at(bytes)?;
    if rest.len() < count as usize {
        return None;
    }
    Some(rest.split_at(count as usize))
}
