//! Counts that are known only once what they count was written.
ghost use Rattle.std.specs.Prelude.{◌≡◌, ◌+◌, ◌≤◌, ◌++◌, length, take, drop};
ghost use Rattle.std.specs.Int.{w16, w32, to_be_bytes};

use byteorder::{BigEndian, ByteOrder};

/// Writes a number in place of the two bytes at `start`.
pub fn set_u16(number: u16, start: usize, out: &mut Vec<u8>)
    requires { start + 2 ≤ length out.old.items }
    ensures { out.new.items
        ≡ take start out.old.items ++ (to_be_bytes w16 number ++ drop (start + 2) out.old.items) }
{
    BigEndian::write_u16(&mut out[start..start + 2], number);
}

/// Writes a number in place of the four bytes at `start`.
pub fn set_u32(number: u32, start: usize, out: &mut Vec<u8>)
    requires { start + 4 ≤ length out.old.items }
    ensures { out.new.items
        ≡ take start out.old.items ++ (to_be_bytes w32 number ++ drop (start + 4) out.old.items) }
{
    BigEndian::write_u32(&mut out[start..start + 4], number);
}
