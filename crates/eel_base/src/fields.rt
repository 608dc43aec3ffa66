//! Big-endian fields of bytes, and the printed form of a word.
ghost use Rattle.std.specs.Prelude.{◌≡◌, ◌<◌};
ghost use Rattle.eel_base.specs.Fields.{be_field, hex_of, hex_digit_at};

use byteorder::{BigEndian, ByteOrder};

/// The big-endian halfword at `at`.
#[inline]
pub fn be16_at(bytes: &[u8], at: usize) -> Option<u16>
    ensures { result ≡ be_field 2 bytes.now at }
{
    let field = bytes.get(at..)?.get(..2)?;
    Some(BigEndian::read_u16(field))
}

/// The big-endian word at `at`.
#[inline]
pub fn be32_at(bytes: &[u8], at: usize) -> Option<u32>
    ensures { result ≡ be_field 4 bytes.now at }
{
    let field = bytes.get(at..)?.get(..4)?;
    Some(BigEndian::read_u32(field))
}

/// Eight hexadecimal digits, the highest first, in small letters.
pub fn hex8(n: u32) -> [u8; 8]
    ensures { result ≡ hex_of n }
{
    [
        digit_at(n, 7),
        digit_at(n, 6),
        digit_at(n, 5),
        digit_at(n, 4),
        digit_at(n, 3),
        digit_at(n, 2),
        digit_at(n, 1),
        digit_at(n, 0),
    ]
}

/// The hexadecimal digit at a place, counted from the lowest.
fn digit_at(n: u32, place: u32) -> u8
    requires { place < 8 }
    ensures { result ≡ hex_digit_at n place }
{
    let digit = (n >> (4 * place)) % 16;
    if digit < 10 {
        b'0' + digit as u8
    } else {
        b'a' + (digit - 10) as u8
    }
}
