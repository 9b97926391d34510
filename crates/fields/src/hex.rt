// Bytes in hexadecimal, two upper digits each.
ghost use Rattle.std.specs.Prelude.{true, ◌≡◌, ◌+◌, ◌≤◌, ◌<◌, length};
ghost use Rattle.str_writer.specs.Write.{outcome, splice, written};
ghost use Rattle.str_writer.specs.Write.{put as put_text};
ghost use Rattle.fields.specs.Hex.{is_hex_digit, hex_value, is_hex, hex_bytes, read_hex, hex_pairs};

use error::Error;
use formatting::{HexFormatting, hex_as_ascii};
use str_writer::cursor_fault;

// Whether b is an upper hexadecimal digit.
fn is_hex_digit(b: u8) -> bool
    ensures { result ≡ is_hex_digit b }
{
    matches!(b, b'0'..=b'9' | b'A'..=b'F')
}

// The value of an upper hexadecimal digit.
fn hex_value(b: u8) -> u8
    requires { is_hex_digit b ≡ true }
    ensures { (result ≡ hex_value b) × (result < 16) }
{
    if b <= b'9' { b - b'0' } else { b - b'A' + 10 }
}

// Whether s is pairs of upper hexadecimal digits.
fn is_hex(s: &[u8]) -> bool
    ensures { result ≡ is_hex s.now }
{
    s.len() % 2 == 0 && s.iter().all(|b| is_hex_digit(*b))
}

// Stores the bytes that the pairs of s are at the beginning of out.
fn fill(s: &[u8], out: &mut [u8])
    requires { (is_hex s.now ≡ true) × (length (hex_bytes s.now) ≤ length out.old) }
    ensures { out.new ≡ splice out.old 0 (hex_bytes s.now) }
{
    for (i, pair) in s.chunks_exact(2).enumerate() {
        out[i] = hex_value(pair[0]) * 16 + hex_value(pair[1]);
    }
}

// Reads the bytes of a field to the beginning of out, and gives how many they are; a field of
// another form, or of more bytes than out has, leaves it as it is.
pub fn from_hex(s: &[u8], out: &mut [u8]) -> Option<usize>
    ensures { record { answer = result; bytes = out.new } ≡ read_hex out.old s.now }
{
    let len = s.len() / 2;
    if !is_hex(s) || out.len() < len {
        return None;
    }
    fill(s, out);
    Some(len)
}

// Lays the pairs of the bytes s into buf from at on.
fn lay_pairs(buf: &mut [u8], at: usize, s: &[u8])
    requires { at + length (hex_pairs s.now) ≤ length buf.old }
    ensures { buf.new ≡ splice buf.old at (hex_pairs s.now) }
{
    for (i, b) in s.iter().enumerate() {
        let to = at + 2 * i;
        buf[to] = hex_as_ascii(*b / 16, HexFormatting::Upper);
        buf[to + 1] = hex_as_ascii(*b, HexFormatting::Upper);
    }
}

// Writes bytes in hexadecimal at the cursor, or leaves the buffer as it is.
pub fn put_hex(buf: &mut [u8], at: usize, s: &[u8]) -> Result<usize, Error>
    ensures { outcome (written at result) buf.new ≡ put_text buf.old at (hex_pairs s.now) }
{
    cursor_fault(buf.len(), at)?;
    if (buf.len() - at) / 2 < s.len() {
        return Err(Error::NotEnoughSpace);
    }
    lay_pairs(buf, at, s);
    Ok(at + 2 * s.len())
}
