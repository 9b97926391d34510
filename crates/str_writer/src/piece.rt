// A piece of text put at the cursor.
ghost use Rattle.std.specs.Prelude.{◌≡◌, ◌+◌, ◌≤◌, length};
ghost use Rattle.str_writer.specs.Write.{outcome, splice, written};
ghost use Rattle.str_writer.specs.Write.{put as put_text};
ghost use Rattle.utils.specs.Text.{part};
ghost use Rattle.char_encoding.specs.Char.{char_display, char_debug};

use crate::faults::piece_fault;
use char_encoding::{char_to_debug, char_to_display};
use error::Error;
use utils::{Range, saturate_range};

// Copies s, of at most four bytes, store by store: most names and separators are as short, and a
// call of memcpy costs more than they do.
fn copy_few(buf: &mut [u8], at: usize, s: &[u8])
    requires { (at + length s.now ≤ length buf.old) × (length s.now ≤ 4) }
    ensures { buf.new ≡ splice buf.old at s.now }
{
    let n = s.len();
    if n < 1 {
        return;
    }
    buf[at] = s[0];
    if n < 2 {
        return;
    }
    buf[at + 1] = s[1];
    if n < 3 {
        return;
    }
    buf[at + 2] = s[2];
    if n < 4 {
        return;
    }
    buf[at + 3] = s[3];
}

// Copies s byte by byte, which the compiler makes one memcpy. `copy_from_slice` would be a memmove,
// since it asks nothing of where the two lie: a name more that a caller in C would have to bring.
fn copy_many(buf: &mut [u8], at: usize, s: &[u8])
    requires { at + length s.now ≤ length buf.old }
    ensures { buf.new ≡ splice buf.old at s.now }
{
    for (i, b) in s.iter().enumerate() {
        buf[at + i] = *b;
    }
}

// Copies s into buf from at on. The two are lent apart: that there is room stands in the contract.
fn copy_at(buf: &mut [u8], at: usize, s: &[u8])
    requires { at + length s.now ≤ length buf.old }
    ensures { buf.new ≡ splice buf.old at s.now }
{
    if s.len() <= 4 {
        copy_few(buf, at, s);
        return;
    }
    copy_many(buf, at, s);
}

// Writes s at the cursor, or leaves the buffer as it is.
pub fn put(buf: &mut [u8], at: usize, s: &[u8]) -> Result<usize, Error>
    ensures { outcome (written at result) buf.new ≡ put_text buf.old at s.now }
{
    piece_fault(buf.len(), at, s.len())?;
    copy_at(buf, at, s);
    Ok(at + s.len())
}

// Writes the bytes of s in the clamped range.
pub fn put_part(buf: &mut [u8], at: usize, s: &[u8], range: Range) -> Result<usize, Error>
    ensures { outcome (written at result) buf.new ≡ put_text buf.old at (part s.now range) }
{
    let Range { start, end } = saturate_range(s, range);
    put(buf, at, &s[start..end])
}

// Writes the octets of c, none where c is no character.
pub fn put_char(buf: &mut [u8], at: usize, c: u32) -> Result<usize, Error>
    ensures { outcome (written at result) buf.new ≡ put_text buf.old at (char_display c) }
{
    if c < 0x80 {
        return put(buf, at, &[c as u8]);
    }
    match char_to_display(c) {
        Ok(text) => put(buf, at, &text.encoded[..text.len]),
        Err(_) => put(buf, at, b""),
    }
}

// Writes c between marks, nothing where c is no character.
pub fn put_char_debug(buf: &mut [u8], at: usize, c: u32) -> Result<usize, Error>
    ensures { outcome (written at result) buf.new ≡ put_text buf.old at (char_debug c) }
{
    match char_to_debug(c) {
        Ok(text) => put(buf, at, &text.encoded[..text.len]),
        Err(_) => put(buf, at, b""),
    }
}
