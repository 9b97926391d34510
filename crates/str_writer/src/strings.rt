// Strings, ASCII text, characters and a repeated character, as they are, and quoted characters.
ghost use Rattle.std.specs.Prelude.{◌≡◌, ◌+◌, ◌≤◌, length, replicate};
ghost use Rattle.formatting.specs.Flags.{default_flags};
ghost use Rattle.str_writer.specs.Value.{str, ascii, char, repeated, display, debug, whole};
ghost use Rattle.str_writer.specs.Write.{outcome, splice, write, written};

use crate::faults::{judge_ascii, judge_char, judge_str, piece_fault, range_fault};
use crate::piece::{put, put_char, put_char_debug, put_part};
use error::Error;
use utils::Range;

// Writes a string at the cursor.
pub fn write_str(buf: &mut [u8], at: usize, s: &[u8]) -> Result<usize, Error>
    ensures { outcome (written at result) buf.new ≡ write default_flags buf.old at (str display s.now (whole s.now)) }
{
    judge_str(buf.len(), at, s)?;
    put(buf, at, s)
}

// Writes the part of a string in the clamped range at the cursor.
pub fn write_str_range(buf: &mut [u8], at: usize, s: &[u8], range: Range) -> Result<usize, Error>
    ensures { outcome (written at result) buf.new ≡ write default_flags buf.old at (str display s.now range) }
{
    judge_str(buf.len(), at, s)?;
    range_fault(s, range)?;
    put_part(buf, at, s, range)
}

// Writes ASCII text at the cursor.
pub fn write_ascii(buf: &mut [u8], at: usize, s: &[u8]) -> Result<usize, Error>
    ensures { outcome (written at result) buf.new ≡ write default_flags buf.old at (ascii display s.now (whole s.now)) }
{
    let end = s.len();
    write_ascii_range(buf, at, s, Range { start: 0, end })
}

// Writes the part of ASCII text in the clamped range at the cursor.
pub fn write_ascii_range(buf: &mut [u8], at: usize, s: &[u8], range: Range) -> Result<usize, Error>
    ensures { outcome (written at result) buf.new ≡ write default_flags buf.old at (ascii display s.now range) }
{
    judge_ascii(buf.len(), at, s)?;
    put_part(buf, at, s, range)
}

// Writes a character at the cursor.
pub fn write_char(buf: &mut [u8], at: usize, c: u32) -> Result<usize, Error>
    ensures { outcome (written at result) buf.new ≡ write default_flags buf.old at (char display c) }
{
    judge_char(buf.len(), at, c)?;
    put_char(buf, at, c)
}

// Writes a character between quotation marks at the cursor.
pub fn write_char_debug(buf: &mut [u8], at: usize, c: u32) -> Result<usize, Error>
    ensures { outcome (written at result) buf.new ≡ write default_flags buf.old at (char debug c) }
{
    judge_char(buf.len(), at, c)?;
    put_char_debug(buf, at, c)
}

// Fills n bytes of buf from at on with b.
fn fill_at(buf: &mut [u8], at: usize, b: u8, n: usize)
    requires { at + n ≤ length buf.old }
    ensures { buf.new ≡ splice buf.old at (replicate n b) }
{
    buf[at..at + n].fill(b);
}

// Writes c n times, without its top bit.
pub fn write_ascii_repeated(buf: &mut [u8], at: usize, c: u8, n: usize) -> Result<usize, Error>
    ensures { outcome (written at result) buf.new ≡ write default_flags buf.old at (repeated c n) }
{
    piece_fault(buf.len(), at, n)?;
    fill_at(buf, at, c % 128, n);
    Ok(at + n)
}
