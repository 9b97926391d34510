// A static library of single calls, for the comparison with the Rust: each export of this kind in
// the library of whole runs would keep the compiler from making one loop of a run. There is one export
// for each type of integer, as C names them. A slice passes as a pointer and a length. The answer is document 01's number; flags are a number as in table_text,
// and one that is not below 12 is refused with 8, after 9.
#![tactic(auto)]

mod counts;
mod integers;

ghost use Rattle.std.specs.Prelude.{◌≡◌, List, ℕ, pos, length};
ghost use Rattle.str_writer.specs.Value.{integer, char, str, ascii, repeated, display, debug};
ghost use Rattle.str_writer.specs.Truncate.{truncated, truncated_utf8};
ghost use Rattle.str_writer.specs.Write.{Outcome, outcome, written};
ghost use Rattle.calls.specs.Model.{wrote, writing};
ghost use Rattle.single_writes.specs.ByFlags.{wrong_flags};
ghost use Rattle.single_writes.specs.Single.{entire, between, gives, writes, writes_by, keeps};

use error::Error;
use formatting::FormattingFlags;
use integer_writes::{write_debug, write_display};
use pwrapper::PrimitiveInteger;
use quoted_writes::{
    write_ascii_debug, write_ascii_range_debug, write_str_debug, write_str_range_debug,
};
use str_writer::{
    cursor_fault, truncate, truncate_utf8, write_ascii, write_ascii_range, write_ascii_repeated,
    write_char, write_char_debug, write_str, write_str_range,
};
use utils::Range;

// Leaves the cursor behind what was written, and gives the answer's number.
fn answered(cursor: &mut usize, w: Result<usize, Error>) -> u8
    ensures { (b : List ℕ) (o : Outcome) → outcome (written cursor.old w) b ≡ o → gives result cursor.new b ≡ wrote o }
{
    match w {
        Ok(at) => {
            *cursor = at;
            0
        }
        Err(error) => u8::from(error),
    }
}

// Writes a string at the cursor.
#[unsafe(no_mangle)]
pub extern "C" fn single_write_str(buf: &mut [u8], cursor: &mut usize, s: &[u8]) -> u8
    ensures { gives result cursor.new buf.new
        ≡ writes buf.old cursor.old (entire (str display) s.now) }
{
    let w = write_str(buf, *cursor, s);
    answered(cursor, w)
}

// Writes the part of a string from start to end at the cursor.
#[unsafe(no_mangle)]
pub extern "C" fn single_write_str_range(
    buf: &mut [u8],
    cursor: &mut usize,
    s: &[u8],
    start: usize,
    end: usize,
) -> u8
    ensures { gives result cursor.new buf.new
        ≡ writes buf.old cursor.old (between (str display) s.now start end) }
{
    let range = Range { start, end };
    let w = write_str_range(buf, *cursor, s, range);
    answered(cursor, w)
}

// Writes a string, quoted, at the cursor.
#[unsafe(no_mangle)]
pub extern "C" fn single_write_str_debug(buf: &mut [u8], cursor: &mut usize, s: &[u8]) -> u8
    ensures { gives result cursor.new buf.new ≡ writes buf.old cursor.old (entire (str debug) s.now) }
{
    let w = write_str_debug(buf, *cursor, s);
    answered(cursor, w)
}

// Writes the part of a string from start to end, quoted, at the cursor.
#[unsafe(no_mangle)]
pub extern "C" fn single_write_str_range_debug(
    buf: &mut [u8],
    cursor: &mut usize,
    s: &[u8],
    start: usize,
    end: usize,
) -> u8
    ensures { gives result cursor.new buf.new
        ≡ writes buf.old cursor.old (between (str debug) s.now start end) }
{
    let range = Range { start, end };
    let w = write_str_range_debug(buf, *cursor, s, range);
    answered(cursor, w)
}

// Writes ASCII text at the cursor.
#[unsafe(no_mangle)]
pub extern "C" fn single_write_ascii(buf: &mut [u8], cursor: &mut usize, s: &[u8]) -> u8
    ensures { gives result cursor.new buf.new
        ≡ writes buf.old cursor.old (entire (ascii display) s.now) }
{
    let w = write_ascii(buf, *cursor, s);
    answered(cursor, w)
}

// Writes the part of ASCII text from start to end at the cursor.
#[unsafe(no_mangle)]
pub extern "C" fn single_write_ascii_range(
    buf: &mut [u8],
    cursor: &mut usize,
    s: &[u8],
    start: usize,
    end: usize,
) -> u8
    ensures { gives result cursor.new buf.new
        ≡ writes buf.old cursor.old (between (ascii display) s.now start end) }
{
    let range = Range { start, end };
    let w = write_ascii_range(buf, *cursor, s, range);
    answered(cursor, w)
}

// Writes ASCII text, quoted, at the cursor.
#[unsafe(no_mangle)]
pub extern "C" fn single_write_ascii_debug(buf: &mut [u8], cursor: &mut usize, s: &[u8]) -> u8
    ensures { gives result cursor.new buf.new
        ≡ writes buf.old cursor.old (entire (ascii debug) s.now) }
{
    let w = write_ascii_debug(buf, *cursor, s);
    answered(cursor, w)
}

// Writes the part of ASCII text from start to end, quoted, at the cursor.
#[unsafe(no_mangle)]
pub extern "C" fn single_write_ascii_range_debug(
    buf: &mut [u8],
    cursor: &mut usize,
    s: &[u8],
    start: usize,
    end: usize,
) -> u8
    ensures { gives result cursor.new buf.new
        ≡ writes buf.old cursor.old (between (ascii debug) s.now start end) }
{
    let range = Range { start, end };
    let w = write_ascii_range_debug(buf, *cursor, s, range);
    answered(cursor, w)
}

// Writes the low seven bits of a byte n times at the cursor.
#[unsafe(no_mangle)]
pub extern "C" fn single_write_ascii_repeated(
    buf: &mut [u8],
    cursor: &mut usize,
    c: u8,
    n: usize,
) -> u8
    ensures { gives result cursor.new buf.new ≡ writes buf.old cursor.old (repeated c n) }
{
    let w = write_ascii_repeated(buf, *cursor, c, n);
    answered(cursor, w)
}

// Writes a character at the cursor.
#[unsafe(no_mangle)]
pub extern "C" fn single_write_char(buf: &mut [u8], cursor: &mut usize, c: u32) -> u8
    ensures { gives result cursor.new buf.new ≡ writes buf.old cursor.old (char display c) }
{
    let w = write_char(buf, *cursor, c);
    answered(cursor, w)
}

// Writes a character, quoted, at the cursor.
#[unsafe(no_mangle)]
pub extern "C" fn single_write_char_debug(buf: &mut [u8], cursor: &mut usize, c: u32) -> u8
    ensures { gives result cursor.new buf.new ≡ writes buf.old cursor.old (char debug c) }
{
    let w = write_char_debug(buf, *cursor, c);
    answered(cursor, w)
}

// Writes an integer at the cursor, in decimal.
fn put_display<I: PrimitiveInteger>(buf: &mut [u8], cursor: &mut usize, x: I) -> u8
    ensures { gives result cursor.new buf.new ≡ writes buf.old cursor.old (integer display I.BITS (I.value x)) }
{
    let w = write_display(buf, *cursor, x);
    answered(cursor, w)
}

// Writes an integer at the cursor, in the form that the flags say: 8 for flags that are no number
// below 12, after 9.
fn put_debug<I: PrimitiveInteger>(buf: &mut [u8], cursor: &mut usize, x: I, flags: u64) -> u8
    ensures { gives result cursor.new buf.new
        ≡ writes_by flags buf.old cursor.old (integer debug I.BITS (I.value x)) }
{
    match FormattingFlags::try_from(flags) {
        Ok(flags) => answered(cursor, write_debug(buf, *cursor, x, flags)),
        Err(_) => answered(cursor, no_flags(buf.len(), *cursor)),
    }
}

// What flags that are no number below 12 are refused with: 9 where the cursor is past a buffer of len bytes, else 8.
fn no_flags(len: usize, cursor: usize) -> Result<usize, Error>
    ensures { (b : List ℕ) → length b ≡ len → wrote (outcome (written cursor result) b) ≡ wrong_flags (writing cursor) b }
{
    cursor_fault(len, cursor)?;
    Err(Error::WrongCall)
}

// Writes a u8 at the cursor, in decimal.
#[unsafe(no_mangle)]
pub extern "C" fn single_write_u8_display(buf: &mut [u8], cursor: &mut usize, x: u8) -> u8
    ensures { gives result cursor.new buf.new ≡ writes buf.old cursor.old (integer display 8 (pos x)) }
{
    put_display(buf, cursor, x)
}

// Writes a u8 at the cursor, in the form that the flags say.
#[unsafe(no_mangle)]
pub extern "C" fn single_write_u8_debug(buf: &mut [u8], cursor: &mut usize, x: u8, flags: u64) -> u8
    ensures { gives result cursor.new buf.new ≡ writes_by flags buf.old cursor.old (integer debug 8 (pos x)) }
{
    put_debug(buf, cursor, x, flags)
}

// Writes a u16 at the cursor, in decimal.
#[unsafe(no_mangle)]
pub extern "C" fn single_write_u16_display(buf: &mut [u8], cursor: &mut usize, x: u16) -> u8
    ensures { gives result cursor.new buf.new ≡ writes buf.old cursor.old (integer display 16 (pos x)) }
{
    put_display(buf, cursor, x)
}

// Writes a u16 at the cursor, in the form that the flags say.
#[unsafe(no_mangle)]
pub extern "C" fn single_write_u16_debug(
    buf: &mut [u8],
    cursor: &mut usize,
    x: u16,
    flags: u64,
) -> u8
    ensures { gives result cursor.new buf.new ≡ writes_by flags buf.old cursor.old (integer debug 16 (pos x)) }
{
    put_debug(buf, cursor, x, flags)
}

// Writes a u32 at the cursor, in decimal.
#[unsafe(no_mangle)]
pub extern "C" fn single_write_u32_display(buf: &mut [u8], cursor: &mut usize, x: u32) -> u8
    ensures { gives result cursor.new buf.new ≡ writes buf.old cursor.old (integer display 32 (pos x)) }
{
    put_display(buf, cursor, x)
}

// Writes a u32 at the cursor, in the form that the flags say.
#[unsafe(no_mangle)]
pub extern "C" fn single_write_u32_debug(
    buf: &mut [u8],
    cursor: &mut usize,
    x: u32,
    flags: u64,
) -> u8
    ensures { gives result cursor.new buf.new ≡ writes_by flags buf.old cursor.old (integer debug 32 (pos x)) }
{
    put_debug(buf, cursor, x, flags)
}

// Writes a u64 at the cursor, in decimal.
#[unsafe(no_mangle)]
pub extern "C" fn single_write_u64_display(buf: &mut [u8], cursor: &mut usize, x: u64) -> u8
    ensures { gives result cursor.new buf.new ≡ writes buf.old cursor.old (integer display 64 (pos x)) }
{
    put_display(buf, cursor, x)
}

// Writes a u64 at the cursor, in the form that the flags say.
#[unsafe(no_mangle)]
pub extern "C" fn single_write_u64_debug(
    buf: &mut [u8],
    cursor: &mut usize,
    x: u64,
    flags: u64,
) -> u8
    ensures { gives result cursor.new buf.new ≡ writes_by flags buf.old cursor.old (integer debug 64 (pos x)) }
{
    put_debug(buf, cursor, x, flags)
}

// Writes an i8 at the cursor, in decimal.
#[unsafe(no_mangle)]
pub extern "C" fn single_write_i8_display(buf: &mut [u8], cursor: &mut usize, x: i8) -> u8
    ensures { gives result cursor.new buf.new ≡ writes buf.old cursor.old (integer display 8 x) }
{
    put_display(buf, cursor, x)
}

// Writes an i8 at the cursor, in the form that the flags say.
#[unsafe(no_mangle)]
pub extern "C" fn single_write_i8_debug(buf: &mut [u8], cursor: &mut usize, x: i8, flags: u64) -> u8
    ensures { gives result cursor.new buf.new ≡ writes_by flags buf.old cursor.old (integer debug 8 x) }
{
    put_debug(buf, cursor, x, flags)
}

// Writes an i16 at the cursor, in decimal.
#[unsafe(no_mangle)]
pub extern "C" fn single_write_i16_display(buf: &mut [u8], cursor: &mut usize, x: i16) -> u8
    ensures { gives result cursor.new buf.new ≡ writes buf.old cursor.old (integer display 16 x) }
{
    put_display(buf, cursor, x)
}

// Writes an i16 at the cursor, in the form that the flags say.
#[unsafe(no_mangle)]
pub extern "C" fn single_write_i16_debug(
    buf: &mut [u8],
    cursor: &mut usize,
    x: i16,
    flags: u64,
) -> u8
    ensures { gives result cursor.new buf.new ≡ writes_by flags buf.old cursor.old (integer debug 16 x) }
{
    put_debug(buf, cursor, x, flags)
}

// Writes an i32 at the cursor, in decimal.
#[unsafe(no_mangle)]
pub extern "C" fn single_write_i32_display(buf: &mut [u8], cursor: &mut usize, x: i32) -> u8
    ensures { gives result cursor.new buf.new ≡ writes buf.old cursor.old (integer display 32 x) }
{
    put_display(buf, cursor, x)
}

// Writes an i32 at the cursor, in the form that the flags say.
#[unsafe(no_mangle)]
pub extern "C" fn single_write_i32_debug(
    buf: &mut [u8],
    cursor: &mut usize,
    x: i32,
    flags: u64,
) -> u8
    ensures { gives result cursor.new buf.new ≡ writes_by flags buf.old cursor.old (integer debug 32 x) }
{
    put_debug(buf, cursor, x, flags)
}

// Writes an i64 at the cursor, in decimal.
#[unsafe(no_mangle)]
pub extern "C" fn single_write_i64_display(buf: &mut [u8], cursor: &mut usize, x: i64) -> u8
    ensures { gives result cursor.new buf.new ≡ writes buf.old cursor.old (integer display 64 x) }
{
    put_display(buf, cursor, x)
}

// Writes an i64 at the cursor, in the form that the flags say.
#[unsafe(no_mangle)]
pub extern "C" fn single_write_i64_debug(
    buf: &mut [u8],
    cursor: &mut usize,
    x: i64,
    flags: u64,
) -> u8
    ensures { gives result cursor.new buf.new ≡ writes_by flags buf.old cursor.old (integer debug 64 x) }
{
    put_debug(buf, cursor, x, flags)
}

// Takes the cursor back to a length; one past the cursor changes nothing.
#[unsafe(no_mangle)]
pub extern "C" fn single_truncate(buf: &[u8], cursor: &mut usize, length: usize) -> u8
    ensures { gives result cursor.new buf.now ≡ keeps buf.now (truncated buf.now cursor.old length) }
{
    let w = truncate(buf, *cursor, length);
    answered(cursor, w)
}

// The same, refused with 3 where the length is no boundary of the text before the cursor; its end is one.
#[unsafe(no_mangle)]
pub extern "C" fn single_truncate_utf8(buf: &[u8], cursor: &mut usize, length: usize) -> u8
    ensures { gives result cursor.new buf.now
        ≡ keeps buf.now (truncated_utf8 buf.now cursor.old length) }
{
    let w = truncate_utf8(buf, *cursor, length);
    answered(cursor, w)
}
