// Quoted strings and quoted ASCII text written at a cursor (fmt/str_writer_mut.rs). Whether a text
// fits is known before the first byte is touched. Blocks of sixteen bytes without an escape are copied
// at once.
#![tactic(auto)]

ghost use Rattle.std.specs.Prelude.{not, ◌≡◌, [], ◌∷◌, ◌++◌, ◌+◌, ◌*◌, ◌≤◌, ◌<◌, leb, length};
ghost use Rattle.formatting.specs.Escape.{escape_of, is_escaped, escape_text, escaped, quoted};
ghost use Rattle.formatting.specs.Flags.{default_flags};
ghost use Rattle.str_writer.specs.Value.{str, ascii, debug, whole};
ghost use Rattle.str_writer.specs.Write.{outcome, splice, write, written};
ghost use Rattle.str_writer.specs.Write.{put as put_text};
ghost use Rattle.utils.specs.Text.{part};
ghost use Rattle.quoted_writes.specs.Marked.{all_bare, CopiesBare, Writes};

use error::Error;
use formatting::{Escape, HexFormatting, escape_of, hex_as_ascii};
use pwrapper::compute_utf8_debug_len;
use str_writer::{cursor_fault, judge_ascii, judge_str, range_fault};
use utils::{Range, saturate_range};

// Below this length a text is short.
const SHORT: usize = 16;

// Room for every short text, however many escapes it has: four times 15 and two.
const SHORT_ROOM: usize = 62;

// As many bytes are tested and copied at once.
const BLOCK: usize = 16;

// Writes a string between quotation marks at the cursor.
pub fn write_str_debug(buf: &mut [u8], at: usize, s: &[u8]) -> Result<usize, Error>
    ensures { outcome (written at result) buf.new ≡ write default_flags buf.old at (str debug s.now (whole s.now)) }
{
    judge_str(buf.len(), at, s)?;
    put_quoted(buf, at, s)
}

// Writes the part of a string in the clamped range, between quotation marks at the cursor.
pub fn write_str_range_debug(
    buf: &mut [u8],
    at: usize,
    s: &[u8],
    range: Range,
) -> Result<usize, Error>
    ensures { outcome (written at result) buf.new ≡ write default_flags buf.old at (str debug s.now range) }
{
    judge_str(buf.len(), at, s)?;
    range_fault(s, range)?;
    put_quoted_part(buf, at, s, range)
}

// Writes ASCII text between quotation marks at the cursor.
pub fn write_ascii_debug(buf: &mut [u8], at: usize, s: &[u8]) -> Result<usize, Error>
    ensures { outcome (written at result) buf.new ≡ write default_flags buf.old at (ascii debug s.now (whole s.now)) }
{
    judge_ascii(buf.len(), at, s)?;
    put_quoted(buf, at, s)
}

// Writes the part of ASCII text in the clamped range, between quotation marks at the cursor.
pub fn write_ascii_range_debug(
    buf: &mut [u8],
    at: usize,
    s: &[u8],
    range: Range,
) -> Result<usize, Error>
    ensures { outcome (written at result) buf.new ≡ write default_flags buf.old at (ascii debug s.now range) }
{
    judge_ascii(buf.len(), at, s)?;
    put_quoted_part(buf, at, s, range)
}

// Writes s between marks, or leaves the buffer as it is. A short text that surely fits is written
// here, in few steps up to its first escape: the compiler can lay them into the caller.
#[inline]
pub fn put_quoted(buf: &mut [u8], at: usize, s: &[u8]) -> Result<usize, Error>
    ensures { outcome (written at result) buf.new ≡ put_text buf.old at (quoted s.now) }
{
    cursor_fault(buf.len(), at)?;
    let room = buf.len() - at;
    if s.len() < SHORT && SHORT_ROOM <= room {
        return Ok(put_short(buf, at, s));
    }
    if !fits(room, s) {
        return Err(Error::NotEnoughSpace);
    }
    buf[at] = b'"';
    Ok(put_rest(buf, at + 1, s))
}

// The same of the bytes of s in the clamped range.
#[inline]
pub fn put_quoted_part(buf: &mut [u8], at: usize, s: &[u8], range: Range) -> Result<usize, Error>
    ensures { outcome (written at result) buf.new ≡ put_text buf.old at (quoted (part s.now range)) }
{
    let Range { start, end } = saturate_range(s, range);
    put_quoted(buf, at, &s[start..end])
}

// Writes s between marks, where each byte has room for four, and gives the place behind it.
fn put_short(buf: &mut [u8], at: usize, s: &[u8]) -> usize
    requires { at + (4 * length s.now + 2) ≤ length buf.old }
    ensures { Writes buf.old at (quoted s.now) result buf.new }
{
    buf[at] = b'"';
    let n = put_bare(buf, at + 1, s);
    let end = at + 1 + n;
    if n < s.len() {
        return put_rest(buf, end, &s[n..]);
    }
    buf[end] = b'"';
    end + 1
}

// Writes the bytes of s and the closing mark at w, and gives the place behind it. It stays a call of
// its own, and so does `fits`: short texts without an escape need neither.
#[inline(never)]
fn put_rest(buf: &mut [u8], w: usize, s: &[u8]) -> usize
    requires { w + length (escaped s.now) < length buf.old }
    ensures { Writes buf.old w (escaped s.now ++ (34 ∷ [])) result buf.new }
{
    let end = put_escaped(buf, w, s);
    buf[end] = b'"';
    end + 1
}

// Whether s between marks has room. Where the room holds four times the text and two, nothing need
// be counted.
#[inline(never)]
fn fits(room: usize, s: &[u8]) -> bool
    ensures { result ≡ leb (length (quoted s.now)) room }
{
    if room < s.len() + 2 {
        return false;
    }
    if s.len() <= (room - 2) / 4 {
        return true;
    }
    match compute_utf8_debug_len(s) {
        Ok(len) => len <= room,
        Err(_) => false,
    }
}

// Writes the bytes of s at w, and gives the place behind them. Over `as_chunks` a `for` takes 1.1
// times as many steps on a long text.
fn put_escaped(buf: &mut [u8], w: usize, s: &[u8]) -> usize
    requires { w + length (escaped s.now) ≤ length buf.old }
    ensures { Writes buf.old w (escaped s.now) result buf.new }
{
    let mut at = w;
    let mut rest = s;
    while let Some((block, behind)) = rest.split_first_chunk::<BLOCK>() {
        let bytes = *block;
        if is_plain(bytes) {
            put_block(buf, at, bytes);
            at += BLOCK;
        } else {
            at = put_bytes(buf, at, block);
        }
        rest = behind;
    }
    put_bytes(buf, at, rest)
}

// Whether no byte of a block has an escape. No test waits for another, so that the compiler can test
// the sixteen side by side; in two halves, as `is_bare` at once takes 1.1 of the time on a long text.
fn is_plain(block: [u8; BLOCK]) -> bool
    ensures { result ≡ all_bare block }
{
    let mut low = true;
    let mut high = true;
    for b in block {
        low = low & ((32 <= b) & (b != b'"'));
        high = high & ((b != b'\'') & (b != b'\\'));
    }
    low & high
}

// Copies a block to at, with one store. `copy_from_slice` would look whether the two overlap, and take
// 1.4 times as many steps on a long text.
fn put_block(buf: &mut [u8], at: usize, block: [u8; BLOCK])
    requires { at + 16 ≤ length buf.old }
    ensures { buf.new ≡ splice buf.old at block }
{
    for (j, b) in block.iter().enumerate() {
        buf[at + j] = *b;
    }
}

// Writes the bytes of s at w, and gives the place behind them. It goes from escape to escape: one byte
// after the other by `put_escape` takes 1.6 times as long on a text with escapes.
fn put_bytes(buf: &mut [u8], w: usize, s: &[u8]) -> usize
    requires { w + length (escaped s.now) ≤ length buf.old }
    ensures { Writes buf.old w (escaped s.now) result buf.new }
{
    let mut at = w;
    let mut rest = s;
    loop {
        let n = put_bare(buf, at, rest);
        at += n;
        let Some((b, behind)) = rest[n..].split_first() else {
            return at;
        };
        at = put_escape(buf, at, *b);
        rest = behind;
    }
}

// Copies the bytes of s up to its first escape, and gives how many they are.
fn put_bare(buf: &mut [u8], at: usize, s: &[u8]) -> usize
    requires { at + length s.now ≤ length buf.old }
    ensures { CopiesBare buf.old at s.now result buf.new }
{
    for (i, b) in s.iter().enumerate() {
        if !is_bare(*b) {
            return i;
        }
        buf[at + i] = *b;
    }
    s.len()
}

// Whether b stands for itself.
fn is_bare(b: u8) -> bool
    ensures { result ≡ not (is_escaped (escape_of b)) }
{
    ((32 <= b) & (b != b'"')) & ((b != b'\'') & (b != b'\\'))
}

// Writes what stands for b at w, and gives the place behind it.
fn put_escape(buf: &mut [u8], w: usize, b: u8) -> usize
    requires { w + length (escape_text (escape_of b) b) ≤ length buf.old }
    ensures { Writes buf.old w (escape_text (escape_of b) b) result buf.new }
{
    match escape_of(b) {
        Escape::Bare => {
            buf[w] = b;
            w + 1
        }
        Escape::Backslash(letter) => {
            buf[w] = b'\\';
            buf[w + 1] = letter;
            w + 2
        }
        Escape::Hexadecimal => {
            buf[w] = b'\\';
            buf[w + 1] = b'x';
            buf[w + 2] = hex_as_ascii(b / 16, HexFormatting::Upper);
            buf[w + 3] = hex_as_ascii(b % 16, HexFormatting::Upper);
            w + 4
        }
    }
}
