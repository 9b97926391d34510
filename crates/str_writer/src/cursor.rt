// The cursor and the buffer without a write: making, clearing, reading, truncating.
ghost use Rattle.std.specs.Prelude.{◌≡◌, ◌-◌, take, eqb};
ghost use Rattle.std.proofs.Math.ListN as ListN;
ghost use Rattle.str_writer.specs.Truncate.{start_at, truncated, truncated_utf8};
ghost use Rattle.str_writer.specs.Write.{written};

use crate::faults::cursor_fault;
use error::Error;
use utils::{is_char_boundary, slice_up_to_len};

// A writer that goes on at a cursor.
pub fn from_custom(buf: &[u8], at: usize) -> Result<usize, Error>
    ensures { written at result ≡ start_at buf.now at }
{
    cursor_fault(buf.len(), at)?;
    Ok(at)
}

// A writer that begins with an empty text.
pub fn from_custom_cleared() -> usize
    ensures { result ≡ 0 }
{
    0
}

// The text dropped: the cursor at the start.
pub fn clear() -> usize
    ensures { result ≡ 0 }
{
    0
}

// The length of the text.
pub fn len(at: usize) -> usize
    ensures { result ≡ at }
{
    at
}

// Whether the text is empty.
pub fn is_empty(at: usize) -> bool
    ensures { result ≡ eqb at 0 }
{
    at == 0
}

// How many bytes the buffer has.
pub fn capacity(buf: &[u8]) -> usize
    ensures { result ≡ ListN.length buf.now }
{
    buf.len()
}

// How many bytes can still be written: none past the end.
pub fn remaining_capacity(buf: &[u8], at: usize) -> usize
    ensures { result ≡ ListN.length buf.now - at }
{
    buf.len().saturating_sub(at)
}

// The text: the bytes before the cursor.
pub fn as_bytes(buf: &[u8], at: usize) -> &[u8]
    ensures { result.now ≡ take at buf.now }
{
    slice_up_to_len(buf, at)
}

// truncate for NoEncoding.
pub fn truncate(buf: &[u8], at: usize, length: usize) -> Result<usize, Error>
    ensures { written at result ≡ truncated buf.now at length }
{
    cursor_fault(buf.len(), at)?;
    if at < length {
        return Ok(at);
    }
    Ok(length)
}

// truncate for Utf8Encoding: 3 for a length that is no boundary of the text before the cursor; its end is one.
pub fn truncate_utf8(buf: &[u8], at: usize, length: usize) -> Result<usize, Error>
    ensures { written at result ≡ truncated_utf8 buf.now at length }
{
    cursor_fault(buf.len(), at)?;
    if length > at {
        return Ok(at);
    }
    let text = as_bytes(buf, at);
    if !is_char_boundary(text, length) {
        return Err(Error::NotOnCharBoundary);
    }
    Ok(length)
}
