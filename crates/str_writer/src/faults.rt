// What a single write meets before it emits, each fault in one function, and the faults of a write in their order.
ghost use Rattle.std.specs.Prelude.{◌≡◌, List, [], ◌∷◌, ℕ, ◌-◌, ◌≤◌, length};
ghost use Rattle.error.specs.Answer.{answer_of};
ghost use Rattle.utils.specs.declared.Range.{Range};
ghost use Rattle.str_writer.specs.Value.{Form, str, ascii, char, text_fault, input_fault, cut_fault};
ghost use Rattle.str_writer.specs.Write.{cursor_fault, first_of, put, write_fault};

use ascii_str::check_ascii;
use char_encoding::is_char;
use error::Error;
use utf8::is_utf8;
use utils::{Range, is_char_boundary, saturate_range};

// 9 where the cursor is past the len bytes of a buffer.
pub fn cursor_fault(len: usize, at: usize) -> Result<(), Error>
    ensures { (b : List ℕ) → length b ≡ len → result ≡ answer_of (cursor_fault b at) }
{
    if len < at {
        return Err(Error::BadCursor);
    }
    Ok(())
}

// 1 where a piece of n bytes exceeds the room bytes from the cursor to the end.
pub fn room_fault(room: usize, n: usize) -> Result<(), Error>
    ensures { (b t : List ℕ) (at : ℕ) → at ≤ length b → length b - at ≡ room → length t ≡ n → result ≡ (put b at t).written.answer }
{
    if room < n {
        return Err(Error::NotEnoughSpace);
    }
    Ok(())
}

// 9, then 1, of a piece of n bytes at a cursor of len bytes.
pub fn piece_fault(len: usize, at: usize, n: usize) -> Result<(), Error>
    ensures { (b t : List ℕ) → length b ≡ len → length t ≡ n → result ≡ (put b at t).written.answer }
{
    cursor_fault(len, at)?;
    room_fault(len - at, n)
}

// 4 where s is not UTF-8.
pub fn str_fault(s: &[u8]) -> Result<(), Error>
    ensures { result ≡ answer_of (text_fault s.now) }
{
    if !is_utf8(s) {
        return Err(Error::NotUtf8);
    }
    Ok(())
}

// 3 where the clamped range cuts a character of s.
pub fn range_fault(s: &[u8], range: Range) -> Result<(), Error>
    ensures { (m : Form) → result ≡ answer_of (cut_fault (str m s.now range)) }
{
    let Range { start, end } = saturate_range(s, range);
    if !is_char_boundary(s, start) {
        return Err(Error::NotOnCharBoundary);
    }
    if !is_char_boundary(s, end) {
        return Err(Error::NotOnCharBoundary);
    }
    Ok(())
}

// 2 where s holds a byte above 127.
pub fn ascii_fault(s: &[u8]) -> Result<(), Error>
    ensures { (m : Form) (r' : Range) → result ≡ answer_of (input_fault (ascii m s.now r')) }
{
    check_ascii(s)?;
    Ok(())
}

// 5 where c is no character.
pub fn char_fault(c: u32) -> Result<(), Error>
    ensures { (m : Form) → result ≡ answer_of (input_fault (char m c)) }
{
    if !is_char(c) {
        return Err(Error::NotAChar);
    }
    Ok(())
}

// What a string written at the cursor of len bytes meets first, but for its range: 9, 4.
pub fn judge_str(len: usize, at: usize, s: &[u8]) -> Result<(), Error>
    ensures { (b : List ℕ) → length b ≡ len → (m : Form) (r' : Range) → result
        ≡ answer_of (first_of (cursor_fault b at ∷ input_fault (str m s.now r') ∷ [])) }
{
    cursor_fault(len, at)?;
    str_fault(s)
}

// What ASCII text meets first: 9, 2.
pub fn judge_ascii(len: usize, at: usize, s: &[u8]) -> Result<(), Error>
    ensures { (b : List ℕ) → length b ≡ len → (m : Form) (r' : Range) → result ≡ answer_of (write_fault b at (ascii m s.now r')) }
{
    cursor_fault(len, at)?;
    ascii_fault(s)
}

// What a character meets first: 9, 5.
pub fn judge_char(len: usize, at: usize, c: u32) -> Result<(), Error>
    ensures { (b : List ℕ) → length b ≡ len → (m : Form) → result ≡ answer_of (write_fault b at (char m c)) }
{
    cursor_fault(len, at)?;
    char_fault(c)
}
