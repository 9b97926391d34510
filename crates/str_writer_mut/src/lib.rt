// The writer that keeps the lent buffer and the cursor together (fmt/str_writer_mut.rs). Each function
// takes it apart and calls the function of crate str_writer on the slice and the cursor.
#![tactic(auto)]

ghost use Rattle.std.specs.Prelude.{◌≡◌};
ghost use Rattle.formatting.specs.Flags.{default_flags};
ghost use Rattle.str_writer.specs.Truncate.{truncated, truncated_utf8};
ghost use Rattle.str_writer.specs.Value.{str, display, debug, whole};
ghost use Rattle.str_writer.specs.Write.{outcome, write};
ghost use Rattle.str_writer_mut.specs.Writer.{Gives, GivesTwice, GivesTruncated};

use error::Error;

#[derive(Drop)]
pub struct StrWriterMut<'w> {
    pub buffer: &'w mut [u8],
    pub len: usize,
}

impl<'w> StrWriterMut<'w> {
    // A writer that goes on at a cursor. Where the cursor is past the buffer, each write and truncation answers 9.
    pub fn from_custom(buffer: &'w mut [u8], length: usize) -> Self
        ensures { (result.buffer ≡ buffer.entry) × (result.len ≡ length) }
    {
        Self {
            buffer,
            len: length,
        }
    }

    // A writer that begins with an empty text.
    pub fn from_custom_cleared(buffer: &'w mut [u8]) -> Self
        ensures { (result.buffer ≡ buffer.entry) × (result.len ≡ 0) }
    {
        Self { buffer, len: 0 }
    }

    // The length of the text.
    pub fn len(&self) -> usize
        ensures { result ≡ self.now.len }
    {
        self.len
    }

    // Writes a string at the cursor.
    pub fn write_str(&mut self, s: &[u8]) -> Result<(), Error>
        ensures { Gives result self.old self.new
            (write default_flags self.old.buffer.now self.old.len (str display s.now (whole s.now))) }
    {
        self.len = str_writer::write_str(&mut *self.buffer, self.len, s)?;
        Ok(())
    }

    // Writes a string between quotation marks at the cursor.
    pub fn write_str_debug(&mut self, s: &[u8]) -> Result<(), Error>
        ensures { Gives result self.old self.new
            (write default_flags self.old.buffer.now self.old.len (str debug s.now (whole s.now))) }
    {
        self.len = quoted_writes::write_str_debug(&mut *self.buffer, self.len, s)?;
        Ok(())
    }

    // truncate for NoEncoding. The slice is lent as for a write, so that the proof knows it unchanged.
    pub fn truncate(&mut self, length: usize) -> Result<(), Error>
        ensures { Gives result self.old self.new
            (outcome (truncated self.old.buffer.now self.old.len length) self.old.buffer.now) }
    {
        self.len = str_writer::truncate(&mut *self.buffer, self.len, length)?;
        Ok(())
    }

    // truncate for Utf8Encoding: 3 for a length that is no boundary of the text, whose end is one.
    pub fn truncate_utf8(&mut self, length: usize) -> Result<(), Error>
        ensures { Gives result self.old self.new
            (outcome (truncated_utf8 self.old.buffer.now self.old.len length) self.old.buffer.now) }
    {
        self.len = str_writer::truncate_utf8(&mut *self.buffer, self.len, length)?;
        Ok(())
    }
}

// What two writes answer, and where the cursor then is: it is somewhere whatever they answer.
#[derive(Clone, Copy)]
pub struct WrittenTwice {
    pub at: usize,
    pub first: Result<(), Error>,
    pub second: Result<(), Error>,
}

// A string and after it a quoted string, through one writer: its parameters are plain, so that
// callers need no writer of their own. The second is written also where the first is refused.
pub fn write_str_then_debug(buffer: &mut [u8], length: usize, s: &[u8], t: &[u8]) -> WrittenTwice
    ensures { GivesTwice result buffer.new (write default_flags buffer.old length (str display s.now (whole s.now)))
        (str debug t.now (whole t.now)) }
{
    let mut w = StrWriterMut::from_custom(buffer, length);
    let first = w.write_str(s);
    let second = w.write_str_debug(t);
    WrittenTwice {
        at: w.len,
        first,
        second,
    }
}

// What a write and two truncations answer, the length between the two, and where the cursor then is:
// both are there whatever the three answer.
#[derive(Clone, Copy)]
pub struct Truncated {
    pub at: usize,
    pub len: usize,
    pub written: Result<(), Error>,
    pub plain: Result<(), Error>,
    pub utf8: Result<(), Error>,
}

// A string through a cleared writer, truncated without an encoding and then for UTF-8: its parameters
// are plain, as those of write_str_then_debug. Both truncations are tried also where the write is refused.
pub fn write_str_then_truncate(
    buffer: &mut [u8],
    s: &[u8],
    length: usize,
    utf8_length: usize,
) -> Truncated
    ensures { GivesTruncated result buffer.new (write default_flags buffer.old 0
        (str display s.now (whole s.now))) length utf8_length }
{
    let mut w = StrWriterMut::from_custom_cleared(buffer);
    let written = w.write_str(s);
    let plain = w.truncate(length);
    let len = w.len();
    let utf8 = w.truncate_utf8(utf8_length);
    Truncated {
        at: w.len,
        len,
        written,
        plain,
        utf8,
    }
}
