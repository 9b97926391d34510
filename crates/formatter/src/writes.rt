// The values, by the Rust's names.
ghost use Rattle.std.specs.Prelude.{◌≡◌};
ghost use Rattle.calls.specs.Call.{value};
ghost use Rattle.calls.specs.Model.{step};
ghost use Rattle.str_writer.specs.Value.{integer, char, str, ascii, repeated, display, debug, whole};
ghost use Rattle.formatter.specs.View.{view_f, view_f_out};

use crate::dispatch::Op;
use crate::formatter::Formatter;
use error::Error;
use utils::Range;
use value_writes::{Form, IntegerValue, PVariant};

impl Formatter {
    // Writes or counts a string.
    pub fn write_str(&mut self, buf: &mut [u8], s: &[u8]) -> Result<(), Error>
        ensures { view_f_out result self.new buf.new ≡ step (view_f self.old buf.old) (value (str display s.now (whole s.now))) }
    {
        let end = s.len();
        self.call(
            buf,
            Op::Value(PVariant::Str(Form::Display, Range { start: 0, end })),
            s,
        )
    }

    // Writes or counts the part of a string in the clamped range.
    pub fn write_str_range(&mut self, buf: &mut [u8], s: &[u8], range: Range) -> Result<(), Error>
        ensures { view_f_out result self.new buf.new ≡ step (view_f self.old buf.old) (value (str display s.now range)) }
    {
        self.call(buf, Op::Value(PVariant::Str(Form::Display, range)), s)
    }

    // Writes or counts ASCII text.
    pub fn write_ascii(&mut self, buf: &mut [u8], s: &[u8]) -> Result<(), Error>
        ensures { view_f_out result self.new buf.new
            ≡ step (view_f self.old buf.old) (value (ascii display s.now (whole s.now))) }
    {
        let end = s.len();
        self.call(
            buf,
            Op::Value(PVariant::Ascii(Form::Display, Range { start: 0, end })),
            s,
        )
    }

    // Writes or counts the part of ASCII text in the clamped range.
    pub fn write_ascii_range(&mut self, buf: &mut [u8], s: &[u8], range: Range) -> Result<(), Error>
        ensures { view_f_out result self.new buf.new ≡ step (view_f self.old buf.old) (value (ascii display s.now range)) }
    {
        self.call(buf, Op::Value(PVariant::Ascii(Form::Display, range)), s)
    }

    // Writes or counts a character.
    pub fn write_char(&mut self, buf: &mut [u8], c: u32) -> Result<(), Error>
        ensures { view_f_out result self.new buf.new ≡ step (view_f self.old buf.old) (value (char display c)) }
    {
        self.call(buf, Op::Value(PVariant::Char(Form::Display, c)), b"")
    }

    // Writes or counts a string between quotation marks.
    pub fn write_str_debug(&mut self, buf: &mut [u8], s: &[u8]) -> Result<(), Error>
        ensures { view_f_out result self.new buf.new ≡ step (view_f self.old buf.old) (value (str debug s.now (whole s.now))) }
    {
        let end = s.len();
        self.call(
            buf,
            Op::Value(PVariant::Str(Form::Debug, Range { start: 0, end })),
            s,
        )
    }

    // Writes or counts the part of a string in the clamped range, between quotation marks.
    pub fn write_str_range_debug(
        &mut self,
        buf: &mut [u8],
        s: &[u8],
        range: Range,
    ) -> Result<(), Error>
        ensures { view_f_out result self.new buf.new ≡ step (view_f self.old buf.old) (value (str debug s.now range)) }
    {
        self.call(buf, Op::Value(PVariant::Str(Form::Debug, range)), s)
    }

    // Writes or counts ASCII text between quotation marks.
    pub fn write_ascii_debug(&mut self, buf: &mut [u8], s: &[u8]) -> Result<(), Error>
        ensures { view_f_out result self.new buf.new ≡ step (view_f self.old buf.old) (value (ascii debug s.now (whole s.now))) }
    {
        let end = s.len();
        self.call(
            buf,
            Op::Value(PVariant::Ascii(Form::Debug, Range { start: 0, end })),
            s,
        )
    }

    // Writes or counts the part of ASCII text in the clamped range, between quotation marks.
    pub fn write_ascii_range_debug(
        &mut self,
        buf: &mut [u8],
        s: &[u8],
        range: Range,
    ) -> Result<(), Error>
        ensures { view_f_out result self.new buf.new ≡ step (view_f self.old buf.old) (value (ascii debug s.now range)) }
    {
        self.call(buf, Op::Value(PVariant::Ascii(Form::Debug, range)), s)
    }

    // Writes or counts a character between quotation marks.
    pub fn write_char_debug(&mut self, buf: &mut [u8], c: u32) -> Result<(), Error>
        ensures { view_f_out result self.new buf.new ≡ step (view_f self.old buf.old) (value (char debug c)) }
    {
        self.call(buf, Op::Value(PVariant::Char(Form::Debug, c)), b"")
    }

    // Writes or counts the low seven bits of c n times.
    pub fn write_ascii_repeated(&mut self, buf: &mut [u8], c: u8, n: usize) -> Result<(), Error>
        ensures { view_f_out result self.new buf.new ≡ step (view_f self.old buf.old) (value (repeated c n)) }
    {
        self.call(buf, Op::Value(PVariant::Repeated(c, n)), b"")
    }

    // Writes or counts an integer in decimal.
    pub fn write_display<I: IntegerValue>(&mut self, buf: &mut [u8], x: I) -> Result<(), Error>
        ensures { view_f_out result self.new buf.new
            ≡ step (view_f self.old buf.old) (value (integer display I.BITS (I.value x))) }
    {
        let n = x.to_integer();
        self.call(buf, Op::Value(PVariant::Int(Form::Display, n)), b"")
    }

    // Writes or counts an integer in the form that the flags say.
    pub fn write_debug<I: IntegerValue>(&mut self, buf: &mut [u8], x: I) -> Result<(), Error>
        ensures { view_f_out result self.new buf.new ≡ step (view_f self.old buf.old) (value (integer debug I.BITS (I.value x))) }
    {
        let n = x.to_integer();
        self.call(buf, Op::Value(PVariant::Int(Form::Debug, n)), b"")
    }
}
