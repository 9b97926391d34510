// A value counted or written as one piece: the text of strings is lent beside it.
#![tactic(auto)]

mod integer_value;

ghost use Rattle.std.specs.Prelude.{◌≡◌, true, List, ℕ, ◌+◌, ◌%◌, ◌^◌, length, replicate};
ghost use Rattle.error.specs.Answer.{answer_number, fault_number};
ghost use Rattle.formatting.specs.declared.flags.FormattingFlags as Flags;
ghost use Rattle.utils.specs.Text.{part};
ghost use Rattle.char_encoding.specs.Char.{char_len};
ghost use Rattle.pwrapper.specs.Number.{debug_parts, twos_complement};
ghost use Rattle.str_writer.specs.Value.{char, str, ascii, text_of, string_text, input_fault, cut_fault};
ghost use Rattle.str_writer.specs.Value.{Form as ValueForm};
ghost use Rattle.writer_backend.specs.Output.{mode_of, is_counting, put_out};
ghost use Rattle.value_writes.specs.Values.{form_of, bits_of, heeded_by, integer_of, text_of_parts, value_of, judged_in, emitted, value_judged, value_out};

use char_encoding::{char_debug_len, char_display_len};
use error::Error;
use formatting::{FormattingFlags, NumberFormatting};
pub use integer_value::IntegerValue;
use integer_writes::write_debug_parts;
use pwrapper::{binary_len, compute_utf8_debug_len_in_range, decimal_len, hexadecimal_len};
use quoted_writes::put_quoted_part;
use str_writer::{
    ascii_fault, char_fault, put_char_debug, put_part, range_fault, str_fault, write_ascii_repeated,
};
use utils::{Range, saturate_range};
use writer_backend::WriterBackend;

#[derive(Clone, Copy)]
pub enum Form {
    Display,
    Debug,
}

// The bits of an integer's type.
#[derive(Clone, Copy)]
pub enum Width {
    W8,
    W16,
    W32,
    W64,
}

// An integer by its type.
#[derive(Clone, Copy)]
pub enum Integer {
    Unsigned(Width, u64),
    Signed(Width, i64),
}

// What is written (after PVariant of pargument.rs). A string is a range of the text lent beside it.
#[derive(Clone, Copy)]
pub enum PVariant {
    Int(Form, Integer),
    Char(Form, u32),
    Str(Form, Range),
    Ascii(Form, Range),
    Repeated(u8, usize),
}

// What the text of an integer is made of, under the flags that it heeds: a sign with an absolute
// value in decimal, the two's complement otherwise.
#[derive(Clone, Copy)]
struct Parts {
    flags: FormattingFlags,
    is_negative: bool,
    n: u64,
    bits: u64,
}

// The 2, 4 or 5 that a value meets.
pub fn value_fault(v: PVariant, s: &[u8]) -> Result<(), Error>
    ensures { answer_number result ≡ fault_number (input_fault (value_of v s.now)) }
{
    match v {
        PVariant::Int(_, _) | PVariant::Repeated(_, _) => Ok(()),
        PVariant::Char(_, c) => char_fault(c),
        PVariant::Str(_, _) => str_fault(s),
        PVariant::Ascii(_, _) => ascii_fault(s),
    }
}

// The 3 that a value meets.
pub fn cut_fault(v: PVariant, s: &[u8]) -> Result<(), Error>
    ensures { answer_number result ≡ fault_number (cut_fault (value_of v s.now)) }
{
    match v {
        PVariant::Str(_, range) => range_fault(s, range),
        PVariant::Int(_, _)
        | PVariant::Char(_, _)
        | PVariant::Ascii(_, _)
        | PVariant::Repeated(_, _) => Ok(()),
    }
}

// Writes or counts a value, tested in the order 9, then 2, 4 or 5, then 3 in writing, then 6 or 1.
pub fn put_value(
    writer: &mut WriterBackend,
    buf: &mut [u8],
    flags: FormattingFlags,
    v: PVariant,
    s: &[u8],
) -> Result<(), Error>
    ensures { put_out result writer.new buf.new ≡ value_out writer.old buf.old flags (value_of v s.now) }
{
    writer.judge(buf)?;
    match v {
        PVariant::Int(form, x) => put_integer(writer, buf, parts_of(form, x, flags)),
        PVariant::Char(form, c) => put_char(writer, buf, form, c),
        PVariant::Str(form, range) => put_str(writer, buf, form, s, range),
        PVariant::Ascii(form, range) => put_ascii(writer, buf, form, s, range),
        PVariant::Repeated(c, n) => put_repeated(writer, buf, c, n),
    }
}

// The flags that an integer heeds: displayed, it is decimal.
fn flags_for(form: Form, flags: FormattingFlags) -> FormattingFlags
    ensures { result ≡ heeded_by (form_of form) flags }
{
    match form {
        Form::Display => FormattingFlags {
            num_fmt: NumberFormatting::Decimal,
            ..flags
        },
        Form::Debug => flags,
    }
}

fn parts_of(form: Form, x: Integer, flags: FormattingFlags) -> Parts
    ensures { text_of flags (integer_of (form_of form) x) ≡ text_of_parts result }
{
    let heeded = flags_for(form, flags);
    match x {
        Integer::Unsigned(_, n) => Parts {
            flags: heeded,
            is_negative: false,
            n,
            bits: n,
        },
        Integer::Signed(width, z) => Parts {
            flags: heeded,
            is_negative: z < 0,
            n: z.unsigned_abs(),
            bits: bits_at(width, z),
        },
    }
}

// The greatest number of a width.
pub fn greatest(width: Width) -> u64
    ensures { result + 1 ≡ 2 ^ bits_of width }
{
    match width {
        Width::W8 => 255,
        Width::W16 => 65535,
        Width::W32 => 4294967295,
        Width::W64 => 18446744073709551615,
    }
}

// The two's complement at a width, by the sum that document 01 has: a cast would take the last bits of
// a number that does not fit the width, which has another text.
fn bits_at(width: Width, x: i64) -> u64
    ensures { result ≡ twos_complement (bits_of width) x }
{
    if x < 0 {
        greatest(width).saturating_sub((!x).cast_unsigned())
    } else {
        x.cast_unsigned()
    }
}

// An integer counted or written. Its functions have one call site each: the compiler lays them into
// the run's loop.
fn put_integer(writer: &mut WriterBackend, buf: &mut [u8], p: Parts) -> Result<(), Error>
    ensures { put_out result writer.new buf.new ≡ emitted (mode_of writer.old) buf.old (text_of_parts p) }
{
    let Parts {
        flags,
        is_negative,
        n,
        bits,
    } = p;
    if writer.is_counting() {
        return writer.add_len(debug_len(is_negative, n, bits, flags));
    }
    let at = writer.number;
    writer.advance(write_debug_parts(buf, at, is_negative, n, bits, flags))
}

fn debug_len(is_negative: bool, n: u64, bits: u64, flags: FormattingFlags) -> usize
    ensures { result ≡ length (debug_parts flags.num_fmt flags is_negative n bits) }
{
    match flags.num_fmt {
        NumberFormatting::Decimal => decimal_len(is_negative, n),
        NumberFormatting::Hexadecimal => hexadecimal_len(bits, flags),
        NumberFormatting::Binary => binary_len(bits, flags),
    }
}

fn put_char(writer: &mut WriterBackend, buf: &mut [u8], form: Form, c: u32) -> Result<(), Error>
    ensures { (f : Flags.FormattingFlags) → put_out result writer.new buf.new ≡ value_judged writer.old buf.old f (char (form_of form) c) }
{
    if writer.is_counting() {
        return writer.add_len(char_len(form, c)?);
    }
    char_fault(c)?;
    let at = writer.number;
    match form {
        Form::Display => writer.advance(str_writer::put_char(buf, at, c)),
        Form::Debug => writer.advance(put_char_debug(buf, at, c)),
    }
}

fn char_len(form: Form, c: u32) -> Result<usize, Error>
    ensures { (f : Flags.FormattingFlags) → result ≡ char_len c (text_of f (char (form_of form) c)) }
{
    match form {
        Form::Display => char_display_len(c),
        Form::Debug => char_debug_len(c),
    }
}

// 4, then 3 in writing.
fn judge_str(writer: WriterBackend, s: &[u8], range: Range) -> Result<(), Error>
    ensures { (form : ValueForm) → answer_number result ≡ judged_in (mode_of writer) (str form s.now range) }
{
    str_fault(s)?;
    if writer.is_counting() {
        return Ok(());
    }
    range_fault(s, range)
}

fn put_str(
    writer: &mut WriterBackend,
    buf: &mut [u8],
    form: Form,
    s: &[u8],
    range: Range,
) -> Result<(), Error>
    ensures { (f : Flags.FormattingFlags) → put_out result writer.new buf.new ≡ value_judged writer.old buf.old f (str (form_of form) s.now range) }
{
    judge_str(*writer, s, range)?;
    put_string(writer, buf, form, s, range)
}

fn put_ascii(
    writer: &mut WriterBackend,
    buf: &mut [u8],
    form: Form,
    s: &[u8],
    range: Range,
) -> Result<(), Error>
    ensures { (f : Flags.FormattingFlags) → put_out result writer.new buf.new ≡ value_judged writer.old buf.old f (ascii (form_of form) s.now range) }
{
    ascii_fault(s)?;
    put_string(writer, buf, form, s, range)
}

// A clamped range that was judged, bare or quoted, counted or written. Each of its two callers has it
// as a part of its own: a run's loop then has no call.
#[inline(always)]
fn put_string(
    writer: &mut WriterBackend,
    buf: &mut [u8],
    form: Form,
    s: &[u8],
    range: Range,
) -> Result<(), Error>
    ensures { put_out result writer.new buf.new ≡ emitted (mode_of writer.old) buf.old (string_text (form_of form) (part s.now range)) }
{
    if writer.is_counting() {
        return add_string(writer, form, s, range);
    }
    let at = writer.number;
    match form {
        Form::Display => writer.advance(put_part(buf, at, s, range)),
        Form::Debug => writer.advance(put_quoted_part(buf, at, s, range)),
    }
}

// The length of a clamped range, bare or quoted, added to the total.
fn add_string(writer: &mut WriterBackend, form: Form, s: &[u8], range: Range) -> Result<(), Error>
    requires { is_counting (mode_of writer.old) ≡ true }
    ensures { (b : List ℕ) → put_out result writer.new b ≡ emitted (mode_of writer.old) b (string_text (form_of form) (part s.now range)) }
{
    match form {
        Form::Display => {
            let Range { start, end } = saturate_range(s, range);
            writer.add_len(end - start)
        }
        Form::Debug => {
            let len = compute_utf8_debug_len_in_range(s, range)?;
            writer.add_len(len)
        }
    }
}

fn put_repeated(writer: &mut WriterBackend, buf: &mut [u8], c: u8, n: usize) -> Result<(), Error>
    ensures { put_out result writer.new buf.new ≡ emitted (mode_of writer.old) buf.old (replicate n (c % 128)) }
{
    if writer.is_counting() {
        return writer.add_len(n);
    }
    let at = writer.number;
    writer.advance(write_ascii_repeated(buf, at, c, n))
}
