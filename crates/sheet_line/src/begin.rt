// `begin,n,p,dec|hex|bin,upper|lower,plain|alt`.
ghost use Rattle.std.specs.Prelude.{◌≡◌};
ghost use Rattle.fields.specs.Fields.{fields};
ghost use Rattle.sheet_line.specs.Begin.{format_of, digits_of, layout_of, flag_fields, size_fields, begin_line, begin_of};

use fields::{number, split_field};
use formatting::{FormattingFlags, HexFormatting, NumberFormatting};
use lines::MAX_LINE;

// The greatest size of a sheet's buffer.
pub const MAX_SIZE: usize = 4096;

// How line 1 begins a run: a buffer's size, a cursor in it, and flags.
#[derive(Clone, Copy)]
pub struct Begin {
    pub size: usize,
    pub cursor: usize,
    pub flags: FormattingFlags,
}

// Why line 1 begins no run: its form or a number above its limit, or a cursor past the buffer's end.
#[derive(Clone, Copy)]
pub enum BadBegin {
    Form,
    Cursor,
}

#[tactic(auto, using(crate::proofs::Words::words), unfolding(crate::specs::Begin::format_of))]
fn format_of(w: &[u8]) -> Option<NumberFormatting>
    ensures { result ≡ format_of w.now }
{
    match w {
        b"dec" => Some(NumberFormatting::Decimal),
        b"hex" => Some(NumberFormatting::Hexadecimal),
        b"bin" => Some(NumberFormatting::Binary),
        _ => None,
    }
}

#[tactic(auto, using(crate::proofs::Words::words), unfolding(crate::specs::Begin::digits_of))]
fn digits_of(w: &[u8]) -> Option<HexFormatting>
    ensures { result ≡ digits_of w.now }
{
    match w {
        b"upper" => Some(HexFormatting::Upper),
        b"lower" => Some(HexFormatting::Lower),
        _ => None,
    }
}

// Whether numbers are alternate.
#[tactic(auto, using(crate::proofs::Words::words), unfolding(crate::specs::Begin::layout_of))]
fn layout_of(w: &[u8]) -> Option<bool>
    ensures { result ≡ layout_of w.now }
{
    match w {
        b"plain" => Some(false),
        b"alt" => Some(true),
        _ => None,
    }
}

// `dec|hex|bin,upper|lower,plain|alt`.
fn flag_fields(s: &[u8]) -> Option<FormattingFlags>
    ensures { result ≡ flag_fields (fields s.now) }
{
    let (format, rest) = split_field(s)?;
    let (digits, layout) = split_field(rest)?;
    if split_field(layout).is_some() {
        return None;
    }
    Some(FormattingFlags {
        num_fmt: format_of(format)?,
        hex_fmt: digits_of(digits)?,
        is_alternate: layout_of(layout)?,
    })
}

// `n,p` and the flags.
fn size_fields(s: &[u8]) -> Option<Begin>
    ensures { result ≡ size_fields (fields s.now) }
{
    let (size, rest) = split_field(s)?;
    let (cursor, flags) = split_field(rest)?;
    Some(Begin {
        size: number(size, MAX_SIZE as u64)? as usize,
        cursor: number(cursor, u64::MAX)? as usize,
        flags: flag_fields(flags)?,
    })
}

// What line 1 says, wherever its cursor is.
#[tactic(auto, using(crate::proofs::Words::words), unfolding(crate::specs::Begin::begin_line))]
fn begin_line(l: &[u8]) -> Option<Begin>
    ensures { result ≡ begin_line l.now }
{
    if MAX_LINE < l.len() {
        return None;
    }
    match split_field(l)? {
        (b"begin", sizes) => size_fields(sizes),
        _ => None,
    }
}

// How line 1 begins a run.
pub fn parse_begin(l: &[u8]) -> Result<Begin, BadBegin>
    ensures { result ≡ begin_of l.now }
{
    let begin = begin_line(l).ok_or(BadBegin::Form)?;
    if begin.size < begin.cursor {
        return Err(BadBegin::Cursor);
    }
    Ok(begin)
}
