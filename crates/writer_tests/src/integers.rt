// Writes of integers.
use error::Error;
use fields::{first_field, later_fields, number};
use formatting::{FormattingFlags, HexFormatting, NumberFormatting};
use integer_writes::{write_debug, write_display};
use pwrapper::PrimitiveInteger;

// Displayed is a form of its own, so no Option of flags.
#[derive(Clone, Copy)]
enum Form {
    Display,
    Debug(FormattingFlags),
}

// A write of a value.
fn written<I: PrimitiveInteger>(
    x: I,
    form: Form,
    buf: &mut [u8],
    at: usize,
) -> Result<usize, Error> {
    match form {
        Form::Display => write_display(buf, at, x),
        Form::Debug(flags) => write_debug(buf, at, x, flags),
    }
}

// The number that a field is in decimal.
fn read_unsigned(s: &[u8]) -> Option<u64> {
    number(s, u64::MAX)
}

// The number that a field is in decimal, behind a minus or not, if an i64 has it.
fn read_signed(s: &[u8]) -> Option<i64> {
    match s {
        [b'-', digits @ ..] => Some(!i64::try_from(read_unsigned(digits)?.checked_sub(1)?).ok()?),
        _ => i64::try_from(read_unsigned(s)?).ok(),
    }
}

// A write of the value that a field is in decimal, if the type of that name has it.
fn call(t: &[u8], s: &[u8], form: Form, buf: &mut [u8], at: usize) -> Option<Result<usize, Error>> {
    Some(match t {
        b"u8" => written(u8::try_from(read_unsigned(s)?).ok()?, form, buf, at),
        b"u16" => written(u16::try_from(read_unsigned(s)?).ok()?, form, buf, at),
        b"u32" => written(u32::try_from(read_unsigned(s)?).ok()?, form, buf, at),
        b"u64" => written(read_unsigned(s)?, form, buf, at),
        b"i8" => written(i8::try_from(read_signed(s)?).ok()?, form, buf, at),
        b"i16" => written(i16::try_from(read_signed(s)?).ok()?, form, buf, at),
        b"i32" => written(i32::try_from(read_signed(s)?).ok()?, form, buf, at),
        b"i64" => written(read_signed(s)?, form, buf, at),
        _ => return None,
    })
}

// `dec|hex|bin,upper|lower,plain|alt`.
fn read_flags(words: &[u8]) -> Option<FormattingFlags> {
    let others = later_fields(words);
    let num_fmt = match first_field(words) {
        b"dec" => NumberFormatting::Decimal,
        b"hex" => NumberFormatting::Hexadecimal,
        b"bin" => NumberFormatting::Binary,
        _ => return None,
    };
    let hex_fmt = match first_field(others) {
        b"upper" => HexFormatting::Upper,
        b"lower" => HexFormatting::Lower,
        _ => return None,
    };
    let is_alternate = match later_fields(others) {
        b"plain" => false,
        b"alt" => true,
        _ => return None,
    };
    Some(FormattingFlags {
        num_fmt,
        hex_fmt,
        is_alternate,
    })
}

// `write_TYPE_display` with `VALUE`, `write_TYPE_debug` with `VALUE,dec|hex|bin,upper|lower,plain|alt`.
pub(crate) fn integer_call(
    name: &[u8],
    arguments: &[u8],
    buf: &mut [u8],
    at: usize,
) -> Option<Result<usize, Error>> {
    let typed = name.strip_prefix(b"write_")?;
    if let Some(t) = typed.strip_suffix(b"_display") {
        return call(t, arguments, Form::Display, buf, at);
    }
    let t = typed.strip_suffix(b"_debug")?;
    let flags = read_flags(later_fields(arguments))?;
    call(t, first_field(arguments), Form::Debug(flags), buf, at)
}
