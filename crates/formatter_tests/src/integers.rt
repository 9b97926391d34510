// Writes of integers.
use error::Error;
use fields::number;
use formatter::Formatter;
use value_writes::{Form, IntegerValue};

// A value in a form.
fn written<I: IntegerValue>(
    fmt: &mut Formatter,
    buf: &mut [u8],
    form: Form,
    x: I,
) -> Result<(), Error> {
    match form {
        Form::Display => fmt.write_display(buf, x),
        Form::Debug => fmt.write_debug(buf, x),
    }
}

// The number that a field is in decimal.
fn read_unsigned(s: &[u8]) -> Option<u64> {
    number(s, u64::MAX)
}

// The number that a field is in decimal, behind a minus or not, if an i64 has it.
fn read_signed(s: &[u8]) -> Option<i64> {
    match s {
        [b'-', digits @ ..] => Some(!i64::try_from(read_unsigned(digits)?.checked_sub(1)?).ok()?),
        _ => i64::try_from(read_unsigned(s)?).ok(),
    }
}

// The value that a field is in decimal, if the type of that name has it.
fn call(
    fmt: &mut Formatter,
    buf: &mut [u8],
    form: Form,
    t: &[u8],
    s: &[u8],
) -> Option<Result<(), Error>> {
    Some(match t {
        b"u8" => written(fmt, buf, form, u8::try_from(read_unsigned(s)?).ok()?),
        b"u16" => written(fmt, buf, form, u16::try_from(read_unsigned(s)?).ok()?),
        b"u32" => written(fmt, buf, form, u32::try_from(read_unsigned(s)?).ok()?),
        b"u64" => written(fmt, buf, form, read_unsigned(s)?),
        b"i8" => written(fmt, buf, form, i8::try_from(read_signed(s)?).ok()?),
        b"i16" => written(fmt, buf, form, i16::try_from(read_signed(s)?).ok()?),
        b"i32" => written(fmt, buf, form, i32::try_from(read_signed(s)?).ok()?),
        b"i64" => written(fmt, buf, form, read_signed(s)?),
        _ => return None,
    })
}

// `write_TYPE_display` or `write_TYPE_debug` with `VALUE`, a value of its type.
pub(crate) fn integer_call(
    fmt: &mut Formatter,
    buf: &mut [u8],
    name: &[u8],
    arguments: &[u8],
) -> Option<Result<(), Error>> {
    let typed = name.strip_prefix(b"write_")?;
    if let Some(t) = typed.strip_suffix(b"_display") {
        return call(fmt, buf, Form::Display, t, arguments);
    }
    call(
        fmt,
        buf,
        Form::Debug,
        typed.strip_suffix(b"_debug")?,
        arguments,
    )
}
