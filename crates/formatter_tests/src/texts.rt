// Calls with no argument, with a text, a character, a repeated byte or flags. None is made where the
// arguments have another form.
use error::Error;
use fields::{first_field, from_hex, later_fields, number};
use formatter::Formatter;
use formatting::FormattingFlags;
use utils::{Range, slice_up_to_len};

// No argument.
pub(crate) fn plain_call<F: FnOnce() -> Result<(), Error>>(
    arguments: &[u8],
    make: F,
) -> Option<Result<(), Error>>
    requires { F.IsAlwaysCallable make }
{
    if !arguments.is_empty() {
        return None;
    }
    Some(make())
}

// `HEX`.
pub(crate) fn text_call<F: FnOnce(&[u8]) -> Result<(), Error>>(
    arguments: &[u8],
    make: F,
) -> Option<Result<(), Error>>
    requires { F.IsAlwaysCallable make }
{
    let mut space = [0u8; 72];
    let n = from_hex(arguments, &mut space)?;
    Some(make(slice_up_to_len(&space, n)))
}

// `HEX,START,END`.
pub(crate) fn range_call<F: FnOnce(&[u8], Range) -> Result<(), Error>>(
    arguments: &[u8],
    make: F,
) -> Option<Result<(), Error>>
    requires { F.IsAlwaysCallable make }
{
    let mut space = [0u8; 72];
    let n = from_hex(first_field(arguments), &mut space)?;
    let later = later_fields(arguments);
    let range = Range {
        start: number(first_field(later), u64::MAX)? as usize,
        end: number(later_fields(later), u64::MAX)? as usize,
    };
    Some(make(slice_up_to_len(&space, n), range))
}

// `CODE`.
pub(crate) fn char_call<F: FnOnce(u32) -> Result<(), Error>>(
    arguments: &[u8],
    make: F,
) -> Option<Result<(), Error>>
    requires { F.IsAlwaysCallable make }
{
    let c = u32::try_from(number(arguments, u64::MAX)?).ok()?;
    Some(make(c))
}

// `BYTE,COUNT`: write_ascii_repeated.
pub(crate) fn repeated_call(
    fmt: &mut Formatter,
    buf: &mut [u8],
    arguments: &[u8],
) -> Option<Result<(), Error>> {
    let c = u8::try_from(number(first_field(arguments), u64::MAX)?).ok()?;
    let n = number(later_fields(arguments), u64::MAX)? as usize;
    Some(fmt.write_ascii_repeated(buf, c, n))
}

// `FLAGS`: make_formatter.
pub(crate) fn flags_call(
    fmt: &mut Formatter,
    buf: &mut [u8],
    arguments: &[u8],
) -> Option<Result<(), Error>> {
    let flags = FormattingFlags::try_from(number(arguments, u64::MAX)?).ok()?;
    Some(fmt.make_formatter(buf, flags))
}
