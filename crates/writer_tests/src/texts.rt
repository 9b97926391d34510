// Writes of text: strings, ASCII text, characters, a repeated byte.
use error::Error;
use fields::{first_field, from_hex, later_fields, number};
use utils::{Range, slice_up_to_len};

// `HEX`, by the write of a text.
pub(crate) fn text_call<F: FnOnce(&[u8]) -> Result<usize, Error>>(
    arguments: &[u8],
    write: F,
) -> Option<Result<usize, Error>>
    requires { F.IsAlwaysCallable write }
{
    let mut space = [0u8; 72];
    let n = from_hex(arguments, &mut space)?;
    Some(write(slice_up_to_len(&space, n)))
}

// `HEX,START,END`, by the write of a range of a text.
pub(crate) fn range_call<F: FnOnce(&[u8], Range) -> Result<usize, Error>>(
    arguments: &[u8],
    write: F,
) -> Option<Result<usize, Error>>
    requires { F.IsAlwaysCallable write }
{
    let mut space = [0u8; 72];
    let n = from_hex(first_field(arguments), &mut space)?;
    let later = later_fields(arguments);
    let range = Range {
        start: number(first_field(later), u64::MAX)? as usize,
        end: number(later_fields(later), u64::MAX)? as usize,
    };
    Some(write(slice_up_to_len(&space, n), range))
}

// `CODE`, by the write of a character.
pub(crate) fn char_call<F: FnOnce(u32) -> Result<usize, Error>>(
    arguments: &[u8],
    write: F,
) -> Option<Result<usize, Error>>
    requires { F.IsAlwaysCallable write }
{
    let c = u32::try_from(number(arguments, u64::MAX)?).ok()?;
    Some(write(c))
}

// `BYTE,COUNT`.
pub(crate) fn repeated_call(
    arguments: &[u8],
    buf: &mut [u8],
    at: usize,
) -> Option<Result<usize, Error>> {
    let c = u8::try_from(number(first_field(arguments), u64::MAX)?).ok()?;
    let n = number(later_fields(arguments), u64::MAX)? as usize;
    Some(str_writer::write_ascii_repeated(buf, at, c, n))
}
