// A call by its name, and the calls of a line played again and again.
use crate::integers::integer_call;
use crate::texts::{char_call, flags_call, plain_call, range_call, repeated_call, text_call};
use error::Error;
use fields::{first_field, later_fields, number};
use formatter::Formatter;

// Makes the call `NAME,ARGUMENTS`, if it has the form of one.
fn make_call(fmt: &mut Formatter, buf: &mut [u8], call: &[u8]) -> Option<Result<(), Error>> {
    let arguments = later_fields(call);
    match first_field(call) {
        b"debug_list" => plain_call(arguments, || fmt.debug_list(buf)),
        b"debug_set" => plain_call(arguments, || fmt.debug_set(buf)),
        b"tuple_field" => plain_call(arguments, || fmt.tuple_field(buf)),
        b"entry" => plain_call(arguments, || fmt.entry(buf)),
        b"finish" => plain_call(arguments, || fmt.finish(buf)),
        b"end_formatter" => plain_call(arguments, || fmt.end_formatter(buf)),
        b"debug_struct" => text_call(arguments, |s| fmt.debug_struct(buf, s)),
        b"debug_tuple" => text_call(arguments, |s| fmt.debug_tuple(buf, s)),
        b"field" => text_call(arguments, |s| fmt.field(buf, s)),
        b"write_str" => text_call(arguments, |s| fmt.write_str(buf, s)),
        b"write_str_debug" => text_call(arguments, |s| fmt.write_str_debug(buf, s)),
        b"write_ascii" => text_call(arguments, |s| fmt.write_ascii(buf, s)),
        b"write_ascii_debug" => text_call(arguments, |s| fmt.write_ascii_debug(buf, s)),
        b"write_str_range" => range_call(arguments, |s, r| fmt.write_str_range(buf, s, r)),
        b"write_str_range_debug" => range_call(
            arguments,
            |s, r| fmt.write_str_range_debug(buf, s, r),
        ),
        b"write_ascii_range" => range_call(arguments, |s, r| fmt.write_ascii_range(buf, s, r)),
        b"write_ascii_range_debug" => range_call(
            arguments,
            |s, r| fmt.write_ascii_range_debug(buf, s, r),
        ),
        b"write_char" => char_call(arguments, |c| fmt.write_char(buf, c)),
        b"write_char_debug" => char_call(arguments, |c| fmt.write_char_debug(buf, c)),
        b"write_ascii_repeated" => repeated_call(fmt, buf, arguments),
        b"make_formatter" => flags_call(fmt, buf, arguments),
        name => integer_call(fmt, buf, name, arguments),
    }
}

// Makes the first n calls of a line, each behind a semicolon: the last answer.
fn make_calls(
    fmt: &mut Formatter,
    buf: &mut [u8],
    calls: &[u8],
    n: usize,
) -> Option<Result<(), Error>> {
    let mut last = None;
    for call in calls.split(|b| *b == b';').skip(1).take(n) {
        last = make_call(fmt, buf, call);
    }
    last
}

// Makes the first calls of a line as often as n says: the last answer.
fn repeat(
    fmt: &mut Formatter,
    buf: &mut [u8],
    calls: &[u8],
    before: usize,
    n: u64,
) -> Option<Result<(), Error>> {
    let mut last = None;
    for _ in 0..n {
        last = make_calls(fmt, buf, calls, before);
    }
    last
}

// Makes a call of a line, or for `repeat,N` as many first calls as are before it N times more. None is
// no call.
pub(crate) fn play(
    fmt: &mut Formatter,
    buf: &mut [u8],
    call: &[u8],
    calls: &[u8],
    before: usize,
) -> Option<Result<(), Error>> {
    if first_field(call) == b"repeat".as_slice() {
        let n = number(later_fields(call), 65536)?;
        return repeat(fmt, buf, calls, before, n);
    }
    make_call(fmt, buf, call)
}
