// Single writes at a cursor. The cases are lines of standard input, in the forms that README.md
// gives. Each prints itself, then what the function under test gives for it.
#![tactic(auto)]

mod cursor;
mod integers;
mod lent;
mod print;
mod texts;

use cursor::{given_call, truncate_call};
use error::Error;
use fields::{first_field, later_fields, number};
use integers::integer_call;
use lent::{then_truncate_call, twice_call};
use line_input::{LineProgram, answer_lines};
use print::Printed;
use quoted_writes::{
    write_ascii_debug, write_ascii_range_debug, write_str_debug, write_str_range_debug,
};
use std::io;
use str_writer::{
    write_ascii, write_ascii_range, write_char, write_char_debug, write_str, write_str_range,
};
use texts::{char_call, range_call, repeated_call, text_call};

// Plays a write by its name.
fn play(name: &[u8], arguments: &[u8], buf: &mut [u8], at: usize) -> Option<Result<usize, Error>> {
    match name {
        b"write_str" => text_call(arguments, |s| write_str(buf, at, s)),
        b"write_str_debug" => text_call(arguments, |s| write_str_debug(buf, at, s)),
        b"write_ascii" => text_call(arguments, |s| write_ascii(buf, at, s)),
        b"write_ascii_debug" => text_call(arguments, |s| write_ascii_debug(buf, at, s)),
        b"write_str_range" => range_call(arguments, |s, r| write_str_range(buf, at, s, r)),
        b"write_str_range_debug" => range_call(
            arguments,
            |s, r| write_str_range_debug(buf, at, s, r),
        ),
        b"write_ascii_range" => range_call(arguments, |s, r| write_ascii_range(buf, at, s, r)),
        b"write_ascii_range_debug" => range_call(
            arguments,
            |s, r| write_ascii_range_debug(buf, at, s, r),
        ),
        b"write_char" => char_call(arguments, |c| write_char(buf, at, c)),
        b"write_char_debug" => char_call(arguments, |c| write_char_debug(buf, at, c)),
        b"write_ascii_repeated" => repeated_call(arguments, buf, at),
        _ => integer_call(name, arguments, buf, at),
    }
}

// Lays what a write into LEN dots gives, by `LEN,AT` and its arguments.
fn write_call(name: &[u8], rest: &[u8], out: &mut Printed) -> Option<()> {
    let later = later_fields(rest);
    let arguments = later_fields(later);
    let len = number(first_field(rest), u64::MAX)? as usize;
    let at = number(first_field(later), u64::MAX)? as usize;
    let mut dots = [b'.'; 72];
    let buf = dots.get_mut(..len)?;
    if name == b"write_str_then_debug".as_slice() {
        return twice_call(arguments, buf, at, out);
    }
    let written = play(name, arguments, buf, at)?;
    out.result(written, at, buf);
    Some(())
}

// Lays a line, a colon and what the case that it is gives, if the line has the form of one.
fn put_line(line: &[u8], out: &mut Printed) -> Option<()> {
    let rest = later_fields(line);
    out.text(line);
    out.text(b": ");
    match first_field(line) {
        b"from_custom" => given_call(rest, out),
        b"truncate" => truncate_call(rest, out),
        b"write_str_then_truncate" => then_truncate_call(rest, out),
        name => write_call(name, rest, out),
    }
}

// Lays what a line prints: itself, a colon and what it gives; nothing for a comment, `bad` for a line
// of another form.
fn answer(line: &[u8], out: &mut [u8]) -> usize {
    let mut printed = Printed::new(out);
    if !line.starts_with(b"#") && put_line(line, &mut printed).is_none() {
        printed.clear();
        printed.text(b"bad\n");
    }
    printed.len()
}

// The cases, each answered by itself.
#[derive(Drop)]
struct Cases;

impl LineProgram for Cases {
    fn answer(&mut self, line: &[u8], out: &mut [u8]) -> usize {
        answer(line, out)
    }
}

fn main(rt: HostRuntime) -> io::Result<()> {
    answer_lines(&mut Cases, &mut rt.stdin(), &mut rt.stdout())
}
