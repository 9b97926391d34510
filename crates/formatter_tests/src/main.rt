// The methods of a formatter, in counting and in writing. A case is a line of standard
// input: README.md has the form of the lines and what each prints.
#![tactic(auto)]

mod integers;
mod play;
mod played;
mod print;
mod texts;

use calls::Settings;
use fields::{first_field, later_fields, number};
use formatting::FormattingFlags;
use line_input::{LineProgram, answer_lines};
use lines::MAX_LINE;
use played::Played;
use print::Printed;
use std::io;

// Makes the calls of a line by a formatter that counts, to which four dots are lent, and by one that
// writes into a buffer from a place. Lays the name, and what each call gives.
fn put_calls(
    name: &[u8],
    calls: &[u8],
    settings: Settings,
    buf: &mut [u8],
    at: usize,
    out: &mut Printed,
) {
    let mut four = [b'.'; 4];
    let mut counted = Played::counting(settings);
    let mut written = Played::writing(buf, at, settings);
    out.call(name, &counted, &written);
    for (before, call) in calls.split(|b| *b == b';').skip(1).enumerate() {
        counted.play(&mut four, call, calls, before);
        written.play(buf, call, calls, before);
        out.text(b" ");
        out.call(call, &counted, &written);
    }
    out.bytes(&four, buf);
}

// Lays what the line `NAME,FLAGS,LEN,AT` and its calls print, if it has that form.
fn put_line(line: &[u8], out: &mut Printed) -> Option<()> {
    if MAX_LINE < line.len() {
        return None;
    }
    let n = line.iter().position(|b| *b == b';').unwrap_or(line.len());
    let (head, calls) = line.split_at(n);
    let fields = later_fields(head);
    let sizes = later_fields(fields);
    let flags = FormattingFlags::try_from(number(first_field(fields), u64::MAX)?).ok()?;
    let len = number(first_field(sizes), u64::MAX)? as usize;
    let at = number(later_fields(sizes), u64::MAX)? as usize;
    let mut dots = [b'.'; 256];
    let buf = dots.get_mut(..len)?;
    put_calls(first_field(head), calls, Settings { flags }, buf, at, out);
    Some(())
}

// Lays what a line prints: where that ends. A comment and an empty line print nothing.
fn answer(line: &[u8], out: &mut [u8]) -> usize {
    let mut printed = Printed::new(out);
    let is_case = !line.is_empty() && !line.starts_with(b"#");
    if is_case && put_line(line, &mut printed).is_none() {
        printed.text(b"bad\n");
    }
    printed.len()
}

// The cases, each answered by itself.
#[derive(Drop)]
struct Cases;

impl LineProgram for Cases {
    fn answer(&mut self, line: &[u8], out: &mut [u8]) -> usize {
        answer(line, out)
    }
}

fn main(rt: HostRuntime) -> io::Result<()> {
    answer_lines(&mut Cases, &mut rt.stdin(), &mut rt.stdout())
}
