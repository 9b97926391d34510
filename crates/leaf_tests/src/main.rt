// Characters, escapes, strings, integers and the UTF-8 test on cases from standard input: one line
// of fields for each case, one line of what the code gives for it. README.md has the forms of the
// lines.
#![tactic(auto)]

mod answers;
mod chars;
mod escapes;
mod integers;
mod printed;
mod texts;

use fields::split_field;
use line_input::{LineProgram, answer_lines};
use lines::MAX_LINE;
use printed::Printed;
use std::io;
use texts::About;

// Lays what a case prints, if it has the form of one.
fn put_case(word: &[u8], fields: &[u8], out: &mut Printed) -> Option<()> {
    match word {
        b"answer" => answers::put_answer(fields, out),
        b"char" => chars::put_char(fields, out),
        b"integer" => integers::put_parts(fields, out),
        b"escape" => escapes::put_escape(fields, out),
        b"utf8" => texts::put_text(About::Utf8, fields, out),
        b"ascii" => texts::put_text(About::Ascii, fields, out),
        b"boundary" => texts::put_text(About::Boundary, fields, out),
        b"range" => texts::put_text(About::Clamped, fields, out),
        b"quoted" => texts::put_text(About::Quoted, fields, out),
        _ => integers::put_integer(word, fields, out),
    }
}

// Lays what a line prints, if it has the form of a case.
fn put_line(line: &[u8], out: &mut Printed) -> Option<()> {
    if MAX_LINE < line.len() {
        return None;
    }
    let (word, fields) = split_field(line)?;
    out.bytes(word);
    out.bytes(b" ");
    put_case(word, fields, out)
}

// Lays what a line prints into out, and gives its end. A line that begins with # is a comment.
fn answer(line: &[u8], out: &mut [u8]) -> usize {
    let mut printed = Printed::new(out);
    if !line.starts_with(b"#") && put_line(line, &mut printed).is_none() {
        printed.clear();
        printed.bytes(b"bad\n");
    }
    printed.len()
}

// The cases, each answered by itself.
#[derive(Drop)]
struct Cases;

impl LineProgram for Cases {
    fn answer(&mut self, line: &[u8], out: &mut [u8]) -> usize {
        answer(line, out)
    }
}

fn main(rt: HostRuntime) -> io::Result<()> {
    answer_lines(&mut Cases, &mut rt.stdin(), &mut rt.stdout())
}
