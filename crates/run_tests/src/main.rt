// Runs of calls, counted and written. A case is a line of standard input: README.md has the forms of
// the lines and what each prints.
#![tactic(auto)]

mod line;
mod play;
mod print;

use line::{Run, Word, read_line};
use line_input::{LineProgram, answer_lines};
use play::{put_added, put_both, put_calls, put_count, put_each, put_write, show};
use print::Printed;
use std::io;

// Lays what a run gives, played as its word says, if its number has the form that the word wants.
fn put_played(word: Word, run: Run, out: &mut Printed) -> Option<()> {
    match word {
        Word::Show => show(run, out),
        Word::Both => put_both(run, out),
        Word::Add => put_added(run, out),
        Word::Count => put_count(run, out),
        Word::Write => put_write(run, out),
        Word::Each => put_each(run, out)?,
        Word::Calls => put_calls(run, out),
    }
    Some(())
}

// Lays what the run of a line prints: its name, and what it gives.
fn put_run(line: &[u8], out: &mut Printed) -> Option<()> {
    let mut words = [0u64; 1275];
    let mut pool = [0u8; 2048];
    let (word, run, name) = read_line(line, &mut words, &mut pool)?;
    out.text(name);
    out.byte(b':');
    put_played(word, run, out)
}

// Lays what a line prints: where that ends. A comment and an empty line print nothing.
fn answer(line: &[u8], out: &mut [u8]) -> usize {
    let mut printed = Printed::new(out);
    let is_case = !line.is_empty() && !line.starts_with(b"#");
    if is_case && put_run(line, &mut printed).is_none() {
        printed.clear();
        printed.text(b"bad\n");
    }
    printed.len()
}

// The cases, each answered by itself.
#[derive(Drop)]
struct Cases;

impl LineProgram for Cases {
    fn answer(&mut self, line: &[u8], out: &mut [u8]) -> usize {
        answer(line, out)
    }
}

fn main(rt: HostRuntime) -> io::Result<()> {
    answer_lines(&mut Cases, &mut rt.stdin(), &mut rt.stdout())
}
