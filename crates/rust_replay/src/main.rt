// Replays runs with the answers that const_format 0.2.37 gave, one to a line of standard input, and
// prints the number of each line that differs. README.md says what stands on a line.
#![tactic(auto)]

mod line;

use error::Error;
use fields::put_number;
use line::is_same;
use line_input::{LineProgram, answer_lines};
use std::io::{self, Write};
use str_writer::write_ascii;
use utils::slice_up_to_len;

// How many lines are replayed, and how many of them differ.
#[derive(Drop)]
struct Replay {
    replayed: u64,
    differ: u64,
}

impl LineProgram for Replay {
    // Lays that a line differs, or nothing where it does not: 0, as `LineProgram` has it. A line of
    // another form differs.
    fn answer(&mut self, line: &[u8], out: &mut [u8]) -> usize {
        self.replayed = self.replayed.saturating_add(1);
        if is_same(line).unwrap_or(false) {
            return 0;
        }
        self.differ = self.differ.saturating_add(1);
        self.put_differs(out).unwrap_or(0)
    }
}

impl Replay {
    // Lays that the line differs: the end of what is printed.
    fn put_differs(&self, out: &mut [u8]) -> Result<usize, Error> {
        let end = write_ascii(out, 0, b"line ")?;
        let end = put_number(out, end, self.replayed, b' ')?;
        write_ascii(out, end, b"differs\n")
    }

    // Lays the last line: the end of what is printed.
    fn put_last(&self, out: &mut [u8]) -> Result<usize, Error> {
        let end = put_number(out, 0, self.replayed, b' ')?;
        let end = write_ascii(out, end, b"replayed, ")?;
        let end = put_number(out, end, self.differ, b' ')?;
        write_ascii(out, end, b"differ\n")
    }
}

fn main(rt: HostRuntime) -> io::Result<()> {
    let mut replay = Replay {
        replayed: 0,
        differ: 0,
    };
    let mut output = rt.stdout();
    answer_lines(&mut replay, &mut rt.stdin(), &mut output)?;
    let mut last = [0u8; 80];
    let end = replay.put_last(&mut last).unwrap_or(0);
    output.write_all(slice_up_to_len(&last, end))
}
