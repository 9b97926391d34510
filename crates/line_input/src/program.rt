// The loop of a program that answers the lines of its input.
ghost use Rattle.std.specs.Prelude.{List, ℕ, OnOk, take};
ghost use Rattle.std.specs.Io.KnownBytes.{Consumes, Appends};
ghost use Rattle.lines.specs.Lines.{lines_of, max_line, clipped};
ghost use Rattle.line_input.specs.Answered.{Answered};

use super::read_more;
use lines::{MAX_LINE, Reader};
use std::io::{ErrorKind, Read, Result, Write};
use utils::slice_up_to_len;

// What answers lines, one after another.
pub trait LineProgram {
    // From one state to the next, a line gives a text; an impl that does not say claims nothing.
    ghost gives: { Self → List ℕ → List ℕ → Self → Type 0 } = { λ _ _ _ _. Unit {0} };

    // Answers a line: lays what it prints at the beginning of out, and gives the end of that.
    fn answer(&mut self, line: &[u8], out: &mut [u8]) -> usize
        ensures { gives self.old line.now (take result out.new) self.new };
}

// Reads lines and answers each, in memory of fixed size. Of a line above the limit, the limit and
// one byte more are answered. Where a write fails, its error; an error also after 2^64 - 1 turns.
pub fn answer_lines<P: LineProgram, R: Read, W: Write>(
    program: &mut P,
    input: &mut R,
    output: &mut W,
) -> Result<()>
    ensures { OnOk result ((read : List ℕ) × (printed : List ℕ)
        × Consumes (R.remaining input.old) (R.remaining input.new) read
        × Answered P.gives program.old (clipped max_line (lines_of read)) printed program.new
        × Appends (W.contents output.old) (W.contents output.new) printed) }
{
    let mut space = [0u8; 65536];
    let mut out = [0u8; 65536];
    let mut reader = Reader::new();
    for _ in 0..u64::MAX {
        if let Some(line) = reader.next_line(&space, MAX_LINE) {
            let end = program.answer(line, &mut out);
            output.write_all(slice_up_to_len(&out, end))?;
            continue;
        }
        if reader.ended {
            return Ok(());
        }
        read_more(&mut reader, input, &mut space);
    }
    Err(ErrorKind::TimedOut.into())
}
