// A call sheet answered as its input comes, in pieces (document 01, 'The call sheet'): the steps of
// a program that reads and writes, on the bytes that it lends. What was read is answered before more
// is awaited.
#![tactic(auto)]

mod program;

ghost use Rattle.std.specs.Prelude.{true, false, IsTrue, ◌↔◌, ◌≡◌, List, [], ◌++◌, ℕ, ◌+◌, ◌≤◌, length, take, replicate};
ghost use Rattle.lines.specs.Played.{begins};
ghost use Rattle.sheet_line.specs.Begin.{max_size};
ghost use Rattle.sheet.specs.Sheet.{max_row, max_end};
ghost use Rattle.sheet_stream.specs.declared.State.TheVariants.{First};
ghost use Rattle.sheet_stream.specs.Left.{first, left, stage_of, Answers};
ghost use Rattle.sheet_stream.specs.Step.{at_of, Sized, Onward, Ready, Halts, Stepped, is_over, run_over, is_due, after_write};

use calls::Settings;
use lines::{MAX_LINE, Reader};
pub use program::play;
use sheet::{Sheet, put_bad, put_refused};
use sheet_line::{BadBegin, Begin, MAX_SIZE, parse_begin};
use utils::slice_up_to_len;

// The most bytes that a step prints: the last line of a sheet of 4,096 bytes.
const MAX_PRINTED: usize = 8239;

// A sheet between two lines: before line 1; before a later line, with the size of the buffer and both
// runs; or after a line that ended the run, or the last.
#[derive(Clone, Copy)]
pub enum State {
    First,
    Later {
        line: u64,
        size: usize,
        sheet: Sheet,
    },
    Over,
}

// What is held between steps: what is read of the input, where the sheet stands, how many bytes are
// printed and not yet written, and whether the run was halted: it goes on no more, and holds what it
// held. The bytes printed stand in a buffer that is lent to each step: its owner writes it out
// between two.
#[derive(Clone, Copy)]
pub struct Stream {
    pub reader: Reader,
    pub state: State,
    pub printed: usize,
    pub is_halted: bool,
}

// Zeros at the beginning.
fn zero(buf: &mut [u8], n: usize)
    requires { n ≤ length buf.old }
    ensures { take n buf.new ≡ replicate n 0 }
{
    buf[..n].fill(0);
}

impl State {
    // Answers line 1, which begins the runs, over bytes that are zero: the end of what is printed.
    fn answer_first(&mut self, l: &[u8], buf: &mut [u8], out: &mut [u8], at: usize) -> usize
        requires { (max_size ≤ length buf.old) × (at + max_row ≤ length out.old) }
        ensures answers { Answers first (stage_of self.new buf.new) l.now out.old out.new at result }
        ensures onward { Onward First self.new }
    {
        match parse_begin(l) {
            Err(BadBegin::Form) => {
                *self = State::Over;
                put_bad(out, at, 1).unwrap_or(at)
            }
            Err(BadBegin::Cursor) => {
                *self = State::Over;
                put_refused(out, at).unwrap_or(at)
            }
            Ok(
                Begin {
                    size,
                    cursor,
                    flags,
                },
            ) => {
                zero(buf, size);
                *self = State::Later {
                    line: 2,
                    size,
                    sheet: Sheet::fresh(cursor, Settings { flags }),
                };
                at
            }
        }
    }

    // Answers a line: the end of what is printed. A run that does not go on prints nothing.
    fn answer(
        &mut self,
        l: &[u8],
        buf: &mut [u8],
        text: &mut [u8; 2048],
        out: &mut [u8],
        at: usize,
    ) -> usize
        requires { Sized self.old buf.old × (at + max_row ≤ length out.old) }
        ensures answers { Answers (stage_of self.old buf.old) (stage_of self.new buf.new)
            l.now out.old out.new at result }
        ensures onward { Onward self.old self.new }
    {
        match self {
            State::First => self.answer_first(l, buf, out, at),
            State::Later { line, size, sheet } => {
                let answered = sheet.answer_line(*line, &mut buf[..*size], l, text, out, at);
                let end = answered.print.unwrap_or(at);
                *line += 1;
                if !answered.is_call {
                    *self = State::Over;
                }
                end
            }
            State::Over => at,
        }
    }

    // Prints the last line, if a run has begun and goes on: the end of what is printed.
    fn end(&self, buf: &[u8], out: &mut [u8], at: usize) -> usize
        requires { Sized self.now buf.now × (at + max_end max_size ≤ length out.old) }
        ensures printed { take result out.new ≡ take at out.old ++ left (stage_of self.now buf.now) [] }
        ensures short { result ≤ at + max_end max_size }
    {
        match self {
            State::Later { size, sheet, .. } => {
                sheet
                    .end(slice_up_to_len(buf, *size), out, at)
                    .unwrap_or(at)
            }
            _ => at,
        }
    }

    // Whether a line can be answered, or the last printed.
    fn is_sized(&self, buf: &[u8]) -> bool
        ensures { IsTrue result ↔ Sized self.now buf.now }
    {
        let within = match self {
            State::Later { line, size, .. } => *line < u64::MAX && *size <= MAX_SIZE,
            _ => true,
        };
        within && MAX_SIZE <= buf.len()
    }

    // Whether the sheet goes on no more. A run that was halted keeps its sheet: `Stream::is_over`.
    pub fn is_over(&self) -> bool
        ensures { result ≡ is_over self.now }
    {
        matches!(self, State::Over)
    }
}

impl Stream {
    // Nothing is read, and line 1 is next.
    pub fn new() -> Stream
        ensures begins { (space b out : List ℕ) → at_of result space b out ≡ begins first }
        ensures ready { (b out : List ℕ) → max_size ≤ length b → max_end max_size ≤ length out → Ready result b out }
    {
        Stream {
            reader: Reader::new(),
            state: State::First,
            printed: 0,
            is_halted: false,
        }
    }

    // Whether a step can be made.
    pub fn is_ready(&self, buf: &[u8], out: &[u8]) -> bool
        ensures { IsTrue result ↔ Ready self.now buf.now out.now }
    {
        self.state.is_sized(buf) && MAX_PRINTED <= out.len().saturating_sub(self.printed)
    }

    // One step of what is ready: whether more is awaited. A run that was halted takes lines, and
    // prints nothing.
    fn step_on(
        &mut self,
        space: &[u8],
        buf: &mut [u8],
        text: &mut [u8; 2048],
        out: &mut [u8],
    ) -> bool
        requires { Ready self.old buf.old out.old }
        ensures { Stepped self.old self.new result space.now buf.old out.old buf.new out.new }
    {
        if let Some(line) = self.reader.next_line(space, MAX_LINE) {
            if self.is_halted {
                return false;
            }
            self.printed = self.state.answer(line, buf, text, out, self.printed);
            return false;
        }
        if !self.reader.ended {
            return true;
        }
        if self.is_halted {
            return false;
        }
        self.printed = self.state.end(buf, out, self.printed);
        self.state = State::Over;
        false
    }

    // One step: a line is answered, or there is none and more is awaited, or the input has ended and
    // the last line is printed. What cannot be stepped from does not go on, and keeps all that it
    // holds. Gives whether more is awaited.
    pub fn step(
        &mut self,
        space: &[u8],
        buf: &mut [u8],
        text: &mut [u8; 2048],
        out: &mut [u8],
    ) -> bool
        ensures stepped { Ready self.old buf.old out.old →
            Stepped self.old self.new result space.now buf.old out.old buf.new out.new }
        ensures halts { (Ready self.old buf.old out.old → ⊥) →
            Halts self.old self.new result buf.old out.old buf.new out.new }
    {
        if !self.is_ready(buf, out) {
            self.is_halted = true;
            return false;
        }
        self.step_on(space, buf, text, out)
    }

    // Whether what is printed is to be written now: before more is awaited, at the end, and where
    // there is much of it.
    pub fn is_due(&self, waits: bool) -> bool
        ensures { result ≡ is_due self.now waits }
    {
        waits || self.is_over() || 32768 <= self.printed
    }

    // Whether the run goes on no more: it was halted, or its last line is answered.
    pub fn is_over(&self) -> bool
        ensures { result ≡ run_over self.now }
    {
        self.is_halted || self.state.is_over()
    }

    // After a write: nothing is left to be written; a run whose write failed does not go on.
    pub fn emptied(&mut self, done: bool)
        ensures { self.new ≡ after_write self.old done }
    {
        self.printed = 0;
        self.is_halted |= !done;
    }
}
