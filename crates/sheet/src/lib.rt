// A call sheet line by line: both runs advanced, and what the line prints (document 01, 'The call
// sheet').
#![tactic(auto)]

mod print;

ghost use Rattle.std.specs.Prelude.{◌≡◌, List, ℕ, ◌≤◌, length};
ghost use Rattle.str_writer.specs.Write.{outcome, splice, written};
ghost use Rattle.str_writer.specs.Write.{put as put_text};
ghost use Rattle.sheet_line.specs.Line.{call_of_line};
ghost use Rattle.sheet_line.specs.Reading.{text_in};
ghost use Rattle.sheet.specs.Sheet.{fresh_sheet, max_row, end_text, max_end, stepped};
ghost use Rattle.formatter.specs.Calls.{call_of};
ghost use Rattle.sheet.specs.SheetView.{stepped_of, sheet_of, stepping, answered, answering};

use calls::Settings;
use error::{Error, answer_number};
use formatter::{Formatter, Op};
use print::{Row, put_end, put_row};
pub use print::{put_bad, put_refused};
use sheet_line::parse_line;
use utils::slice_up_to_len;
use writer_backend::WriterBackend;

// The two runs of a sheet, without the buffer, which is lent.
#[derive(Clone, Copy)]
pub struct Sheet {
    pub counted: Formatter,
    pub written: Formatter,
}

// Whether a line is a call, and the cursor after what it prints. Both kinds of line print, so the
// print stands beside the flag.
#[derive(Clone, Copy)]
pub struct Answered {
    pub is_call: bool,
    pub print: Result<usize, Error>,
}

impl Sheet {
    // Both runs fresh, with a cursor and settings.
    pub fn fresh(at: usize, settings: Settings) -> Sheet
        ensures { (b : List ℕ) → sheet_of result b ≡ fresh_sheet b at settings }
    {
        Sheet {
            counted: Formatter::counting(settings),
            written: Formatter::new(WriterBackend::writing(at), settings),
        }
    }

    // Makes a call in both runs, and gives its row.
    fn step(&mut self, line: u64, buf: &mut [u8], op: Op, s: &[u8]) -> Row
        ensures { stepped_of self.new result buf.new ≡ stepping line (sheet_of self.old buf.old) (call_of op s.now) }
    {
        let counting_answer = answer_number(self.counted.call(&mut [], op, s));
        let writing_answer = answer_number(self.written.call(buf, op, s));
        Row {
            line,
            counting_answer,
            total: self.counted.head.writer.number as u64,
            writing_answer,
            cursor: self.written.head.writer.number as u64,
        }
    }

    // Answers a line: a call goes to both runs and prints a row, a line of another form prints
    // `bad`. `text` takes the name or the string of the call.
    pub fn answer_line(
        &mut self,
        line: u64,
        buf: &mut [u8],
        l: &[u8],
        text: &mut [u8; 2048],
        out: &mut [u8],
        at: usize,
    ) -> Answered
        ensures out_after { answered at result self.new buf.new out.new
            ≡ answering line (sheet_of self.old buf.old) (call_of_line l.now) out.old at }
        ensures l_len_bound { length (stepped line (sheet_of self.old buf.old)
            (call_of_line l.now)).text ≤ max_row }
        ensures text_after { text.new ≡ splice text.old 0 (text_in (call_of_line l.now)) }
    {
        let Some(parsed) = parse_line(l, text) else {
            return Answered {
                is_call: false,
                print: put_bad(out, at, line),
            };
        };
        let row = self.step(line, buf, parsed.op, slice_up_to_len(text, parsed.len));
        Answered {
            is_call: true,
            print: put_row(out, at, row),
        }
    }

    // Prints the last line of a sheet.
    pub fn end(&self, buf: &[u8], out: &mut [u8], at: usize) -> Result<usize, Error>
        ensures out_after { outcome (written at result) out.new ≡ put_text out.old at (end_text (sheet_of self.now buf.now)) }
        ensures text_len_bound { length (end_text (sheet_of self.now buf.now)) ≤ max_end (length buf.now) }
    {
        let total = self.counted.head.writer.number;
        let cursor = self.written.head.writer.number;
        let bytes = slice_up_to_len(buf, cursor);
        put_end(out, at, total as u64, cursor as u64, bytes)
    }
}
