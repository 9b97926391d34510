// What a sheet prints: a row, `bad`, a refused `begin`, and the last line, each at a cursor into a lent
// slice, as crate str_writer writes.
ghost use Rattle.std.specs.Prelude.{◌≡◌, ◌≤◌, length};
ghost use Rattle.str_writer.specs.Write.{outcome, written};
ghost use Rattle.str_writer.specs.Write.{put as put_text};
ghost use Rattle.sheet.specs.Sheet.{row_text, max_row, bad_text, refused_text, end_head, end_line, max_end};

use error::Error;
use fields::{put_hex, put_number};
use str_writer::{cursor_fault, put};

// A line number, and the answers of both runs with the total and the cursor.
#[derive(Clone, Copy)]
pub struct Row {
    pub line: u64,
    pub counting_answer: u8,
    pub total: u64,
    pub writing_answer: u8,
    pub cursor: u64,
}

// Lays a row at the beginning of out.
#[tactic(auto, using(crate::proofs::Printing::row_short))]
fn lay_row(out: &mut [u8], row: Row) -> Result<usize, Error>
    requires { max_row ≤ length out.old }
    ensures out_after { outcome (written 0 result) out.new ≡ put_text out.old 0 (row_text row) }
    ensures row_len_bound { length (row_text row) ≤ max_row }
{
    let at = put_number(out, 0, row.line, b',')?;
    let at = put_number(out, at, row.counting_answer as u64, b',')?;
    let at = put_number(out, at, row.total, b',')?;
    let at = put_number(out, at, row.writing_answer as u64, b',')?;
    put_number(out, at, row.cursor, b'\n')
}

// Prints a row at the cursor, or leaves the buffer as it is.
pub fn put_row(out: &mut [u8], at: usize, row: Row) -> Result<usize, Error>
    ensures out_after { outcome (written at result) out.new ≡ put_text out.old at (row_text row) }
    ensures row_len_bound { length (row_text row) ≤ max_row }
{
    let mut text = [0u8; 105];
    let len = lay_row(&mut text, row)?;
    put(out, at, &text[..len])
}

// Lays the number of a line and `bad` at the beginning of out.
#[tactic(auto, using(crate::proofs::Printing::bad_short))]
fn lay_bad(out: &mut [u8], line: u64) -> Result<usize, Error>
    requires { 25 ≤ length out.old }
    ensures out_after { outcome (written 0 result) out.new ≡ put_text out.old 0 (bad_text line) }
    ensures line_len_bound { length (bad_text line) ≤ 25 }
{
    let at = put_number(out, 0, line, b',')?;
    put(out, at, b"bad\n")
}

// Prints the number of a line and `bad`.
pub fn put_bad(out: &mut [u8], at: usize, line: u64) -> Result<usize, Error>
    ensures out_after { outcome (written at result) out.new ≡ put_text out.old at (bad_text line) }
    ensures line_len_bound { length (bad_text line) ≤ 25 }
{
    let mut text = [0u8; 25];
    let len = lay_bad(&mut text, line)?;
    put(out, at, &text[..len])
}

// Prints the answer to a `begin` that is refused.
pub fn put_refused(out: &mut [u8], at: usize) -> Result<usize, Error>
    ensures { outcome (written at result) out.new ≡ put_text out.old at refused_text }
{
    put(out, at, b"1,9\n")
}

// Lays `end`, a total and a cursor at the beginning of out.
#[tactic(auto, using(crate::proofs::Printing::head_short))]
fn lay_end(out: &mut [u8], total: u64, cursor: u64) -> Result<usize, Error>
    requires { 46 ≤ length out.old }
    ensures out_after { outcome (written 0 result) out.new ≡ put_text out.old 0 (end_head total cursor) }
    ensures len_bound { length (end_head total cursor) ≤ 46 }
{
    let at = put(out, 0, b"end,")?;
    let at = put_number(out, at, total, b',')?;
    put_number(out, at, cursor, b',')
}

// Prints the last line, of a total, a cursor and the bytes before it.
#[tactic(auto, using(crate::proofs::Printing::end_short))]
pub fn put_end(out: &mut [u8], at: usize, total: u64, cursor: u64, s: &[u8]) -> Result<usize, Error>
    ensures out_after { outcome (written at result) out.new ≡ put_text out.old at (end_line total cursor s.now) }
    ensures s_len_bound { length (end_line total cursor s.now) ≤ max_end (length s.now) }
{
    let mut text = [0u8; 46];
    let len = lay_end(&mut text, total, cursor)?;
    cursor_fault(out.len(), at)?;
    let room = out.len() - at;
    if room <= len || (room - len - 1) / 2 < s.len() {
        return Err(Error::NotEnoughSpace);
    }
    let head = put(out, at, &text[..len])?;
    let pairs = put_hex(out, head, s)?;
    put(out, pairs, b"\n")
}
