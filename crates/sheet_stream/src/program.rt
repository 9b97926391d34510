// The loop of a program that answers a call sheet.
ghost use Rattle.std.specs.Prelude.{List, ℕ, OnOk};
ghost use Rattle.std.specs.Io.KnownBytes.{Consumes, Appends};
ghost use Rattle.sheet.specs.Printed.{printed};

use super::Stream;
use line_input::read_more;
use sheet_line::MAX_SIZE;
use std::io::{ErrorKind, Read, Result, Write};
use utils::slice_up_to_len;

// Reads a sheet and answers it, in memory of fixed size, whatever its length. Where a write fails,
// its error; an error also after 2^64 - 1 turns or lines.
pub fn play<R: Read, W: Write>(input: &mut R, output: &mut W) -> Result<()>
    ensures { OnOk result ((read : List ℕ) × Consumes (R.remaining input.old) (R.remaining input.new) read
        × Appends (W.contents output.old) (W.contents output.new) (printed read)) }
{
    let mut space = [0u8; 65536];
    let mut buf = [0u8; MAX_SIZE];
    let mut text = [0u8; 2048];
    let mut out = [0u8; 65536];
    let mut stream = Stream::new();
    for _ in 0..u64::MAX {
        if !stream.is_ready(&buf, &out) {
            break;
        }
        let waits = stream.step(&space, &mut buf, &mut text, &mut out);
        if !stream.is_due(waits) {
            continue;
        }
        let written = output.write_all(slice_up_to_len(&out, stream.printed));
        stream.emptied(written.is_ok());
        if stream.is_over() {
            return written;
        }
        if !waits {
            continue;
        }
        read_more(&mut stream.reader, input, &mut space);
    }
    Err(ErrorKind::TimedOut.into())
}
