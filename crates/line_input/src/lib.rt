// More of an input, read behind the bytes that are held (document 01, 'The call sheet'); and the loop
// of a program that answers the lines of its input.
#![tactic(auto)]

mod program;

ghost use Rattle.std.specs.Io.KnownBytes.{Consumes};
ghost use Rattle.lines.specs.Reading.{More};

use lines::Reader;
pub use program::{LineProgram, answer_lines};
use std::io::Read;

// Moves the bytes that are held to the beginning of the buffer and reads once behind them. Where
// nothing was read, or the read failed, the input has ended.
pub fn read_more<R: Read>(reader: &mut Reader, input: &mut R, space: &mut [u8])
    ensures { (more : More reader.old reader.new space.old space.new)
        × Consumes (R.remaining input.old) (R.remaining input.new) more.piece }
{
    reader.shift(space);
    let n = input.read(&mut space[reader.to..]).unwrap_or(0);
    reader.to += n;
    reader.ended = n == 0;
}
