// An integer of any type, by the flags.
ghost use Rattle.std.specs.Prelude.{◌≡◌};
ghost use Rattle.str_writer.specs.Value.{integer, debug};
ghost use Rattle.str_writer.specs.Write.{outcome, write, written};

use crate::number::write_debug_parts;
use error::Error;
use formatting::FormattingFlags;
use pwrapper::PrimitiveInteger;

// Writes an integer at the cursor, in the form that the flags say.
pub fn write_debug<I: PrimitiveInteger>(
    buf: &mut [u8],
    at: usize,
    x: I,
    flags: FormattingFlags,
) -> Result<usize, Error>
    ensures { outcome (written at result) buf.new ≡ write flags buf.old at (integer debug I.BITS (I.value x)) }
{
    write_debug_parts(
        buf,
        at,
        x.is_negative(),
        x.absolute_value(),
        x.twos_complement(),
        flags,
    )
}
