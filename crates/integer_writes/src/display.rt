// An integer of any type, displayed.
ghost use Rattle.std.specs.Prelude.{◌≡◌};
ghost use Rattle.formatting.specs.Flags.{default_flags};
ghost use Rattle.str_writer.specs.Value.{integer, display};
ghost use Rattle.str_writer.specs.Write.{outcome, write, written};

use crate::number::write_decimal;
use error::Error;
use pwrapper::PrimitiveInteger;

// Writes an integer at the cursor, in decimal.
pub fn write_display<I: PrimitiveInteger>(buf: &mut [u8], at: usize, x: I) -> Result<usize, Error>
    ensures { outcome (written at result) buf.new ≡ write default_flags buf.old at (integer display I.BITS (I.value x)) }
{
    write_decimal(buf, at, x.is_negative(), x.absolute_value())
}
