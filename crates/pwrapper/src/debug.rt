// The length of the debug form, which follows the flags.
ghost use Rattle.std.specs.Prelude.{◌≡◌, length};
ghost use Rattle.pwrapper.specs.Number.{debug_text};

use crate::display::compute_display_len;
use crate::integer::PrimitiveInteger;
use crate::radix::{binary_len, hexadecimal_len};
use formatting::{FormattingFlags, NumberFormatting};

// How long an integer is in the form that the flags say.
pub fn compute_debug_len<I: PrimitiveInteger>(x: I, flags: FormattingFlags) -> usize
    ensures { result ≡ length (debug_text flags I.BITS (I.value x)) }
{
    match flags.num_fmt {
        NumberFormatting::Decimal => compute_display_len(x),
        NumberFormatting::Hexadecimal => hexadecimal_len(x.twos_complement(), flags),
        NumberFormatting::Binary => binary_len(x.twos_complement(), flags),
    }
}
