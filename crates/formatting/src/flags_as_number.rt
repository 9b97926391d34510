// Flags as a number, for what holds them in a word.
ghost use Rattle.std.specs.Prelude.{◌≡◌, ◌<◌, eqb};
ghost use Rattle.formatting.specs.FlagsAsNumber.{flags_of, checked_flags};

use crate::flags::{FormattingFlags, HexFormatting, NumberFormatting};

// A number that is no flags.
#[derive(Clone, Copy, Debug, PartialEq, Eq)]
pub struct NotFlags(pub u64);

// The number of the flags.
impl From<FormattingFlags> for u64 {
    ghost from_gives = { λ flags n. (n < 12) × (flags_of n ≡ flags) };

    fn from(flags: FormattingFlags) -> u64 {
        4 * (flags.num_fmt as u64) + 2 * (flags.hex_fmt as u64) + u64::from(flags.is_alternate)
    }
}

// The flags that a number below twelve is.
impl TryFrom<u64> for FormattingFlags {
    type Error = NotFlags;

    ghost try_from_gives = { λ n flags. flags ≡ checked_flags n };

    fn try_from(n: u64) -> Result<Self, NotFlags> {
        if n < 12 {
            Ok(flags_of(n))
        } else {
            Err(NotFlags(n))
        }
    }
}

// 1 or 0.
pub fn bit(b: bool) -> u64
    ensures { (result < 2) × (eqb result 1 ≡ b) }
{
    u64::from(b)
}

// The flags that a number is, for every number; `try_from` takes those below 12 alone.
pub fn flags_of(n: u64) -> FormattingFlags
    ensures { result ≡ flags_of n }
{
    FormattingFlags {
        num_fmt: match n / 4 {
            0 => NumberFormatting::Decimal,
            1 => NumberFormatting::Hexadecimal,
            _ => NumberFormatting::Binary,
        },
        hex_fmt: if n / 2 % 2 == 0 {
            HexFormatting::Upper
        } else {
            HexFormatting::Lower
        },
        is_alternate: n % 2 == 1,
    }
}

// A number that is the flags.
pub fn flags_number(f: FormattingFlags) -> u64
    ensures { (result < 12) × (flags_of result ≡ f) }
{
    u64::from(f)
}
