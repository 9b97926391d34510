// An integer by its sign, its absolute value and its two's complement, whatever its type. The digits
// are laid backwards straight into the buffer.
ghost use Rattle.std.specs.Prelude.{◌≡◌, cond, [], ◌∷◌, ◌++◌, ℕ, ◌+◌, ◌-◌, ◌≤◌, ℤ, length};
ghost use Rattle.formatting.specs.Hex.{hex_digit};
ghost use Rattle.pwrapper.specs.Digits.{digit_text};
ghost use Rattle.pwrapper.specs.Number.{decimal, display_text, twos_complement, prefix, hex_text, bin_text, debug_parts};
ghost use Rattle.integer_writes.specs.Mark.{mark_text};
ghost use Rattle.str_writer.specs.Value.{integer, debug};
ghost use Rattle.str_writer.specs.Write.{outcome, splice, write, written};
ghost use Rattle.str_writer.specs.Write.{put as put_text};

use error::Error;
use formatting::{FormattingFlags, HexFormatting, NumberFormatting, hex_as_ascii};
use pwrapper::{binary_len, decimal_len, hexadecimal_len};
use str_writer::{cursor_fault, room_fault};

// What stands before the digits of a number: one of three, so no Option.
#[derive(Clone, Copy)]
enum Mark {
    Nothing,
    Minus,
    // `0` and this letter.
    Prefix(u8),
}

// The minus of a negative number.
fn minus_of(is_negative: bool) -> Mark
    ensures { mark_text result ≡ cond is_negative (45 ∷ []) [] }
{
    if is_negative {
        Mark::Minus
    } else {
        Mark::Nothing
    }
}

// The prefix of an alternate form, with its letter.
fn prefix_of(flags: FormattingFlags, letter: u8) -> Mark
    ensures { mark_text result ≡ prefix flags.is_alternate letter }
{
    if flags.is_alternate {
        Mark::Prefix(letter)
    } else {
        Mark::Nothing
    }
}

// Stores a mark.
fn put_mark(buf: &mut [u8], at: usize, mark: Mark)
    requires { at + length (mark_text mark) ≤ length buf.old }
    ensures { buf.new ≡ splice buf.old at (mark_text mark) }
{
    match mark {
        Mark::Nothing => {}
        Mark::Minus => buf[at] = b'-',
        Mark::Prefix(letter) => {
            buf[at] = b'0';
            buf[at + 1] = letter;
        }
    }
}

// Lays the digits of n in a base, the last right before end: by a loop until nothing of the number is
// left, as document 01 has digits laid.
fn lay_digits<const BASE: u64>(buf: &mut [u8], end: usize, n: u64, hex_fmt: HexFormatting)
    requires base { (2 ≤ BASE) × (BASE ≤ 16) }
    requires room { (length (digit_text (hex_digit hex_fmt) BASE n) ≤ end) × (end ≤ length buf.old) }
    ensures { buf.new ≡ splice buf.old (end - length (digit_text (hex_digit hex_fmt) BASE n)) (digit_text (hex_digit hex_fmt) BASE n) }
{
    let mut at = end;
    let mut rest = n;
    loop {
        at -= 1;
        buf[at] = hex_as_ascii((rest % BASE) as u8, hex_fmt);
        rest /= BASE;
        if rest == 0 {
            return;
        }
    }
}

// Writes a mark and the digits of n in a base, together len bytes.
fn write_digits<const BASE: u64>(
    buf: &mut [u8],
    at: usize,
    mark: Mark,
    n: u64,
    hex_fmt: HexFormatting,
    len: usize,
) -> Result<usize, Error>
    requires base { (2 ≤ BASE) × (BASE ≤ 16) }
    requires whole { len ≡ length (mark_text mark ++ digit_text (hex_digit hex_fmt) BASE n) }
    ensures { outcome (written at result) buf.new ≡ put_text buf.old at (mark_text mark ++ digit_text (hex_digit hex_fmt) BASE n) }
{
    cursor_fault(buf.len(), at)?;
    room_fault(buf.len() - at, len)?;
    let end = at + len;
    put_mark(buf, at, mark);
    lay_digits::<BASE>(buf, end, n, hex_fmt);
    Ok(end)
}

// Writes n in decimal, with a minus before it where is_negative.
pub fn write_decimal(buf: &mut [u8], at: usize, is_negative: bool, n: u64) -> Result<usize, Error>
    ensures { outcome (written at result) buf.new ≡ put_text buf.old at (cond is_negative (45 ∷ []) [] ++ decimal n) }
{
    let len = decimal_len(is_negative, n);
    // The digits below ten are the same in upper and lower case.
    write_digits::<10>(buf, at, minus_of(is_negative), n, HexFormatting::Upper, len)
}

// Writes n in hexadecimal.
fn write_hexadecimal(
    buf: &mut [u8],
    at: usize,
    n: u64,
    flags: FormattingFlags,
) -> Result<usize, Error>
    ensures { outcome (written at result) buf.new ≡ put_text buf.old at (hex_text flags n) }
{
    let len = hexadecimal_len(n, flags);
    write_digits::<16>(buf, at, prefix_of(flags, b'x'), n, flags.hex_fmt, len)
}

// Writes n in binary.
fn write_binary(buf: &mut [u8], at: usize, n: u64, flags: FormattingFlags) -> Result<usize, Error>
    ensures { outcome (written at result) buf.new ≡ put_text buf.old at (bin_text flags n) }
{
    let len = binary_len(n, flags);
    write_digits::<2>(buf, at, prefix_of(flags, b'b'), n, flags.hex_fmt, len)
}

// Writes an integer by the flags: n is its absolute value, and bits its two's complement.
pub fn write_debug_parts(
    buf: &mut [u8],
    at: usize,
    is_negative: bool,
    n: u64,
    bits: u64,
    flags: FormattingFlags,
) -> Result<usize, Error>
    ensures buf_after { outcome (written at result) buf.new ≡ put_text buf.old at (debug_parts flags.num_fmt flags is_negative n bits) }
    ensures as_value { (k : ℕ) (z : ℤ) → display_text z ≡ cond is_negative (45 ∷ []) [] ++ decimal n → twos_complement k z
        ≡ bits → outcome (written at result) buf.new ≡ write flags buf.old at (integer debug k z) }
{
    match flags.num_fmt {
        NumberFormatting::Decimal => write_decimal(buf, at, is_negative, n),
        NumberFormatting::Hexadecimal => write_hexadecimal(buf, at, bits, flags),
        NumberFormatting::Binary => write_binary(buf, at, bits, flags),
    }
}
