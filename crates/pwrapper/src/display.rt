// The length of the decimal text.
ghost use Rattle.std.specs.Prelude.{◌≡◌, ◌+◌, ◌≤◌, cond, [], ◌∷◌, ◌++◌, length};
ghost use Rattle.pwrapper.specs.Number.{decimal, display_text};

use crate::integer::PrimitiveInteger;

// The minus before a number below zero.
const MINUS_LEN: usize = 1;

// How many decimal digits n has.
fn number_of_digits(n: u64) -> usize
    ensures { result ≡ length (decimal n) }
{
    match n.checked_ilog10() {
        Some(exponent) => exponent as usize + 1,
        None => 1,
    }
}

// The same of a number of 32 bits, by a comparison with each power of ten that it may reach: std's
// checked_ilog10 takes two to three times as long for numbers below 2^32.
fn number_of_digits_32(n: u64) -> usize
    ensures { result ≡ length (decimal n) }
{
    if n >= 100_0000_0000 {
        return number_of_digits(n);
    }
    1 + usize::from(n >= 10)
        + usize::from(n >= 100)
        + usize::from(n >= 1000)
        + usize::from(n >= 1_0000)
        + usize::from(n >= 10_0000)
        + usize::from(n >= 100_0000)
        + usize::from(n >= 1000_0000)
        + usize::from(n >= 1_0000_0000)
        + usize::from(n >= 10_0000_0000)
}

// So many digits, with a minus before them where is_negative.
fn with_minus(is_negative: bool, digits: usize) -> usize
    requires { digits ≤ 64 }
    ensures { result ≡ cond is_negative 1 0 + digits }
{
    if is_negative {
        digits + MINUS_LEN
    } else {
        digits
    }
}

// How long n is in decimal, with a minus before it where is_negative.
pub fn decimal_len(is_negative: bool, n: u64) -> usize
    ensures { result ≡ length (cond is_negative (45 ∷ []) [] ++ decimal n) }
{
    with_minus(is_negative, number_of_digits(n))
}

// How long an integer is in decimal.
pub fn compute_display_len<I: PrimitiveInteger>(x: I) -> usize
    ensures { result ≡ length (display_text (I.value x)) }
{
    let n = x.absolute_value();
    let digits = if I::BITS < 64 {
        number_of_digits_32(n)
    } else {
        number_of_digits(n)
    };
    with_minus(x.is_negative(), digits)
}
