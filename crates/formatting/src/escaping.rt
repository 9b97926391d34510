// Hexadecimal digits, and how a byte stands between quotation marks. The Rust's bit masks and its
// array of letters are decisions on the byte here.
ghost use Rattle.std.specs.Prelude.{◌≡◌, ◌%◌};
ghost use Rattle.formatting.specs.Hex.{hex_digit};
ghost use Rattle.formatting.specs.Escape.{escape_of, is_escaped, is_letter, letter_of};

use crate::flags::HexFormatting;

// The ASCII digit of the low four bits of n.
pub fn hex_as_ascii(n: u8, hex_fmt: HexFormatting) -> u8
    ensures { result ≡ hex_digit hex_fmt (n % 16) }
{
    let digit = n % 16;
    if digit < 10 {
        return b'0' + digit;
    }
    match hex_fmt {
        HexFormatting::Upper => b'A' - 10 + digit,
        HexFormatting::Lower => b'a' - 10 + digit,
    }
}

// The letter that stands behind a backslash for a byte between quotation marks: six bytes have one.
#[tactic(auto, unfolding(crate::specs::Escape::letter_of))]
pub fn escape_letter(b: u8) -> Option<u8>
    ensures { result ≡ letter_of b }
{
    match b {
        b'\t' => Some(b't'),
        b'\n' => Some(b'n'),
        b'\r' => Some(b'r'),
        b'\\' => Some(b'\\'),
        b'\'' => Some(b'\''),
        b'"' => Some(b'"'),
        _ => None,
    }
}

// What stands for a byte between quotation marks.
#[derive(Clone, Copy, Debug, PartialEq, Eq)]
pub enum Escape {
    // The byte itself.
    Bare,
    // A backslash and this letter.
    Backslash(u8),
    // `\x` and two upper hexadecimal digits.
    Hexadecimal,
}

// How a byte is written between quotation marks.
#[tactic(auto, using(crate::proofs::Letters::by_letter_lem))]
pub fn escape_of(b: u8) -> Escape
    ensures { result ≡ escape_of b }
{
    if !is_escaped(b) {
        return Escape::Bare;
    }
    match escape_letter(b) {
        Some(letter) => Escape::Backslash(letter),
        None => Escape::Hexadecimal,
    }
}

// Whether a byte is written as a backslash and a letter.
#[tactic(auto, using(crate::proofs::Letters::by_letter_lem))]
pub fn is_backslash_escaped(b: u8) -> bool
    ensures { result ≡ is_letter (escape_of b) }
{
    escape_letter(b).is_some()
}

// Whether a byte is not written as itself. Most bytes are above the apostrophe, where the backslash
// alone is escaped.
#[tactic(auto, using(crate::proofs::Letters::by_letter_lem, crate::proofs::Letters::high_escaped))]
pub fn is_escaped(b: u8) -> bool
    ensures { result ≡ is_escaped (escape_of b) }
{
    if b'\'' < b {
        return b == b'\\';
    }
    b < 32 || is_backslash_escaped(b)
}
