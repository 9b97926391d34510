// Characters as UTF-8 and between quotation marks (char_encoding.rs). A character is a 32-bit
// number, tested: what is no scalar value is refused.
#![tactic(auto)]

ghost use Rattle.std.specs.Prelude.{◌≡◌, length};
ghost use Rattle.utf8.specs.Utf8.{is_scalar, octets};
ghost use Rattle.char_encoding.specs.Char.{utf8_char, fmt_char, char_len, char_display, char_inner, char_debug};

use error::Error;
use formatting::{Escape, HexFormatting, escape_of, hex_as_ascii};

// A character's octets in an array, as document 01 has them; the bytes from len on are zero.
#[derive(Clone, Copy)]
pub struct Utf8Char {
    pub len: usize,
    pub bytes: [u8; 4],
}

// A character's display or quoted form in an array, as document 01 has it; the bytes from len on are
// zero.
#[derive(Clone, Copy)]
pub struct FmtChar {
    pub len: usize,
    pub encoded: [u8; 6],
}

// Whether c is a Unicode scalar value.
pub fn is_char(c: u32) -> bool
    ensures { result ≡ is_scalar c }
{
    c < 0xD800 || (0xE000 <= c && c <= 0x10FFFF)
}

// How many octets c has.
pub fn char_display_len(c: u32) -> Result<usize, Error>
    ensures { result ≡ char_len c (char_display c) }
{
    if !is_char(c) {
        return Err(Error::NotAChar);
    }
    Ok(utf8_len(c))
}

// The number of octets of c by the ranges of RFC 3629 section 3.
fn utf8_len(c: u32) -> usize
    ensures { result ≡ length (octets c) }
{
    if c < 0x80 {
        return 1;
    }
    if c < 0x800 {
        return 2;
    }
    if c < 0x10000 {
        return 3;
    }
    4
}

// How long c is between quotation marks, its escape included.
pub fn char_debug_len(c: u32) -> Result<usize, Error>
    ensures { result ≡ char_len c (char_debug c) }
{
    if 128 <= c {
        return Ok(char_display_len(c)? + 2);
    }
    match escape_of(c as u8) {
        Escape::Bare => Ok(3),
        Escape::Backslash(_) => Ok(4),
        Escape::Hexadecimal => Ok(6),
    }
}

// The octets of c.
pub fn char_to_utf8(c: u32) -> Result<Utf8Char, Error>
    ensures { result ≡ utf8_char c (char_display c) }
{
    if c < 0x80 {
        let bytes = [c as u8, 0, 0, 0];
        return Ok(Utf8Char { len: 1, bytes });
    }
    let last = (0x80 + c % 64) as u8;
    if c < 0x800 {
        let b0 = (0xC0 + c / 64) as u8;
        let bytes = [b0, last, 0, 0];
        return Ok(Utf8Char { len: 2, bytes });
    }
    if !is_char(c) {
        return Err(Error::NotAChar);
    }
    let before_last = (0x80 + c / 64 % 64) as u8;
    if c < 0x10000 {
        let b0 = (0xE0 + c / 4096) as u8;
        let bytes = [b0, before_last, last, 0];
        return Ok(Utf8Char { len: 3, bytes });
    }
    let b0 = (0xF0 + c / 262144) as u8;
    let b1 = (0x80 + c / 4096 % 64) as u8;
    let bytes = [b0, b1, before_last, last];
    Ok(Utf8Char { len: 4, bytes })
}

// What stands between the marks of a quoted character.
fn char_inner(c: u32) -> Result<Utf8Char, Error>
    ensures { result ≡ utf8_char c (char_inner c) }
{
    if 128 <= c {
        return char_to_utf8(c);
    }
    let b = c as u8;
    let (len, bytes) = match escape_of(b) {
        Escape::Bare => (1, [b, 0, 0, 0]),
        Escape::Backslash(letter) => (2, [b'\\', letter, 0, 0]),
        Escape::Hexadecimal => {
            let high = hex_as_ascii(b / 16, HexFormatting::Upper);
            let low = hex_as_ascii(b % 16, HexFormatting::Upper);
            (4, [b'\\', b'x', high, low])
        }
    };
    Ok(Utf8Char { len, bytes })
}

// The octets of c, in an array that has room for a quoted one.
pub fn char_to_display(c: u32) -> Result<FmtChar, Error>
    ensures { result ≡ fmt_char c (char_display c) }
{
    let Utf8Char { len, bytes } = char_to_utf8(c)?;
    let [b0, b1, b2, b3] = bytes;
    let encoded = [b0, b1, b2, b3, 0, 0];
    Ok(FmtChar { len, encoded })
}

// c between quotation marks, escaped where it must be.
pub fn char_to_debug(c: u32) -> Result<FmtChar, Error>
    ensures { result ≡ fmt_char c (char_debug c) }
{
    let Utf8Char { len, bytes } = char_inner(c)?;
    let [b0, b1, b2, b3] = bytes;
    let mut encoded = [b'\'', b0, b1, b2, b3, 0];
    encoded[len + 1] = b'\'';
    Ok(FmtChar {
        len: len + 2,
        encoded,
    })
}
