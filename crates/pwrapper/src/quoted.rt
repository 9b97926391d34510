// The length of a quoted string.
ghost use Rattle.std.specs.Prelude.{◌≡◌, ◌+◌, ◌<◌, ◌≤◌, length};
ghost use Rattle.utils.specs.Text.{part};
ghost use Rattle.formatting.specs.Escape.{escape_of, escape_text, escaped, quoted};
ghost use Rattle.pwrapper.specs.QuotedCount.{count_of};

use error::Error;
use formatting::{Escape, escape_of};
use utils::{Range, saturate_range};

// Below this length a text is counted byte by byte.
const SHORT: usize = 16;

// As many bytes are counted at once: the sum of what their escapes add fits in a byte.
const TURN: usize = 64;

// How long a string is between quotation marks, its escapes included.
pub fn compute_utf8_debug_len(s: &[u8]) -> Result<usize, Error>
    ensures { result ≡ count_of (length (quoted s.now)) }
{
    if s.len() < SHORT {
        return Ok(few_len(s));
    }
    long_len(s)
}

// The length of the clamped range, quoted. The test of a short text stands here too: one call more
// costs a fifth of such a count.
pub fn compute_utf8_debug_len_in_range(s: &[u8], range: Range) -> Result<usize, Error>
    ensures { result ≡ count_of (length (quoted (part s.now range))) }
{
    let Range { start, end } = saturate_range(s, range);
    if end - start < SHORT {
        return Ok(few_len(&s[start..end]));
    }
    long_len(&s[start..end])
}

// The same of a short text, byte by byte: the compiler can lay these steps into the caller.
fn few_len(s: &[u8]) -> usize
    requires { length s.now < 16 }
    ensures { result ≡ length (quoted s.now) }
{
    let mut len = s.len() + 2;
    for &b in s {
        len += match escape_of(b) {
            Escape::Bare => 0,
            Escape::Backslash(_) => 1,
            Escape::Hexadecimal => 3,
        };
    }
    len
}

// The same of any text, from the costs of up to 64 bytes at a time.
fn long_len(s: &[u8]) -> Result<usize, Error>
    ensures { result ≡ count_of (length (quoted s.now)) }
{
    let turns = s.chunks_exact(TURN);
    let rest = turns.remainder();
    let mut len = s.len() + 2;
    for turn in turns {
        len = len
            .checked_add(usize::from(costs(turn)))
            .ok_or(Error::CountTooLarge)?;
    }
    len.checked_add(usize::from(costs(rest)))
        .ok_or(Error::CountTooLarge)
}

// What the escapes of the bytes add to them. The sum is a byte, so that the compiler can add
// sixteen side by side.
fn costs(s: &[u8]) -> u8
    requires { length s.now ≤ 64 }
    ensures { length (escaped s.now) ≡ length s.now + result }
{
    let mut sum: u8 = 0;
    for &b in s {
        sum += cost_of(b);
    }
    sum
}

// What the escape of b adds to the byte.
#[tactic(auto, using(formatting::proofs::Letters::by_letter_lem), unfolding(formatting::specs::Escape::letter_of))]
fn cost_of(b: u8) -> u8
    ensures { (result ≤ 3) × (length (escape_text (escape_of b) b) ≡ result + 1) }
{
    if b == b'\t' {
        return 1;
    }
    if b == b'\n' {
        return 1;
    }
    if b == b'\r' {
        return 1;
    }
    if b == b'\\' {
        return 1;
    }
    if b == b'\'' {
        return 1;
    }
    if b == b'"' {
        return 1;
    }
    if b < 32 {
        return 3;
    }
    0
}
