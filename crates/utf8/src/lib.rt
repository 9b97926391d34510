// Whether bytes are UTF-8, by the grammar of RFC 3629 section 4: what holds of every value of Rust's type str.
#![tactic(auto)]

ghost use Rattle.std.specs.Prelude.{◌≡◌, List, ◌∷◌, ℕ, fold, max};
ghost use Rattle.std.proofs.Math.Option.{some};
ghost use Rattle.std.specs.Bool.{MatchBool};
ghost use Rattle.std.specs.Str.{IsAscii, IsNotAscii};
ghost use Rattle.utf8.specs.Utf8.{well_formed, continues, follow};
ghost use Rattle.utf8.specs.Expected.{ranges};

// What has to follow in a text: how many octets, and the least and the greatest value of the first of them. The others are UTF8-tail.
#[derive(Clone, Copy)]
struct Expected(usize, u8, u8);

// Between two characters.
const NOTHING: Expected = Expected(0, 0x80, 0xBF);

// After broken text: an octet from 1 to 0, and there is none. With an Option in its place a text with
// umlauts takes up to half as long again.
const NEVER: Expected = Expected(1, 1, 0);

// What has to follow the first octet of a character.
fn after_first(a: u8) -> Expected
    ensures { (s : List ℕ) → continues s (some (ranges result)) ≡ continues s (follow a) }
{
    if a < 0x80 {
        return NOTHING;
    }
    if a < 0xC2 {
        return NEVER;
    }
    if a < 0xE0 {
        return Expected(1, 0x80, 0xBF);
    }
    if a == 0xE0 {
        return Expected(2, 0xA0, 0xBF);
    }
    if a == 0xED {
        return Expected(2, 0x80, 0x9F);
    }
    if a < 0xF0 {
        return Expected(2, 0x80, 0xBF);
    }
    if a == 0xF0 {
        return Expected(3, 0x90, 0xBF);
    }
    if a < 0xF4 {
        return Expected(3, 0x80, 0xBF);
    }
    if a == 0xF4 {
        return Expected(3, 0x80, 0x8F);
    }
    NEVER
}

// What has to follow where e had to follow, once the octet a has been read.
fn after(e: Expected, a: u8) -> Expected
    ensures { (s : List ℕ) → continues s (some (ranges result)) ≡ continues (a ∷ s) (some (ranges e)) }
{
    let Expected(count, low, high) = e;
    if count == 0 {
        return after_first(a);
    }
    if a < low {
        return NEVER;
    }
    if high < a {
        return NEVER;
    }
    Expected(count - 1, 0x80, 0xBF)
}

// The greatest byte of s, or 0. The compiler compares sixteen bytes at once, where the library's ASCII test reads eight.
fn greatest(s: &[u8]) -> u8
    ensures { result ≡ fold max 0 s.now }
{
    s.iter().fold(0, |most, b| most.max(*b))
}

// Whether s is well-formed, octet by octet. As a `for` it takes a text with umlauts a twelfth longer.
fn by_octets(s: &[u8]) -> bool
    ensures { result ≡ well_formed s.now }
{
    let mut expected = NOTHING;
    let mut i = 0;
    while i < s.len() {
        expected = after(expected, s[i]);
        i += 1;
    }
    expected.0 == 0
}

// Whether every byte of s is below 0x80, byte by byte. On a short text it is quicker than the library's method.
fn is_ascii(s: &[u8]) -> bool
    ensures { MatchBool result (IsAscii s.now) (IsNotAscii s.now) }
{
    for b in s {
        if 0x7F < *b {
            return false;
        }
    }
    true
}

// Whether s is well-formed. The greatest byte is found many bytes at a time, and tells whether all
// are ASCII.
#[tactic(auto, using(crate::proofs::StdText::ascii_below, crate::proofs::StdText::plain))]
fn is_long_utf8(s: &[u8]) -> bool
    ensures { result ≡ well_formed s.now }
{
    if greatest(s) < 0x80 {
        return true;
    }
    by_octets(s)
}

// Whether s is well-formed UTF-8. A short text is nearly always ASCII, and that is found out here, in
// few steps: the compiler can lay them into the caller.
#[tactic(auto, using(crate::proofs::StdText::plain))]
pub fn is_utf8(s: &[u8]) -> bool
    ensures { result ≡ well_formed s.now }
{
    if s.len() < 16 {
        if is_ascii(s) {
            return true;
        }
    }
    is_long_utf8(s)
}
