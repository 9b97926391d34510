// The lengths of the hexadecimal and the binary text, from the count of leading zero bits.
ghost use Rattle.std.specs.Prelude.{◌≡◌, ◌+◌, length};
ghost use Rattle.pwrapper.specs.Digits.{digits};
ghost use Rattle.pwrapper.specs.Number.{hex_text, bin_text};

use formatting::FormattingFlags;

// How many hexadecimal digits n has.
fn hex_count(n: u64) -> usize
    ensures { result ≡ length (digits 16 n) }
{
    let i = 64 - u64::leading_zeros(n);
    if i == 0 { 1 } else { ((i + 3) / 4) as usize }
}

// How many binary digits n has.
fn binary_count(n: u64) -> usize
    ensures { result ≡ length (digits 2 n) }
{
    let i = 64 - u64::leading_zeros(n);
    if i == 0 { 1 } else { i as usize }
}

// How long a u64 is in hexadecimal, its prefix included.
pub fn hexadecimal_len(n: u64, flags: FormattingFlags) -> usize
    ensures { result ≡ length (hex_text flags n) }
{
    let len = hex_count(n);
    if flags.is_alternate { len + 2 } else { len }
}

// How long a u64 is in binary, its prefix included.
pub fn binary_len(n: u64, flags: FormattingFlags) -> usize
    ensures { result ≡ length (bin_text flags n) }
{
    let len = binary_count(n);
    if flags.is_alternate { len + 2 } else { len }
}
