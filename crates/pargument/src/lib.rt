// An integer's sign, absolute value and width (Integer of pargument.rs), and its digits laid in
// arrays (the to_start_array methods of wrapper_types/pwrapper.rs).
#![tactic(auto)]

ghost use Rattle.std.specs.Prelude.{◌≡◌, ◌≤◌, length, replicate};
ghost use Rattle.formatting.specs.Hex.{hex_digit};
ghost use Rattle.pwrapper.specs.Digits.{digit_text};
ghost use Rattle.pwrapper.specs.Number.{hex_text, bin_text};
ghost use Rattle.pargument.specs.Integer.{integer_of, integer_display, integer_bits, start_of, array_of, Ends};

use formatting::{FormattingFlags, HexFormatting, hex_as_ascii};
use pwrapper::PrimitiveInteger;

#[derive(Clone, Copy)]
pub struct Integer {
    pub is_negative: bool,
    pub unsigned: u64,
    // Set where the integer's type has a bit.
    pub mask: u64,
}

// A text written from the end of an array, as document 01 has it: the place of its first byte. The bytes
// before are zero.
#[derive(Clone, Copy)]
pub struct StartAndArray<const N: usize> {
    pub start: usize,
    pub array: [u8; N],
}

// The sign and the absolute value of an integer, with the mask of its bits.
pub fn to_integer<I: PrimitiveInteger>(x: I) -> Integer
    ensures { result ≡ integer_of I.BITS (I.value x) }
{
    Integer {
        is_negative: x.is_negative(),
        unsigned: x.absolute_value(),
        mask: u64::MAX >> (64 - I::BITS),
    }
}

impl<const N: usize> StartAndArray<N> {
    // Lays the digits of n in a base at the end of an array of zeros that has room for them, and gives
    // their start: by a loop, as document 01 has it. The array is its caller's, who stores a prefix or
    // a sign in it too, before it is copied: stored in a copy, they would make the next copy wait.
    fn digits<const BASE: u64>(array: &mut [u8; N], n: u64, hex_fmt: HexFormatting) -> usize
        requires base { (2 ≤ BASE) × (BASE ≤ 16) }
        requires room { length (digit_text (hex_digit hex_fmt) BASE n) ≤ N }
        requires zeros { array.old ≡ replicate N 0 }
        ensures { Ends N array.new result (digit_text (hex_digit hex_fmt) BASE n) }
    {
        let mut at = N;
        let mut rest = n;
        loop {
            at -= 1;
            array[at] = hex_as_ascii((rest % BASE) as u8, hex_fmt);
            rest /= BASE;
            if rest == 0 {
                break at;
            }
        }
    }
}

impl Integer {
    // The bits that the hexadecimal and the binary text show.
    fn bits(self) -> u64
        ensures { result ≡ integer_bits self }
    {
        if self.is_negative {
            self.unsigned.wrapping_neg() & self.mask
        } else {
            self.unsigned & self.mask
        }
    }

    // The binary text at the end of an array, with its prefix where the flags say so.
    pub fn to_start_array_binary(self, flags: FormattingFlags) -> StartAndArray<66>
        ensures { (result.start ≡ start_of 66 (bin_text flags (integer_bits self))) × (result.array ≡ array_of 66 (bin_text flags (integer_bits self))) }
    {
        let mut array = [0u8; 66];
        let start = StartAndArray::<66>::digits::<2>(&mut array, self.bits(), flags.hex_fmt);
        if flags.is_alternate {
            array[start - 1] = b'b';
            array[start - 2] = b'0';
            return StartAndArray {
                start: start - 2,
                array,
            };
        }
        StartAndArray { start, array }
    }

    // The hexadecimal text at the end of an array, with its prefix where the flags say so.
    pub fn to_start_array_hexadecimal(self, flags: FormattingFlags) -> StartAndArray<18>
        ensures { (result.start ≡ start_of 18 (hex_text flags (integer_bits self))) × (result.array ≡ array_of 18 (hex_text flags (integer_bits self))) }
    {
        let mut array = [0u8; 18];
        let start = StartAndArray::<18>::digits::<16>(&mut array, self.bits(), flags.hex_fmt);
        if flags.is_alternate {
            array[start - 1] = b'x';
            array[start - 2] = b'0';
            return StartAndArray {
                start: start - 2,
                array,
            };
        }
        StartAndArray { start, array }
    }

    // The decimal text at the end of an array.
    pub fn to_start_array_display(self) -> StartAndArray<21>
        ensures { (result.start ≡ start_of 21 (integer_display self)) × (result.array ≡ array_of 21 (integer_display self)) }
    {
        let mut array = [0u8; 21];
        let start = StartAndArray::<21>::digits::<10>(
            &mut array,
            self.unsigned,
            HexFormatting::Upper,
        );
        if self.is_negative {
            array[start - 1] = b'-';
            return StartAndArray {
                start: start - 1,
                array,
            };
        }
        StartAndArray { start, array }
    }

    // The decimal text too: the debug form in decimal is the display form.
    pub fn to_start_array_debug(self) -> StartAndArray<21>
        ensures { (result.start ≡ start_of 21 (integer_display self)) × (result.array ≡ array_of 21 (integer_display self)) }
    {
        self.to_start_array_display()
    }
}
