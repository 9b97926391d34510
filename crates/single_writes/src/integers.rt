// An integer's parts, and its digits laid in arrays: crate pargument with an Integer as three
// numbers. Flags that are no number below 12 are refused with 8; then nothing changes.
ghost use Rattle.std.specs.Prelude.{◌≡◌, pos};
ghost use Rattle.pargument.specs.declared.Integer as parts;
ghost use Rattle.pargument.specs.Integer.{integer_of, integer_display, start_of, array_of};
ghost use Rattle.single_writes.specs.Laid.{of_parts, laid_in, laid_by, in_binary, in_hexadecimal};

use error::Error;
use formatting::FormattingFlags;
use pargument::{Integer, to_integer};

// Leaves the absolute value and the mask in their places, and gives whether the integer is negative.
fn leave(i: Integer, unsigned: &mut u64, mask: &mut u64) -> bool
    ensures { of_parts result unsigned.new mask.new ≡ i }
{
    *unsigned = i.unsigned;
    *mask = i.mask;
    i.is_negative
}

// The parts of a u8: whether it is negative, its absolute value, and a mask of the bits of its type.
#[unsafe(no_mangle)]
pub extern "C" fn single_to_integer_u8(x: u8, unsigned: &mut u64, mask: &mut u64) -> bool
    ensures { of_parts result unsigned.new mask.new ≡ integer_of 8 (pos x) }
{
    leave(to_integer(x), unsigned, mask)
}

// The parts of a u16: whether it is negative, its absolute value, and a mask of the bits of its type.
#[unsafe(no_mangle)]
pub extern "C" fn single_to_integer_u16(x: u16, unsigned: &mut u64, mask: &mut u64) -> bool
    ensures { of_parts result unsigned.new mask.new ≡ integer_of 16 (pos x) }
{
    leave(to_integer(x), unsigned, mask)
}

// The parts of a u32: whether it is negative, its absolute value, and a mask of the bits of its type.
#[unsafe(no_mangle)]
pub extern "C" fn single_to_integer_u32(x: u32, unsigned: &mut u64, mask: &mut u64) -> bool
    ensures { of_parts result unsigned.new mask.new ≡ integer_of 32 (pos x) }
{
    leave(to_integer(x), unsigned, mask)
}

// The parts of a u64: whether it is negative, its absolute value, and a mask of the bits of its type.
#[unsafe(no_mangle)]
pub extern "C" fn single_to_integer_u64(x: u64, unsigned: &mut u64, mask: &mut u64) -> bool
    ensures { of_parts result unsigned.new mask.new ≡ integer_of 64 (pos x) }
{
    leave(to_integer(x), unsigned, mask)
}

// The parts of an i8: whether it is negative, its absolute value, and a mask of the bits of its type.
#[unsafe(no_mangle)]
pub extern "C" fn single_to_integer_i8(x: i8, unsigned: &mut u64, mask: &mut u64) -> bool
    ensures { of_parts result unsigned.new mask.new ≡ integer_of 8 x }
{
    leave(to_integer(x), unsigned, mask)
}

// The parts of an i16: whether it is negative, its absolute value, and a mask of the bits of its type.
#[unsafe(no_mangle)]
pub extern "C" fn single_to_integer_i16(x: i16, unsigned: &mut u64, mask: &mut u64) -> bool
    ensures { of_parts result unsigned.new mask.new ≡ integer_of 16 x }
{
    leave(to_integer(x), unsigned, mask)
}

// The parts of an i32: whether it is negative, its absolute value, and a mask of the bits of its type.
#[unsafe(no_mangle)]
pub extern "C" fn single_to_integer_i32(x: i32, unsigned: &mut u64, mask: &mut u64) -> bool
    ensures { of_parts result unsigned.new mask.new ≡ integer_of 32 x }
{
    leave(to_integer(x), unsigned, mask)
}

// The parts of an i64: whether it is negative, its absolute value, and a mask of the bits of its type.
#[unsafe(no_mangle)]
pub extern "C" fn single_to_integer_i64(x: i64, unsigned: &mut u64, mask: &mut u64) -> bool
    ensures { of_parts result unsigned.new mask.new ≡ integer_of 64 x }
{
    leave(to_integer(x), unsigned, mask)
}

// Lays the binary text of an integer at the end of the array; start is the place of its first byte.
#[unsafe(no_mangle)]
pub extern "C" fn single_integer_binary(
    is_negative: bool,
    unsigned: u64,
    mask: u64,
    flags: u64,
    start: &mut usize,
    array: &mut [u8; 66],
) -> u8
    ensures { laid_in result start.new array.new
        ≡ laid_by flags start.old array.old (in_binary (of_parts is_negative unsigned mask)) }
{
    let Ok(flags) = FormattingFlags::try_from(flags) else {
        return u8::from(Error::WrongCall);
    };
    let i = Integer {
        is_negative,
        unsigned,
        mask,
    };
    let laid = i.to_start_array_binary(flags);
    *start = laid.start;
    let digits = laid.array;
    *array = digits;
    0
}

// Lays the hexadecimal text of an integer at the end of the array; start is the place of its first byte.
#[unsafe(no_mangle)]
pub extern "C" fn single_integer_hexadecimal(
    is_negative: bool,
    unsigned: u64,
    mask: u64,
    flags: u64,
    start: &mut usize,
    array: &mut [u8; 18],
) -> u8
    ensures { laid_in result start.new array.new
        ≡ laid_by flags start.old array.old (in_hexadecimal (of_parts is_negative unsigned mask)) }
{
    let Ok(flags) = FormattingFlags::try_from(flags) else {
        return u8::from(Error::WrongCall);
    };
    let i = Integer {
        is_negative,
        unsigned,
        mask,
    };
    let laid = i.to_start_array_hexadecimal(flags);
    *start = laid.start;
    let digits = laid.array;
    *array = digits;
    0
}

// Lays the decimal text of an integer at the end of the array, and gives the place of its first byte.
#[unsafe(no_mangle)]
pub extern "C" fn single_integer_display(
    is_negative: bool,
    unsigned: u64,
    mask: u64,
    array: &mut [u8; 21],
) -> usize
    ensures value { result ≡ start_of 21 (integer_display (of_parts is_negative unsigned mask)) }
    ensures array_after { array.new ≡ array_of 21 (integer_display (of_parts is_negative unsigned mask)) }
{
    let i = Integer {
        is_negative,
        unsigned,
        mask,
    };
    let s = i.to_start_array_display();
    let digits = s.array;
    *array = digits;
    s.start
}
