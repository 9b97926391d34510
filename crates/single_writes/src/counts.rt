// Single values counted: the length of a value added to a total, which is kept where the answer is a refusal.
ghost use Rattle.std.specs.Prelude.{◌≡◌, List, [], ℕ, pos, length};
ghost use Rattle.error.specs.Answer.{answer_number};
ghost use Rattle.str_writer.specs.Value.{integer, char, str, display, debug};
ghost use Rattle.calls.specs.Model.{counting, put_in};
ghost use Rattle.single_writes.specs.Single.{entire, totals, counts, counts_by};

use char_encoding::{char_debug_len, char_display_len};
use error::{Error, answer_number};
use formatting::FormattingFlags;
use pwrapper::{
    PrimitiveInteger, compute_debug_len, compute_display_len, compute_utf8_debug_len_in_range,
};
use str_writer::str_fault;
use utils::Range;

// Adds a length to a total, or refuses it with 6 where that would pass 2^64 - 1.
fn add(total: &mut usize, len: usize) -> Result<(), Error>
    ensures { (t : List ℕ) → len ≡ length t → totals (answer_number result) total.new ≡ put_in (counting total.old) [] t }
{
    *total = total.checked_add(len).ok_or(Error::CountTooLarge)?;
    Ok(())
}

// Counts an integer in decimal.
fn count_display<I: PrimitiveInteger>(total: &mut usize, x: I) -> u8
    ensures { totals result total.new ≡ counts total.old (integer display I.BITS (I.value x)) }
{
    answer_number(add(total, compute_display_len(x)))
}

// Counts an integer in the form that the flags say.
fn count_debug<I: PrimitiveInteger>(total: &mut usize, x: I, flags: u64) -> u8
    ensures { totals result total.new ≡ counts_by flags total.old (integer debug I.BITS (I.value x)) }
{
    match FormattingFlags::try_from(flags) {
        Ok(flags) => answer_number(add(total, compute_debug_len(x, flags))),
        Err(_) => u8::from(Error::WrongCall),
    }
}

// Counts a u8 in decimal.
#[unsafe(no_mangle)]
pub extern "C" fn single_count_u8_display(total: &mut usize, x: u8) -> u8
    ensures { totals result total.new ≡ counts total.old (integer display 8 (pos x)) }
{
    count_display(total, x)
}

// Counts a u8 in the form that the flags say.
#[unsafe(no_mangle)]
pub extern "C" fn single_count_u8_debug(total: &mut usize, x: u8, flags: u64) -> u8
    ensures { totals result total.new ≡ counts_by flags total.old (integer debug 8 (pos x)) }
{
    count_debug(total, x, flags)
}

// Counts a u16 in decimal.
#[unsafe(no_mangle)]
pub extern "C" fn single_count_u16_display(total: &mut usize, x: u16) -> u8
    ensures { totals result total.new ≡ counts total.old (integer display 16 (pos x)) }
{
    count_display(total, x)
}

// Counts a u16 in the form that the flags say.
#[unsafe(no_mangle)]
pub extern "C" fn single_count_u16_debug(total: &mut usize, x: u16, flags: u64) -> u8
    ensures { totals result total.new ≡ counts_by flags total.old (integer debug 16 (pos x)) }
{
    count_debug(total, x, flags)
}

// Counts a u32 in decimal.
#[unsafe(no_mangle)]
pub extern "C" fn single_count_u32_display(total: &mut usize, x: u32) -> u8
    ensures { totals result total.new ≡ counts total.old (integer display 32 (pos x)) }
{
    count_display(total, x)
}

// Counts a u32 in the form that the flags say.
#[unsafe(no_mangle)]
pub extern "C" fn single_count_u32_debug(total: &mut usize, x: u32, flags: u64) -> u8
    ensures { totals result total.new ≡ counts_by flags total.old (integer debug 32 (pos x)) }
{
    count_debug(total, x, flags)
}

// Counts a u64 in decimal.
#[unsafe(no_mangle)]
pub extern "C" fn single_count_u64_display(total: &mut usize, x: u64) -> u8
    ensures { totals result total.new ≡ counts total.old (integer display 64 (pos x)) }
{
    count_display(total, x)
}

// Counts a u64 in the form that the flags say.
#[unsafe(no_mangle)]
pub extern "C" fn single_count_u64_debug(total: &mut usize, x: u64, flags: u64) -> u8
    ensures { totals result total.new ≡ counts_by flags total.old (integer debug 64 (pos x)) }
{
    count_debug(total, x, flags)
}

// Counts an i8 in decimal.
#[unsafe(no_mangle)]
pub extern "C" fn single_count_i8_display(total: &mut usize, x: i8) -> u8
    ensures { totals result total.new ≡ counts total.old (integer display 8 x) }
{
    count_display(total, x)
}

// Counts an i8 in the form that the flags say.
#[unsafe(no_mangle)]
pub extern "C" fn single_count_i8_debug(total: &mut usize, x: i8, flags: u64) -> u8
    ensures { totals result total.new ≡ counts_by flags total.old (integer debug 8 x) }
{
    count_debug(total, x, flags)
}

// Counts an i16 in decimal.
#[unsafe(no_mangle)]
pub extern "C" fn single_count_i16_display(total: &mut usize, x: i16) -> u8
    ensures { totals result total.new ≡ counts total.old (integer display 16 x) }
{
    count_display(total, x)
}

// Counts an i16 in the form that the flags say.
#[unsafe(no_mangle)]
pub extern "C" fn single_count_i16_debug(total: &mut usize, x: i16, flags: u64) -> u8
    ensures { totals result total.new ≡ counts_by flags total.old (integer debug 16 x) }
{
    count_debug(total, x, flags)
}

// Counts an i32 in decimal.
#[unsafe(no_mangle)]
pub extern "C" fn single_count_i32_display(total: &mut usize, x: i32) -> u8
    ensures { totals result total.new ≡ counts total.old (integer display 32 x) }
{
    count_display(total, x)
}

// Counts an i32 in the form that the flags say.
#[unsafe(no_mangle)]
pub extern "C" fn single_count_i32_debug(total: &mut usize, x: i32, flags: u64) -> u8
    ensures { totals result total.new ≡ counts_by flags total.old (integer debug 32 x) }
{
    count_debug(total, x, flags)
}

// Counts an i64 in decimal.
#[unsafe(no_mangle)]
pub extern "C" fn single_count_i64_display(total: &mut usize, x: i64) -> u8
    ensures { totals result total.new ≡ counts total.old (integer display 64 x) }
{
    count_display(total, x)
}

// Counts an i64 in the form that the flags say.
#[unsafe(no_mangle)]
pub extern "C" fn single_count_i64_debug(total: &mut usize, x: i64, flags: u64) -> u8
    ensures { totals result total.new ≡ counts_by flags total.old (integer debug 64 x) }
{
    count_debug(total, x, flags)
}

// Counts a character by what it meets.
fn count_char(total: &mut usize, c: u32) -> Result<(), Error>
    ensures { totals (answer_number result) total.new ≡ counts total.old (char display c) }
{
    add(total, char_display_len(c)?)
}

// Counts a character.
#[unsafe(no_mangle)]
pub extern "C" fn single_count_char(total: &mut usize, c: u32) -> u8
    ensures { totals result total.new ≡ counts total.old (char display c) }
{
    answer_number(count_char(total, c))
}

// Counts a character, quoted, by what it meets.
fn count_char_debug(total: &mut usize, c: u32) -> Result<(), Error>
    ensures { totals (answer_number result) total.new ≡ counts total.old (char debug c) }
{
    add(total, char_debug_len(c)?)
}

// Counts a character, quoted.
#[unsafe(no_mangle)]
pub extern "C" fn single_count_char_debug(total: &mut usize, c: u32) -> u8
    ensures { totals result total.new ≡ counts total.old (char debug c) }
{
    answer_number(count_char_debug(total, c))
}

// Counts a string by what it meets.
fn count_str(total: &mut usize, s: &[u8]) -> Result<(), Error>
    ensures { totals (answer_number result) total.new ≡ counts total.old (entire (str display) s.now) }
{
    str_fault(s)?;
    add(total, s.len())
}

// Counts a string.
#[unsafe(no_mangle)]
pub extern "C" fn single_count_str(total: &mut usize, s: &[u8]) -> u8
    ensures { totals result total.new ≡ counts total.old (entire (str display) s.now) }
{
    answer_number(count_str(total, s))
}

// Counts a string, quoted, by what it meets: as the whole of its range, as a run does.
fn count_str_debug(total: &mut usize, s: &[u8]) -> Result<(), Error>
    ensures { totals (answer_number result) total.new ≡ counts total.old (entire (str debug) s.now) }
{
    str_fault(s)?;
    let end = s.len();
    add(
        total,
        compute_utf8_debug_len_in_range(s, Range { start: 0, end })?,
    )
}

// Counts a string, quoted.
#[unsafe(no_mangle)]
pub extern "C" fn single_count_str_debug(total: &mut usize, s: &[u8]) -> u8
    ensures { totals result total.new ≡ counts total.old (entire (str debug) s.now) }
{
    answer_number(count_str_debug(total, s))
}
