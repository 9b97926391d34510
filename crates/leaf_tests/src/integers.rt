// Integers: the length and the text of the display form, and of the debug form by the flags.
use crate::printed::Printed;
use fields::{first_field, later_fields, number};
use formatting::{FormattingFlags, NumberFormatting};
use lines::part;
use pargument::{Integer, to_integer};
use pwrapper::{PrimitiveInteger, compute_debug_len, compute_display_len};

// A number in decimal, behind a minus or not.
#[derive(Clone, Copy)]
enum Signed {
    Plus(u64),
    Minus(u64),
}

// The flags of the debug forms that a case prints.
fn debug_flags() -> [FormattingFlags; 6] {
    let plain = FormattingFlags::new();
    let alternate = plain.set_alternate(true);
    [
        alternate,
        plain.set_hexadecimal(),
        alternate.set_lower_hexadecimal(),
        alternate.set_hexadecimal(),
        plain.set_binary(),
        alternate.set_binary(),
    ]
}

// The text in decimal.
fn put_decimal(i: Integer, out: &mut Printed) {
    let laid = i.to_start_array_display();
    out.bytes(part(&laid.array, laid.start, 21));
}

// The text in hexadecimal.
fn put_hexadecimal(i: Integer, flags: FormattingFlags, out: &mut Printed) {
    let laid = i.to_start_array_hexadecimal(flags);
    out.bytes(part(&laid.array, laid.start, 18));
}

// The text in binary.
fn put_binary(i: Integer, flags: FormattingFlags, out: &mut Printed) {
    let laid = i.to_start_array_binary(flags);
    out.bytes(part(&laid.array, laid.start, 66));
}

// The text of the debug form.
fn put_debug(i: Integer, flags: FormattingFlags, out: &mut Printed) {
    match flags.num_fmt() {
        NumberFormatting::Decimal => put_decimal(i, out),
        NumberFormatting::Hexadecimal => put_hexadecimal(i, flags, out),
        NumberFormatting::Binary => put_binary(i, flags, out),
    }
}

// The length and the text of each form of a value.
fn put_forms<I: PrimitiveInteger>(x: I, out: &mut Printed) {
    out.template(b"% ", compute_display_len(x) as u64, 0);
    put_decimal(to_integer(x), out);
    for flags in debug_flags() {
        out.template(b", % ", compute_debug_len(x, flags) as u64, 0);
        put_debug(to_integer(x), flags, out);
    }
    out.bytes(b"\n");
}

// The number that a field is in decimal, behind a minus or not.
fn read_parts(s: &[u8]) -> Option<Signed> {
    match s {
        [b'-', digits @ ..] => Some(Signed::Minus(number(digits, u64::MAX)?)),
        _ => Some(Signed::Plus(number(s, u64::MAX)?)),
    }
}

// The number of an unsigned type that a field is in decimal.
fn read_unsigned(s: &[u8]) -> Option<u64> {
    number(s, u64::MAX)
}

// The number of a signed type that a field is in decimal. No number is -0.
fn read_signed(s: &[u8]) -> Option<i64> {
    match read_parts(s)? {
        Signed::Plus(n) => i64::try_from(n).ok(),
        Signed::Minus(n) => Some(!i64::try_from(n.checked_sub(1)?).ok()?),
    }
}

// `u8,VALUE` to `i64,VALUE`: the display form, and the debug form by six flags.
pub(crate) fn put_integer(word: &[u8], s: &[u8], out: &mut Printed) -> Option<()> {
    match word {
        b"u8" => put_forms(u8::try_from(read_unsigned(s)?).ok()?, out),
        b"u16" => put_forms(u16::try_from(read_unsigned(s)?).ok()?, out),
        b"u32" => put_forms(u32::try_from(read_unsigned(s)?).ok()?, out),
        b"u64" => put_forms(read_unsigned(s)?, out),
        b"i8" => put_forms(i8::try_from(read_signed(s)?).ok()?, out),
        b"i16" => put_forms(i16::try_from(read_signed(s)?).ok()?, out),
        b"i32" => put_forms(i32::try_from(read_signed(s)?).ok()?, out),
        b"i64" => put_forms(read_signed(s)?, out),
        _ => return None,
    }
    Some(())
}

// The display form of an integer, and its bits in hexadecimal and binary.
fn put_texts(i: Integer, out: &mut Printed) {
    let flags = FormattingFlags::new();
    put_decimal(i, out);
    out.bytes(b" ");
    put_hexadecimal(i, flags.set_hexadecimal(), out);
    out.bytes(b" ");
    put_binary(i, flags.set_binary(), out);
}

// `integer,UNSIGNED,MASK`, with a minus before UNSIGNED or not: the display form, and the bits.
pub(crate) fn put_parts(fields: &[u8], out: &mut Printed) -> Option<()> {
    let (is_negative, unsigned) = match read_parts(first_field(fields))? {
        Signed::Plus(n) => (false, n),
        Signed::Minus(n) => (true, n),
    };
    let mask = number(later_fields(fields), u64::MAX)?;
    out.bytes(fields);
    out.bytes(b": ");
    let i = Integer {
        is_negative,
        unsigned,
        mask,
    };
    put_texts(i, out);
    out.bytes(b"\n");
    Some(())
}
