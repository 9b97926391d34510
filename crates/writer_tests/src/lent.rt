// Calls through the lent writer: several to a line.
use crate::print::Printed;
use error::answer_number;
use fields::{first_field, from_hex, later_fields, number};
use str_writer_mut::{Truncated, write_str_then_debug, write_str_then_truncate};
use utils::slice_up_to_len;

// `HEX,HEX`: a string and after it a quoted string. Lays both answers, the cursor and the bytes of the
// buffer.
pub(crate) fn twice_call(
    arguments: &[u8],
    buf: &mut [u8],
    at: usize,
    out: &mut Printed,
) -> Option<()> {
    let mut first_space = [0u8; 72];
    let mut second_space = [0u8; 72];
    let n = from_hex(first_field(arguments), &mut first_space)?;
    let m = from_hex(later_fields(arguments), &mut second_space)?;
    let s = slice_up_to_len(&first_space, n);
    let w = write_str_then_debug(buf, at, s, slice_up_to_len(&second_space, m));
    out.cell(b"", u64::from(answer_number(w.first)), b' ');
    out.outcome(b"", w.second, w.at, b' ');
    out.bytes(buf);
    Some(())
}

// Lays the answer to the write, for each truncation its answer and the cursor after it, and the bytes
// of the buffer.
fn put_truncated(r: Truncated, buf: &[u8], out: &mut Printed) {
    out.cell(b"", u64::from(answer_number(r.written)), b',');
    out.outcome(b" truncate: ", r.plain, r.len, b',');
    out.outcome(b" utf8: ", r.utf8, r.at, b' ');
    out.bytes(buf);
}

// `HEX,HEX,LENGTH,LENGTH`: a buffer, a string that is written at its start, and the lengths that it is
// truncated to.
pub(crate) fn then_truncate_call(rest: &[u8], out: &mut Printed) -> Option<()> {
    let mut buf_space = [0u8; 72];
    let mut text_space = [0u8; 72];
    let later = later_fields(rest);
    let lengths = later_fields(later);
    let n = from_hex(first_field(rest), &mut buf_space)?;
    let m = from_hex(first_field(later), &mut text_space)?;
    let length = number(first_field(lengths), u64::MAX)? as usize;
    let utf8_length = number(later_fields(lengths), u64::MAX)? as usize;
    let buf = buf_space.get_mut(..n)?;
    let s = slice_up_to_len(&text_space, m);
    let r = write_str_then_truncate(buf, s, length, utf8_length);
    put_truncated(r, buf, out);
    Some(())
}
