// A cursor given, and truncations. They write nothing: the line gives the bytes of the buffer.
use crate::print::Printed;
use fields::{first_field, from_hex, later_fields, number};
use utils::slice_up_to_len;

// `from_custom,HEX,AT`: what a given cursor answers, the room that is left and the text.
pub(crate) fn given_call(rest: &[u8], out: &mut Printed) -> Option<()> {
    let mut space = [0u8; 72];
    let n = from_hex(first_field(rest), &mut space)?;
    let at = number(later_fields(rest), u64::MAX)? as usize;
    let buf = slice_up_to_len(&space, n);
    out.call(b"", str_writer::from_custom(buf, at), at, b',');
    let left = str_writer::remaining_capacity(buf, at);
    out.cell(b" left ", left as u64, b' ');
    out.bytes(str_writer::as_bytes(buf, at));
    Some(())
}

// `truncate,HEX,AT,LENGTH`: what truncate and truncate_utf8 answer.
pub(crate) fn truncate_call(rest: &[u8], out: &mut Printed) -> Option<()> {
    let mut space = [0u8; 72];
    let n = from_hex(first_field(rest), &mut space)?;
    let later = later_fields(rest);
    let at = number(first_field(later), u64::MAX)? as usize;
    let length = number(later_fields(later), u64::MAX)? as usize;
    let buf = slice_up_to_len(&space, n);
    out.call(b"", str_writer::truncate(buf, at, length), at, b',');
    out.call(
        b" utf8: ",
        str_writer::truncate_utf8(buf, at, length),
        at,
        b'\n',
    );
    Some(())
}
