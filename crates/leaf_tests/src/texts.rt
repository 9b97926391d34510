// Texts: the UTF-8 and the ASCII test, boundaries, ranges, the lengths of quoted strings.
use crate::printed::Printed;
use ascii_str::check_ascii;
use error::Error;
use fields::{first_field, from_hex, later_fields, number, split_field};
use formatting::bit;
use pwrapper::{compute_utf8_debug_len, compute_utf8_debug_len_in_range};
use utf8::is_utf8;
use utils::{Range, is_char_boundary, saturate_range, slice_up_to_len};

// What a case says of a text.
#[derive(Clone, Copy)]
pub(crate) enum About {
    Utf8,
    Ascii,
    Boundary,
    Clamped,
    Quoted,
}

// `utf8,HEX`: whether the text is UTF-8.
fn put_utf8(s: &[u8], out: &mut Printed) {
    out.pairs(s);
    out.template(b": %\n", bit(is_utf8(s)), 0);
}

// `ascii,HEX`: the answer, and where the first byte above 127 is.
fn put_ascii(s: &[u8], out: &mut Printed) {
    out.pairs(s);
    match check_ascii(s) {
        Ok(()) => out.template(b": 0\n", 0, 0),
        Err(error) => {
            let answer = u8::from(Error::from(error));
            out.template(
                b": % from %\n",
                u64::from(answer),
                error.invalid_from as u64,
            );
        }
    }
}

// `boundary,HEX,INDEX`: whether the index is a boundary.
fn put_boundary(s: &[u8], field: &[u8], out: &mut Printed) -> Option<()> {
    let index = number(field, u64::MAX)?;
    let is_boundary = is_char_boundary(s, index as usize);
    out.pairs(s);
    out.template(b" at %: %\n", index, bit(is_boundary));
    Some(())
}

// `range,HEX,START,END`: the range clamped to the text, and the text up to END.
fn put_clamped(s: &[u8], r: Range, out: &mut Printed) {
    let clamped = saturate_range(s, r);
    out.template(b"%..% of ", r.start as u64, r.end as u64);
    out.template(b"%: %..", s.len() as u64, clamped.start as u64);
    out.template(b"%, up to the end ", clamped.end as u64, 0);
    out.bytes(slice_up_to_len(s, r.end));
    out.bytes(b"\n");
}

// An answer and a length, 0 where there is none, in a text.
fn put_len(counted: Result<usize, Error>, text: &[u8], out: &mut Printed) {
    match counted {
        Ok(len) => out.template(text, 0, len as u64),
        Err(error) => out.template(text, u64::from(u8::from(error)), 0),
    }
}

// `quoted,HEX,START,END`: the answer and the length of the text quoted, and of a range of it.
fn put_quoted_len(s: &[u8], r: Range, out: &mut Printed) {
    out.pairs(s);
    put_len(compute_utf8_debug_len(s), b": % %, from ", out);
    out.template(b"% to % ", r.start as u64, r.end as u64);
    put_len(compute_utf8_debug_len_in_range(s, r), b"% %\n", out);
}

// `START,END`.
fn read_range(fields: &[u8]) -> Option<Range> {
    Some(Range {
        start: number(first_field(fields), u64::MAX)? as usize,
        end: number(later_fields(fields), u64::MAX)? as usize,
    })
}

// A case about the text s, which is the first of the fields.
fn put_about(about: About, s: &[u8], fields: &[u8], out: &mut Printed) -> Option<()> {
    let later = split_field(fields).map(|(_, later)| later);
    match (about, later) {
        (About::Utf8, None) => put_utf8(s, out),
        (About::Ascii, None) => put_ascii(s, out),
        (About::Boundary, Some(field)) => put_boundary(s, field, out)?,
        (About::Clamped, Some(fields)) => put_clamped(s, read_range(fields)?, out),
        (About::Quoted, Some(fields)) => put_quoted_len(s, read_range(fields)?, out),
        _ => return None,
    }
    Some(())
}

// A case whose first field is a text.
pub(crate) fn put_text(about: About, fields: &[u8], out: &mut Printed) -> Option<()> {
    let mut bytes = [0u8; 2048];
    let len = from_hex(first_field(fields), &mut bytes)?;
    put_about(about, slice_up_to_len(&bytes, len), fields, out)
}
