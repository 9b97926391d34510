// Characters.
use crate::printed::Printed;
use char_encoding::{
    FmtChar, char_debug_len, char_display_len, char_to_debug, char_to_display, char_to_utf8,
};
use error::Error;
use fields::number;

// The bytes of an array, and how many of them are used.
fn put_array(array: &[u8], len: usize, out: &mut Printed) {
    out.pairs(array);
    out.template(b",% ", len as u64, 0);
}

// The answer and the octets: zeros, none of them used, of what is no character.
fn put_octets(c: u32, out: &mut Printed) {
    match char_to_utf8(c) {
        Ok(made) => {
            out.template(b"%: 0 ", u64::from(c), 0);
            put_array(&made.bytes, made.len, out);
        }
        Err(error) => {
            out.template(b"%: % ", u64::from(c), u64::from(u8::from(error)));
            put_array(&[0; 4], 0, out);
        }
    }
}

// The display or the quoted form: zeros, none of them used, of what is no character.
fn put_form(form: Result<FmtChar, Error>, out: &mut Printed) {
    match form {
        Ok(made) => put_array(&made.encoded, made.len, out),
        Err(_) => put_array(&[0; 6], 0, out),
    }
}

// `char,CODE`: the octets, the display and the quoted form, and the lengths of these two.
pub(crate) fn put_char(code: &[u8], out: &mut Printed) -> Option<()> {
    let c = u32::try_from(number(code, u64::MAX)?).ok()?;
    put_octets(c, out);
    put_form(char_to_display(c), out);
    put_form(char_to_debug(c), out);
    let display_len = char_display_len(c).unwrap_or(0);
    let debug_len = char_debug_len(c).unwrap_or(0);
    out.template(b"%,%\n", display_len as u64, debug_len as u64);
    Some(())
}
