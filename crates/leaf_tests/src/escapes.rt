// Escapes.
use crate::printed::Printed;
use fields::number;
use formatting::{bit, escape_letter, is_backslash_escaped, is_escaped};

// The letter of a byte by its code, or `none`.
fn put_letter(letter: Option<u8>, out: &mut Printed) {
    match letter {
        Some(code) => out.template(b"%", u64::from(code), 0),
        None => out.bytes(b"none"),
    }
}

// `escape,BYTE`: the letter, whether the byte is escaped, and whether by a letter.
pub(crate) fn put_escape(field: &[u8], out: &mut Printed) -> Option<()> {
    let b = u8::try_from(number(field, u64::MAX)?).ok()?;
    out.template(b"%: ", u64::from(b), 0);
    put_letter(escape_letter(b), out);
    let escaped = bit(is_escaped(b));
    let lettered = bit(is_backslash_escaped(b));
    out.template(b" %,%\n", escaped, lettered);
    Some(())
}
