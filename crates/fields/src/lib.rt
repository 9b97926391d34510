// Lines of fields parted by commas: words, decimal numbers and bytes in hexadecimal, read and
// printed (document 01, 'The call sheet').
#![tactic(auto)]

mod decimal;
mod hex;
mod words;

pub use decimal::{number, put_number};
pub use hex::{from_hex, put_hex};
pub use words::{first_field, later_fields, place_of, split_field};
