// How numbers and quoted text are formatted (formatting.rs).
#![tactic(auto)]

mod escaping;
mod flags;
mod flags_as_number;

pub use escaping::{
    Escape, escape_letter, escape_of, hex_as_ascii, is_backslash_escaped, is_escaped,
};
pub use flags::{FormattingFlags, HexFormatting, NumberFormatting};
pub use flags_as_number::{NotFlags, bit, flags_number, flags_of};
