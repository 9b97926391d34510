// Strings and characters written at a cursor into a lent buffer, and truncate (fmt/str_writer.rs,
// fmt/str_writer_mut.rs). The functions take the slice and the cursor, as document 01 names the form:
// a writer that holds both, and few thin functions over these (crate str_writer_mut).
#![tactic(auto)]

mod cursor;
mod faults;
mod piece;
mod strings;

pub use cursor::{
    as_bytes, capacity, clear, from_custom, from_custom_cleared, is_empty, len, remaining_capacity,
    truncate, truncate_utf8,
};
pub use faults::{
    ascii_fault, char_fault, cursor_fault, judge_ascii, judge_char, judge_str, piece_fault,
    range_fault, room_fault, str_fault,
};
pub use piece::{put, put_char, put_char_debug, put_part};
pub use strings::{
    write_ascii, write_ascii_range, write_ascii_repeated, write_char, write_char_debug, write_str,
    write_str_range,
};
