// Integers written at a cursor, displayed and by the flags (fmt/str_writer_mut.rs).
#![tactic(auto)]

mod debug;
mod display;
mod number;

pub use debug::write_debug;
pub use display::write_display;
pub use number::{write_debug_parts, write_decimal};
