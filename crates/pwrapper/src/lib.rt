// The lengths of integers and of quoted strings (wrapper_types/pwrapper.rs). usize and isize are 64 bits: their
// callers use the functions of u64 and i64.
#![tactic(auto)]

mod debug;
mod display;
mod integer;
mod quoted;
mod radix;

pub use debug::compute_debug_len;
pub use display::{compute_display_len, decimal_len};
pub use integer::PrimitiveInteger;
pub use quoted::{compute_utf8_debug_len, compute_utf8_debug_len_in_range};
pub use radix::{binary_len, hexadecimal_len};
