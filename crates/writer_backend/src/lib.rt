// Where a formatter's text goes (the WriterBackend of fmt/formatter.rs): a total, or a cursor into
// the buffer that is lent beside it. The Rust's enum holds references; here it is two numbers.
#![tactic(auto)]

mod pieces;
mod record;
mod words;

pub use pieces::WriterBackend;
pub use record::{Builder, PlaceKind, is_name, place_fault};
