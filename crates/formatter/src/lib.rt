// The formatter, its four builders and its sub-formatters (fmt/formatter.rs). A builder is an entry of
// its stack, and the buffer is lent beside it.
#![tactic(auto)]

mod builders;
mod dispatch;
mod entries;
mod faults;
mod formatter;
mod head;
mod writes;

pub use dispatch::Op;
pub use entries::Entry;
pub use formatter::{Formatter, PastEnd};
pub use head::Head;
