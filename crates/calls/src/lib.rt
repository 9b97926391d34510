// The kinds of a record and what is fixed when a run is made. The definitions of this crate speak of
// these types; it has no function.
#![tactic(auto)]

use formatting::FormattingFlags;

// The kind of a builder.
#[derive(Clone, Copy)]
pub enum Kind {
    Struct,
    Tuple,
    List,
    Set,
}

// What is fixed when a formatter or a counting run is made: the flags that it begins with.
#[derive(Clone, Copy)]
pub struct Settings {
    pub flags: FormattingFlags,
}
