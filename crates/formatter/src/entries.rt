// An open entry of the stack, and what a call meets where some are open.
use calls::Kind;
use formatting::FormattingFlags;
use writer_backend::Builder;

// A builder, or a sub-formatter.
#[derive(Clone, Copy)]
pub enum Entry {
    Builder(Builder),
    // The flags and the margin outside a sub-formatter. They are no struct of their own: one fills a
    // multiple of its alignment, so an entry would take 8 bytes and not 6, and a run of one call 1.15
    // of the time and not 1.02 to 1.05.
    Outer { flags: FormattingFlags, margin: u16 },
}

impl Entry {
    // What stands in the places of a stack that hold no open entry. Nothing reads it.
    pub const UNUSED: Entry = Entry::Builder(Builder {
        kind: Kind::Struct,
        has_field: false,
        held: None,
    });
}
