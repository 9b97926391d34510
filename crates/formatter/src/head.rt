// A formatter without its stack of open entries and the buffer, which are lent beside it: in one
// struct with them a run takes 5 to 12 % more.
ghost use Rattle.std.specs.Prelude.{◌≡◌, ◌≤◌, List, ℕ, length};
ghost use Rattle.calls.specs.Model.{start};
ghost use Rattle.writer_backend.specs.Output.{mode_of};
ghost use Rattle.formatter.specs.View.{depth_of, view};
ghost use Rattle.formatter.specs.declared.entries.Entry.{Entry};

use calls::Settings;
use formatting::FormattingFlags;
use writer_backend::WriterBackend;

// Where the text goes, the flags in force, the margin, and how many entries are open.
#[derive(Clone, Copy)]
pub struct Head {
    pub writer: WriterBackend,
    pub flags: FormattingFlags,
    pub margin: u16,
    pub depth: usize,
}

impl Head {
    // A fresh formatter: nothing open, margin 0.
    pub fn new(writer: WriterBackend, settings: Settings) -> Head
        ensures { (s : List Entry) (b : List ℕ) → view result s b ≡ start (mode_of writer) b settings }
    {
        // Part by part: whole, they are read again wider than they were just stored.
        let FormattingFlags {
            num_fmt,
            hex_fmt,
            is_alternate,
        } = settings.flags;
        Head {
            writer,
            flags: FormattingFlags {
                num_fmt,
                hex_fmt,
                is_alternate,
            },
            margin: 0,
            depth: 0,
        }
    }

    // How many entries are open: 64 where the depth says more.
    pub fn open_entries(&self) -> usize
        ensures by_index { (s : List Entry) (b : List ℕ) → result ≤ length s → result ≡ length (view self.now s b).stack }
        ensures value { result ≡ depth_of self.now.depth }
        ensures at_most { result ≤ 64 }
    {
        self.depth.min(64)
    }
}
