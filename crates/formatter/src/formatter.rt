// A formatter with its stack of open entries. The buffer is lent beside it.
ghost use Rattle.std.specs.Prelude.{◌≡◌, List, ℕ};
ghost use Rattle.error.specs.declared.Error.TheVariants.{BadCursor};
ghost use Rattle.calls.specs.Model.{step, start, counting};
ghost use Rattle.writer_backend.specs.Output.{mode_of};
ghost use Rattle.formatter.specs.Calls.{call_of};
ghost use Rattle.formatter.specs.View.{view_f, view_f_out, view_new, begun};

use crate::dispatch::Op;
use crate::entries::Entry;
use crate::head::Head;
use calls::Settings;
use error::Error;
use formatting::FormattingFlags;
use writer_backend::WriterBackend;

#[derive(Clone, Copy)]
pub struct Formatter {
    pub head: Head,
    pub stack: [Entry; 64],
}

// A cursor past the end of the buffer, with the fresh formatter that writes from it: each of its calls
// over that buffer answers 9.
#[derive(Clone, Copy)]
pub struct PastEnd {
    pub formatter: Formatter,
}

impl From<PastEnd> for Error {
    ghost from_gives = { λ _ error. error ≡ BadCursor };

    fn from(_: PastEnd) -> Error {
        Error::BadCursor
    }
}

impl Formatter {
    // A fresh formatter: nothing open, margin 0.
    pub fn new(writer: WriterBackend, settings: Settings) -> Formatter
        ensures { (b : List ℕ) → view_f result b ≡ start (mode_of writer) b settings }
    {
        Formatter {
            head: Head::new(writer, settings),
            stack: [Entry::UNUSED; 64],
        }
    }

    // A fresh formatter that counts.
    pub fn counting(settings: Settings) -> Formatter
        ensures { (b : List ℕ) → view_f result b ≡ start (counting 0) b settings }
    {
        Formatter::new(WriterBackend::counting(0), settings)
    }

    // A fresh formatter that writes from a cursor in a buffer; where the cursor is past its end, 9, and
    // the formatter in the error.
    pub fn writing(buf: &[u8], at: usize, settings: Settings) -> Result<Formatter, PastEnd>
        ensures { view_new result buf.now ≡ begun buf.now at settings }
    {
        let formatter = Formatter::new(WriterBackend::writing(at), settings);
        if buf.len() < at {
            return Err(PastEnd { formatter });
        }
        Ok(formatter)
    }

    // The flags in force.
    pub fn flags(&self) -> FormattingFlags
        ensures { (b : List ℕ) → result ≡ (view_f self.now b).flags }
    {
        self.head.flags
    }

    // The spaces before a field in alternate form.
    pub fn margin(&self) -> u16
        ensures { (b : List ℕ) → result ≡ (view_f self.now b).margin }
    {
        self.head.margin
    }

    // One call, whose text is lent beside it.
    pub fn call(&mut self, buf: &mut [u8], op: Op, s: &[u8]) -> Result<(), Error>
        ensures { view_f_out result self.new buf.new ≡ step (view_f self.old buf.old) (call_of op s.now) }
    {
        self.head.call(&mut self.stack, buf, op, s)
    }
}
