// A piece of text counted or written, and pieces tried one after another.
ghost use Rattle.std.specs.Prelude.{◌≡◌, List, ℕ};
ghost use Rattle.error.specs.Answer.{answer_number};
ghost use Rattle.str_writer.specs.Write.{written};
ghost use Rattle.calls.specs.Call.{spaces, hold};
ghost use Rattle.calls.specs.Model.{counting, writing, beyond};
ghost use Rattle.calls.specs.Model.{put as put_text};
ghost use Rattle.writer_backend.specs.Output.{mode_of, is_counting, moved_by, added, output_of, put_out, held_of, held_number, held_out};
ghost use Rattle.writer_backend.specs.Pieces.{try_on};

use error::Error;
use str_writer::{cursor_fault, write_ascii_repeated};

// The modes of a WriterBackend.
const WRITING: u64 = 0;

const COUNTING: u64 = 1;

// The number is the cursor where text is written, the total where it is counted. The mode is a
// number too, as document 01 names it; of one byte, it took 1.07 of the instructions of a run. Every
// number is a mode, by its remainder.
#[derive(Clone, Copy)]
pub struct WriterBackend {
    pub mode: u64,
    pub number: usize,
}

impl WriterBackend {
    // Text is counted from this total on.
    pub fn counting(total: usize) -> Self
        ensures { mode_of result ≡ counting total }
    {
        WriterBackend {
            mode: COUNTING,
            number: total,
        }
    }

    // Text is written at this cursor.
    pub fn writing(cursor: usize) -> Self
        ensures { mode_of result ≡ writing cursor }
    {
        WriterBackend {
            mode: WRITING,
            number: cursor,
        }
    }

    // Whether text is counted.
    pub fn is_counting(self) -> bool
        ensures { result ≡ is_counting (mode_of self) }
    {
        self.mode % 2 == COUNTING
    }

    // 9: the cursor is past the lent bytes.
    pub fn judge(self, buf: &[u8]) -> Result<(), Error>
        ensures { answer_number result ≡ beyond (mode_of self) buf.now }
    {
        if self.is_counting() {
            return Ok(());
        }
        cursor_fault(buf.len(), self.number)
    }

    // The length of a piece added to the total, or 6 and the total kept where it would pass 2^64 - 1.
    pub fn add_len(&mut self, len: usize) -> Result<(), Error>
        ensures { (b : List ℕ) → put_out result self.new b ≡ added (mode_of self.old) b len }
    {
        let Some(total) = self.number.checked_add(len) else {
            return Err(Error::CountTooLarge);
        };
        self.number = total;
        Ok(())
    }

    // What a single write answered, as that of a piece: the cursor goes where it went.
    pub fn advance(&mut self, cursor: Result<usize, Error>) -> Result<(), Error>
        ensures { (b : List ℕ) → put_out result self.new b ≡ moved_by (mode_of self.old) b (written self.old.number cursor) }
    {
        self.number = cursor?;
        Ok(())
    }

    // A piece: counted, or written at the cursor. A cursor past the bytes has no room.
    pub fn put(&mut self, buf: &mut [u8], s: &[u8]) -> Result<(), Error>
        ensures { put_out result self.new buf.new ≡ put_text (output_of self.old buf.old) s.now }
    {
        if self.is_counting() {
            return self.add_len(s.len());
        }
        if buf.len() < self.number {
            return Err(Error::NotEnoughSpace);
        }
        self.advance(str_writer::put(buf, self.number, s))
    }

    // k spaces as a piece.
    pub fn put_spaces(&mut self, buf: &mut [u8], k: usize) -> Result<(), Error>
        ensures { put_out result self.new buf.new ≡ put_text (output_of self.old buf.old) (spaces k) }
    {
        if self.is_counting() {
            return self.add_len(k);
        }
        if buf.len() < self.number {
            return Err(Error::NotEnoughSpace);
        }
        self.advance(write_ascii_repeated(buf, self.number, b' ', k))
    }

    // A piece tried after others: held is the first refusal.
    pub(crate) fn try_put(&mut self, buf: &mut [u8], held: &mut Option<Error>, s: &[u8])
        ensures { held_out held.new self.new buf.new ≡ try_on (held_out held.old self.old buf.old) s.now }
    {
        hold(held, self.put(buf, s));
    }

    // k spaces tried after others.
    pub(crate) fn try_spaces(&mut self, buf: &mut [u8], held: &mut Option<Error>, k: usize)
        ensures { held_out held.new self.new buf.new ≡ try_on (held_out held.old self.old buf.old) (spaces k) }
    {
        hold(held, self.put_spaces(buf, k));
    }
}

// The first refusal is held.
fn hold(held: &mut Option<Error>, answer: Result<(), Error>)
    ensures { held_number held.new ≡ hold (held_number held.old) (held_of (answer_number answer)) }
{
    if let Err(error) = answer {
        held.get_or_insert(error);
    }
}
