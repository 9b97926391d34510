// What a case prints, laid into a buffer.
use error::{Error, answer_number};
use fields::{put_hex, put_number};
use run::Ran;
use str_writer::{write_ascii, write_ascii_repeated};

// What is laid: the first `len` bytes of a buffer. A piece that finds no room is left out.
#[derive(Drop)]
pub(crate) struct Printed<'a> {
    buf: &'a mut [u8],
    len: usize,
}

impl<'a> Printed<'a> {
    // Nothing is laid.
    pub(crate) fn new(buf: &'a mut [u8]) -> Printed<'a> {
        Printed { buf, len: 0 }
    }

    // How many bytes are laid.
    pub(crate) fn len(&self) -> usize {
        self.len
    }

    // Takes back what is laid.
    pub(crate) fn clear(&mut self) {
        self.len = 0;
    }

    // A piece was laid up to its end, or there was no room for it.
    fn laid(&mut self, end: Result<usize, Error>) {
        if let Ok(end) = end {
            self.len = end;
        }
    }

    // Lays a text, if it is ASCII.
    pub(crate) fn text(&mut self, s: &[u8]) {
        let end = write_ascii(self.buf, self.len, s);
        self.laid(end);
    }

    // Lays a byte.
    pub(crate) fn byte(&mut self, b: u8) {
        let end = write_ascii_repeated(self.buf, self.len, b, 1);
        self.laid(end);
    }

    // Lays a number and a byte after it.
    pub(crate) fn decimal(&mut self, n: u64, after: u8) {
        let end = put_number(self.buf, self.len, n, after);
        self.laid(end);
    }

    // Lays a number after a space, and a byte after it.
    pub(crate) fn next(&mut self, n: u64, after: u8) {
        self.byte(b' ');
        self.decimal(n, after);
    }

    // Lays bytes in hexadecimal.
    pub(crate) fn hex(&mut self, s: &[u8]) {
        let end = put_hex(self.buf, self.len, s);
        self.laid(end);
    }

    // Lays what a call or a run answers, by its number, and a byte after it.
    pub(crate) fn answer(&mut self, answer: Result<(), Error>, after: u8) {
        self.decimal(u64::from(answer_number(answer)), after);
    }

    // Lays the end of a run of these calls: its first refusal, its total or cursor, how many calls
    // were done before that refusal, and how many entries are open.
    pub(crate) fn ran(&mut self, r: Ran, calls: &[u64], after: u8) {
        let done = match r.first {
            Some(refusal) => refusal.place,
            None => calls.len() / 5,
        };
        self.byte(b' ');
        self.answer(r.answer(), b' ');
        self.decimal(r.number as u64, b' ');
        self.decimal(done as u64, b' ');
        self.decimal(r.entries as u64, after);
    }

    // Lays the end of a run of these calls, the answers to them as HEX, and a text after them.
    pub(crate) fn ran_each(&mut self, r: Ran, calls: &[u64], answers: &[u8], after: &[u8]) {
        self.ran(r, calls, b' ');
        self.hex(answers);
        self.text(after);
    }
}
