// What a case prints, laid into a buffer.
use error::{Error, answer_number};
use fields::{put_hex, put_number};
use str_writer::put;

// What is laid: the first `len` bytes of a buffer. A piece that finds no room is left out.
#[derive(Drop)]
pub(crate) struct Printed<'a> {
    buf: &'a mut [u8],
    len: usize,
}

impl<'a> Printed<'a> {
    // Nothing is laid.
    pub(crate) fn new(buf: &'a mut [u8]) -> Printed<'a> {
        Printed { buf, len: 0 }
    }

    // How many bytes are laid.
    pub(crate) fn len(&self) -> usize {
        self.len
    }

    // Takes back what is laid.
    pub(crate) fn clear(&mut self) {
        self.len = 0;
    }

    // Lays a text.
    pub(crate) fn text(&mut self, s: &[u8]) {
        self.len = put(&mut *self.buf, self.len, s).unwrap_or(self.len);
    }

    // Lays a number after a text, and a byte after it.
    pub(crate) fn cell(&mut self, before: &[u8], n: u64, after: u8) {
        self.text(before);
        self.len = put_number(&mut *self.buf, self.len, n, after).unwrap_or(self.len);
    }

    // Lays the number of an answer and the cursor, after a text, and a byte after them.
    pub(crate) fn outcome(
        &mut self,
        before: &[u8],
        answer: Result<(), Error>,
        cursor: usize,
        after: u8,
    ) {
        self.cell(before, u64::from(answer_number(answer)), b' ');
        self.cell(b"", cursor as u64, after);
    }

    // The same of a call at a cursor, where it stays if the call is refused.
    pub(crate) fn call(
        &mut self,
        before: &[u8],
        called: Result<usize, Error>,
        at: usize,
        after: u8,
    ) {
        self.outcome(before, called.map(|_| ()), called.unwrap_or(at), after);
    }

    // Lays bytes in brackets, and the end of the line.
    pub(crate) fn bytes(&mut self, bytes: &[u8]) {
        self.text(b"[");
        self.len = put_hex(&mut *self.buf, self.len, bytes).unwrap_or(self.len);
        self.text(b"]\n");
    }

    // Lays what a write gave: the answer, the cursor and the bytes of the buffer.
    pub(crate) fn result(&mut self, written: Result<usize, Error>, at: usize, buf: &[u8]) {
        self.call(b"", written, at, b' ');
        self.bytes(buf);
    }
}
