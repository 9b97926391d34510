// What a case prints, laid into a buffer.
use crate::played::Played;
use error::answer_number;
use fields::{put_hex, put_number};
use formatter::Formatter;
use str_writer::put;

// What is laid: the first `len` bytes of a buffer. A piece that finds no room is left out.
#[derive(Drop)]
pub(crate) struct Printed<'a> {
    buf: &'a mut [u8],
    len: usize,
}

impl<'a> Printed<'a> {
    // Nothing is laid.
    pub(crate) fn new(buf: &'a mut [u8]) -> Printed<'a> {
        Printed { buf, len: 0 }
    }

    // How many bytes are laid.
    pub(crate) fn len(&self) -> usize {
        self.len
    }

    // Lays a text.
    pub(crate) fn text(&mut self, s: &[u8]) {
        self.len = put(&mut *self.buf, self.len, s).unwrap_or(self.len);
    }

    // Lays a number and a byte after it.
    fn decimal(&mut self, n: u64, after: u8) {
        self.len = put_number(&mut *self.buf, self.len, n, after).unwrap_or(self.len);
    }

    // Lays bytes in hexadecimal.
    fn hex(&mut self, s: &[u8]) {
        self.len = put_hex(&mut *self.buf, self.len, s).unwrap_or(self.len);
    }

    // Lays the total or cursor of a formatter, its margin and the number of its flags.
    fn formatter(&mut self, fmt: &Formatter, after: u8) {
        self.decimal(fmt.head.writer.number as u64, b' ');
        self.decimal(u64::from(fmt.margin()), b' ');
        self.decimal(u64::from(fmt.flags()), after);
    }

    // Lays what a call gave, after a text: its answer, 255 for no call, and the formatter.
    fn step(&mut self, before: &[u8], played: &Played, after: u8) {
        let number = played.answer.map_or(255, answer_number);
        self.text(before);
        self.decimal(u64::from(number), b' ');
        self.formatter(&played.fmt, after);
    }

    // Lays a call, and what it gave in counting and in writing.
    pub(crate) fn call(&mut self, call: &[u8], counted: &Played, written: &Played) {
        self.text(call);
        self.step(b": ", counted, b',');
        self.step(b" ", written, b'\n');
    }

    // Lays the bytes lent to counting and to writing.
    pub(crate) fn bytes(&mut self, counted: &[u8], written: &[u8]) {
        self.text(b" bytes: ");
        self.hex(counted);
        self.text(b", ");
        self.hex(written);
        self.text(b"\n");
    }
}
