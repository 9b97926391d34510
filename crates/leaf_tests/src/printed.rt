// What a case prints, laid into a buffer.
use fields::put_hex;
use integer_writes::write_display;
use str_writer::put;

// What is laid: the first `len` bytes of a buffer. A piece that finds no room is left out.
#[derive(Drop)]
pub(crate) struct Printed<'a> {
    buf: &'a mut [u8],
    len: usize,
}

impl<'a> Printed<'a> {
    // Nothing is laid.
    pub(crate) fn new(buf: &'a mut [u8]) -> Printed<'a> {
        Printed { buf, len: 0 }
    }

    // How many bytes are laid.
    pub(crate) fn len(&self) -> usize {
        self.len
    }

    // Takes back what is laid.
    pub(crate) fn clear(&mut self) {
        self.len = 0;
    }

    // Lays bytes as they are.
    pub(crate) fn bytes(&mut self, s: &[u8]) {
        self.len = put(&mut *self.buf, self.len, s).unwrap_or(self.len);
    }

    // Lays bytes in hexadecimal.
    pub(crate) fn pairs(&mut self, s: &[u8]) {
        self.len = put_hex(&mut *self.buf, self.len, s).unwrap_or(self.len);
    }

    // Lays a number in decimal.
    fn decimal(&mut self, n: u64) {
        self.len = write_display(&mut *self.buf, self.len, n).unwrap_or(self.len);
    }

    // Lays a text with a number for each %: `first` for the first one, then `later`.
    pub(crate) fn template(&mut self, text: &[u8], first: u64, later: u64) {
        for (i, part) in text.split(|b| *b == b'%').enumerate() {
            match i {
                0 => {}
                1 => self.decimal(first),
                _ => self.decimal(later),
            }
            self.bytes(part);
        }
    }
}
