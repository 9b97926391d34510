// The lines of an input that is read in pieces into a lent buffer (document 01, 'The call sheet').
#![tactic(auto)]

ghost use Rattle.std.specs.Prelude.{false, ◌≡◌, ◌++◌, length, drop};
ghost use Rattle.lines.specs.Reading.{held, held_of, line_feed, moved_of, Skips, Takes};

// The most bytes of a line, its line feed not among them.
pub const MAX_LINE: usize = 4096;

// What is held of an input between two lines: the bytes from..to of the buffer are read and not yet
// taken. Whether the input has ended, and whether the bytes begin inside a line that was too long.
#[derive(Clone, Copy)]
pub struct Reader {
    pub from: usize,
    pub to: usize,
    pub ended: bool,
    pub skips: bool,
}

impl Reader {
    // Nothing is read yet.
    pub fn new() -> Reader
        ensures { result ≡ record { from = 0; to = 0; ended = false; skips = false } }
    {
        Reader {
            from: 0,
            to: 0,
            ended: false,
            skips: false,
        }
    }

    // The bytes that are held.
    fn held<'a>(&self, space: &'a [u8]) -> &'a [u8]
        ensures { result.now ≡ held_of self.now space.now }
    {
        part(space, self.from, self.to)
    }

    // Leaves out what is held of the rest of a line that was too long.
    fn skip(&mut self, space: &[u8])
        ensures { Skips self.old self.new space.now }
    {
        if !self.skips {
            return;
        }
        match line_feed(self.held(space)) {
            Some(n) => {
                *self = Reader {
                    from: self.from + n + 1,
                    skips: false,
                    ..*self
                };
            }
            None => self.from = self.to,
        }
    }

    // The next line of an input, if it is held. Of a line above the limit, the limit and one byte
    // more are given as soon as they are held, and the rest is left out.
    pub fn next_line<'a>(&mut self, space: &'a [u8], limit: usize) -> Option<&'a [u8]>
        ensures { Takes limit self.old self.new result space.now }
    {
        self.skip(space);
        if self.skips {
            return None;
        }
        let held = self.held(space);
        match line_feed(held) {
            Some(n) if n <= limit => {
                self.from += n + 1;
                Some(&held[..n])
            }
            None if held.len() <= limit => {
                if held.is_empty() || !self.ended {
                    return None;
                }
                self.from = self.to;
                Some(held)
            }
            _ => {
                self.from += limit + 1;
                self.skips = true;
                Some(&held[..limit + 1])
            }
        }
    }

    // Moves the bytes that are held to the beginning of the buffer.
    pub fn shift(&mut self, space: &mut [u8])
        ensures reader { self.new ≡ moved_of self.old (length (held_of self.old space.old)) }
        ensures space_after { space.new ≡ held_of self.old space.old ++ drop self.new.to space.old }
    {
        let n = self.held(space).len();
        if 0 < n {
            space.copy_within(self.from..self.from + n, 0);
        }
        self.from = 0;
        self.to = n;
    }
}

// The bytes from..to of a buffer, as far as it has them.
pub fn part(space: &[u8], from: usize, to: usize) -> &[u8]
    ensures { result.now ≡ held from to space.now }
{
    space.get(from..to.min(space.len())).unwrap_or_default()
}

// The place of the first line feed, if there is one.
fn line_feed(s: &[u8]) -> Option<usize>
    ensures { result ≡ line_feed s.now }
{
    s.iter().position(|b| *b == b'\n')
}
