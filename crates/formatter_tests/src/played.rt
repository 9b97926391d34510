// A formatter, and what its last call answered.
use crate::play::play;
use calls::Settings;
use error::Error;
use formatter::Formatter;

// The answer is None for what is no call.
#[derive(Clone, Copy)]
pub(crate) struct Played {
    pub(crate) fmt: Formatter,
    pub(crate) answer: Option<Result<(), Error>>,
}

impl Played {
    // One that counts.
    pub(crate) fn counting(settings: Settings) -> Played {
        Played {
            fmt: Formatter::counting(settings),
            answer: Some(Ok(())),
        }
    }

    // One that writes into a buffer from a place, also where that is refused.
    pub(crate) fn writing(buf: &[u8], at: usize, settings: Settings) -> Played {
        match Formatter::writing(buf, at, settings) {
            Ok(fmt) => Played {
                fmt,
                answer: Some(Ok(())),
            },
            Err(past) => Played {
                fmt: past.formatter,
                answer: Some(Err(Error::from(past))),
            },
        }
    }

    // Makes a call of a line, behind as many others as before says.
    pub(crate) fn play(&mut self, buf: &mut [u8], call: &[u8], calls: &[u8], before: usize) {
        self.answer = play(&mut self.fmt, buf, call, calls, before);
    }
}
