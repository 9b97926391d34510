// Answers.
use crate::printed::Printed;
use error::{Error, answer_number};

// The error of a name.
fn error_of(name: &[u8]) -> Option<Error> {
    match name {
        b"NotEnoughSpace" => Some(Error::NotEnoughSpace),
        b"NotAscii" => Some(Error::NotAscii),
        b"NotOnCharBoundary" => Some(Error::NotOnCharBoundary),
        b"NotUtf8" => Some(Error::NotUtf8),
        b"NotAChar" => Some(Error::NotAChar),
        b"CountTooLarge" => Some(Error::CountTooLarge),
        b"TooDeep" => Some(Error::TooDeep),
        b"WrongCall" => Some(Error::WrongCall),
        b"BadCursor" => Some(Error::BadCursor),
        _ => None,
    }
}

// `answer,NAME`: the number of the answer.
pub(crate) fn put_answer(name: &[u8], out: &mut Printed) -> Option<()> {
    let answer = match name {
        b"Done" => Ok(()),
        _ => Err(error_of(name)?),
    };
    out.bytes(name);
    out.template(b": %\n", u64::from(answer_number(answer)), 0);
    Some(())
}
