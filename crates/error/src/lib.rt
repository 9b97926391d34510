// What a call meets (fmt/error.rs): the Rust's Error, with the cases that stand where the Rust has a
// type or a panic.
#![tactic(auto)]

ghost use Rattle.std.specs.Prelude.{◌≡◌};
ghost use Rattle.error.specs.Answer.{number_of, answer_number};

#[derive(Clone, Copy, Debug, PartialEq, Eq)]
pub enum Error {
    NotEnoughSpace = 1,
    NotAscii,
    NotOnCharBoundary,
    NotUtf8,
    NotAChar,
    CountTooLarge,
    TooDeep,
    WrongCall,
    BadCursor,
}

// The number by which document 01 names an error.
impl From<Error> for u8 {
    fn from(error: Error) -> u8
        ensures { result ≡ number_of error }
    {
        error as u8
    }
}

// The number by which document 01 names an answer: 0 where nothing was met. A function, since a crate
// gives no From between types that are not its own.
pub fn answer_number(answer: Result<(), Error>) -> u8
    ensures { result ≡ answer_number answer }
{
    match answer {
        Ok(()) => 0,
        Err(error) => u8::from(error),
    }
}
