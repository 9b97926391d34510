// The ASCII test (wrapper_types/ascii_str.rs).
#![tactic(auto)]

ghost use Rattle.std.specs.Prelude.{◌≡◌};
ghost use Rattle.error.specs.declared.Error.TheVariants.{NotAscii};
ghost use Rattle.ascii_str.specs.Ascii.{ascii_from};

use error::Error;

// Where the first byte above 127 of a text is.
#[derive(Clone, Copy, Debug, PartialEq, Eq)]
pub struct NotAsciiError {
    pub invalid_from: usize,
}

impl From<NotAsciiError> for Error {
    ghost from_gives = { λ _ error. error ≡ NotAscii };

    fn from(_: NotAsciiError) -> Error {
        Error::NotAscii
    }
}

// Tests a text. The loop ends sooner on a short text than the iterator's `position`.
#[tactic(auto, using(crate::proofs::Laws::above, crate::proofs::Laws::below, crate::proofs::Laws::end))]
pub fn check_ascii(s: &[u8]) -> Result<(), NotAsciiError>
    ensures { result ≡ ascii_from 0 s.now }
{
    for (invalid_from, b) in s.iter().enumerate() {
        if *b > 127 {
            return Err(NotAsciiError { invalid_from });
        }
    }
    Ok(())
}
