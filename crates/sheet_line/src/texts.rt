// Calls whose text a line gives in HEX.
ghost use Rattle.std.specs.Prelude.{◌≡◌, List, ℕ, ◌*◌, ◌≤◌, length};
ghost use Rattle.std.specs.Option.{option_map};
ghost use Rattle.fields.specs.Hex.{from_hex};
ghost use Rattle.formatter.specs.Calls.{call_of};
ghost use Rattle.sheet_line.specs.Reading.{with_text, reading_of, read_into};

use crate::Parsed;
use calls::Kind;
use fields::from_hex;
use formatter::Op;
use utils::Range;
use value_writes::{Form, PVariant};
use writer_backend::PlaceKind;

// An opening with a name, a field of a struct, a string.
#[derive(Clone, Copy)]
pub enum TextCall {
    Open(Kind),
    Field,
    Str(Form),
}

// The call, where its text has len bytes.
fn op_with(t: TextCall, len: usize) -> Op
    ensures { (s : List ℕ) → len ≡ length s → call_of result s ≡ with_text t s }
{
    match t {
        TextCall::Open(k) => Op::Open(k),
        TextCall::Field => Op::Place(PlaceKind::Field),
        TextCall::Str(form) => Op::Value(PVariant::Str(form, Range { start: 0, end: len })),
    }
}

// Reads the text to the beginning of a buffer. Line and buffer are lent apart, so that the room for the
// text stands in the contracts of those that read one.
pub(crate) fn with_text(t: TextCall, a: &[u8], text: &mut [u8]) -> Option<Parsed>
    requires { length a.now ≤ 2 * length text.old }
    ensures { reading_of result text.new ≡ read_into text.old (option_map (with_text t) (from_hex a.now)) }
{
    let len = from_hex(a, text)?;
    Some(Parsed {
        op: op_with(t, len),
        len,
    })
}
