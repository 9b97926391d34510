// `num` and `char`: values in decimal.
ghost use Rattle.std.specs.Prelude.{◌≡◌, [], Some, ◌≤◌, ◌-◌, ◌^◌, pos};
ghost use Rattle.std.specs.Option.{option_map};
ghost use Rattle.calls.specs.Call.{value};
ghost use Rattle.str_writer.specs.Value.{integer, debug};
ghost use Rattle.value_writes.specs.Values.{bits_of};
ghost use Rattle.fields.specs.Decimal.{decimal_of, up_to};
ghost use Rattle.sheet_line.specs.Line.{type_of, negative, signed_of, num_call, char_call};
ghost use Rattle.sheet_line.specs.Reading.{call_in};

use fields::number;
use formatter::Op;
use value_writes::{Form, Integer, PVariant, Width, greatest};

// The type of an integer.
#[derive(Clone, Copy)]
pub enum IntType {
    Unsigned(Width),
    Signed(Width),
}

// The type that `u8` to `u64` or `i8` to `i64` names.
#[tactic(auto, using(crate::proofs::Words::words), unfolding(crate::specs::Line::type_of))]
pub fn int_type(t: &[u8]) -> Option<IntType>
    ensures { result ≡ type_of t.now }
{
    match t {
        b"u8" => Some(IntType::Unsigned(Width::W8)),
        b"u16" => Some(IntType::Unsigned(Width::W16)),
        b"u32" => Some(IntType::Unsigned(Width::W32)),
        b"u64" => Some(IntType::Unsigned(Width::W64)),
        b"i8" => Some(IntType::Signed(Width::W8)),
        b"i16" => Some(IntType::Signed(Width::W16)),
        b"i32" => Some(IntType::Signed(Width::W32)),
        b"i64" => Some(IntType::Signed(Width::W64)),
        _ => None,
    }
}

fn unsigned_op(width: Width, s: &[u8]) -> Option<Op>
    ensures { call_in result [] ≡ option_map (λ z. value (integer debug (bits_of width) z))
        (option_map pos (up_to (2 ^ bits_of width - 1) (decimal_of s.now))) }
{
    let n = number(s, greatest(width))?;
    Some(Op::Value(PVariant::Int(Form::Debug, Integer::Unsigned(width, n))))
}

// -m, which is no -0.
fn negative_op(width: Width, m: u64) -> Option<Op>
    requires { m ≤ 9223372036854775808 }
    ensures { call_in result [] ≡ option_map (λ z. value (integer debug (bits_of width) z)) (negative (Some m)) }
{
    if m == 0 {
        return None;
    }
    let complement = (m - 1) as i64;
    Some(Op::Value(PVariant::Int(Form::Debug, Integer::Signed(width, !complement))))
}

fn signed_op(width: Width, s: &[u8]) -> Option<Op>
    ensures { call_in result [] ≡ option_map (λ z. value (integer debug (bits_of width) z)) (signed_of (bits_of width) s.now) }
{
    let half = greatest(width) / 2;
    match s {
        [b'-', digits @ ..] => negative_op(width, number(digits, half + 1)?),
        _ => {
            let n = number(s, half)?;
            Some(Op::Value(PVariant::Int(Form::Debug, Integer::Signed(width, n as i64))))
        }
    }
}

// `num,u8,7`.
pub fn num_op(t: IntType, s: &[u8]) -> Option<Op>
    ensures { call_in result [] ≡ num_call t s.now }
{
    match t {
        IntType::Unsigned(width) => unsigned_op(width, s),
        IntType::Signed(width) => signed_op(width, s),
    }
}

// `char,CODE`.
pub fn char_op(s: &[u8]) -> Option<Op>
    ensures { call_in result [] ≡ char_call s.now }
{
    let code = number(s, 4294967295)?;
    Some(Op::Value(PVariant::Char(Form::Display, code as u32)))
}
