// A call of a run as five numbers over a pool of texts: which call, where its text starts, how long
// it is, and two numbers. They are numbers because a caller in another language lays them
// (table_text.h).
#![tactic(auto)]

ghost use Rattle.std.specs.Prelude.{◌≡◌, ◌^◌, ◌<◌, get_or};
ghost use Rattle.formatter.specs.Calls.{step_or};
ghost use Rattle.formatter.specs.View.{view, view_out};
ghost use Rattle.value_writes.specs.Values.{bits_of};
ghost use Rattle.encoded_call.specs.Encoding.{value_at, op_at, call_at, width_at, signed_at, unsigned_at, integer_at, char_at, repeated_at};

use calls::Kind;
use error::Error;
use formatter::{Entry, Head, Op};
use formatting::FormattingFlags;
use utils::Range;
use value_writes::{Form, Integer, PVariant, Width, greatest};
use writer_backend::PlaceKind;

// The width that a number is, as another language lays it.
fn width_at(n: u64) -> Option<Width>
    ensures { result ≡ width_at n }
{
    match n {
        0 => Some(Width::W8),
        1 => Some(Width::W16),
        2 => Some(Width::W32),
        3 => Some(Width::W64),
        _ => None,
    }
}

fn unsigned_at(form: Form, a: u64, b: u64) -> Option<Op>
    ensures { result ≡ unsigned_at form a b }
{
    let width = width_at(b)?;
    if greatest(width) < a {
        return None;
    }
    Some(Op::Value(PVariant::Int(form, Integer::Unsigned(width, a))))
}

fn integer_at(form: Form, a: u64, b: u64) -> Option<Op>
    ensures { result ≡ integer_at form a b }
{
    let width = width_at(b)?;
    if greatest(width) < a {
        return None;
    }
    Some(Op::Value(PVariant::Int(form, Integer::Signed(width, signed_at(width, a)))))
}

// The signed integer whose two's complement at a width is a.
fn signed_at(width: Width, a: u64) -> i64
    requires { a < 2 ^ bits_of width }
    ensures { result ≡ signed_at (bits_of width) a }
{
    let most = greatest(width);
    if a <= most / 2 {
        return a as i64;
    }
    let complement = (most - a) as i64;
    !complement
}

fn char_at(form: Form, a: u64) -> Option<Op>
    ensures { result ≡ char_at form a }
{
    let c = u32::try_from(a).ok()?;
    Some(Op::Value(PVariant::Char(form, c)))
}

fn repeated_at(a: u64, b: u64) -> Option<Op>
    ensures { result ≡ repeated_at a b }
{
    let c = u8::try_from(a).ok()?;
    Some(Op::Value(PVariant::Repeated(c, b as usize)))
}

// A value by its number, as another language lays it.
#[tactic(auto, unfolding(crate::specs::Encoding::value_at))]
fn value_op(o: u64, a: u64, b: u64) -> Option<Op>
    ensures { result ≡ value_at o a b }
{
    let range = Range {
        start: a as usize,
        end: b as usize,
    };
    match o {
        10 => Some(Op::Value(PVariant::Str(Form::Display, range))),
        11 => Some(Op::Value(PVariant::Str(Form::Debug, range))),
        12 => Some(Op::Value(PVariant::Ascii(Form::Display, range))),
        13 => Some(Op::Value(PVariant::Ascii(Form::Debug, range))),
        14 => char_at(Form::Display, a),
        15 => char_at(Form::Debug, a),
        16 => repeated_at(a, b),
        17 => unsigned_at(Form::Display, a, b),
        18 => unsigned_at(Form::Debug, a, b),
        19 => integer_at(Form::Display, a, b),
        20 => integer_at(Form::Debug, a, b),
        _ => None,
    }
}

// What the first word of a call asks for, with the two numbers that the call has, if it is a call: a
// number, as another language lays it.
#[tactic(auto, unfolding(crate::specs::Encoding::op_at))]
pub fn op_at(o: u64, a: u64, b: u64) -> Option<Op>
    ensures { result ≡ op_at o a b }
{
    match o {
        0 => Some(Op::Open(Kind::Struct)),
        1 => Some(Op::Open(Kind::Tuple)),
        2 => Some(Op::Open(Kind::List)),
        3 => Some(Op::Open(Kind::Set)),
        4 => Some(Op::Place(PlaceKind::Field)),
        5 => Some(Op::Place(PlaceKind::Item)),
        6 => Some(Op::Place(PlaceKind::Entry)),
        7 => Some(Op::Finish),
        8 => Some(Op::Sub(FormattingFlags::try_from(a).ok()?)),
        9 => Some(Op::EndSub),
        _ => value_op(o, a, b),
    }
}

// The call that five words are.
pub fn call_at(
    head: &mut Head,
    stack: &mut [Entry; 64],
    buf: &mut [u8],
    words: [u64; 5],
    text: &[u8],
) -> Result<(), Error>
    ensures { view_out result head.new stack.new buf.new
        ≡ step_or (view head.old stack.old buf.old)
        (call_at (get_or words 0 0) (get_or words 1 0) (get_or words 2 0) (get_or words 3 0) (get_or words 4 0) text.now) }
{
    let at = words[1] as usize;
    let len = words[2] as usize;
    if text.len() < at || text.len() - at < len {
        return head.no_call(buf);
    }
    match op_at(words[0], words[3], words[4]) {
        Some(op) => head.call(stack, buf, op, &text[at..at + len]),
        None => head.no_call(buf),
    }
}
