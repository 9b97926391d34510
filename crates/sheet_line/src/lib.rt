// The lines of a call sheet: how line 1 begins a run, and the call that a later line means
// (document 01, 'The call sheet').
#![tactic(auto)]

mod begin;
mod numbers;
mod texts;

ghost use Rattle.std.specs.Prelude.{◌≡◌, List, ℕ, [], ◌*◌, ◌≤◌, length};
ghost use Rattle.sheet_line.specs.Line.{one_field, open_bare, two_fields, open_named, typed_call, three_fields, call_fields, call_of_line};
ghost use Rattle.fields.specs.Fields.{fields};
ghost use Rattle.sheet_line.specs.Reading.{call_in, reading_of, read_into};

pub use begin::{BadBegin, Begin, MAX_SIZE, parse_begin};
use calls::Kind;
use fields::split_field;
use formatter::Op;
use lines::MAX_LINE;
use numbers::{char_op, int_type, num_op};
use texts::{TextCall, with_text};
use value_writes::Form;
use writer_backend::PlaceKind;

// A call as it was read from a line, and how long its text is. The text is lent beside it: a call that
// held it could not say what the lent bytes are afterwards.
#[derive(Clone, Copy)]
pub struct Parsed {
    pub op: Op,
    pub len: usize,
}

// A call without a text.
fn without_text(op: Option<Op>) -> Option<Parsed>
    ensures { (b : List ℕ) → reading_of result b ≡ read_into b (call_in op []) }
{
    Some(Parsed { op: op?, len: 0 })
}

// `field` (tuple), `entry`, `finish`.
#[tactic(auto, using(crate::proofs::Words::words), unfolding(crate::specs::Line::one_field))]
fn one_field(w: &[u8]) -> Option<Op>
    ensures { call_in result [] ≡ one_field w.now }
{
    match w {
        b"field" => Some(Op::Place(PlaceKind::Item)),
        b"entry" => Some(Op::Place(PlaceKind::Entry)),
        b"finish" => Some(Op::Finish),
        _ => None,
    }
}

// `open,list|set`.
#[tactic(auto, using(crate::proofs::Words::words), unfolding(crate::specs::Line::open_bare))]
fn open_bare(k: &[u8]) -> Option<Op>
    ensures { call_in result [] ≡ open_bare k.now }
{
    match k {
        b"list" => Some(Op::Open(Kind::List)),
        b"set" => Some(Op::Open(Kind::Set)),
        _ => None,
    }
}

// `open,list|set`, `field,HEX` (struct), `str,HEX`, `quoted,HEX`, `char,CODE`.
#[tactic(auto, using(crate::proofs::Words::words), unfolding(crate::specs::Line::two_fields))]
fn two_fields(w: &[u8], a: &[u8], text: &mut [u8]) -> Option<Parsed>
    requires { length a.now ≤ 2 * length text.old }
    ensures { reading_of result text.new ≡ read_into text.old (two_fields w.now a.now) }
{
    match w {
        b"open" => without_text(open_bare(a)),
        b"field" => with_text(TextCall::Field, a, text),
        b"str" => with_text(TextCall::Str(Form::Display), a, text),
        b"quoted" => with_text(TextCall::Str(Form::Debug), a, text),
        b"char" => without_text(char_op(a)),
        _ => None,
    }
}

// `open,struct|tuple,HEX`.
#[tactic(auto, using(crate::proofs::Words::words), unfolding(crate::specs::Line::open_named))]
fn open_named(k: &[u8], a: &[u8], text: &mut [u8]) -> Option<Parsed>
    requires { length a.now ≤ 2 * length text.old }
    ensures { reading_of result text.new ≡ read_into text.old (open_named k.now a.now) }
{
    match k {
        b"struct" => with_text(TextCall::Open(Kind::Struct), a, text),
        b"tuple" => with_text(TextCall::Open(Kind::Tuple), a, text),
        _ => None,
    }
}

// `num,u8,7`.
fn num(t: &[u8], s: &[u8]) -> Option<Op>
    ensures { call_in result [] ≡ typed_call t.now s.now }
{
    num_op(int_type(t)?, s)
}

// `open,struct|tuple,HEX`, `num,u8,7`.
#[tactic(auto, using(crate::proofs::Words::words), unfolding(crate::specs::Line::three_fields))]
fn three_fields(w: &[u8], a: &[u8], b: &[u8], text: &mut [u8]) -> Option<Parsed>
    requires { length b.now ≤ 2 * length text.old }
    ensures { reading_of result text.new ≡ read_into text.old (three_fields w.now a.now b.now) }
{
    match w {
        b"open" => open_named(a, b, text),
        b"num" => without_text(num(a, b)),
        _ => None,
    }
}

// The call that the fields of a line are.
fn line_fields(l: &[u8], text: &mut [u8]) -> Option<Parsed>
    requires { length l.now ≤ 2 * length text.old }
    ensures { reading_of result text.new ≡ read_into text.old (call_fields (fields l.now)) }
{
    let Some((word, rest)) = split_field(l) else {
        return without_text(one_field(l));
    };
    let Some((first, rest)) = split_field(rest) else {
        return two_fields(word, rest, text);
    };
    match split_field(rest) {
        Some(_) => None,
        None => three_fields(word, first, rest, text),
    }
}

// The call that a line means, none for a line of another form. Its text stands at the beginning of
// `text`, the rest of which is left as it is.
#[tactic(auto, using(std::proofs::lemmas::Bool::Decides::nat_tests), unfolding(crate::specs::Line::call_of_line))]
pub fn parse_line(l: &[u8], text: &mut [u8; 2048]) -> Option<Parsed>
    ensures { reading_of result text.new ≡ read_into text.old (call_of_line l.now) }
{
    if MAX_LINE < l.len() {
        return None;
    }
    line_fields(l, text)
}
