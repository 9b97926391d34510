// What a call meets, judged by the entries that are open, the innermost last. Nothing is written.
ghost use Rattle.std.specs.Prelude.{◌≡◌, ℕ, length};
ghost use Rattle.error.specs.Answer.{answer_number};
ghost use Rattle.formatting.specs.Flags.{default_flags};
ghost use Rattle.calls.specs.Call.{opens, place, value, finish, sub, endsub, ready, call_fault, cut_number, hold};
ghost use Rattle.calls.specs.Model.{inner, cut_in};
ghost use Rattle.writer_backend.specs.Pieces.{place_of};
ghost use Rattle.value_writes.specs.Values.{value_of};
ghost use Rattle.writer_backend.specs.Output.{mode_of};
ghost use Rattle.formatter.specs.View.{stack_of};

use crate::entries::Entry;
use calls::Kind;
use error::Error;
use value_writes::{PVariant, cut_fault, value_fault};
use writer_backend::{PlaceKind, WriterBackend, is_name, place_fault};

// Whether the innermost is ready for a write or an opening: no builder without a field.
pub(crate) fn is_ready(entries: &[Entry]) -> bool
    ensures { result ≡ ready (inner (stack_of entries.now)) }
{
    match entries.last() {
        Some(Entry::Builder(builder)) => builder.has_field,
        Some(Entry::Outer { .. }) => true,
        None => true,
    }
}

// An opening: 8, then 7, then 4.
pub(crate) fn judge_open(entries: &[Entry], margin: u16, k: Kind, name: &[u8]) -> Result<(), Error>
    ensures { answer_number result ≡ call_fault (inner (stack_of entries.now)) (length entries.now) margin (opens k name.now) }
{
    if !is_ready(entries) {
        return Err(Error::WrongCall);
    }
    if 64 <= entries.len() || 65531 < margin {
        return Err(Error::TooDeep);
    }
    if !is_name(k, name) {
        return Err(Error::NotUtf8);
    }
    Ok(())
}

// A field or an entry: 8, then 4.
pub(crate) fn judge_place(entries: &[Entry], p: PlaceKind, name: &[u8]) -> Result<(), Error>
    ensures { answer_number result ≡ call_fault (inner (stack_of entries.now)) 0 0 (place (place_of p name.now)) }
{
    let Some(Entry::Builder(builder)) = entries.last() else {
        return Err(Error::WrongCall);
    };
    place_fault(p, builder.kind, name)
}

// A finish: 8.
pub(crate) fn judge_finish(entries: &[Entry]) -> Result<(), Error>
    ensures { answer_number result ≡ call_fault (inner (stack_of entries.now)) 0 0 finish }
{
    match entries.last() {
        Some(Entry::Builder(_)) => Ok(()),
        Some(Entry::Outer { .. }) => Err(Error::WrongCall),
        None => Err(Error::WrongCall),
    }
}

// The opening of a sub-formatter: 8, then 7.
pub(crate) fn judge_sub(entries: &[Entry]) -> Result<(), Error>
    ensures { answer_number result ≡ call_fault (inner (stack_of entries.now)) (length entries.now) 0 (sub default_flags) }
{
    if !is_ready(entries) {
        return Err(Error::WrongCall);
    }
    if 64 <= entries.len() {
        return Err(Error::TooDeep);
    }
    Ok(())
}

// The closing of a sub-formatter: 8.
pub(crate) fn judge_end_sub(entries: &[Entry]) -> Result<(), Error>
    ensures { answer_number result ≡ call_fault (inner (stack_of entries.now)) 0 0 endsub }
{
    match entries.last() {
        Some(Entry::Outer { .. }) => Ok(()),
        Some(Entry::Builder(_)) => Err(Error::WrongCall),
        None => Err(Error::WrongCall),
    }
}

// A value: 8, then 2, 4 or 5, then 3 in writing.
pub(crate) fn judge_value(
    entries: &[Entry],
    writer: WriterBackend,
    v: PVariant,
    s: &[u8],
) -> Result<(), Error>
    ensures { answer_number result
        ≡ hold (call_fault (inner (stack_of entries.now)) 0 0 (value (value_of v s.now))) (cut_in (mode_of writer) (cut_number (value (value_of v s.now)))) }
{
    if !is_ready(entries) {
        return Err(Error::WrongCall);
    }
    value_fault(v, s)?;
    if writer.is_counting() {
        return Ok(());
    }
    cut_fault(v, s)
}
