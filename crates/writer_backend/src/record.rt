// The pieces of an opening, of a field or an entry, and of a finish.
ghost use Rattle.std.specs.Prelude.{◌≡◌, true, Bool, [], ℕ, ◌+◌, ◌≤◌, length};
ghost use Rattle.error.specs.Answer.{fault_number, answer_number};
ghost use Rattle.utf8.specs.Utf8.{well_formed};
ghost use Rattle.calls.specs.Call.{name_of, place_name, of_kind, place, a_builder, call_fault, open_pieces, place_pieces, label_pieces, close_pieces};
ghost use Rattle.calls.specs.Model.{stops, tries};
ghost use Rattle.writer_backend.specs.Output.{output_of, put_out, held_number, held_out};
ghost use Rattle.writer_backend.specs.Pieces.{try_all, length_of, margin_pieces, place_of, pieces_before};

use crate::pieces::WriterBackend;
use crate::words::{bracket, empty_close, plain_close, separator};
use calls::Kind;
use error::Error;
use utf8::is_utf8;

// Where a separator goes: before a field of a struct, one of a tuple, an entry of a list or a set.
#[derive(Clone, Copy)]
pub enum PlaceKind {
    Field,
    Item,
    Entry,
}

// An open builder: its kind, whether it has a field, and the refusal that it holds.
#[derive(Clone, Copy)]
pub struct Builder {
    pub kind: Kind,
    pub has_field: bool,
    pub held: Option<Error>,
}

impl Builder {
    // The refusal that it holds: none, 1, or 6 for every other, since pieces meet no other.
    pub fn held(self) -> Option<Error>
        ensures { fault_number result ≡ held_number self.held }
    {
        match self.held? {
            Error::NotEnoughSpace => Some(Error::NotEnoughSpace),
            _ => Some(Error::CountTooLarge),
        }
    }
}

impl WriterBackend {
    // The name of a struct or a tuple.
    pub fn put_name(&mut self, buf: &mut [u8], kind: Kind, name: &[u8]) -> Result<(), Error>
        ensures { put_out result self.new buf.new ≡ tries (output_of self.old buf.old) (open_pieces kind name.now) }
    {
        match kind {
            Kind::Struct | Kind::Tuple => self.put(buf, name),
            Kind::List | Kind::Set => Ok(()),
        }
    }

    // What goes before a field or an entry, each piece tried: the builder has a field then, and holds
    // the first refusal. A total that has room for them all takes them as one sum.
    pub fn put_place(
        &mut self,
        buf: &mut [u8],
        builder: &mut Builder,
        is_alternate: bool,
        margin: u16,
        place: PlaceKind,
        name: &[u8],
    )
        ensures pieces { held_out builder.new.held self.new buf.new
            ≡ try_all (held_out builder.old.held self.old buf.old) (pieces_before builder.old is_alternate margin (place_of place name.now)) }
        ensures builder_after { (builder.new.kind ≡ builder.old.kind) × (builder.new.has_field ≡ true) }
    {
        let Builder {
            kind,
            has_field,
            ..
        } = *builder;
        builder.has_field = true;
        if self.is_counting() {
            let len = place_len(kind, has_field, is_alternate, margin, place, name);
            if self.add_len(len).is_ok() {
                return;
            }
        }
        let held = &mut builder.held;
        self.try_put(buf, held, separator(kind, has_field, is_alternate));
        self.try_margin(buf, held, is_alternate, margin);
        self.try_label(buf, held, place, name);
    }

    // The margin in spaces, in alternate form only.
    fn try_margin(
        &mut self,
        buf: &mut [u8],
        held: &mut Option<Error>,
        is_alternate: bool,
        margin: u16,
    )
        ensures { held_out held.new self.new buf.new ≡ try_all (held_out held.old self.old buf.old) (margin_pieces is_alternate margin) }
    {
        if is_alternate {
            self.try_spaces(buf, held, usize::from(margin));
        }
    }

    // The name of a field, and what follows it.
    fn try_label(&mut self, buf: &mut [u8], held: &mut Option<Error>, place: PlaceKind, name: &[u8])
        ensures { held_out held.new self.new buf.new ≡ try_all (held_out held.old self.old buf.old) (label_pieces (place_of place name.now)) }
    {
        match place {
            PlaceKind::Field => {
                self.try_put(buf, held, name);
                self.try_put(buf, held, b": ");
            }
            PlaceKind::Item | PlaceKind::Entry => {}
        }
    }

    // The closing of a builder, piece by piece, to the first refusal.
    pub fn close(
        &mut self,
        buf: &mut [u8],
        builder: Builder,
        is_alternate: bool,
        margin: u16,
    ) -> Result<(), Error>
        ensures { put_out result self.new buf.new ≡ stops (output_of self.old buf.old) (close_pieces builder.kind builder.has_field is_alternate margin) }
    {
        let Builder {
            kind,
            has_field,
            ..
        } = builder;
        if !has_field {
            return self.put(buf, empty_close(kind));
        }
        if !is_alternate {
            return self.put(buf, plain_close(kind));
        }
        self.put(buf, b",\n")?;
        self.put_spaces(buf, usize::from(margin))?;
        self.put(buf, bracket(kind))
    }
}

// Whether the name of a builder is UTF-8; a list and a set have none.
pub fn is_name(k: Kind, name: &[u8]) -> bool
    ensures { result ≡ well_formed (name_of k name.now) }
{
    match k {
        Kind::Struct | Kind::Tuple => is_utf8(name),
        Kind::List | Kind::Set => true,
    }
}

fn suits(p: PlaceKind, k: Kind) -> bool
    ensures { result ≡ of_kind (place_of p []) k }
{
    matches!(
        (p, k),
        (PlaceKind::Field, Kind::Struct)
            | (PlaceKind::Item, Kind::Tuple)
            | (PlaceKind::Entry, Kind::List | Kind::Set)
    )
}

// Whether the name of a field is UTF-8; only a field of a struct has one.
pub fn is_label(p: PlaceKind, name: &[u8]) -> bool
    ensures { result ≡ well_formed (place_name (place_of p name.now)) }
{
    match p {
        PlaceKind::Field => is_utf8(name),
        PlaceKind::Item | PlaceKind::Entry => true,
    }
}

// 8, then 4.
pub fn place_fault(p: PlaceKind, k: Kind, name: &[u8]) -> Result<(), Error>
    ensures { (ready : Bool) (depth margin : ℕ) → answer_number result ≡ call_fault (a_builder k ready) depth margin (place (place_of p name.now)) }
{
    if !suits(p, k) {
        return Err(Error::WrongCall);
    }
    if !is_label(p, name) {
        return Err(Error::NotUtf8);
    }
    Ok(())
}

fn margin_len(is_alternate: bool, margin: u16) -> usize
    ensures { (result ≡ length_of (margin_pieces is_alternate margin)) × (result ≤ margin) }
{
    if is_alternate { usize::from(margin) } else { 0 }
}

fn label_len(p: PlaceKind, name: &[u8]) -> usize
    ensures { (result ≡ length_of (label_pieces (place_of p name.now))) × (result ≤ length name.now + 2) }
{
    match p {
        PlaceKind::Field => name.len() + 2,
        PlaceKind::Item | PlaceKind::Entry => 0,
    }
}

// The length of all that goes before a field or an entry.
fn place_len(
    k: Kind,
    has_field: bool,
    is_alternate: bool,
    margin: u16,
    p: PlaceKind,
    name: &[u8],
) -> usize
    ensures { result ≡ length_of (place_pieces k has_field is_alternate margin (place_of p name.now)) }
{
    separator(k, has_field, is_alternate).len()
        + margin_len(is_alternate, margin)
        + label_len(p, name)
}
