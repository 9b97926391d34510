// The four builders and the sub-formatters, by the Rust's names. A builder is an entry of the stack.
ghost use Rattle.std.specs.Prelude.{◌≡◌, []};
ghost use Rattle.calls.specs.declared.Kind.TheVariants.{Struct, Tuple, Set};
ghost use Rattle.calls.specs.declared.Kind.TheVariants as kind;
ghost use Rattle.calls.specs.Call.{opens, place, field, item, entry, finish, sub, endsub};
ghost use Rattle.calls.specs.Model.{step};
ghost use Rattle.formatter.specs.View.{view_f, view_f_out};

use crate::dispatch::Op;
use crate::formatter::Formatter;
use calls::Kind;
use error::Error;
use formatting::FormattingFlags;
use writer_backend::PlaceKind;

impl Formatter {
    // Opens a struct with its name.
    pub fn debug_struct(&mut self, buf: &mut [u8], name: &[u8]) -> Result<(), Error>
        ensures { view_f_out result self.new buf.new ≡ step (view_f self.old buf.old) (opens Struct name.now) }
    {
        self.call(buf, Op::Open(Kind::Struct), name)
    }

    // Opens a tuple with its name.
    pub fn debug_tuple(&mut self, buf: &mut [u8], name: &[u8]) -> Result<(), Error>
        ensures { view_f_out result self.new buf.new ≡ step (view_f self.old buf.old) (opens Tuple name.now) }
    {
        self.call(buf, Op::Open(Kind::Tuple), name)
    }

    // Opens a list.
    pub fn debug_list(&mut self, buf: &mut [u8]) -> Result<(), Error>
        ensures { view_f_out result self.new buf.new ≡ step (view_f self.old buf.old) (opens kind.List []) }
    {
        self.call(buf, Op::Open(Kind::List), b"")
    }

    // Opens a set.
    pub fn debug_set(&mut self, buf: &mut [u8]) -> Result<(), Error>
        ensures { view_f_out result self.new buf.new ≡ step (view_f self.old buf.old) (opens Set []) }
    {
        self.call(buf, Op::Open(Kind::Set), b"")
    }

    // A field of a struct.
    pub fn field(&mut self, buf: &mut [u8], name: &[u8]) -> Result<(), Error>
        ensures { view_f_out result self.new buf.new ≡ step (view_f self.old buf.old) (place (field name.now)) }
    {
        self.call(buf, Op::Place(PlaceKind::Field), name)
    }

    // A field of a tuple.
    pub fn tuple_field(&mut self, buf: &mut [u8]) -> Result<(), Error>
        ensures { view_f_out result self.new buf.new ≡ step (view_f self.old buf.old) (place item) }
    {
        self.call(buf, Op::Place(PlaceKind::Item), b"")
    }

    // An entry of a list or a set.
    pub fn entry(&mut self, buf: &mut [u8]) -> Result<(), Error>
        ensures { view_f_out result self.new buf.new ≡ step (view_f self.old buf.old) (place entry) }
    {
        self.call(buf, Op::Place(PlaceKind::Entry), b"")
    }

    // Closes the innermost builder.
    pub fn finish(&mut self, buf: &mut [u8]) -> Result<(), Error>
        ensures { view_f_out result self.new buf.new ≡ step (view_f self.old buf.old) finish }
    {
        self.call(buf, Op::Finish, b"")
    }

    // Opens a sub-formatter with flags of its own.
    pub fn make_formatter(&mut self, buf: &mut [u8], flags: FormattingFlags) -> Result<(), Error>
        ensures { view_f_out result self.new buf.new ≡ step (view_f self.old buf.old) (sub flags) }
    {
        self.call(buf, Op::Sub(flags), b"")
    }

    // Closes the innermost sub-formatter: the outer flags and margin return.
    pub fn end_formatter(&mut self, buf: &mut [u8]) -> Result<(), Error>
        ensures { view_f_out result self.new buf.new ≡ step (view_f self.old buf.old) endsub }
    {
        self.call(buf, Op::EndSub, b"")
    }
}
