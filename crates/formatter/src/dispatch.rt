// The calls of a run: each is judged, emits its pieces and moves the entries. What a call does not
// touch is not copied.
ghost use Rattle.std.specs.Prelude.{◌≡◌, List, ℕ, None};
ghost use Rattle.error.specs.Answer.{answer_number};
ghost use Rattle.calls.specs.Call.{opens, place, value, finish, sub, endsub};
ghost use Rattle.calls.specs.Model.{fault_of, step};
ghost use Rattle.writer_backend.specs.Pieces.{place_of};
ghost use Rattle.value_writes.specs.Values.{value_of};
ghost use Rattle.formatter.specs.Calls.{call_of, step_or};
ghost use Rattle.formatter.specs.View.{view, view_out};
ghost use Rattle.formatter.specs.declared.entries.Entry as declared;

use crate::entries::Entry;
use crate::faults::{
    is_ready, judge_end_sub, judge_finish, judge_open, judge_place, judge_sub, judge_value,
};
use crate::head::Head;
use calls::Kind;
use error::Error;
use formatting::FormattingFlags;
use value_writes::{PVariant, put_value};
use writer_backend::{Builder, PlaceKind, place_fault};

// A call, whose text is lent beside it.
#[derive(Clone, Copy)]
pub enum Op {
    Open(Kind),
    Place(PlaceKind),
    Finish,
    Sub(FormattingFlags),
    EndSub,
    Value(PVariant),
}

impl Head {
    // Opens a builder: its name, and an entry without a field that holds what was refused.
    fn open(
        &mut self,
        stack: &mut [Entry; 64],
        buf: &mut [u8],
        kind: Kind,
        name: &[u8],
    ) -> Result<(), Error>
        ensures { view_out result self.new stack.new buf.new ≡ step (view self.old stack.old buf.old) (opens kind name.now) }
    {
        self.writer.judge(buf)?;
        let depth = self.open_entries();
        judge_open(&stack[..depth], self.margin, kind, name)?;
        let held = self.writer.put_name(buf, kind, name).err();
        stack[depth] = Entry::Builder(Builder {
            kind,
            has_field: false,
            held,
        });
        self.margin += 4;
        self.depth = depth + 1;
        Ok(())
    }

    // A field or an entry: the innermost builder has one, and holds what was refused first.
    fn place(
        &mut self,
        stack: &mut [Entry; 64],
        buf: &mut [u8],
        p: PlaceKind,
        name: &[u8],
    ) -> Result<(), Error>
        ensures { view_out result self.new stack.new buf.new
            ≡ step (view self.old stack.old buf.old) (place (place_of p name.now)) }
    {
        self.writer.judge(buf)?;
        let Some(top) = self.open_entries().checked_sub(1) else {
            return Err(Error::WrongCall);
        };
        let Entry::Builder(builder) = &mut stack[top] else {
            return Err(Error::WrongCall);
        };
        place_fault(p, builder.kind, name)?;
        self.writer.put_place(buf, builder, self.flags.is_alternate, self.margin, p, name);
        Ok(())
    }

    // Closes the innermost builder: what it holds is answered, else its closing is written.
    fn finish(&mut self, stack: &[Entry; 64], buf: &mut [u8]) -> Result<(), Error>
        ensures { view_out result self.new stack.now buf.new ≡ step (view self.old stack.now buf.old) finish }
    {
        self.writer.judge(buf)?;
        let Some(top) = self.open_entries().checked_sub(1) else {
            return Err(Error::WrongCall);
        };
        let Entry::Builder(builder) = stack[top] else {
            return Err(Error::WrongCall);
        };
        self.depth = top;
        if let Some(held) = builder.held() {
            return Err(held);
        }
        self.margin = self.margin.saturating_sub(4);
        self.writer
            .close(buf, builder, self.flags.is_alternate, self.margin)
    }

    // Opens a sub-formatter with flags of its own.
    fn sub(
        &mut self,
        stack: &mut [Entry; 64],
        buf: &[u8],
        flags: FormattingFlags,
    ) -> Result<(), Error>
        ensures { view_out result self.new stack.new buf.now ≡ step (view self.old stack.old buf.now) (sub flags) }
    {
        self.writer.judge(buf)?;
        let depth = self.open_entries();
        judge_sub(&stack[..depth])?;
        stack[depth] = Entry::Outer {
            flags: self.flags,
            margin: self.margin,
        };
        self.flags = flags;
        self.depth = depth + 1;
        Ok(())
    }

    // Closes the innermost sub-formatter: the outer flags and margin return.
    fn end_sub(&mut self, stack: &[Entry; 64], buf: &[u8]) -> Result<(), Error>
        ensures { view_out result self.new stack.now buf.now ≡ step (view self.old stack.now buf.now) endsub }
    {
        self.writer.judge(buf)?;
        let Some(top) = self.open_entries().checked_sub(1) else {
            return Err(Error::WrongCall);
        };
        let Entry::Outer { flags, margin } = stack[top] else {
            return Err(Error::WrongCall);
        };
        self.flags = flags;
        self.margin = margin;
        self.depth = top;
        Ok(())
    }

    // A value, whose text is lent beside it.
    fn value(
        &mut self,
        stack: &[Entry; 64],
        buf: &mut [u8],
        v: PVariant,
        s: &[u8],
    ) -> Result<(), Error>
        ensures { view_out result self.new stack.now buf.new
            ≡ step (view self.old stack.now buf.old) (value (value_of v s.now)) }
    {
        self.writer.judge(buf)?;
        let depth = self.open_entries();
        if !is_ready(&stack[..depth]) {
            return Err(Error::WrongCall);
        }
        put_value(&mut self.writer, buf, self.flags, v, s)
    }

    // What is no call: 8, after 9.
    pub fn no_call(&self, buf: &[u8]) -> Result<(), Error>
        ensures { (s : List declared.Entry) → view_out result self.now s buf.now ≡ step_or (view self.now s buf.now) None }
    {
        self.writer.judge(buf)?;
        Err(Error::WrongCall)
    }

    // What any call meets, without writing anything: 9, 8, 7, then 2, 4 or 5, then 3 in writing. A call
    // that meets nothing can be refused with 6 or 1 alone.
    pub fn judge(&self, stack: &[Entry; 64], buf: &[u8], op: Op, s: &[u8]) -> Result<(), Error>
        ensures { answer_number result ≡ fault_of (view self.now stack.now buf.now) (call_of op s.now) }
    {
        self.writer.judge(buf)?;
        let open = &stack[..self.open_entries()];
        match op {
            Op::Open(kind) => judge_open(open, self.margin, kind, s),
            Op::Place(p) => judge_place(open, p, s),
            Op::Finish => judge_finish(open),
            Op::Sub(_) => judge_sub(open),
            Op::EndSub => judge_end_sub(open),
            Op::Value(v) => judge_value(open, self.writer, v, s),
        }
    }

    // One call, whose text is lent beside it. There is one call site for each function: the compiler
    // then makes one loop of them all.
    pub fn call(
        &mut self,
        stack: &mut [Entry; 64],
        buf: &mut [u8],
        op: Op,
        s: &[u8],
    ) -> Result<(), Error>
        ensures { view_out result self.new stack.new buf.new ≡ step (view self.old stack.old buf.old) (call_of op s.now) }
    {
        match op {
            Op::Open(kind) => self.open(stack, buf, kind, s),
            Op::Place(p) => self.place(stack, buf, p, s),
            Op::Finish => self.finish(stack, buf),
            Op::Sub(flags) => self.sub(stack, buf, flags),
            Op::EndSub => self.end_sub(stack, buf),
            Op::Value(v) => self.value(stack, buf, v, s),
        }
    }
}
