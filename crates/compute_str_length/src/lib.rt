// The counter of a counting run (the ComputeStrLength of fmt/formatter.rs): one counter, lent through
// the calls and advanced by each.
#![tactic(auto)]

ghost use Rattle.std.specs.Prelude.{◌≡◌, [], eqb};
ghost use Rattle.std.specs.Option.{option_map};
ghost use Rattle.error.specs.Answer.{answer_number};
ghost use Rattle.calls.specs.Model.{counting};
ghost use Rattle.formatter.specs.Calls.{call_of, step_or};
ghost use Rattle.encoded_call.specs.Encoding.{decode};
ghost use Rattle.run.specs.Played.{played};
ghost use Rattle.compute_str_length.specs.Total.{Added, add_to, counting_at, CountsCall, CountsCallThenLen, CountsRun, CountsThenAdds};

use calls::Settings;
use error::Error;
use formatter::{Entry, Head, Op};
use run::{Ran, count_run_from};
use writer_backend::WriterBackend;

#[derive(Clone, Copy)]
pub struct ComputeStrLength {
    pub len: usize,
}

impl ComputeStrLength {
    // A total of 0.
    pub fn new() -> Self
        ensures { result.len ≡ 0 }
    {
        Self { len: 0 }
    }

    // Adds to the total, or answers 6 and leaves it.
    #[tactic(auto, unfolding(crate::specs::Total::add_to))]
    pub fn add_len(&mut self, len: usize) -> Result<(), Error>
        ensures { ◌≡◌ {A = Added} (record { answer = answer_number result; total = self.new.len }) (add_to self.old.len len) }
    {
        self.len = self.len.checked_add(len).ok_or(Error::CountTooLarge)?;
        Ok(())
    }

    // The total.
    pub fn len(&self) -> usize
        ensures { result ≡ self.now.len }
    {
        self.len
    }

    // Whether the total is 0.
    pub fn is_empty(&self) -> bool
        ensures { result ≡ eqb self.now.len 0 }
    {
        self.len == 0
    }

    // Counts one call of a formatter on from the total: the head's own mode says nothing. What is no
    // call, None, meets 8 and adds nothing.
    pub fn count_call(
        &mut self,
        head: &mut Head,
        stack: &mut [Entry; 64],
        op: Option<Op>,
        text: &[u8],
    ) -> Result<(), Error>
        ensures { CountsCall result head.new stack.new self.new.len
            (step_or (counting_at self.old.len head.old stack.old) (option_map (λ o. call_of o text.now) op)) }
    {
        head.writer = WriterBackend::counting(self.len);
        let mut none = [0u8; 0];
        let answer = match op {
            Some(op) => head.call(stack, &mut none, op, text),
            None => head.no_call(&none),
        };
        self.len = head.writer.number;
        answer
    }

    // Counts a run on from the total: its first refusal, with the place of that call, the total at the
    // end and how many entries are then open.
    pub fn count_run(&mut self, settings: Settings, calls: &[u64], text: &[u8]) -> Ran
        ensures { CountsRun (decode calls.now text.now) result self.new.len
            (played (counting self.old.len) [] settings (decode calls.now text.now)) }
    {
        let ran = count_run_from(self.len, settings, calls, text);
        self.len = ran.number;
        ran
    }
}

// The end of a run, what a length added after it answers, and the total then, whatever they answer.
#[derive(Clone, Copy)]
pub struct CountedThenAdded {
    pub ran: Ran,
    pub answer: Result<(), Error>,
    pub total: usize,
}

// A run counted and a length added after it, through one counter: its parameters are plain, so that
// callers need no counter of their own. The length is added also where the run meets a refusal.
pub fn count_run_then_add_len(
    settings: Settings,
    calls: &[u64],
    text: &[u8],
    len: usize,
) -> CountedThenAdded
    ensures { CountsThenAdds (decode calls.now text.now) result
        (played (counting 0) [] settings (decode calls.now text.now)) len }
{
    let mut c = ComputeStrLength::new();
    let ran = c.count_run(settings, calls, text);
    let answer = c.add_len(len);
    CountedThenAdded {
        ran,
        answer,
        total: c.len,
    }
}

// What one call answers, the head and the total then, whatever it answers, and whether the total is 0.
#[derive(Clone, Copy)]
pub struct CountedCall {
    pub answer: Result<(), Error>,
    pub head: Head,
    pub total: usize,
    pub empty: bool,
}

// One call counted on from a total, through a counter that is then read: plain parameters, as above.
// What is no call, None, meets 8.
pub fn count_call_then_len(
    total: usize,
    head: Head,
    stack: &mut [Entry; 64],
    op: Option<Op>,
    text: &[u8],
) -> CountedCall
    ensures { CountsCallThenLen result stack.new
        (step_or (counting_at total head stack.old) (option_map (λ o. call_of o text.now) op)) }
{
    let mut c = ComputeStrLength { len: total };
    let mut head = head;
    let answer = c.count_call(&mut head, stack, op, text);
    CountedCall {
        answer,
        head,
        total: c.len(),
        empty: c.is_empty(),
    }
}
