// Runs as data: a list of calls as numbers over a pool of texts, counted or written whole. The stack
// of open entries is a local array that is lent to the calls. Buffer and cursor, words and pool stand
// side by side, as a caller in another language has them.
#![tactic(auto)]

ghost use Rattle.std.specs.Prelude.{◌≡◌, [], set, None};
ghost use Rattle.error.specs.Answer.{Answer, answer_number};
ghost use Rattle.agreement.specs.Untouched.{OnlyBetween};
ghost use Rattle.calls.specs.Model.{start, counting, writing};
ghost use Rattle.writer_backend.specs.Output.{output_of, mode_of};
ghost use Rattle.encoded_call.specs.Encoding.{decode};
ghost use Rattle.run.specs.Played.{run_or, played, first_number, ending, end_counted, end_written, stored, CountAgrees, WriteAgrees, WritesAsCounted};
ghost use Rattle.run.specs.Noting.{noted};

use calls::Settings;
use encoded_call::call_at;
use error::{Error, answer_number};
use formatter::{Entry, Head};
use writer_backend::WriterBackend;

// What a call of a run was refused with, and the place of that call.
#[derive(Clone, Copy)]
pub struct Refusal {
    pub error: Error,
    pub place: usize,
}

// The end of a run: its first refusal, and its total or cursor and how many entries are open, which
// are there whatever was refused.
#[derive(Clone, Copy)]
pub struct Ran {
    pub first: Option<Refusal>,
    pub number: usize,
    pub entries: usize,
}

impl Ran {
    // What the run answers: its first refusal.
    pub fn answer(self) -> Result<(), Error>
        ensures { answer_number result ≡ first_number self.first }
    {
        match self.first {
            Some(Refusal { error, place: _ }) => Err(error),
            None => Ok(()),
        }
    }
}

// Notes an answer with the place of its call, if it is the first refusal.
fn note(first: &mut Option<Refusal>, answer: Result<(), Error>, place: usize)
    ensures { first.new ≡ noted first.old answer place }
{
    if let Err(error) = answer {
        if first.is_none() {
            *first = Some(Refusal { error, place });
        }
    }
}

// Stores an answer's number in its place, if there is one. By an index: the library says nothing of
// what a slice ends as after `get_mut`.
fn store(answers: &mut [u8], at: usize, answer: Result<(), Error>)
    ensures { answers.new ≡ set answers.old at (answer_number answer) }
{
    if at < answers.len() {
        answers[at] = answer_number(answer);
    }
}

// Where a run ends: its total or cursor, and how many entries are open.
#[derive(Clone, Copy)]
struct End {
    number: usize,
    entries: usize,
}

// Plays the calls from the beginning: 9 where the cursor is past the buffer, also of no calls. The
// first refusal is lent: so it stays out of the registers while nothing is refused. The stack is lent
// too, whatever it holds: cleared in here it takes the loop's registers.
fn play(
    stack: &mut [Entry; 64],
    writer: WriterBackend,
    settings: Settings,
    buf: &mut [u8],
    calls: &[u64],
    text: &[u8],
    answers: &mut [u8],
    first: &mut Option<Refusal>,
) -> End
    requires { first.old ≡ None }
    ensures buf_after { ending (decode calls.now text.now) first.new (mode_of writer) result buf.new
        ≡ played (mode_of writer) buf.old settings (decode calls.now text.now) }
    ensures answers_after { answers.new
        ≡ stored answers.old (run_or (start (mode_of writer) buf.old settings) (decode calls.now text.now)).answers }
{
    let mut head = Head::new(writer, settings);
    note(first, writer.judge(buf), 0);
    for k in 0..calls.len() / 5 {
        let i = 5 * k;
        let words = [
            calls[i],
            calls[i + 1],
            calls[i + 2],
            calls[i + 3],
            calls[i + 4],
        ];
        let answer = call_at(&mut head, stack, buf, words, text);
        note(first, answer, k);
        store(answers, k, answer);
    }
    // Counted on the slice of them: the length of a lent array is not kept through the loop.
    End {
        number: head.writer.number,
        entries: stack[..head.open_entries()].len(),
    }
}

// Counts a run from a total that there is already, and stores each call's answer as far as there is
// room.
fn count_each_from(
    total: usize,
    settings: Settings,
    calls: &[u64],
    text: &[u8],
    answers: &mut [u8],
) -> Ran
    ensures result_value { end_counted (decode calls.now text.now) result ≡ played (counting total) [] settings (decode calls.now text.now) }
    ensures answers_after { answers.new
        ≡ stored answers.old (run_or (start (counting total) [] settings) (decode calls.now text.now)).answers }
{
    let mut none = [0u8; 0];
    let mut stack = [Entry::UNUSED; 64];
    let mut first = None;
    let End { number, entries } = play(
        &mut stack,
        WriterBackend::counting(total),
        settings,
        &mut none,
        calls,
        text,
        answers,
        &mut first,
    );
    Ran {
        first,
        number,
        entries,
    }
}

// Counts a run from a total that there is already: its first refusal, with the place of that call,
// the total at the end and how many entries are then open.
pub fn count_run_from(total: usize, settings: Settings, calls: &[u64], text: &[u8]) -> Ran
    ensures { end_counted (decode calls.now text.now) result ≡ played (counting total) [] settings (decode calls.now text.now) }
{
    let mut none = [0u8; 0];
    count_each_from(total, settings, calls, text, &mut none)
}

// Counts a run, and stores each call's answer as far as there is room.
pub fn count_run_each(settings: Settings, calls: &[u64], text: &[u8], answers: &mut [u8]) -> Ran
    ensures result_value { end_counted (decode calls.now text.now) result ≡ played (counting 0) [] settings (decode calls.now text.now) }
    ensures answers_after { answers.new
        ≡ stored answers.old (run_or (start (counting 0) [] settings) (decode calls.now text.now)).answers }
    ensures count_agrees { CountAgrees settings (decode calls.now text.now) (first_number result.first) result.number }
{
    count_each_from(0, settings, calls, text, answers)
}

// Counts a run: its first refusal, with the place of that call, its total and how many entries it
// leaves open.
pub fn count_run(settings: Settings, calls: &[u64], text: &[u8]) -> Ran
    ensures result_value { end_counted (decode calls.now text.now) result ≡ played (counting 0) [] settings (decode calls.now text.now) }
    ensures count_agrees { CountAgrees settings (decode calls.now text.now) (first_number result.first) result.number }
{
    let mut none = [0u8; 0];
    count_run_each(settings, calls, text, &mut none)
}

// Writes a run from a cursor, and stores each call's answer as far as there is room.
pub fn write_run_each(
    settings: Settings,
    buf: &mut [u8],
    at: usize,
    calls: &[u64],
    text: &[u8],
    answers: &mut [u8],
) -> Ran
    ensures buf_after { end_written (decode calls.now text.now) result buf.new ≡ played (writing at) buf.old settings (decode calls.now text.now) }
    ensures answers_after { answers.new
        ≡ stored answers.old (run_or (start (writing at) buf.old settings) (decode calls.now text.now)).answers }
    ensures write_agrees { WriteAgrees settings (decode calls.now text.now) buf.old at (first_number result.first) result.number buf.new }
    ensures writes_as_counted { WritesAsCounted (played (counting 0) [] settings (decode calls.now text.now)) settings
        (decode calls.now text.now) buf.old at (first_number result.first) result.number buf.new }
    ensures only_between { OnlyBetween buf.old at buf.new result.number }
{
    let mut stack = [Entry::UNUSED; 64];
    let mut first = None;
    let End { number, entries } = play(
        &mut stack,
        WriterBackend::writing(at),
        settings,
        buf,
        calls,
        text,
        answers,
        &mut first,
    );
    Ran {
        first,
        number,
        entries,
    }
}

// Writes a run from a cursor: its first refusal, 9 where the cursor is past the buffer, with the
// place of that call, the cursor at the end and how many entries it leaves open.
pub fn write_run(settings: Settings, buf: &mut [u8], at: usize, calls: &[u64], text: &[u8]) -> Ran
    ensures buf_after { end_written (decode calls.now text.now) result buf.new ≡ played (writing at) buf.old settings (decode calls.now text.now) }
    ensures write_agrees { WriteAgrees settings (decode calls.now text.now) buf.old at (first_number result.first) result.number buf.new }
    ensures writes_as_counted { WritesAsCounted (played (counting 0) [] settings (decode calls.now text.now)) settings
        (decode calls.now text.now) buf.old at (first_number result.first) result.number buf.new }
    ensures only_between { OnlyBetween buf.old at buf.new result.number }
{
    let mut none = [0u8; 0];
    write_run_each(settings, buf, at, calls, text, &mut none)
}
