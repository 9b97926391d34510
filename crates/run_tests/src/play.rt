// A run played as the word of its line says: each function lays what the run gives.
use crate::line::Run;
use crate::print::Printed;
use calls::Settings;
use compute_str_length::{CountedCall, count_call_then_len, count_run_then_add_len};
use encoded_call::op_at;
use formatter::{Entry, Head};
use formatting::{FormattingFlags, bit};
use lines::part;
use run::{count_run, count_run_each, count_run_from, write_run, write_run_each};
use utils::slice_up_to_len;
use writer_backend::WriterBackend;

// A run counted on from a total of N.
pub(crate) fn put_count(run: Run, out: &mut Printed) {
    let r = count_run_from(run.n, run.settings, run.calls, run.text);
    out.ran(r, run.calls, b'\n');
}

// A run written from place N of four dots.
pub(crate) fn put_write(run: Run, out: &mut Printed) {
    let mut dots = [b'.'; 4];
    let r = write_run(run.settings, &mut dots, run.n, run.calls, run.text);
    out.ran(r, run.calls, b'\n');
}

// A run counted by the counter that is lent, and the length N added: the end of the run, the answer
// to the length, and the total.
pub(crate) fn put_added(run: Run, out: &mut Printed) {
    let r = count_run_then_add_len(run.settings, run.calls, run.text, run.n);
    out.ran(r.ran, run.calls, b' ');
    out.answer(r.answer, b' ');
    out.decimal(r.total as u64, b'\n');
}

// The call that five words are, counted on from a total by the counter that is lent.
fn count_call(
    total: usize,
    head: Head,
    stack: &mut [Entry; 64],
    words: [u64; 5],
    text: &[u8],
) -> CountedCall {
    let rest = part(text, words[1] as usize, text.len());
    let own = slice_up_to_len(rest, words[2] as usize);
    let op = op_at(words[0], words[3], words[4]);
    count_call_then_len(total, head, stack, op, own)
}

// What a call answers, the total then, and whether that is 0.
fn put_counted_call(r: CountedCall, out: &mut Printed) {
    out.byte(b' ');
    out.answer(r.answer, b' ');
    out.decimal(r.total as u64, b' ');
    out.decimal(bit(r.empty), b',');
}

// A run counted call by call on from a total of N: what each call gives, and at the end how many
// entries of the formatter are open, and its margin. The head begins with a cursor past the end of no
// bytes, which would be 9 if the counter did not give the total.
pub(crate) fn put_calls(run: Run, out: &mut Printed) {
    let mut stack = [Entry::UNUSED; 64];
    let mut head = Head::new(WriterBackend::writing(1), run.settings);
    let mut total = run.n;
    for words in run.calls.chunks_exact(5) {
        let words = [words[0], words[1], words[2], words[3], words[4]];
        let r = count_call(total, head, &mut stack, words, run.text);
        put_counted_call(r, out);
        head = r.head;
        total = r.total;
    }
    out.next(head.open_entries() as u64, b' ');
    out.decimal(u64::from(head.margin), b'\n');
}

// A run counted by its settings, and written by others from place N of 160 dots.
fn put_counted_and_written(run: Run, written: Settings, out: &mut Printed) {
    let mut dots = [b'.'; 160];
    out.ran(
        count_run(run.settings, run.calls, run.text),
        run.calls,
        b',',
    );
    out.ran(
        write_run(written, &mut dots, run.n, run.calls, run.text),
        run.calls,
        b'\n',
    );
}

// A run counted by its settings, and written by the default ones from place N of 160 dots.
pub(crate) fn put_both(run: Run, out: &mut Printed) {
    let default = Settings {
        flags: FormattingFlags::DEFAULT,
    };
    put_counted_and_written(run, default, out);
}

// A run counted, and written into 160 dots, with the answers to its calls in N places that hold dots
// before, if N is at most 160.
pub(crate) fn put_each(run: Run, out: &mut Printed) -> Option<()> {
    let mut dots = [b'.'; 160];
    let mut counted = [b'.'; 160];
    let mut written = [b'.'; 160];
    let answers = counted.get_mut(..run.n)?;
    let r = count_run_each(run.settings, run.calls, run.text, answers);
    out.ran_each(r, run.calls, answers, b",");
    let answers = written.get_mut(..run.n)?;
    let r = write_run_each(run.settings, &mut dots, 0, run.calls, run.text, answers);
    out.ran_each(r, run.calls, answers, b"\n");
    Some(())
}

// The first calls of a run, none and one and so on to all of them.
fn put_prefixes(run: Run, out: &mut Printed) {
    for n in 0..=run.calls.len() / 5 {
        out.next(n as u64, b' ');
        out.text(b"calls:");
        let first = Run {
            calls: &run.calls[..5 * n],
            ..run
        };
        put_counted_and_written(first, run.settings, out);
    }
}

// A run written from a place of a buffer, and the bytes of the buffer then.
fn put_written(run: Run, buf: &mut [u8], from: usize, out: &mut Printed) {
    out.ran(
        write_run(run.settings, buf, from, run.calls, run.text),
        run.calls,
        b' ',
    );
    out.hex(buf);
    out.byte(b'\n');
}

// A run written into buffers of every size up to one byte more than its total, but less than 160, and
// past the end of four dots.
fn put_sizes(run: Run, total: usize, out: &mut Printed) {
    for size in 0..total.saturating_add(2).min(160) {
        let mut dots = [b'.'; 160];
        out.next(size as u64, b':');
        put_written(run, &mut dots[..size], 0, out);
    }
    let mut four = [b'.'; 4];
    out.text(b" 4 at 5:");
    put_written(run, &mut four, 5, out);
}

// A run counted, its first calls, and the run written into buffers of growing sizes.
pub(crate) fn show(run: Run, out: &mut Printed) {
    let total = count_run(run.settings, run.calls, run.text);
    out.text(b" counted");
    out.ran(total, run.calls, b'\n');
    put_prefixes(run, out);
    put_sizes(run, total.number, out);
}
