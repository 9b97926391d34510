// A line is read, its run is played, and what that gives is compared with what the line has.
use calls::Settings;
use error::{Error, answer_number};
use fields::{first_field, from_hex, later_fields, number, put_hex, put_number};
use formatting::flags_of;
use lines::MAX_LINE;
use run::{Ran, count_run, write_run};
use utils::slice_up_to_len;

// Reads the first fields of a line as decimals, as many as words has: what stands behind them, if each
// of them is one.
fn decimals<'a>(line: &'a [u8], words: &mut [u64]) -> Option<&'a [u8]> {
    let mut rest = line;
    for word in words {
        *word = number(first_field(rest), u64::MAX)?;
        rest = later_fields(rest);
    }
    Some(rest)
}

// Gives a buffer the content that it has before a write.
fn fill(buf: &mut [u8]) {
    for (i, b) in buf.iter_mut().enumerate() {
        *b = ((i % 256 * 37 + 91) % 256) as u8;
    }
}

// Lays what a run gave into out as the last fields of a line: the first refusal and the total of
// counting, the first refusal and the cursor of writing, the buffer.
fn put_given(counted: Ran, written: Ran, buf: &[u8], out: &mut [u8]) -> Result<usize, Error> {
    let refusal = u64::from(answer_number(counted.answer()));
    let refused = u64::from(answer_number(written.answer()));
    let end = put_number(out, 0, refusal, b',')?;
    let end = put_number(out, end, counted.number as u64, b',')?;
    let end = put_number(out, end, refused, b',')?;
    let end = put_number(out, end, written.number as u64, b',')?;
    put_hex(out, end, buf)
}

// Whether the run of a line gives what const_format gave, if the line has the form of one. Its flags
// and calls stay the numbers of client/table_text.h that the line gives.
pub(crate) fn is_same(line: &[u8]) -> Option<bool> {
    let mut head = [0u64; 4];
    let mut word_space = [0u64; 200];
    let mut text_space = [0u8; 400];
    let mut buf_space = [0u8; 400];
    let mut given = [0u8; 1024];
    let calls = decimals(line, &mut head)?;
    let [flags, cursor, size, n] = head;
    if MAX_LINE < line.len() || 400 < size || 200 < n {
        return None;
    }
    let words = &mut word_space[..n as usize];
    let buf = &mut buf_space[..size as usize];
    let texts = decimals(calls, words)?;
    let len = from_hex(first_field(texts), &mut text_space)?;
    let text = slice_up_to_len(&text_space, len);
    let settings = Settings {
        flags: flags_of(flags),
    };
    fill(buf);
    let counted = count_run(settings, words, text);
    let written = write_run(settings, buf, cursor as usize, words, text);
    let end = put_given(counted, written, buf, &mut given).ok()?;
    Some(later_fields(texts) == slice_up_to_len(&given, end))
}
