// The static library that a sender links: a run of calls as numbers over a pool of texts, counted or
// written. A slice passes as a pointer and a length. The answer is the run's first refusal by
// document 01's number, 0 for none. Flags are a number below 12: 4 for hexadecimal or 8 for binary,
// plus 2 for lower digits, plus 1 for alternate; a run with others answers 8, after 9, and plays
// nothing.
#![tactic(auto)]

ghost use Rattle.std.specs.Prelude.{◌≡◌, [], ◌<◌, Some};
ghost use Rattle.error.specs.Answer.{number_of};
ghost use Rattle.agreement.specs.Untouched.{OnlyBetween};
ghost use Rattle.calls.specs.Model.{counting, writing};
ghost use Rattle.encoded_call.specs.Encoding.{decode};
ghost use Rattle.run.specs.Played.{first_number, end_counted, end_written, stored, CountAgrees, WriteAgrees, WritesAsCounted};
ghost use Rattle.table_text.specs.Exported.{settings_by, count_end, count_answers, write_end, write_answers};

use calls::Settings;
use error::{Error, answer_number};
use formatting::FormattingFlags;
use run::{Ran, Refusal, count_run_each, write_run_each};

// The end of a run of which nothing is played.
fn unplayed(error: Error, number: usize) -> Ran
    ensures { result ≡ record { first = Some (record { error = error; place = 0 }); number = number; entries = 0 } }
{
    Ran {
        first: Some(Refusal { error, place: 0 }),
        number,
        entries: 0,
    }
}

// A run counted, with each call's answer as far as there is room.
fn count(flags: u64, calls: &[u64], text: &[u8], answers: &mut [u8]) -> Ran
    ensures result_value { end_counted (decode calls.now text.now) result ≡ count_end flags calls.now text.now }
    ensures answers_after { answers.new ≡ stored answers.old (count_answers flags calls.now text.now) }
    ensures count_agrees { flags < 12 → CountAgrees (settings_by flags) (decode calls.now text.now) (first_number result.first) result.number }
{
    let Ok(flags) = FormattingFlags::try_from(flags) else {
        return unplayed(Error::WrongCall, 0);
    };
    count_run_each(Settings { flags }, calls, text, answers)
}

// A run written, with each call's answer as far as there is room.
fn write(
    flags: u64,
    buf: &mut [u8],
    at: usize,
    calls: &[u64],
    text: &[u8],
    answers: &mut [u8],
) -> Ran
    ensures buf_after { end_written (decode calls.now text.now) result buf.new ≡ write_end flags buf.old at calls.now text.now }
    ensures answers_after { answers.new ≡ stored answers.old (write_answers flags buf.old at calls.now text.now) }
    ensures write_agrees { flags < 12 → WriteAgrees (settings_by flags) (decode calls.now text.now)
        buf.old at (first_number result.first) result.number buf.new }
    ensures writes_as_counted { WritesAsCounted (count_end flags calls.now text.now) (settings_by flags)
        (decode calls.now text.now) buf.old at (first_number result.first) result.number buf.new }
    ensures only_between { OnlyBetween buf.old at buf.new result.number }
{
    let Ok(flags) = FormattingFlags::try_from(flags) else {
        if buf.len() < at {
            return unplayed(Error::BadCursor, at);
        }
        return unplayed(Error::WrongCall, at);
    };
    write_run_each(Settings { flags }, buf, at, calls, text, answers)
}

// Counts a run: its total is left in total.
#[unsafe(no_mangle)]
pub extern "C" fn table_text_count(flags: u64, calls: &[u64], text: &[u8], total: &mut usize) -> u8
    ensures value { result ≡ (count_end flags calls.now text.now).first }
    ensures bytes_after { record { mode = counting total.new; bytes = [] } ≡ (count_end flags calls.now text.now).output }
    ensures count_agrees { flags < 12 → CountAgrees (settings_by flags) (decode calls.now text.now) result total.new }
{
    let mut none = [0u8; 0];
    let r = count(flags, calls, text, &mut none);
    *total = r.number;
    answer_number(r.answer())
}

// Writes a run from a cursor: the cursor at the end is left in cursor. 9 where it is past the buffer.
#[unsafe(no_mangle)]
pub extern "C" fn table_text_write(
    flags: u64,
    buf: &mut [u8],
    cursor: &mut usize,
    calls: &[u64],
    text: &[u8],
) -> u8
    ensures value { result ≡ (write_end flags buf.old cursor.old calls.now text.now).first }
    ensures buf_after { record { mode = writing cursor.new; bytes = buf.new }
        ≡ (write_end flags buf.old cursor.old calls.now text.now).output }
    ensures write_agrees { flags < 12 → WriteAgrees (settings_by flags) (decode calls.now text.now)
        buf.old cursor.old result cursor.new buf.new }
    ensures writes_as_counted { WritesAsCounted (count_end flags calls.now text.now) (settings_by flags)
        (decode calls.now text.now) buf.old cursor.old result cursor.new buf.new }
    ensures only_between { OnlyBetween buf.old cursor.old buf.new cursor.new }
{
    let mut none = [0u8; 0];
    let r = write(flags, buf, *cursor, calls, text, &mut none);
    *cursor = r.number;
    answer_number(r.answer())
}

// Counts a run: beside its total, how many entries it leaves open and each call's answer, as far as
// there is room.
#[unsafe(no_mangle)]
pub extern "C" fn table_text_count_each(
    flags: u64,
    calls: &[u64],
    text: &[u8],
    total: &mut usize,
    entries: &mut usize,
    answers: &mut [u8],
) -> u8
    ensures value { result ≡ (count_end flags calls.now text.now).first }
    ensures bytes_after { record { mode = counting total.new; bytes = [] } ≡ (count_end flags calls.now text.now).output }
    ensures count_agrees { flags < 12 → CountAgrees (settings_by flags) (decode calls.now text.now) result total.new }
    ensures entries_after { entries.new ≡ (count_end flags calls.now text.now).entries }
    ensures answers_after { answers.new ≡ stored answers.old (count_answers flags calls.now text.now) }
{
    let r = count(flags, calls, text, answers);
    *total = r.number;
    *entries = r.entries;
    answer_number(r.answer())
}

// Writes a run: beside its cursor, how many entries it leaves open and each call's answer, as far as
// there is room.
#[unsafe(no_mangle)]
pub extern "C" fn table_text_write_each(
    flags: u64,
    buf: &mut [u8],
    cursor: &mut usize,
    calls: &[u64],
    text: &[u8],
    entries: &mut usize,
    answers: &mut [u8],
) -> u8
    ensures value { result ≡ (write_end flags buf.old cursor.old calls.now text.now).first }
    ensures buf_after { record { mode = writing cursor.new; bytes = buf.new }
        ≡ (write_end flags buf.old cursor.old calls.now text.now).output }
    ensures write_agrees { flags < 12 → WriteAgrees (settings_by flags) (decode calls.now text.now)
        buf.old cursor.old result cursor.new buf.new }
    ensures writes_as_counted { WritesAsCounted (count_end flags calls.now text.now) (settings_by flags)
        (decode calls.now text.now) buf.old cursor.old result cursor.new buf.new }
    ensures entries_after { entries.new ≡ (write_end flags buf.old cursor.old calls.now text.now).entries }
    ensures answers_after { answers.new
        ≡ stored answers.old (write_answers flags buf.old cursor.old calls.now text.now) }
    ensures only_between { OnlyBetween buf.old cursor.old buf.new cursor.new }
{
    let r = write(flags, buf, *cursor, calls, text, answers);
    *cursor = r.number;
    *entries = r.entries;
    answer_number(r.answer())
}
