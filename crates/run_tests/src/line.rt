// A line read: its head, and its calls as the words of a run.
use calls::Settings;
use fields::{first_field, from_hex, later_fields, number};
use formatting::FormattingFlags;
use lines::MAX_LINE;

// What is done with a run.
#[derive(Clone, Copy)]
pub(crate) enum Word {
    Show,
    Both,
    Add,
    Count,
    Write,
    Each,
    Calls,
}

// A run: the settings and the number N of its head, its calls at five words each, and their texts.
#[derive(Clone, Copy)]
pub(crate) struct Run<'a> {
    pub settings: Settings,
    pub n: usize,
    pub calls: &'a [u64],
    pub text: &'a [u8],
}

// What `WORD` says.
fn read_word(field: &[u8]) -> Option<Word> {
    match field {
        b"show" => Some(Word::Show),
        b"both" => Some(Word::Both),
        b"add" => Some(Word::Add),
        b"count" => Some(Word::Count),
        b"write" => Some(Word::Write),
        b"each" => Some(Word::Each),
        b"calls" => Some(Word::Calls),
        _ => None,
    }
}

// `WORD,FLAGS,N,NAME`: the word, the run with these calls, and the name.
fn read_head<'a>(
    head: &'a [u8],
    calls: &'a [u64],
    text: &'a [u8],
) -> Option<(Word, Run<'a>, &'a [u8])> {
    let fields = later_fields(head);
    let rest = later_fields(fields);
    let word = read_word(first_field(head))?;
    let flags = FormattingFlags::try_from(number(first_field(fields), u64::MAX)?).ok()?;
    let n = number(first_field(rest), u64::MAX)? as usize;
    let run = Run {
        settings: Settings { flags },
        n,
        calls,
        text,
    };
    Some((word, run, later_fields(rest)))
}

// The first word of a call by its name. It stays a number: a run is lent its calls as C has them, by
// client/table_text.h; 21 is the first number that is no call.
fn first_word(name: &[u8]) -> Option<u64> {
    Some(match name {
        b"open_struct" => 0,
        b"open_tuple" => 1,
        b"open_list" => 2,
        b"open_set" => 3,
        b"field" => 4,
        b"tuple_field" => 5,
        b"entry" => 6,
        b"finish" => 7,
        b"sub_formatter" => 8,
        b"end_formatter" => 9,
        b"str" => 10,
        b"str_debug" => 11,
        b"ascii" => 12,
        b"ascii_debug" => 13,
        b"char" => 14,
        b"char_debug" => 15,
        b"repeated" => 16,
        b"unsigned" => 17,
        b"unsigned_debug" => 18,
        b"signed" => 19,
        b"signed_debug" => 20,
        b"no_call" => 21,
        _ => return None,
    })
}

// A field that is left out is 0.
fn number_or_0(field: &[u8]) -> Option<u64> {
    if field.is_empty() {
        return Some(0);
    }
    number(field, u64::MAX)
}

// The words of the call `NAME,TEXT,A,B`, whose text is read to a place of the pool of texts.
fn read_call(call: &[u8], pool: &mut [u8], start: usize) -> Option<[u64; 5]> {
    let fields = later_fields(call);
    let numbers = later_fields(fields);
    let first = first_word(first_field(call))?;
    let len = from_hex(first_field(fields), pool.get_mut(start..)?)?;
    let a = number_or_0(first_field(numbers))?;
    let b = number_or_0(later_fields(numbers))?;
    Some([first, start as u64, len as u64, a, b])
}

// Reads the calls of a line, each behind a semicolon, to the beginning of `words`, and their texts
// one behind another to `pool`: the words of the calls, if each has the form of one and there is room.
fn read_calls<'a>(calls: &[u8], words: &'a mut [u64], pool: &mut [u8]) -> Option<&'a [u64]> {
    let n = calls.iter().filter(|b| **b == b';').count();
    let words = words.get_mut(..n.checked_mul(5)?)?;
    let mut start = 0usize;
    for (call, to) in calls
        .split(|b| *b == b';')
        .skip(1)
        .zip(words.chunks_exact_mut(5))
    {
        let read = read_call(call, pool, start)?;
        start = start.checked_add(read[2] as usize)?;
        to.copy_from_slice(&read);
    }
    Some(words)
}

// Reads a line, with room for its words and its texts: what is done, the run, and its name.
pub(crate) fn read_line<'a>(
    line: &'a [u8],
    words: &'a mut [u64],
    pool: &'a mut [u8],
) -> Option<(Word, Run<'a>, &'a [u8])> {
    if MAX_LINE < line.len() {
        return None;
    }
    let n = line.iter().position(|b| *b == b';').unwrap_or(line.len());
    let (head, calls) = line.split_at(n);
    let calls = read_calls(calls, words, pool)?;
    read_head(head, calls, pool)
}
