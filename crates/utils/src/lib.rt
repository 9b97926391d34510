// Ranges and boundaries (utils.rs, __hidden_utils.rs).
#![tactic(auto)]

ghost use Rattle.std.specs.Prelude.{◌≡◌, take};
ghost use Rattle.utils.specs.Text.{saturated, is_boundary};

// The places from start to before end, as std's ops::Range has them, but Copy: the calls of a run
// hold it and are copied.
#[derive(Clone, Copy, Debug, PartialEq, Eq)]
pub struct Range {
    pub start: usize,
    pub end: usize,
}

// The range with its end at most the length of s and its start at most its end.
pub fn saturate_range(s: &[u8], range: Range) -> Range
    ensures { result ≡ saturated s.now range }
{
    let end = range.end.min(s.len());
    let start = range.start.min(end);
    Range { start, end }
}

// The first len bytes of slice, or all of it.
pub fn slice_up_to_len(slice: &[u8], len: usize) -> &[u8]
    ensures { result.now ≡ take len slice.now }
{
    slice.get(..len).unwrap_or(slice)
}

// Whether index is a boundary of s. An index past the end is none.
pub fn is_char_boundary(s: &[u8], index: usize) -> bool
    ensures { result ≡ is_boundary s.now index }
{
    match s.get(index) {
        Some(b) => *b < 0x80 || 0xBF < *b,
        None => index == s.len(),
    }
}
