// Call sheets read from the files that the arguments name, by the loop of the program `call_sheet`.
// A line with the file's name stands before what its sheet prints. Behind the argument `closed` the
// sheets are answered on a file that is open for reading only, behind `full` on a device that is
// full, and what is printed is how many bytes of the file were not read.
#![tactic(auto)]

use fields::put_number;
use sheet_stream::play;
use std::env::{Env, FillError};
use std::fs::File;
use std::io::{self, Read, Write};
use std::rt::Files;
use str_writer::write_ascii;
use utils::slice_up_to_len;

// How many bytes are left to read, at most 131,072.
fn unread<R: Read>(input: &mut R) -> u64 {
    let mut space = [0u8; 131072];
    let mut n = 0;
    // Each turn reads a byte or more, so that so many turns are enough.
    for _ in 0..space.len() {
        if n >= space.len() {
            break;
        }
        let more = input.read(&mut space[n..]).unwrap_or(0);
        if more == 0 {
            break;
        }
        n += more;
    }
    n as u64
}

// Lays a text, a name and a line feed.
fn lay_name(out: &mut [u8], s: &[u8], name: &[u8]) -> usize {
    let at = write_ascii(out, 0, s).unwrap_or(0);
    let at = write_ascii(out, at, name).unwrap_or(at);
    write_ascii(out, at, b"\n").unwrap_or(at)
}

// Where the sheets behind the word `closed` or `full` are answered, so that each write fails; None
// at another word.
fn output_of<R: Files>(rt: &R, word: &[u8]) -> io::Result<Option<R::File>> {
    match word {
        b"closed" => Ok(Some(File::open(rt, "/dev/null")?)),
        b"full" => Ok(Some(File::create(rt, "/dev/full")?)),
        _ => Ok(None),
    }
}

// The file of a name, open for reading.
fn opened<R: Files>(rt: &R, path: &[u8]) -> Option<R::File> {
    let name = str::from_utf8(path).ok()?;
    File::open(rt, name).ok()
}

// Plays the sheet of a file, on standard output where no other output is given, and lays what is to
// be printed behind it.
fn played<R: Files + Print>(
    rt: &R,
    path: &[u8],
    output: &mut Option<R::File>,
    out: &mut [u8],
) -> usize {
    let Some(mut input) = opened(rt, path) else {
        return lay_name(out, b"not opened: ", path);
    };
    let Some(file) = output else {
        let _ = play(&mut input, &mut io::writer(rt));
        return 0;
    };
    // A write that failed shows in how much is left to read.
    let _ = play(&mut input, file);
    let left = unread(&mut input);
    let at = put_number(out, 0, left, b' ').unwrap_or(0);
    write_ascii(out, at, b"bytes are not read\n").unwrap_or(at)
}

fn main(rt: HostRuntime) -> io::Result<()> {
    let mut output_bytes = [0u8; 8192];
    let out: &mut [u8] = &mut output_bytes;
    let mut output = None;
    for i in 1..usize::MAX {
        let mut word = [0u8; 4096];
        let path: &[u8] = match rt.arg(i, &mut word) {
            Ok(length) => &word[..length],
            Err(FillError::TooLong) => &[],
            Err(FillError::NotPresent) => break,
        };
        let next = output_of(&rt, path)?;
        if next.is_some() {
            output = next;
            continue;
        }
        let named = lay_name(out, b"== ", path);
        rt.write_all(slice_up_to_len(out, named))?;
        let end = played(&rt, path, &mut output, out);
        rt.write_all(slice_up_to_len(out, end))?;
    }
    Ok(())
}
