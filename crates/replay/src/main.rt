// Answers cases from standard input, one to a line, by the functions of this repository: a line of
// standard output for each. oracle/README.md has the format.
#![tactic(auto)]

mod coords;
mod deltas;
mod fixed;
mod fvar;
mod glyphs;
mod measures;
mod parse;
mod print;
mod scalars;
mod tables;
mod words;

use arrayvec::ArrayVec;
use parse::Rooms;
use print::Output;
use std::io::Read;
use std::{array, io};
use words::{count, word};

// What has come of a line whose end has not come yet. Behind 65,536 bytes nothing more is kept.
type Line = ArrayVec<u8, 65536>;

// Answers the line. What is no case is answered by a question mark.
fn answer(line: &[u8], rooms: &mut Rooms, out: &mut Output) {
    if answer_case(line, rooms, out).is_none() {
        out.byte(b'?')
    }
    out.byte(b'\n')
}

// Each module that answers cases is asked, until one knows the case and can read it: nothing is put before
// all of a case is read. No case has more than ten words.
fn answer_case(line: &[u8], rooms: &mut Rooms, out: &mut Output) -> Option<()> {
    let ten: [&[u8]; 10] = array::from_fn(|k| word(line, k));
    let words = ten.get(..count(line))?;
    fixed::answer(words, out)
        .or_else(|| deltas::answer(words, rooms, out))
        .or_else(|| measures::answer(words, rooms, out))
        .or_else(|| glyphs::answer(words, rooms, out))
        .or_else(|| tables::answer(words, rooms, out))
        .or_else(|| scalars::answer(words, rooms, out))
        .or_else(|| fvar::answer(words, rooms, out))
        .or_else(|| coords::answer(words, rooms, out))
}

// A line that fills its room is no case: its end is not there.
fn answer_whole(line: &Line, rooms: &mut Rooms, out: &mut Output) {
    answer(
        if line.is_full() { b"" } else { line.as_slice() },
        rooms,
        out,
    )
}

// Takes bytes that were read, and answers each line that they end.
fn feed(bytes: &[u8], line: &mut Line, rooms: &mut Rooms, out: &mut Output) {
    for byte in bytes {
        if *byte == b'\n' {
            answer_whole(line, rooms, out);
            line.clear();
        } else if !line.is_full() {
            line.push(*byte)
        }
    }
}

fn main(rt: HostRuntime) -> io::Result<()> {
    let mut from = rt.stdin();
    let mut out = Output::new(rt.stdout());
    let mut line = ArrayVec::new();
    let mut rooms = Rooms::new();
    // `read` fills an array from its start, and says how far
    let mut bytes = [0; 65536];
    // a proved loop has to end, and nothing says that the input does: no run uses up so many turns
    for _ in 0..u64::MAX {
        let n = from.read(&mut bytes)?;
        if n == 0 {
            break;
        }
        feed(&bytes[..n], &mut line, &mut rooms, &mut out);
        out.flush()?;
    }
    // the last line may lack its end
    if !line.is_empty() {
        answer_whole(&line, &mut rooms, &mut out);
    }
    out.flush()
}
