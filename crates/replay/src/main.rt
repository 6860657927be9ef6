// Replays calls: lists of records come in, and a line for each record goes out. Before a list stand its letter and, in four bytes, its length: W for
// whole calls (tests/replay_whole.py has the forms of records and lines), S for the stream (tests/replay_stream.py), B for the bench program's inputs
// (tests/replay_bench.py), whose reports follow their lines, R for the Rust's sample (oracle/sample). What can't be replayed has a line that says so.
#![tactic(auto)]

mod checks;
mod lent;
mod lines;
mod numbers;
mod records;
mod reports;
mod rust;
mod sources;
mod stream;
mod stream_calls;
mod streams;
mod sums;
mod whole;

use input::read_full;
use numbers::number_at;
use records::{HEAD, Head, replay_record};
use std::io;
use std::io::{Read, Write};

// How many lists are replayed at most.
const MOST_LISTS: usize = 1000;

// What a list has.
#[derive(Clone, Copy)]
pub(crate) enum List {
    Whole,
    Stream,
    Bench,
    Sample,
}

impl List {
    fn of(letter: u8) -> Option<List> {
        match letter {
            b'W' => Some(List::Whole),
            b'S' => Some(List::Stream),
            b'B' => Some(List::Bench),
            b'R' => Some(List::Sample),
            _ => None,
        }
    }
}

// Why no more lists are replayed.
#[derive(Clone, Copy)]
enum End {
    NothingLeft,
    HeadCutShort,
    TooLong,
    CutShort,
    Most,
}

impl End {
    // The line that says so.
    fn line(self) -> &'static str {
        match self {
            End::NothingLeft => "",
            End::HeadCutShort => "a list's head is cut short\n",
            End::TooLong => "a list is too long\n",
            End::CutShort => "a list is cut short\n",
            End::Most => "more lists may follow\n",
        }
    }
}

// Replays each record of a list. One that is cut short ends it, with a line that says so.
fn replay_records<W: Write>(
    output: &mut W,
    list: List,
    records: &[u8],
    source: &mut [u8],
    text: &mut [u8],
    errors: &mut [u32],
) -> io::Result<()> {
    let mut left = records;
    while let Some((head, rest)) = left.split_first_chunk::<HEAD>() {
        let head = Head::read(head);
        let Some((rest, next)) = rest.split_at_checked(head.rest) else {
            break;
        };
        replay_record(output, list, head, rest, source, text, errors)?;
        left = next;
    }
    if left.is_empty() {
        Ok(())
    } else {
        output.write_all(b"a record is cut short\n")
    }
}

// Replays a list, with rooms for its records: arrays and no `Vec`, as no program here has a heap.
fn replay_list<W: Write>(output: &mut W, list: List, records: &[u8]) -> io::Result<()> {
    let mut source = [0u8; 66000];
    let mut text = [0u8; 400000];
    let mut errors = [0u32; 140000];
    replay_records(output, list, records, &mut source, &mut text, &mut errors)
}

// Reads the next head and its list into a buffer, and replays it. Answers why no more are replayed, if so.
fn replay_next<R: Read, W: Write>(
    reader: &mut R,
    output: &mut W,
    buffer: &mut [u8],
) -> io::Result<Option<End>> {
    let mut head = [0u8; 5];
    match read_full(reader, &mut head)? {
        0 => return Ok(Some(End::NothingLeft)),
        5 => {}
        _ => return Ok(Some(End::HeadCutShort)),
    }
    let size = number_at(&head, 1) as usize;
    if buffer.len() < size {
        return Ok(Some(End::TooLong));
    }
    if read_full(reader, &mut buffer[..size])? < size {
        return Ok(Some(End::CutShort));
    }
    match List::of(head[0]) {
        Some(list) => replay_list(output, list, &buffer[..size])?,
        None => output.write_all(b"another kind of list\n")?,
    }
    Ok(None)
}

// Replays lists until nothing is left, or as many as are replayed at most.
fn replay_lists<R: Read, W: Write>(
    reader: &mut R,
    output: &mut W,
    buffer: &mut [u8],
) -> io::Result<End> {
    for _ in 0..MOST_LISTS {
        if let Some(end) = replay_next(reader, output, buffer)? {
            return Ok(end);
        }
    }
    Ok(End::Most)
}

fn main(rt: HostRuntime) -> io::Result<()> {
    let mut buffer = [0u8; 1000000];
    let mut output = io::writer(&rt);
    let end = replay_lists(&mut rt.stdin(), &mut output, &mut buffer)?;
    write!(output, "{}", end.line())
}
