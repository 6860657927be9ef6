// An example of the stream: decodes text from standard input in chunks, with rooms that are soon full, and writes a line for each call. What it must
// write for its stdin is made from a model of document 01 (tests/chunks.py).
#![tactic(auto)]

ghost use Rattle.std.specs.Prelude.{◌+◌, ◌*◌, ◌≤◌, ◌≡◌, length, IfOk};

use decoder::{Fed, Stream};
use input::read_full;
use standard::Context;
use std::io;
use std::io::{Read, Write};

// Arrays of these lengths are lent: nothing here needs a heap.
const CHUNK: usize = 24;

const TEXT_ROOM: usize = 80;

const NUMBERS_ROOM: usize = 16;

// Two of the answers, which are numbers as in document 01.
const ALL_TAKEN: u32 = 0;

const ROOM_USED_UP: u32 = 6;

// The line of a call, with what it wrote into its rooms: ANSWER TAKEN [TEXT] CODE@PLACE ..
fn show<W: Write>(output: &mut W, fed: Fed, text: &[u8], errors: &[u32]) -> io::Result<()>
    requires text_in_bounds { fed.text ≤ length text.now }
    requires errors_in_bounds { 2 * fed.errors ≤ length errors.now }
{
    let (errors, _) = errors[..2 * fed.errors as usize].as_chunks::<2>();
    write!(output, "{} {} [", fed.answer, fed.taken)?;
    output.write_all(&text[..fed.text as usize])?;
    write!(output, "]")?;
    for [code, place] in errors {
        write!(output, " {code}@{place}")?;
    }
    writeln!(output)
}

// Feeds a chunk, and what answer 6 leaves of it again. Where the last answer is 0, all of it was taken.
fn feed_all<W: Write>(output: &mut W, mut stream: Stream, chunk: &[u8]) -> io::Result<Fed>
    ensures { IfOk result (λ fed. fed.answer ≡ 0 → fed.«record».taken ≡ stream.taken + length chunk.now) }
{
    let mut text = [0; TEXT_ROOM];
    let mut errors = [0; NUMBERS_ROOM];
    let mut rest = chunk;
    // A `loop` and no `chunks`: how much is taken is the stream's answer.
    loop {
        let fed = stream.feed(rest, &mut text, &mut errors);
        show(output, fed, &text, &errors)?;
        if fed.answer != ROOM_USED_UP {
            return Ok(fed);
        }
        rest = &rest[fed.taken as usize..];
        stream = fed.record;
    }
}

// The source ends: what is still held is written.
fn end<W: Write>(output: &mut W, stream: Stream) -> io::Result<Fed> {
    let mut text = [0; TEXT_ROOM];
    let mut errors = [0; NUMBERS_ROOM];
    let fed = stream.end(&mut text, &mut errors);
    show(output, fed, &text, &errors)?;
    Ok(fed)
}

// Decodes what a reader has. Hands back the call that ends it: `end`, or a chunk that closed the stream or was refused.
fn decode<R: Read, W: Write>(
    reader: &mut R,
    output: &mut W,
    mut stream: Stream,
) -> io::Result<Fed> {
    let mut chunk = [0; CHUNK];
    // A `loop`: each call is handed the record of the one before, and the last answer ends it.
    loop {
        let count = read_full(reader, &mut chunk)?;
        if count == 0 {
            return end(output, stream);
        }
        let fed = feed_all(output, stream, &chunk[..count])?;
        if fed.answer != ALL_TAKEN {
            return Ok(fed);
        }
        stream = fed.record;
    }
}

fn main(rt: HostRuntime) -> io::Result<()> {
    let mut output = io::writer(&rt);
    let fed = decode(&mut rt.stdin(), &mut output, Stream::new(Context::Text))?;
    writeln!(output, "answer {}, place {}", fed.answer, fed.place)
}
