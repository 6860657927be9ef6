// The stream: a record's runs, and the line that they make. tests/replay_stream.py has their form.
ghost use Rattle.std.specs.Iterator.{IsFinite};

use crate::lent::Rooms;
use crate::lines::end_line;
use crate::sources::context_of;
use crate::stream_calls::{Calls, Show, Tally};
use crate::streams::{STREAM_BYTES, Shown, read_stream};
use standard::Context;
use std::io;
use std::io::Write;
use std::iter::repeat_n;

// The source in one way with the least rooms, not shown: its four digits, the high half of the sum. The tally of all ways takes it in.
fn replay_way<W: Write, I: Iterator<Item = usize>>(
    output: &mut W,
    context: Context,
    source: &[u8],
    lengths: I,
    all: &mut Tally,
) -> io::Result<()>
    requires can { I.can_next lengths }
    requires ends { IsFinite (I.remaining lengths) }
{
    let mut text = [0; 64];
    let mut errors = [0; 8];
    let mut rooms = Rooms {
        text: &mut text,
        errors: &mut errors,
    };
    rooms.mark();
    let mut calls = Calls {
        output: &mut *output,
        rooms: &mut rooms,
        show: Show::Hidden,
        tally: Tally::default(),
    };
    calls.run(context, source, lengths)?;
    let tally = calls.tally;
    write!(output, "{:04x}", tally.sum.0 / 65536)?;
    all.take_in(tally);
    Ok(())
}

// DIGITS CALLS SUM, after a space: the source cut at every place, and byte by byte.
fn replay_ways<W: Write>(output: &mut W, context: Context, source: &[u8]) -> io::Result<Tally> {
    let size = source.len();
    let mut all = Tally::default();
    output.write_all(b" ")?;
    for cut in 0..=size {
        replay_way(output, context, source, [cut, size].into_iter(), &mut all)?;
    }
    replay_way(output, context, source, repeat_n(1, size), &mut all)?;
    write!(output, " {} {}", all.calls, all.sum.0)?;
    Ok(all)
}

// | CALL | CALL .. | STREAM, and the end of the line: the source in chunks of given lengths, two bytes each. The tally is that of calls before.
fn replay_given<W: Write>(
    output: &mut W,
    context: Context,
    source: &[u8],
    lengths: &[u8],
    rooms: &mut Rooms,
    tally: Tally,
) -> io::Result<()> {
    let mut calls = Calls {
        output: &mut *output,
        rooms: &mut *rooms,
        show: Show::Bare,
        tally,
    };
    let (lengths, _) = lengths.as_chunks::<2>();
    let stream = calls.run(
        context,
        source,
        lengths
            .iter()
            .map(|length| usize::from(u16::from_le_bytes(*length))),
    )?;
    let touched = calls.tally.touched;
    write!(output, " | {}", Shown(stream))?;
    end_line(output, touched)
}

// | CALL STREAM | CALL STREAM | CALL STREAM: a stream as the record has it is ended, and fed a chunk and ended.
fn replay_forged<W: Write>(
    output: &mut W,
    chunk: &[u8],
    forged: &[u8],
    rooms: &mut Rooms,
) -> io::Result<()> {
    let Some(forged) = forged.first_chunk::<STREAM_BYTES>() else {
        return output.write_all(b" cut short\n");
    };
    let stream = read_stream(forged);
    let mut calls = Calls {
        output: &mut *output,
        rooms: &mut *rooms,
        show: Show::Full,
        tally: Tally::default(),
    };
    calls.end(stream)?;
    let fed = calls.feed(stream, chunk)?;
    calls.end(fed.record)?;
    let touched = calls.tally.touched;
    end_line(output, touched)
}

// A record by its kind; `before` has the lengths of chunks or a stream.
pub(crate) fn replay_stream<W: Write>(
    output: &mut W,
    kind: u8,
    source: &[u8],
    before: &[u8],
    rooms: &mut Rooms,
) -> io::Result<()> {
    output.write_all(&[kind])?;
    rooms.mark();
    match kind {
        b'T' | b'A' => {
            let context = context_of(kind);
            let tally = replay_ways(output, context, source)?;
            replay_given(output, context, source, before, rooms, tally)
        }
        b't' | b'a' => {
            let context = context_of(kind);
            replay_given(output, context, source, before, rooms, Tally::default())
        }
        b'R' => replay_forged(output, source, before, rooms),
        _ => output.write_all(b" is another kind of record\n"),
    }
}
