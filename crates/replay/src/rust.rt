// The Rust's sample: a source is decoded or escaped with rooms that are never short, and what was written becomes a line. oracle/sample has its form.
use crate::lent::{Rooms, Written};
use crate::lines::{Errors, Hex};
use crate::whole::Call;
use escaper::escape;
use std::io;
use std::io::Write;

// HEX CODE CODE ..; the Rust refuses nothing, and so an answer other than 0 and 7 has a line of its own.
fn put_answer<W: Write>(output: &mut W, answer: u32, written: Written) -> io::Result<()> {
    match answer {
        0 | 7 => writeln!(
            output,
            "{}{}",
            Hex(written.text),
            Errors {
                numbers: written.errors,
                with_places: false,
            },
        ),
        _ => output.write_all(b"refused\n"),
    }
}

// A call by its kind.
pub(crate) fn replay_rust<W: Write>(
    output: &mut W,
    kind: u8,
    source: &[u8],
    rooms: &mut Rooms,
) -> io::Result<()> {
    match Call::of(kind) {
        Some(Call::Decode(context)) => {
            let decoded = rooms.decode(context, source);
            put_answer(
                output,
                decoded.answer,
                rooms.written(decoded.text, decoded.errors),
            )
        }
        Some(Call::Escape(mode)) => {
            let escaped = escape(mode, source, &mut *rooms.text);
            put_answer(output, escaped.answer, rooms.written(escaped.text, 0))
        }
        _ => output.write_all(b"another kind of record\n"),
    }
}
