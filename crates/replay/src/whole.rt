// Whole calls: decode whole, escape and check. Rooms are marked and lent, and the answer and what was written become a line.
// tests/replay_whole.py has its form.
use crate::checks::replay_check;
use crate::lent::Rooms;
use crate::lines::{Errors, Text, end_line};
use escaper::{Mode, escape};
use standard::Context;
use std::io;
use std::io::Write;

// A whole call, and where its source stands.
#[derive(Clone, Copy)]
pub(crate) enum Call {
    Decode(Context),
    Escape(Mode),
    Check(Context),
}

impl Call {
    // The call of a record's kind.
    pub(crate) fn of(kind: u8) -> Option<Call> {
        match kind {
            b'T' => Some(Call::Decode(Context::Text)),
            b'A' => Some(Call::Decode(Context::Attribute)),
            b't' => Some(Call::Escape(Mode::Text)),
            b'a' => Some(Call::Escape(Mode::Attribute)),
            b'C' => Some(Call::Check(Context::Text)),
            b'c' => Some(Call::Check(Context::Attribute)),
            _ => None,
        }
    }
}

// ANSWER TEXT ERRORS PLACE HEX CODE@PLACE CODE@PLACE ..
fn replay_decode<W: Write>(
    output: &mut W,
    context: Context,
    source: &[u8],
    rooms: &mut Rooms,
) -> io::Result<()> {
    rooms.mark();
    let decoded = rooms.decode(context, source);
    let written = rooms.written_with(decoded.answer, decoded.text, decoded.errors);
    write!(
        output,
        "{} {} {} {} {}{}",
        decoded.answer,
        decoded.text,
        decoded.errors,
        decoded.place,
        Text(written.text),
        Errors {
            numbers: written.errors,
            with_places: true,
        },
    )?;
    end_line(output, written.touched())
}

// ANSWER TEXT PLACE HEX
fn replay_escape<W: Write>(
    output: &mut W,
    mode: Mode,
    source: &[u8],
    rooms: &mut Rooms,
) -> io::Result<()> {
    rooms.mark();
    let escaped = escape(mode, source, &mut *rooms.text);
    let written = rooms.written_with(escaped.answer, escaped.text, 0);
    write!(
        output,
        "{} {} {} {}",
        escaped.answer,
        escaped.text,
        escaped.place,
        Text(written.text),
    )?;
    end_line(output, written.touched())
}

// A call by its kind; what stands before the source is for check alone.
pub(crate) fn replay_whole<W: Write>(
    output: &mut W,
    kind: u8,
    source: &[u8],
    before: &[u8],
    rooms: &mut Rooms,
) -> io::Result<()> {
    match Call::of(kind) {
        Some(Call::Decode(context)) => replay_decode(output, context, source, rooms),
        Some(Call::Escape(mode)) => {
            // It has no errors, so it is lent no room for them, which would be marked and looked at.
            let mut rooms = Rooms {
                text: &mut *rooms.text,
                errors: &mut [],
            };
            replay_escape(output, mode, source, &mut rooms)
        }
        Some(Call::Check(context)) => replay_check(output, context, source, before, rooms),
        None => output.write_all(b"another kind of record\n"),
    }
}
