// Calls of check, on words and on bytes: the parts of a transcript are lent, and the answer becomes a line.
use crate::lent::Rooms;
use crate::numbers::{short_at, split_within};
use crate::sources::{make_numbers, make_source};
use checker::{Checked, check, check_bytes};
use standard::Context;
use std::io;
use std::io::Write;

// The rows and the errors of a transcript, four bytes a number. Its text stands in the room for text.
#[derive(Clone, Copy)]
struct Numbers<'a> {
    rows: &'a [u8],
    errors: &'a [u8],
}

impl Numbers<'_> {
    fn are_whole(&self) -> bool {
        self.rows.len() % 4 == 0 && self.errors.len() % 4 == 0
    }

    // Makes both kinds in one room, the rows first. Answers how many there are of each.
    fn make(&self, room: &mut [u32]) -> (usize, usize) {
        let rows = make_numbers(room, self.rows);
        let errors = make_numbers(&mut room[rows..], self.errors);
        (rows, errors)
    }

    fn check_words(&self, context: Context, source: &[u8], rooms: &mut Rooms) -> Checked {
        let (rows, errors) = self.make(&mut *rooms.errors);
        let (text, made) = rooms.contents();
        let (rows, made) = split_within(made, rows);
        let (errors, _) = split_within(made, errors);
        check(context, source, rows, text, errors)
    }
}

// A call from bytes that say how many are of rows and errors; then these come, and then the text's. `x` fill up the room for text. The line is
// ANSWER VERDICT ROW PLACE, of a call on bytes or, where these make whole numbers, on words, and tells where the two differ.
pub(crate) fn replay_check<W: Write>(
    output: &mut W,
    context: Context,
    source: &[u8],
    bytes: &[u8],
    rooms: &mut Rooms,
) -> io::Result<()> {
    let Some((lengths, parts)) = bytes.split_first_chunk::<4>() else {
        return output.write_all(b"no transcript\n");
    };
    let (rows, parts) = split_within(parts, usize::from(short_at(lengths, 0)));
    let (errors, own) = split_within(parts, usize::from(short_at(lengths, 2)));
    make_source(&mut *rooms.text, own);
    let numbers = Numbers { rows, errors };
    let by_bytes = check_bytes(context, source, rows, &*rooms.text, errors);
    let by_words = if numbers.are_whole() {
        numbers.check_words(context, source, rooms)
    } else {
        by_bytes
    };
    let end = if by_words == by_bytes { "" } else { " differs" };
    writeln!(
        output,
        "{} {} {} {}{end}",
        by_words.answer, by_words.verdict, by_words.row, by_words.place,
    )
}
