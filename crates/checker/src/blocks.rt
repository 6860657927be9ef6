// Rows in blocks: 32 rows of one plain byte each are judged at once.
ghost use Rattle.std.specs.Prelude.{◌≡◌, true, ◌≤◌, ◌<◌, ◌+◌, ◌^◌, length};
ghost use Rattle.checker.specs.Spans.{unit_row, UnitRows, PlainRows};

use crate::lent::{Places, Row, Transcript, row_at};
use crate::numbers::Numbers;
use crate::spans::alike_block;

// A row of one source byte, one text byte and no errors.
fn unit(row: Row) -> bool
    ensures { result ≡ unit_row row.source row.text row.errors }
{
    (row.source == 1) & (row.text == 1) & (row.errors == 0)
}

// Whether the 32 rows from first on have one source byte, one text byte and no errors each.
fn unit_rows<N: Numbers>(rows: N, first: usize) -> bool
    requires there { first + 96 ≤ length (N.list rows) }
    requires fits { first + 96 < 2 ^ 64 }
    ensures { result ≡ true → UnitRows (N.list rows) first 32 }
{
    let mut all = true;
    // By an index: `Numbers` has the number at a place, and no iterator.
    for i in 0..32usize {
        all &= unit(row_at(rows, first + 3 * i));
    }
    all
}

// How many rows from first on, in blocks of 32, are one byte each that the text has too.
pub(crate) fn plain_rows<N: Numbers>(
    covered: &[u8],
    transcript: &Transcript<N>,
    from: Places,
    first: usize,
) -> usize
    requires rows { first ≤ length (N.list transcript.now.rows) }
    requires source { from.source ≤ length covered.now }
    requires text { from.text ≤ length transcript.now.text.now }
    ensures { PlainRows (N.list transcript.now.rows) first covered.now from.source transcript.now.text.now from.text result }
{
    let source = &covered[from.source..];
    let text = &transcript.text[from.text..];
    let numbers = transcript.rows.count() - first;
    // By one count: rows, source and text go on by it alike.
    let mut i: usize = 0;
    while (96 <= numbers - 3 * i) && (32 <= source.len() - i) && (32 <= text.len() - i) {
        if !unit_rows(transcript.rows, first + 3 * i) {
            return i;
        }
        if !alike_block(&source[i..i + 32], &text[i..i + 32]) {
            return i;
        }
        i += 32;
    }
    i
}
