// What is lent to the check: a source and its transcript, and the places in them where a row begins or ends.
ghost use Rattle.std.specs.Prelude.{◌≡◌, ◌≤◌, ◌<◌, ◌+◌, ◌^◌, length, get_or};

use crate::numbers::Numbers;
use standard::Context;

// The covered part of a source, with its context and the table of names.
#[derive(Clone, Copy)]
pub(crate) struct Source<'a> {
    pub table: &'a [u8],
    pub context: Context,
    pub covered: &'a [u8],
    ghost short: { length covered.now ≤ 65536 },
}

// A transcript: its rows, each three numbers, its text, and its errors, each two numbers.
#[derive(Clone, Copy)]
pub(crate) struct Transcript<'a, N> {
    pub rows: N,
    pub text: &'a [u8],
    pub errors: N,
}

// A row: how many source bytes, text bytes and errors it has.
#[derive(Clone, Copy)]
pub(crate) struct Row {
    pub source: u32,
    pub text: u32,
    pub errors: u32,
}

// Places in a source, its text and its errors.
#[derive(Clone, Copy, PartialEq, Eq)]
pub(crate) struct Places {
    pub source: usize,
    pub text: usize,
    pub errors: usize,
}

// The row whose numbers begin at `first`.
pub(crate) fn row_at<N: Numbers>(rows: N, first: usize) -> Row
    requires there { first + 3 ≤ length (N.list rows) }
    requires fits { first + 3 < 2 ^ 64 }
    ensures source { result.source ≡ get_or (N.list rows) first 0 }
    ensures text { result.text ≡ get_or (N.list rows) (first + 1) 0 }
    ensures errors { result.errors ≡ get_or (N.list rows) (first + 2) 0 }
{
    Row {
        source: rows.number_at(first),
        text: rows.number_at(first + 1),
        errors: rows.number_at(first + 2),
    }
}
