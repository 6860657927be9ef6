// A row of a transcript, judged by its pieces.
ghost use Rattle.std.specs.Prelude.{◌≡◌, true, ◌≤◌, ◌<◌, ◌+◌, ◌-◌, Some, IfOk, IfErr, IfSome, length, drop};
ghost use Rattle.standard.specs.Names.{records};
ghost use Rattle.standard.specs.Reading.{pieces};
ghost use Rattle.checker.specs.Spans as spec;
ghost use Rattle.checker.specs.Meeting.{row_of, number_of, Joins, ByteRow, IsWithin, IsWrong, LeadsTo};

use crate::classes::character_code;
use crate::lent::{Places, Row, Source, Transcript};
use crate::meeting::{meet_code, meet_codes, meet_text};
use crate::numbers::Numbers;
use crate::pieces::piece_at;
use crate::spans::alike_front;

// Why a row is wrong, or what else is wrong with a transcript: a to e of document 01, by their numbers.
#[derive(Clone, Copy, PartialEq, Eq, Debug)]
pub(crate) enum Reason {
    NoSource = 1,
    NoPieceEnd = 2,
    TextDiffers = 3,
    ErrorsDiffer = 4,
    Remains = 5,
}

impl Reason {
    // Its number.
    pub(crate) fn number(self) -> u32
        ensures { result ≡ number_of self }
    {
        self as u32
    }
}

// The pieces of a row: the place after them, and the places after their text and their errors where these come next.
#[derive(Clone, Copy)]
pub(crate) struct Joint {
    pub at: usize,
    pub text: Option<usize>,
    pub errors: Option<usize>,
}

// Meets the pieces from a row's places on, up to one that reaches end or passes it.
fn meet_pieces<N: Numbers>(
    source: &Source,
    transcript: &Transcript<N>,
    from: Places,
    end: usize,
) -> Joint
    requires order { from.source ≤ end }
    requires there { end ≤ length source.now.covered.now }
    requires within { IsWithin source.now.covered.now transcript.now.text.now (N.list transcript.now.errors) from }
    ensures { Joins (pieces (records source.now.table.now) source.now.context (drop from.source source.now.covered.now))
        from.source (end - from.source) transcript.now.text.now (Some from.text)
        (N.list transcript.now.errors) (Some from.errors) result }
{
    let table = source.table;
    let covered = source.covered;
    let mut at = from.source;
    let mut text = Some(from.text);
    let mut errors = Some(from.errors);
    // A `while` and no `for`: each turn goes on by a run or a piece.
    while at < end {
        if let Some(t) = text {
            let run = alike_front(&covered[at..end], &transcript.text[t..]);
            if run != 0 {
                at += run;
                text = Some(t + run);
                continue;
            }
        }
        let piece = piece_at(table, source.context, covered, at);
        if let Some(t) = text {
            text = meet_text(transcript.text, t, piece.reference);
        }
        // No `and_then` here: a proof isn't told what a closure gives that calls by the bound `Numbers`.
        if let Some(e) = errors {
            errors = meet_codes(transcript.errors, e, piece.unclosed, piece.code, at as u32);
        }
        at += piece.size;
    }
    Joint { at, text, errors }
}

// Whether a row is of bytes that the text has too, each a piece without an error.
fn plain_row(covered: &[u8], text: &[u8], from: Places, row: Row) -> bool
    requires source { from.source + row.source ≤ length covered.now }
    requires text { from.text ≤ length text.now }
    ensures { result ≡ true → spec.PlainRow covered.now from.source row.source text.now from.text row.text row.errors }
{
    if (row.source != row.text) | (row.errors != 0) {
        return false;
    }
    let size = row.source as usize;
    alike_front(
        &covered[from.source..from.source + size],
        &text[from.text..],
    ) == size
}

// An ASCII character that stands for itself, with an error or without.
fn lone(b: u8) -> bool
    ensures { result ≡ spec.lone b }
{
    (b < 0x80) & (b != b'\r') & (b != b'&')
}

// Where a row is one lone character that the text has too, and its error, if any, is the next: the place after that.
fn byte_row<N: Numbers>(
    source: &Source,
    transcript: &Transcript<N>,
    from: Places,
    row: Row,
) -> Option<usize>
    requires source { from.source + row.source ≤ length source.now.covered.now }
    requires errors { from.errors ≤ length (N.list transcript.now.errors) }
    ensures { IfSome result (λ end. ByteRow source.now.covered.now from.source row.source transcript.now.text.now
        from.text row.text (N.list transcript.now.errors) from.errors row.errors end) }
{
    if (row.source != 1) | (row.text != 1) {
        return None;
    }
    let b = source.covered[from.source];
    if !lone(b) {
        return None;
    }
    if transcript.text.get(from.text) != Some(&b) {
        return None;
    }
    let code = character_code(u32::from(b));
    let end = meet_code(transcript.errors, from.errors, code, from.source as u32)?;
    if end - from.errors != 2 * row.errors as usize {
        return None;
    }
    Some(end)
}

// Judges a row from its places on: why it is wrong, or the places after it.
pub(crate) fn judge_row<N: Numbers>(
    source: &Source,
    transcript: &Transcript<N>,
    from: Places,
    row: Row,
) -> Result<Places, Reason>
    requires { IsWithin source.now.covered.now transcript.now.text.now (N.list transcript.now.errors) from }
    ensures wrong { IfErr result (λ reason. IsWrong (records source.now.table.now) source.now.context source.now.covered.now
        transcript.now.text.now (N.list transcript.now.errors) from (row_of row) reason) }
    ensures right { IfOk result (λ end. LeadsTo (records source.now.table.now) source.now.context source.now.covered.now
        transcript.now.text.now (N.list transcript.now.errors) from (row_of row) end) }
{
    let size = row.source as usize;
    if size == 0 {
        return Err(Reason::NoSource);
    }
    if source.covered.len() - from.source < size {
        return Err(Reason::NoSource);
    }
    if let Some(errors) = byte_row(source, transcript, from, row) {
        return Ok(Places {
            source: from.source + 1,
            text: from.text + 1,
            errors,
        });
    }
    if plain_row(source.covered, transcript.text, from, row) {
        return Ok(Places {
            source: from.source + size,
            text: from.text + size,
            errors: from.errors,
        });
    }
    let joint = meet_pieces(source, transcript, from, from.source + size);
    if joint.at != from.source + size {
        return Err(Reason::NoPieceEnd);
    }
    let text = joint.text.ok_or(Reason::TextDiffers)?;
    if text - from.text != row.text as usize {
        return Err(Reason::TextDiffers);
    }
    let errors = joint.errors.ok_or(Reason::ErrorsDiffer)?;
    if errors - from.errors != 2 * row.errors as usize {
        return Err(Reason::ErrorsDiffer);
    }
    Ok(Places {
        source: joint.at,
        text,
        errors,
    })
}
