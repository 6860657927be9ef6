// A whole source at once.
ghost use Rattle.std.specs.Prelude.{◌≡◌, ◌≤◌, ◌<◌, ◌+◌, ◌*◌, ◌/◌, length};
ghost use Rattle.standard.specs.NameList.{builtin};
ghost use Rattle.standard.specs.Reading.{decode};
ghost use Rattle.decoder.specs.Writing.{WroteBy, Advances, unread_of, end_named, ReadCovered};
ghost use Rattle.decoder.specs.Whole.{DecodesBy, Decodes, DecodesBytes};

use crate::laying::Laid;
use crate::pieces::piece_at;
use crate::skimming::copy_run;
use crate::stops::find_stop;
use crate::writers::{Ends, Reached, put_piece};
use standard::Context;

// The answer, text bytes written (or asked for, with 9), errors written, and place.
#[derive(Clone, Copy, PartialEq, Eq, Debug)]
pub struct Decoded {
    pub answer: u32,
    pub text: u32,
    pub errors: u32,
    pub place: u32,
}

// Copies the plain bytes from `at` on, and writes the piece after them, if there is one.
fn decode_next(
    context: Context,
    s: &[u8],
    at: usize,
    text: &mut [u8],
    errors: &mut [u32],
    ends: Ends,
) -> Reached
    requires { (length s.now ≤ 65536) × (at < length s.now)
        × (ends.text + 64 ≤ length text.old) × (ends.errors + 4 ≤ length errors.old) }
    ensures { Advances context s.now at result.at text.old ends.text text.new result.ends.text
        errors.old ends.errors errors.new result.ends.errors }
{
    let run = copy_run(context, s, at, text, ends.text);
    let from = run.at;
    let ends = Ends {
        text: run.text,
        ..ends
    };
    if from == s.len() {
        return Reached { at: from, ends };
    }
    let piece = piece_at(context, &s[from..]);
    Reached {
        at: from + piece.size,
        ends: put_piece(text, errors, ends, piece, from as u32),
    }
}

// Writes the reading of a covered source. The errors of one piece are few, and are laid from an array.
fn decode_pieces<T: Laid>(context: Context, s: &[u8], text: &mut [u8], errors: &mut [T]) -> Ends
    requires { (length s.now ≤ 65536) × (length s.now + 64 ≤ length text.old) × (T.EACH * (2 * length s.now + 8) ≤ length errors.old) }
    ensures { WroteBy T.lay (decode builtin context s.now) text.old 0 text.new result.text
        errors.old 0 errors.new result.errors }
{
    let mut few: [u32; 4] = [0; 4];
    let mut at: usize = 0;
    let mut ends = Ends::NONE;
    // A `while` and no `for`: each turn goes on by a run and a piece.
    while at < s.len() {
        let start = Ends { errors: 0, ..ends };
        let next = decode_next(context, s, at, text, &mut few, start);
        at = next.at;
        ends.text = next.ends.text;
        if next.ends.errors != 0 {
            ends.errors = T::put(&few[..next.ends.errors], errors, ends.errors);
        }
    }
    ends
}

// The answer before anything is written: 3, then 9, then why the source stops, and where, also where it is read to its end. No Result: with 0 and 7
// the answer and the place are handed on, too.
fn unread(context: Context, source: &[u8], text: usize, errors: usize) -> Decoded
    ensures { result ≡ unread_of context source.now text errors }
{
    let length = source.len();
    if 65536 < length {
        return Decoded {
            answer: 3,
            text: 0,
            errors: 0,
            place: 0,
        };
    }
    let short = (text < length + 64) | (errors < 2 * length + 8);
    if short {
        return Decoded {
            answer: 9,
            text: (length + 64) as u32,
            errors: 0,
            place: 0,
        };
    }
    let stop = find_stop(context, source);
    Decoded {
        answer: stop.answer,
        text: 0,
        errors: 0,
        place: stop.place as u32,
    }
}

// The place that is named where a covered part of so many bytes is read: its end, where that is the context's.
fn end_named(answer: u32, length: usize) -> u32
    requires { length ≤ 65536 }
    ensures { result ≡ end_named answer length }
{
    if answer == 7 {
        return length as u32;
    }
    0
}

// Writes the reading of a covered part, and answers so.
fn read_covered<T: Laid>(
    context: Context,
    s: &[u8],
    text: &mut [u8],
    errors: &mut [T],
    answer: u32,
) -> Decoded
    requires { (length s.now ≤ 65536) × (length s.now + 64 ≤ length text.old) × (T.EACH * (2 * length s.now + 8) ≤ length errors.old) }
    ensures { ReadCovered T.lay context s.now answer text.old errors.old
        result text.new errors.new }
{
    let ends = decode_pieces(context, s, text, errors);
    Decoded {
        answer,
        text: ends.text as u32,
        errors: (ends.errors / T::EACH / 2) as u32,
        place: end_named(answer, s.len()),
    }
}

// Text and errors of a whole source, in an error room of either kind.
fn decode<T: Laid>(context: Context, source: &[u8], text: &mut [u8], errors: &mut [T]) -> Decoded
    ensures { DecodesBy T.lay (length errors.old / T.EACH) context source.now text.old errors.old
        result text.new errors.new }
{
    let stop = unread(context, source, text.len(), errors.len() / T::EACH);
    let readable = (stop.answer == 0) | (stop.answer == 7);
    if !readable {
        return stop;
    }
    let covered = &source[..stop.place as usize];
    read_covered(context, covered, text, errors, stop.answer)
}

// Text and errors of a whole source.
pub fn decode_whole(context: Context, source: &[u8], text: &mut [u8], errors: &mut [u32]) -> Decoded
    ensures { Decodes context source.now text.old errors.old result text.new errors.new }
{
    decode(context, source, text, errors)
}

// The same where the error room is bytes, four a number, the lowest first.
pub fn decode_bytes(context: Context, source: &[u8], text: &mut [u8], errors: &mut [u8]) -> Decoded
    ensures { DecodesBytes context source.now text.old errors.old result text.new
        errors.new }
{
    decode(context, source, text, errors)
}
