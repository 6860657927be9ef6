// A chunk where nothing is held: runs are copied, and other characters that stand for themselves and references that end in their own `;` are
// written, without a look at the record.
ghost use Rattle.std.specs.Prelude.{◌≡◌, ◌≤◌, ◌<◌, ◌+◌, ◌-◌, length, get_or, take, drop};
ghost use Rattle.lists.specs.Rooms.{Put};
ghost use Rattle.decoder.specs.Skims.{PlainRun, in_reference, ClosesAt, Alone, has_room, Skims};

use crate::classes::{alphanumeric, character_code};
use crate::pieces::{Piece, reference};
use crate::stops::{calls_for, end_of};
use crate::writers::{Ends, Reached, lacks_room, put_piece};
use standard::Context;
use standard::characters::{CharRead, read_char};

// The place in the chunk up to which it was read, and the place after its text.
#[derive(Clone, Copy)]
pub(crate) struct Copied {
    pub at: usize,
    pub text: usize,
}

// A run of plain bytes is copied while 64 bytes are free before each. It is inlined, since most runs are shorter than a call.
#[inline(always)]
pub(crate) fn copy_run(
    context: Context,
    chunk: &[u8],
    at: usize,
    text: &mut [u8],
    w: usize,
) -> Copied
    requires { (at ≤ length chunk.now) × (w + 64 ≤ length text.old) }
    ensures { PlainRun context chunk.now at (length text.old - w) result.at
        × Put text.old w (take (result.at - at) (drop at chunk.now)) text.new result.text }
{
    let free = text.len() - w - 63;
    let limit = (chunk.len() - at).min(free);
    let end = runs::plain_end(end_of(context), &chunk[..at + limit], at);
    Copied {
        at: end,
        text: rooms::copy(&chunk[at..end], text, w),
    }
}

// A byte that may stand between the `&` and the `;` of a reference.
fn in_reference(b: u8) -> bool
    ensures { result ≡ in_reference b }
{
    b == b'#' || alphanumeric(b)
}

// The place after the `;` of an `&` that such bytes follow, if it stands there.
fn reference_end(rest: &[u8]) -> Option<usize>
    ensures { ClosesAt rest.now result }
{
    // Over places, and no `position`: a `;` and any other byte that ends it are told apart.
    for at in 1..rest.len() {
        let b = rest[at];
        if b == b';' {
            return Some(at + 1);
        }
        if !in_reference(b) {
            return None;
        }
    }
    None
}

// The reference at the front of rest as a piece, if it ends in its own `;`.
fn closed(context: Context, rest: &[u8]) -> Option<Piece>
    requires { (0 < length rest.now) × (get_or rest.now 0 0 ≡ 0x26) }
    ensures { Alone context rest.now result }
{
    let end = reference_end(rest)?;
    let piece = reference(context, &rest[1..end]);
    if piece.size != end {
        return None;
    }
    Some(piece)
}

// What stands at the front of rest as a piece, if it is a character that stands for itself and stops nothing, or a reference that ends in its own
// `;`.
fn alone(context: Context, rest: &[u8]) -> Option<Piece>
    ensures { Alone context rest.now result }
{
    let CharRead::Char { value, len } = read_char(rest) else {
        return None;
    };
    if value == 0x26 {
        return closed(context, rest);
    }
    if value == 0xD || calls_for(context, value) != 0 {
        return None;
    }
    Some(Piece::one(len, value, character_code(value), 0))
}

// Whether so much free room is enough for a piece of size bytes and before each of them.
fn has_room(size: usize, text: usize, errors: usize) -> bool
    requires { size ≤ 16777216 }
    ensures { result ≡ has_room size text errors }
{
    (64 + size <= text) & (8 + 2 * size <= errors)
}

// The chunk from `from` on, where before bytes were taken before it and nothing is held: as far as it stands for itself and has room. Rooms and ends
// go one by one, as in feeding.rt.
pub(crate) fn skim(
    context: Context,
    before: u32,
    chunk: &[u8],
    from: usize,
    text: &mut [u8],
    errors: &mut [u32],
    start: Ends,
) -> Reached
    requires { (before + length chunk.now ≤ 16777216) × (from ≤ length chunk.now)
        × (start.text ≤ length text.old) × (start.errors ≤ length errors.old) }
    ensures { Skims context before chunk.now from result.at text.old start.text text.new result.ends.text
        errors.old start.errors errors.new result.ends.errors }
{
    let mut at = from;
    let mut ends = start;
    // A `while` and no `for`: each turn goes on by a run and a piece.
    while at < chunk.len() {
        if lacks_room(text.len() - ends.text, errors.len() - ends.errors) {
            return Reached { at, ends };
        }
        let run = copy_run(context, chunk, at, text, ends.text);
        at = run.at;
        ends.text = run.text;
        let Some(piece) = alone(context, &chunk[at..]) else {
            return Reached { at, ends };
        };
        if !has_room(
            piece.size,
            text.len() - ends.text,
            errors.len() - ends.errors,
        ) {
            return Reached { at, ends };
        }
        ends = put_piece(text, errors, ends, piece, before + at as u32);
        at += piece.size;
    }
    Reached { at, ends }
}
