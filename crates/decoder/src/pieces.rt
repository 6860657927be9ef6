// One piece: a newline, a character that stands for itself, or a reference. It is read from a slice and handed back as a value;
// whoever has a room writes it.
ghost use Rattle.std.specs.Prelude.{◌≡◌, ◌≤◌, ◌<◌, length, drop, IfSome, if◌then◌else◌};
ghost use Rattle.lists.specs.Notation.{next, front};
ghost use Rattle.standard.specs.Utf8.{read_char};
ghost use Rattle.standard.specs.Classes.{alphanumeric};
ghost use Rattle.standard.specs.Names.{longest, found_of};
ghost use Rattle.standard.specs.NameList.{builtin};
ghost use Rattle.standard.specs.Pieces as standard;
ghost use Rattle.decoder.specs.Pieces.{piece_of, one_of, none_of};

use crate::classes::{alphanumeric, character_code};
use crate::names::longest_name;
use crate::numbers::{do_numeric, finish_numeric};
use standard::Context;
use standard::characters::{CharRead, read_char};
use standard::names::{CharRef, Found};

// How many source bytes a piece has, its characters, and its codes, each 0 where there is none: so `listed` reads them, and so they are written.
#[derive(Clone, Copy)]
pub(crate) struct Piece {
    pub size: usize,
    pub reference: CharRef,
    pub first: u32,
    pub second: u32,
}

impl Piece {
    // `finish_one`: a piece of one character.
    pub(crate) fn one(size: usize, char: u32, first: u32, second: u32) -> Piece
        ensures { result ≡ one_of size char first second }
    {
        Piece {
            size,
            reference: CharRef {
                chars: [char, 0],
                num_chars: 1,
            },
            first,
            second,
        }
    }

    // A piece that has nothing.
    pub(crate) fn none(size: usize) -> Piece
        ensures { result ≡ none_of size }
    {
        Piece {
            size,
            reference: CharRef::EMPTY,
            first: 0,
            second: 0,
        }
    }
}

// Whether byte is next at `at`. Past the end nothing is, which is all that `end_of_file` comes to here.
fn next_is(rest: &[u8], at: usize, byte: u8) -> bool
    ensures { result ≡ next byte (drop at rest.now) }
{
    match rest.get(at) {
        Some(&b) => b == byte,
        None => false,
    }
}

// Digits of the base from `from` on, after the intro bytes `&#` or `&#x`, and their `;` if it stands there.
fn numeric_from(rest: &[u8], from: usize, base: u32, intro: usize) -> Piece
    requires { (from ≤ length rest.now) × (base ≤ 16) × (intro ≤ 3) }
    ensures { piece_of result ≡ standard.digits_at base intro (drop from rest.now) }
{
    let digits = do_numeric(rest, from, base);
    let end = digits.end;
    if end == from {
        return Piece::one(1, 0x26, 1, 0);
    }
    let size = intro + (end - from);
    let meant = finish_numeric(digits.value);
    if next_is(rest, end, b';') {
        return Piece::one(size + 1, meant.char, meant.code, 0);
    }
    Piece::one(size, meant.char, 2, meant.code)
}

// A numeric reference, with rest after its `&#`.
fn numeric(rest: &[u8]) -> Piece
    ensures { piece_of result ≡ standard.numeric rest.now }
{
    if next_is(rest, 0, b'x') {
        return numeric_from(rest, 1, 16, 3);
    }
    if next_is(rest, 0, b'X') {
        return numeric_from(rest, 1, 16, 3);
    }
    numeric_from(rest, 0, 10, 2)
}

// The place after the letters and digits at the front.
fn letters_end(rest: &[u8]) -> usize
    ensures { result ≡ length (front alphanumeric rest.now) }
{
    rest.iter()
        .position(|b| !b.is_ascii_alphanumeric())
        .unwrap_or(rest.len())
}

// `do_bogus_name`: one or more letters or digits, and then `;`.
fn unknown_name(rest: &[u8]) -> bool
    ensures { result ≡ standard.unknown_name rest.now }
{
    let end = letters_end(rest);
    (0 < end) & next_is(rest, end, b';')
}

// Whether what stands at `at` keeps a name without `;` from being a reference: `=`, a letter or a digit, in an attribute.
fn stays_text(context: Context, rest: &[u8], at: usize) -> bool
    ensures { result ≡ standard.stays_text context (drop at rest.now) }
{
    match (context, rest.get(at)) {
        (Context::Attribute, Some(&b)) => b == b'=' || alphanumeric(b),
        _ => false,
    }
}

// A named reference, with rest after its `&` and what was found there: `finish_named`.
pub(crate) fn named_by(context: Context, found: Option<Found>, rest: &[u8]) -> Piece
    requires { IfSome found (λ f. (1 ≤ f.len) × (f.len ≤ length rest.now)) }
    ensures { piece_of result ≡ standard.named_by context (found_of found) rest.now }
{
    let Some(Found { len, reference }) = found else {
        if unknown_name(rest) {
            return Piece::one(1, 0x26, 4, 0);
        }
        return Piece::one(1, 0x26, 0, 0);
    };
    if rest[len - 1] == b';' {
        return Piece {
            size: len + 1,
            reference,
            first: 0,
            second: 0,
        };
    }
    if stays_text(context, rest, len) {
        return Piece::one(1, 0x26, 0, 0);
    }
    Piece {
        size: len + 1,
        reference,
        first: 2,
        second: 0,
    }
}

// A named reference, with rest after its `&`: `do_named`.
pub(crate) fn named(context: Context, rest: &[u8]) -> Piece
    ensures { piece_of result ≡ standard.named_by context (longest builtin rest.now) rest.now }
{
    named_by(context, longest_name(rest), rest)
}

// A reference, with rest after its `&`.
pub(crate) fn reference(context: Context, rest: &[u8]) -> Piece
    ensures { piece_of result ≡ standard.reference builtin context rest.now }
{
    if next_is(rest, 0, b'#') {
        return numeric(&rest[1..]);
    }
    named(context, rest)
}

// A newline, with rest after its CR: `get_preprocessed_char`.
fn newline(rest: &[u8]) -> Piece
    ensures { result ≡ one_of (if next 10 rest.now then 2 else 1) 10 0 0 }
{
    if next_is(rest, 0, b'\n') {
        return Piece::one(2, 0xA, 0, 0);
    }
    Piece::one(1, 0xA, 0, 0)
}

// A character that stands for itself; a byte that is of none has no text.
fn character(rest: &[u8]) -> Piece
    ensures { piece_of result ≡ standard.character (read_char rest.now) rest.now }
{
    match read_char(rest) {
        CharRead::Char { value, len } => Piece::one(len, value, character_code(value), 0),
        _ => Piece::none(1),
    }
}

// The piece at the front of rest, which has a byte.
pub(crate) fn piece_at(context: Context, rest: &[u8]) -> Piece
    requires { 0 < length rest.now }
    ensures { piece_of result ≡ standard.piece_at builtin context rest.now }
{
    match rest[0] {
        b'\r' => newline(&rest[1..]),
        b'&' => reference(context, &rest[1..]),
        _ => character(rest),
    }
}
