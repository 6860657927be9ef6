// One piece of a covered source, read by the checker's own code.
ghost use Rattle.std.specs.Prelude.{◌≡◌, ◌≤◌, ◌<◌, ◌+◌, ◌-◌, length, drop};
ghost use Rattle.lists.specs.Notation.{front};
ghost use Rattle.standard.specs.Classes.{alphanumeric};
ghost use Rattle.standard.specs.Names.{records, longest};
ghost use Rattle.standard.specs.Pieces as standard;
ghost use Rattle.standard.specs.Utf8.{read_char};
ghost use Rattle.checker.specs.Pieces.{piece_of, one_of};

use crate::classes::{character_code, next_is};
use crate::references::{digits_from, meaning};
use standard::Context;
use standard::characters::{CharRead, read_char};
use standard::names::{CharRef, Found, longest_name};

// How many source bytes a piece has, its characters, whether it lacks its `;`, and the code of its other error or 0, as `character_code` has it: it
// may have both errors.
#[derive(Clone, Copy)]
pub(crate) struct Piece {
    pub size: usize,
    pub reference: CharRef,
    pub unclosed: bool,
    pub code: u32,
}

// A piece of one character.
fn one(size: usize, char: u32, unclosed: bool, code: u32) -> Piece
    ensures { result ≡ one_of size char unclosed code }
{
    Piece {
        size,
        reference: CharRef {
            chars: [char, 0],
            num_chars: 1,
        },
        unclosed,
        code,
    }
}

// The reference whose `&` is at `at` and whose digits begin at `from`.
#[tactic(auto, using(crate::proofs::PieceLaws::digits))]
fn number(s: &[u8], at: usize, from: usize, base: u32) -> Piece
    requires order { at ≤ from }
    requires there { from ≤ length s.now }
    requires base { base ≤ 16 }
    ensures { piece_of result ≡ standard.digits_at base (from - at) (drop from s.now) }
{
    let digits = digits_from(s, from, base);
    let end = digits.end;
    if end == from {
        return one(1, 0x26, false, 1);
    }
    let meant = meaning(digits.value);
    if next_is(s, end, b';') {
        return one(end + 1 - at, meant.char, false, meant.code);
    }
    one(end - at, meant.char, true, meant.code)
}

// The numeric reference whose `&#` is at `at`.
#[tactic(auto, using(crate::proofs::PieceLaws::numerics))]
fn numeric(s: &[u8], at: usize) -> Piece
    requires { at + 2 ≤ length s.now }
    ensures { piece_of result ≡ standard.numeric (drop (at + 2) s.now) }
{
    if next_is(s, at + 2, b'x') | next_is(s, at + 2, b'X') {
        return number(s, at, at + 3, 16);
    }
    number(s, at, at + 2, 10)
}

// The place after the letters and digits from `from` on.
fn letters_end(s: &[u8], from: usize) -> usize
    requires { from ≤ length s.now }
    ensures { result ≡ from + length (front alphanumeric (drop from s.now)) }
{
    from + s[from..]
        .iter()
        .position(|b| !b.is_ascii_alphanumeric())
        .unwrap_or(s.len() - from)
}

// Whether a name without `;` is no reference before what stands at a place: in an attribute, `=` or a letter or digit.
fn stays_text(context: Context, s: &[u8], at: usize) -> bool
    ensures { result ≡ standard.stays_text context (drop at s.now) }
{
    match context {
        Context::Text => false,
        Context::Attribute => s
            .get(at)
            .is_some_and(|b| (*b == b'=') | b.is_ascii_alphanumeric()),
    }
}

// What the `&` before `from` is, where no `#` follows it.
fn named(table: &[u8], context: Context, s: &[u8], from: usize) -> Piece
    requires { from ≤ length s.now }
    ensures { piece_of result ≡ standard.named_by context (longest (records table.now) (drop from s.now))
        (drop from s.now) }
{
    let Some(Found { len, reference }) = longest_name(table, &s[from..]) else {
        let end = letters_end(s, from);
        if (from < end) & next_is(s, end, b';') {
            return one(1, 0x26, false, 4);
        }
        return one(1, 0x26, false, 0);
    };
    if s[from + len - 1] == b';' {
        return Piece {
            size: len + 1,
            reference,
            unclosed: false,
            code: 0,
        };
    }
    if stays_text(context, s, from + len) {
        return one(1, 0x26, false, 0);
    }
    Piece {
        size: len + 1,
        reference,
        unclosed: true,
        code: 0,
    }
}

// A character that stands for itself; a byte that is of none has no text.
#[tactic(auto, using(crate::proofs::PieceLaws::characters))]
fn character(s: &[u8], at: usize) -> Piece
    requires { at ≤ length s.now }
    ensures { piece_of result ≡ standard.character (read_char (drop at s.now)) (drop at s.now) }
{
    match read_char(&s[at..]) {
        CharRead::Char { value, len } => one(len, value, false, character_code(value)),
        _ => Piece {
            size: 1,
            reference: CharRef::EMPTY,
            unclosed: false,
            code: 0,
        },
    }
}

// The piece at `at`, where there is a byte.
#[tactic(auto, using(crate::proofs::PieceLaws::fronts))]
pub(crate) fn piece_at(table: &[u8], context: Context, s: &[u8], at: usize) -> Piece
    requires { at < length s.now }
    ensures { piece_of result ≡ standard.piece_at (records table.now) context (drop at s.now) }
{
    let b = s[at];
    if b == b'\r' {
        if next_is(s, at + 1, b'\n') {
            return one(2, 0xA, false, 0);
        }
        return one(1, 0xA, false, 0);
    }
    if b == b'&' {
        if next_is(s, at + 1, b'#') {
            return numeric(s, at);
        }
        return named(table, context, s, at + 1);
    }
    character(s, at)
}
