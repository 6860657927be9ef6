// Writing into lent rooms: each function writes at a place and answers the place after; all else stays.
ghost use Rattle.std.specs.Prelude.{◌≡◌, ◌∷◌, [], ◌++◌, ◌≤◌, ◌<◌, ◌+◌, length, if◌then◌else◌};
ghost use Rattle.lists.specs.Rooms.{Put};
ghost use Rattle.standard.specs.Utf8.{scalar, octets, encode};
ghost use Rattle.standard.specs.Errors.{listed, placed, numbers};
ghost use Rattle.standard.specs.Pieces.{char_ref_text};
ghost use Rattle.standard.specs.Reading.{reading_at};
ghost use Rattle.decoder.specs.Writing.{Writes};
ghost use Rattle.decoder.specs.Pieces.{piece_of};
ghost use Rattle.decoder.specs.Stream.{lacks_room};

use crate::pieces::Piece;
use standard::names::CharRef;

// Where what was written ends: in the text room, and in the error room.
#[derive(Clone, Copy)]
pub(crate) struct Ends {
    pub text: usize,
    pub errors: usize,
}

impl Ends {
    // Nothing is written yet.
    pub(crate) const NONE: Ends = Ends { text: 0, errors: 0 };
}

// The place up to which was read, and where what was written ends.
#[derive(Clone, Copy)]
pub(crate) struct Reached {
    pub at: usize,
    pub ends: Ends,
}

// Whether so much free room is less than is asked for before a byte.
pub(crate) fn lacks_room(text: usize, errors: usize) -> bool
    ensures { result ≡ lacks_room text errors }
{
    (text < 64) | (errors < 8)
}

// A number that is no scalar value is written as U+FFFD.
fn replaced(c: u32) -> u32
    ensures { (result ≡ (if scalar c then c else 0xFFFD)) × (result < 0x110000) }
{
    if c < 0xD800 {
        return c;
    }
    if c < 0xE000 {
        return 0xFFFD;
    }
    if c < 0x110000 {
        return c;
    }
    0xFFFD
}

// A byte of a character: its high-order bits, and the number that the others hold.
fn put_byte(text: &mut [u8], at: usize, high: u32, low: u32) -> usize
    requires { (at < length text.old) × (high + low < 256) }
    ensures { Put text.old at ((high + low) ∷ []) text.new result }
{
    text[at] = (high + low) as u8;
    at + 1
}

// The bytes of a number below 110000 hex, as those of a character are laid out.
fn put_octets(text: &mut [u8], at: usize, c: u32) -> usize
    requires { (at + 4 ≤ length text.old) × (c < 0x110000) }
    ensures { Put text.old at (octets c) text.new result }
{
    if c < 0x80 {
        return put_byte(text, at, 0, c);
    }
    if c < 0x800 {
        let last = put_byte(text, at, 0xC0, c / 64);
        return put_byte(text, last, 0x80, c % 64);
    }
    if c < 0x10000 {
        let second = put_byte(text, at, 0xE0, c / 4096);
        let last = put_byte(text, second, 0x80, c / 64 % 64);
        return put_byte(text, last, 0x80, c % 64);
    }
    let second = put_byte(text, at, 0xF0, c / 262144);
    let third = put_byte(text, second, 0x80, c / 4096 % 64);
    let last = put_byte(text, third, 0x80, c / 64 % 64);
    put_byte(text, last, 0x80, c % 64)
}

// The bytes of a character.
fn put_char(text: &mut [u8], at: usize, c: u32) -> usize
    requires { at + 4 ≤ length text.old }
    ensures { Put text.old at (encode c) text.new result }
{
    put_octets(text, at, replaced(c))
}

// The text of a reference: none, one or both of its characters.
fn put_reference(text: &mut [u8], at: usize, reference: CharRef) -> usize
    requires { at + 8 ≤ length text.old }
    ensures { Put text.old at (char_ref_text reference) text.new result × (result ≤ at + 8) }
{
    let chars = reference.chars;
    if reference.num_chars == 0 {
        return at;
    }
    let next = put_char(text, at, chars[0]);
    if reference.num_chars == 1 {
        return next;
    }
    put_char(text, next, chars[1])
}

// Writes an error: its code, then its place.
fn put_error(errors: &mut [u32], at: usize, code: u32, place: u32) -> usize
    requires { at + 2 ≤ length errors.old }
    ensures { Put errors.old at (code ∷ place ∷ []) errors.new result }
{
    errors[at] = code;
    errors[at + 1] = place;
    at + 2
}

// An error, or none where the code is 0.
fn put_code(errors: &mut [u32], at: usize, code: u32, place: u32) -> usize
    requires { at + 2 ≤ length errors.old }
    ensures { Put errors.old at (numbers (placed place (listed code))) errors.new result }
{
    if code == 0 {
        return at;
    }
    put_error(errors, at, code, place)
}

// The errors of a piece: two codes, each 0 where there is none.
fn put_codes(errors: &mut [u32], at: usize, first: u32, second: u32, place: u32) -> usize
    requires { at + 4 ≤ length errors.old }
    ensures { Put errors.old at (numbers (placed place (listed first ++ listed second))) errors.new result }
{
    let next = put_code(errors, at, first, place);
    put_code(errors, next, second, place)
}

// Writes a piece that stands at place. It is inlined, since handing a piece over in memory takes longer than writing it.
#[inline(always)]
pub(crate) fn put_piece(
    text: &mut [u8],
    errors: &mut [u32],
    ends: Ends,
    piece: Piece,
    place: u32,
) -> Ends
    requires { (ends.text + 8 ≤ length text.old) × (ends.errors + 4 ≤ length errors.old) }
    ensures { Writes (reading_at place (piece_of piece)) ends text.old errors.old result text.new errors.new
        × (result.text ≤ ends.text + 8) × (result.errors ≤ ends.errors + 4) }
{
    Ends {
        text: put_reference(text, ends.text, piece.reference),
        errors: put_codes(errors, ends.errors, piece.first, piece.second, place),
    }
}
