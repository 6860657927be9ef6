// Meeting what a transcript should have next: characters in its text, numbers in its errors. What is met is told by the place after it, and None
// says that something else comes.
ghost use Rattle.std.specs.Prelude.{◌≡◌, [], ◌∷◌, ◌≤◌, length};
ghost use Rattle.standard.specs.Utf8.{written, encode};
ghost use Rattle.standard.specs.Errors.{listed, placed, numbers};
ghost use Rattle.standard.specs.Pieces.{char_ref_text};
ghost use Rattle.checker.specs.Pieces.{codes_of};
ghost use Rattle.checker.specs.Meeting.{met};

use crate::numbers::Numbers;
use standard::characters::{CharRead, read_char};
use standard::names::CharRef;

// What is no scalar value is written as U+FFFD.
fn written_as(c: u32) -> u32
    ensures { result ≡ written c }
{
    if (c < 0xD800) | ((0xE000 <= c) & (c <= 0x10FFFF)) {
        return c;
    }
    0xFFFD
}

// Meets a byte in text. An ASCII character is one byte, so it needs no reader of one character.
#[tactic(auto, using(crate::proofs::Meetings::meet_numbers))]
fn meet_byte(text: &[u8], at: usize, b: u32) -> Option<usize>
    requires { at ≤ length text.now }
    ensures { result ≡ met (b ∷ []) text.now at }
{
    if at == text.len() {
        return None;
    }
    if u32::from(text[at]) != b {
        return None;
    }
    Some(at + 1)
}

// Meets a character in text by the reader of one character.
#[tactic(auto, using(crate::proofs::Meetings::meet_chars))]
fn meet_read(text: &[u8], at: usize, c: u32) -> Option<usize>
    requires { at ≤ length text.now }
    ensures { result ≡ met (encode c) text.now at }
{
    let CharRead::Char { value, len } = read_char(&text[at..]) else {
        return None;
    };
    if value != written_as(c) {
        return None;
    }
    Some(at + len)
}

// Meets a character in text. It is inlined, since a call takes longer than ASCII does.
#[inline(always)]
fn meet_char(text: &[u8], at: usize, c: u32) -> Option<usize>
    requires { at ≤ length text.now }
    ensures { result ≡ met (encode c) text.now at }
{
    if c < 0x80 {
        return meet_byte(text, at, c);
    }
    meet_read(text, at, c)
}

// Meets the characters of a reference in text.
#[tactic(auto, using(crate::proofs::Meetings::meetings, standard::proofs::References::encodes_one), unfolding(standard::specs::Pieces::encodes))]
pub(crate) fn meet_text(text: &[u8], at: usize, reference: CharRef) -> Option<usize>
    requires { at ≤ length text.now }
    ensures { result ≡ met (char_ref_text reference) text.now at }
{
    let chars = reference.chars;
    if reference.num_chars == 0 {
        return Some(at);
    }
    if reference.num_chars == 1 {
        return meet_char(text, at, chars[0]);
    }
    let second = meet_char(text, at, chars[0])?;
    meet_char(text, second, chars[1])
}

// Meets a number in the errors.
#[tactic(auto, using(crate::proofs::Meetings::meet_numbers))]
fn meet_number<N: Numbers>(errors: N, at: usize, n: u32) -> Option<usize>
    requires { at ≤ length (N.list errors) }
    ensures { result ≡ met (n ∷ []) (N.list errors) at }
{
    if at == errors.count() {
        return None;
    }
    if errors.number_at(at) != n {
        return None;
    }
    Some(at + 1)
}

// Meets an error in the errors, its code and its place; none where the code is 0.
#[tactic(auto, using(crate::proofs::Meetings::meetings), unfolding(standard::specs::Errors::placed, standard::specs::Errors::numbers))]
pub(crate) fn meet_code<N: Numbers>(errors: N, at: usize, code: u32, place: u32) -> Option<usize>
    requires { at ≤ length (N.list errors) }
    ensures { result ≡ met (numbers (placed place (listed code))) (N.list errors) at }
{
    if code == 0 {
        return Some(at);
    }
    let second = meet_number(errors, at, code)?;
    meet_number(errors, second, place)
}

// Meets the errors of a piece in the errors.
pub(crate) fn meet_codes<N: Numbers>(
    errors: N,
    at: usize,
    unclosed: bool,
    code: u32,
    place: u32,
) -> Option<usize>
    requires { at ≤ length (N.list errors) }
    ensures { result ≡ met (numbers (placed place (codes_of unclosed code))) (N.list errors) at }
{
    if !unclosed {
        return meet_code(errors, at, code, place);
    }
    let second = meet_code(errors, at, 2, place)?;
    meet_code(errors, second, code, place)
}
