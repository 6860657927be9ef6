// Numeric character references: `do_numeric` and `finish_numeric` of char_ref/mod.rs.
ghost use Rattle.std.specs.Prelude.{◌≡◌, ◌≤◌, ◌+◌, ◌*◌, min, length, drop};
ghost use Rattle.lists.specs.Notation.{front};
ghost use Rattle.standard.specs.Numbers.{digit_of, is_digit, number, replacements, replaced_by, meaning_of};

use crate::classes::{control, noncharacter, whitespace};

// What a byte counts as a digit; 16 where it is none, so that one comparison with the base tells both.
#[tactic(auto, unfolding(standard::specs::Numbers::digit_of))]
pub(crate) fn digit_of(b: u8) -> u32
    ensures { result ≡ digit_of b }
{
    match b {
        b'0'..=b'9' => u32::from(b - b'0'),
        b'A'..=b'F' => u32::from(b - b'A') + 10,
        b'a'..=b'f' => u32::from(b - b'a') + 10,
        _ => 16,
    }
}

// The first number past the last code point. A value stops there, so it never wraps.
const PAST_LAST: u32 = 0x110000;

// A number, or that one where it is larger.
pub(crate) fn stopped(n: u32) -> u32
    ensures { result ≡ min n 0x110000 }
{
    n.min(PAST_LAST)
}

// One digit more.
pub(crate) fn add_digit(value: u32, base: u32, digit: u32) -> u32
    requires { (value ≤ 0x110000) × (base ≤ 16) × (digit ≤ 16) }
    ensures { result ≡ min (value * base + digit) 0x110000 }
{
    stopped(value * base + digit)
}

// Digits that were read: the place after them, and their number, or the first past the last code point where it is larger.
#[derive(Clone, Copy)]
pub(crate) struct Digits {
    pub end: usize,
    pub value: u32,
}

// As many digits of the base as stand from `from` on.
pub(crate) fn do_numeric(rest: &[u8], from: usize, base: u32) -> Digits
    requires { (from ≤ length rest.now) × (base ≤ 16) }
    ensures { (result.end ≡ from + length (front (is_digit base) (drop from rest.now)))
        × (result.value ≡ min (number base (front (is_digit base) (drop from rest.now))) 0x110000) }
{
    let mut value: u32 = 0;
    // Over places, since the one where the digits end is asked for.
    for end in from..rest.len() {
        let digit = digit_of(rest[end]);
        if base <= digit {
            return Digits { end, value };
        }
        value = add_digit(value, base, digit);
    }
    Digits {
        end: rest.len(),
        value,
    }
}

// C1_REPLACEMENTS, from 0x80 on; a number that has no replacement stands for itself.
const C1_REPLACEMENTS: [u32; 32] = [
    0x20AC, 0x81, 0x201A, 0x0192, 0x201E, 0x2026, 0x2020, 0x2021, 0x02C6, 0x2030, 0x0160, 0x2039,
    0x0152, 0x8D, 0x017D, 0x8F, 0x90, 0x2018, 0x2019, 0x201C, 0x201D, 0x2022, 0x2013, 0x2014,
    0x02DC, 0x2122, 0x0161, 0x203A, 0x0153, 0x9D, 0x017E, 0x0178,
];

fn replacement(n: u32) -> u32
    ensures { result ≡ replaced_by replacements n }
{
    match n {
        0x80..=0x9F => C1_REPLACEMENTS[(n - 0x80) as usize],
        _ => n,
    }
}

// What a number means: a character, and the code of an error or 0, which `listed` reads as none.
#[derive(Clone, Copy)]
pub(crate) struct Meant {
    pub char: u32,
    pub code: u32,
}

pub(crate) fn finish_numeric(n: u32) -> Meant
    ensures { (result.char ≡ (meaning_of n).char) × (result.code ≡ (meaning_of n).code) }
{
    if n == 0 {
        return Meant {
            char: 0xFFFD,
            code: 3,
        };
    }
    if 0x10FFFF < n {
        return Meant {
            char: 0xFFFD,
            code: 3,
        };
    }
    if n / 0x800 == 0x1B {
        return Meant {
            char: 0xFFFD,
            code: 3,
        };
    }
    if noncharacter(n) {
        return Meant { char: n, code: 3 };
    }
    if n == 0xD {
        return Meant { char: n, code: 3 };
    }
    if !control(n) {
        return Meant { char: n, code: 0 };
    }
    if whitespace(n) {
        return Meant { char: n, code: 0 };
    }
    Meant {
        char: replacement(n),
        code: 3,
    }
}
