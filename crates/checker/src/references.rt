// Numbers of references: their digits, and what they mean by document 01's lists. The decoder has its own.
ghost use Rattle.std.specs.Prelude.{◌≡◌, ◌≤◌, ◌+◌, ◌*◌, min, length, drop};
ghost use Rattle.lists.specs.Notation.{front};
ghost use Rattle.standard.specs.Numbers.{is_digit, number, replacements, replaced_by, meaning_of};

use crate::classes::{digit_of, noncharacter};

// Digits that were read: the place after them, and their number, or the first past the last code point where it is larger.
#[derive(Clone, Copy)]
pub(crate) struct Digits {
    pub end: usize,
    pub value: u32,
}

// A number with one digit more, or the first past the last code point where that is larger.
fn extended(value: u32, base: u32, digit: u32) -> u32
    requires value { value ≤ 0x110000 }
    requires base { base ≤ 16 }
    requires digit { digit ≤ 16 }
    ensures { result ≡ min (value * base + digit) 0x110000 }
{
    (value * base + digit).min(0x110000)
}

// As many digits of the base as stand from `from` on.
pub(crate) fn digits_from(s: &[u8], from: usize, base: u32) -> Digits
    requires there { from ≤ length s.now }
    requires base { base ≤ 16 }
    ensures end { result.end ≡ from + length (front (is_digit base) (drop from s.now)) }
    ensures value { result.value ≡ min (number base (front (is_digit base) (drop from s.now))) 0x110000 }
{
    let mut value: u32 = 0;
    for (i, b) in s[from..].iter().enumerate() {
        let digit = digit_of(*b);
        if base <= digit {
            return Digits {
                end: from + i,
                value,
            };
        }
        value = extended(value, base, digit);
    }
    Digits {
        end: s.len(),
        value,
    }
}

// The C1 table; a number that it does not have stands for itself.
#[tactic(auto, unfolding(standard::specs::Numbers::replacements, standard::specs::Numbers::replaced_by))]
fn c1(n: u32) -> u32
    ensures { result ≡ replaced_by replacements n }
{
    match n {
        0x80 => 0x20AC,
        0x82 => 0x201A,
        0x83 => 0x0192,
        0x84 => 0x201E,
        0x85 => 0x2026,
        0x86 => 0x2020,
        0x87 => 0x2021,
        0x88 => 0x02C6,
        0x89 => 0x2030,
        0x8A => 0x0160,
        0x8B => 0x2039,
        0x8C => 0x0152,
        0x8E => 0x017D,
        0x91 => 0x2018,
        0x92 => 0x2019,
        0x93 => 0x201C,
        0x94 => 0x201D,
        0x95 => 0x2022,
        0x96 => 0x2013,
        0x97 => 0x2014,
        0x98 => 0x02DC,
        0x99 => 0x2122,
        0x9A => 0x0161,
        0x9B => 0x203A,
        0x9C => 0x0153,
        0x9E => 0x017E,
        0x9F => 0x0178,
        _ => n,
    }
}

// What a number means: a character, and the code of an error or 0, as `character_code` has it.
#[derive(Clone, Copy)]
pub(crate) struct Meant {
    pub char: u32,
    pub code: u32,
}

// 0, D800-DFFF and above 10FFFF give U+FFFD; 80-9F go through the table; 01-08, 0B, 0D-1F, 7F and the noncharacters keep their value.
#[tactic(auto, using(standard::proofs::Lists::meanings, standard::proofs::Lists::c1_line_lem), unfolding(standard::proofs::Lists::meaning_listed))]
pub(crate) fn meaning(n: u32) -> Meant
    ensures char { result.char ≡ (meaning_of n).char }
    ensures code { result.code ≡ (meaning_of n).code }
{
    if (n == 0) | ((0xD800 <= n) & (n <= 0xDFFF)) | (0x10FFFF < n) {
        return Meant {
            char: 0xFFFD,
            code: 3,
        };
    }
    if (0x80 <= n) & (n <= 0x9F) {
        return Meant {
            char: c1(n),
            code: 3,
        };
    }
    let low = ((0x1 <= n) & (n <= 0x8)) | (n == 0xB) | ((0xD <= n) & (n <= 0x1F));
    if low | (n == 0x7F) | noncharacter(n) {
        return Meant { char: n, code: 3 };
    }
    Meant { char: n, code: 0 }
}
