// Bytes and characters, by document 01's lists. The decoder has its own: the two share nothing but `standard`.
ghost use Rattle.std.specs.Prelude.{◌≡◌, drop};
ghost use Rattle.lists.specs.Notation.{next};
ghost use Rattle.standard.specs.Classes as standard;
ghost use Rattle.standard.specs.Numbers.{digit_of};

// Whether the byte b stands at a place.
pub(crate) fn next_is(s: &[u8], at: usize, b: u8) -> bool
    ensures { result ≡ next b (drop at s.now) }
{
    s.get(at) == Some(&b)
}

// What a byte counts as a digit; 16 where it is none, which is a digit of no base.
#[tactic(auto, unfolding(standard::specs::Numbers::digit_of))]
pub(crate) fn digit_of(b: u8) -> u32
    ensures { result ≡ digit_of b }
{
    let digit = match b {
        b'0'..=b'9' => b - b'0',
        b'A'..=b'F' => b - b'A' + 10,
        b'a'..=b'f' => b - b'a' + 10,
        _ => 16,
    };
    u32::from(digit)
}

// FDD0-FDEF, and each value whose low 16 bits are FFFE or FFFF.
pub(crate) fn noncharacter(c: u32) -> bool
    ensures { result ≡ standard.noncharacter c }
{
    ((0xFDD0 <= c) & (c <= 0xFDEF)) | ((0xFFFE <= c % 0x10000) & (c % 0x10000 <= 0xFFFF))
}

// The code of a character that stands for itself: error 5 for 01-08, 0B, 0E-1F, 7F-9F and the noncharacters.
// A number, 0 where there is none, and not an Option: so the standard's definitions count, and the contract is an equation with them.
#[tactic(auto, using(standard::proofs::Lists::characters))]
pub(crate) fn character_code(c: u32) -> u32
    ensures { result ≡ standard.character_code c }
{
    let low = ((0x1 <= c) & (c <= 0x8)) | (c == 0xB) | ((0xE <= c) & (c <= 0x1F));
    if low | ((0x7F <= c) & (c <= 0x9F)) | noncharacter(c) {
        return 5;
    }
    0
}
