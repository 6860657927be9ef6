// The classes of characters (WHATWG HTML, 13.2.3.5), as `get_preprocessed_char` asks for them.
ghost use Rattle.std.specs.Prelude.{◌≡◌};
ghost use Rattle.standard.specs.Classes as standard;

pub(crate) fn noncharacter(c: u32) -> bool
    ensures { result ≡ standard.noncharacter c }
{
    matches!(c, 0xFDD0..=0xFDEF) || 0xFFFE <= c % 0x10000
}

pub(crate) fn control(c: u32) -> bool
    ensures { result ≡ standard.control c }
{
    matches!(c, 0x0..=0x1F | 0x7F..=0x9F)
}

pub(crate) fn whitespace(c: u32) -> bool
    ensures { result ≡ standard.whitespace c }
{
    matches!(c, 0x9 | 0xA | 0xC | 0xD | 0x20)
}

pub(crate) fn alphanumeric(b: u8) -> bool
    ensures { result ≡ standard.alphanumeric b }
{
    b.is_ascii_alphanumeric()
}

// The code of a character that stands for itself, or 0: a number and not an Option, as the standard's definitions have it.
pub(crate) fn character_code(c: u32) -> u32
    ensures { result ≡ standard.character_code c }
{
    if noncharacter(c) {
        return 5;
    }
    if !control(c) {
        return 0;
    }
    if whitespace(c) {
        return 0;
    }
    if c == 0 {
        return 0;
    }
    5
}
