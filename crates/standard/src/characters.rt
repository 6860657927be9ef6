// The reader of one UTF-8 character (RFC 3629, section 4).
ghost use Rattle.std.specs.Prelude.{◌≡◌, ◌≤◌, ◌<◌, length, drop};
ghost use Rattle.standard.specs.Utf8.{read_char, lead_of, tails};

// What stands at the front of some bytes.
#[derive(Clone, Copy, PartialEq, Eq, Debug)]
pub enum CharRead {
    // A whole character: its value, and how many bytes it has.
    Char { value: u32, len: usize },
    // The bytes end inside a character, after this many of its bytes.
    Incomplete(usize),
    // A byte that no well-formed character has there, after this many bytes of its character.
    Illformed(usize),
    // No byte at all.
    End,
}

// What a first byte says: how many bytes follow it, the range of the next one, and the bits that it gives.
#[derive(Clone, Copy)]
struct Lead {
    need: usize,
    low: u8,
    high: u8,
    bits: u32,
}

// What a byte says as a first one; none begins with another.
fn lead_of(b: u8) -> Option<Lead>
    ensures { result ≡ lead_of b }
{
    let (need, low, high, bits) = match b {
        0x00..=0x7F => (0, 0x80, 0xBF, b),
        0xC2..=0xDF => (1, 0x80, 0xBF, b - 0xC0),
        0xE0 => (2, 0xA0, 0xBF, 0),
        0xED => (2, 0x80, 0x9F, 0xD),
        0xE1..=0xEF => (2, 0x80, 0xBF, b - 0xE0),
        0xF0 => (3, 0x90, 0xBF, 0),
        0xF1..=0xF3 => (3, 0x80, 0xBF, b - 0xF0),
        0xF4 => (3, 0x80, 0x8F, 4),
        _ => return None,
    };
    Some(Lead {
        need,
        low,
        high,
        bits: u32::from(bits),
    })
}

// The bytes after the first one of rest, which says that much of them.
fn read_tails(rest: &[u8], lead: Lead) -> CharRead
    requires some { 1 ≤ length rest.now }
    requires few { lead.need ≤ 3 }
    requires seven_bits { lead.bits < 128 }
    ensures { result ≡ tails lead.need lead.low lead.high lead.bits 1 (drop 1 rest.now) }
{
    let mut low = lead.low;
    let mut high = lead.high;
    let mut value = lead.bits;
    for len in 1..lead.need + 1 {
        let Some(&b) = rest.get(len) else {
            return CharRead::Incomplete(len);
        };
        if b < low || high < b {
            return CharRead::Illformed(len);
        }
        value = value * 64 + u32::from(b % 64);
        low = 0x80;
        high = 0xBF;
    }
    CharRead::Char {
        value,
        len: lead.need + 1,
    }
}

// The character at the front of rest. It is inlined, since a call for each character takes longer than most characters do.
#[inline(always)]
pub fn read_char(rest: &[u8]) -> CharRead
    ensures { result ≡ read_char rest.now }
{
    let Some(first) = rest.first() else {
        return CharRead::End;
    };
    match lead_of(*first) {
        Some(lead) => read_tails(rest, lead),
        None => CharRead::Illformed(0),
    }
}
