// A table of names as records: a length byte, the name, and its two characters, each four bytes with the lowest first, the second 0 where there is
// none.
ghost use Rattle.std.specs.Prelude.{◌≡◌, ◌≤◌, ◌+◌, length};
ghost use Rattle.std.specs.Iterator.{YieldsFirstBy, item_count};
ghost use Rattle.lists.specs.Bytes.{word32};

use crate::names::CharRef;

// The number that four bytes make, the lowest first.
fn number_at(s: &[u8], at: usize) -> u32
    requires { at + 4 ≤ length s.now }
    ensures { result ≡ word32 s.now at }
{
    u32::from_le_bytes([s[at], s[at + 1], s[at + 2], s[at + 3]])
}

// A record of a table: a name, and the bytes of its two characters.
#[derive(Clone, Copy)]
pub struct Record<'a> {
    pub word: &'a [u8],
    pub chars: &'a [u8],
    ghost eight: { length chars.now ≡ 8 },
}

impl Record<'_> {
    ghost use Rattle.standard.specs.Names.{char_ref};

    // What its name stands for.
    pub(crate) fn reference(&self) -> CharRef
        ensures { result ≡ char_ref (word32 self.now.chars.now 0) (word32 self.now.chars.now 4) }
    {
        let chars = self.chars;
        CharRef::new(number_at(chars, 0), number_at(chars, 4))
    }
}

// The records of a table that are still to come. One that is cut short ends them.
#[derive(Clone, Copy)]
pub struct Records<'a> {
    rest: &'a [u8],
}

impl<'a> Records<'a> {
    ghost use Rattle.standard.specs.Records.{bytes_left};

    // All of a table's.
    pub fn of(table: &'a [u8]) -> Records<'a>
        ensures { bytes_left result ≡ table.now }
    {
        Records { rest: table }
    }
}

impl<'a> Iterator for Records<'a> {
    ghost use Rattle.standard.specs.Names.{records};
    ghost use Rattle.standard.specs.Records.{name_of, bytes_left};

    type Item = Record<'a>;

    ghost next_gives = { YieldsFirstBy name_of (λ s. records (bytes_left s)) };

    ghost remaining = { item_count (λ s. records (bytes_left s)) };

    fn next(&mut self) -> Option<Record<'a>> {
        let Some((length, rest)) = self.rest.split_first() else {
            return None;
        };
        let length = *length as usize;
        if rest.len() < length + 8 {
            self.rest = &[];
            return None;
        }
        let (word, after) = rest.split_at(length);
        self.rest = &after[8..];
        Some(Record {
            word,
            chars: &after[..8],
        })
    }
}
