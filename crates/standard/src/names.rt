// The names of character references, looked up in a lent table.
ghost use Rattle.std.specs.Prelude.{◌≡◌, ◌<◌, length, IfSome};
ghost use Rattle.standard.specs.Names.{char_ref, stands, longer, longest, begins, records, found_of, found_where};
ghost use Rattle.standard.specs.Records.{name_of};

use crate::records::{Record, Records};

// The characters that a reference stands for: the first num_chars of chars, as html5ever's CharRef has them.
#[derive(Clone, Copy, PartialEq, Eq, Debug)]
pub struct CharRef {
    pub chars: [u32; 2],
    pub num_chars: u8,
}

impl CharRef {
    // No reference.
    pub const EMPTY: CharRef = CharRef {
        chars: [0, 0],
        num_chars: 0,
    };

    // One character, or two where second is not 0.
    pub(crate) fn new(first: u32, second: u32) -> CharRef
        ensures { result ≡ char_ref first second }
    {
        if second == 0 {
            return CharRef {
                chars: [first, second],
                num_chars: 1,
            };
        }
        CharRef {
            chars: [first, second],
            num_chars: 2,
        }
    }
}

// A name that was found: its length and its characters.
#[derive(Clone, Copy, PartialEq, Eq, Debug)]
pub struct Found {
    pub len: usize,
    pub reference: CharRef,
}

// Whether a word stands at the front of s. Byte by byte: most words of a table differ at their first byte, and `get` and `starts_with` look at the
// lengths first.
fn stands_at(word: &[u8], s: &[u8]) -> bool
    ensures { result ≡ stands word.now s.now }
{
    for i in 0..word.len() {
        if s.len() <= i {
            return false;
        }
        if word[i] != s[i] {
            return false;
        }
    }
    true
}

// The length of what was found, 0 where nothing was. A match and no `map_or`: what a closure gave is not told to a law that speaks of this.
fn len_of(found: Option<Found>) -> usize
    ensures { result ≡ (found_of found).len }
{
    match found {
        Some(found) => found.len,
        None => 0,
    }
}

// The longer of what was found and a record's name, if that stands at the front of s.
fn longer_of(found: Option<Found>, record: &Record<'_>, s: &[u8]) -> Option<Found>
    requires { IfSome found (λ f. 0 < f.len) }
    ensures longer { found_of result ≡ longer (found_of found) (name_of «record».now) s.now }
    ensures some { IfSome result (λ f. 0 < f.len) }
{
    let len = record.word.len();
    if len <= len_of(found) {
        return found;
    }
    if !stands_at(record.word, s) {
        return found;
    }
    Some(Found {
        len,
        reference: record.reference(),
    })
}

// The longest name of the table that stands at the front of s, if one does.
pub fn longest_name(table: &[u8], s: &[u8]) -> Option<Found>
    ensures { result ≡ found_where (longest (records table.now) s.now) }
{
    let mut found = None;
    for record in Records::of(table) {
        found = longer_of(found, &record, s);
    }
    found
}

// Whether s is a beginning of some name of the table.
pub fn begins_name(table: &[u8], s: &[u8]) -> bool
    ensures { result ≡ begins (records table.now) s.now }
{
    // No `any`: what its closure gave is not told to a proof.
    for record in Records::of(table) {
        if stands_at(s, record.word) {
            return true;
        }
    }
    false
}
