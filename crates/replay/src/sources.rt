// What a call is lent, made from a record's bytes.
ghost use Rattle.std.specs.Prelude.{◌≤◌, length};

use standard::Context;

// The context that a letter stands for; another letter is the text's.
pub(crate) fn context_of(letter: u8) -> Context {
    match letter {
        b'A' | b'a' | b'c' => Context::Attribute,
        _ => Context::Text,
    }
}

// Makes a source, or a text: its own bytes come first, and then `x`.
pub(crate) fn make_source(source: &mut [u8], own: &[u8]) {
    let count = own.len().min(source.len());
    source.fill(b'x');
    source[..count].copy_from_slice(&own[..count]);
}

// Makes numbers at the front of a room, each from four bytes. Answers how many.
pub(crate) fn make_numbers(room: &mut [u32], own: &[u8]) -> usize
    ensures { result ≤ length room.old }
{
    let (fours, _) = own.as_chunks::<4>();
    let count = fours.len().min(room.len());
    for (number, four) in room.iter_mut().zip(fours) {
        *number = u32::from_le_bytes(*four);
    }
    count
}
