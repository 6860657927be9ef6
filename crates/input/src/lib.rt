// What the programs read by: a reader's bytes, as many as a buffer has.
#![tactic(auto)]

ghost use Rattle.std.specs.Prelude.{◌<◌, ◌≤◌, length, take, IfOk};
ghost use Rattle.std.specs.Io.KnownBytes.{Consumes, IsAtEnd};

use std::io;
use std::io::Read;

// Reads until the buffer is full or the input ends, and answers how many bytes stand in it: the reader's next, as far as it is known which it has.
// An error ends it: what was read before stands in the buffer, and how much that is isn't told.
pub fn read_full<R: Read>(reader: &mut R, buffer: &mut [u8]) -> io::Result<usize>
    ensures bound { IfOk result (λ count. count ≤ length buffer.new) }
    ensures bytes { IfOk result (λ count. Consumes (R.remaining reader.old) (R.remaining reader.new) (take count buffer.new)) }
    ensures end { IfOk result (λ count. count < length buffer.new → IsAtEnd (R.remaining reader.new)) }
{
    let mut count = 0;
    // A `while`: how much a call reads is the reader's to say.
    while count < buffer.len() {
        match reader.read(&mut buffer[count..])? {
            0 => return Ok(count),
            got => count += got,
        }
    }
    Ok(count)
}
