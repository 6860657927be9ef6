// The result of escaping a well-formed input, part by part. Its length first, and then its bytes.
ghost use Rattle.std.specs.Prelude.{◌≡◌, ◌≤◌, length};
ghost use Rattle.lists.specs.Rooms.{Put};
ghost use Rattle.standard.specs.Answers.{done};
ghost use Rattle.escaper.specs.Escape.{escape, escape_stop};

use crate::{Mode, parts};

// The length of the result.
pub(crate) fn escaped_length(mode: Mode, s: &[u8]) -> usize
    requires short { length s.now ≤ 65536 }
    requires well_formed { (escape_stop s.now).answer ≡ done }
    ensures { result ≡ length (escape mode s.now) }
{
    // A place and `part_at`, here and below: an iterator would be a struct and an impl with its ghost members for the same two loops.
    let mut at: usize = 0;
    let mut count: usize = 0;
    while at < s.len() {
        let part = parts::part_at(mode, s, at);
        count += part.run.len() + part.text.len();
        at = part.end;
    }
    count
}

// Writes the result.
pub(crate) fn write_escaped(mode: Mode, s: &[u8], out: &mut [u8]) -> usize
    requires well_formed { (escape_stop s.now).answer ≡ done }
    requires fits { length (escape mode s.now) ≤ length out.old }
    ensures { Put out.old 0 (escape mode s.now) out.new result }
{
    let mut at: usize = 0;
    let mut next: usize = 0;
    while at < s.len() {
        let part = parts::part_at(mode, s, at);
        next = rooms::copy(part.run, out, next);
        next = rooms::copy(part.text, out, next);
        at = part.end;
    }
    next
}
