// Where a source stops, and why.
ghost use Rattle.std.specs.Prelude.{◌≡◌, true, IfOk, IfErr};
ghost use Rattle.standard.specs.Contexts.{end_byte};
ghost use Rattle.standard.specs.Reading.{stop_of, readable};
ghost use Rattle.checker.specs.Meeting.{stop_at};

use crate::spans::ordinary_front;
use standard::Context;
use standard::characters::{CharRead, read_char};

// Why a source can't be read, and the place: a byte that is of no character, or NUL.
#[derive(Clone, Copy)]
pub(crate) enum Fault {
    IllFormed(usize),
    Nul(usize),
}

// The byte before which a source ends.
fn end_of(context: Context) -> u8
    ensures { result ≡ end_byte context }
{
    match context {
        Context::Text => b'<',
        Context::Attribute => b'"',
    }
}

// Where a source ends, or its first fault.
pub(crate) fn find_stop(context: Context, s: &[u8]) -> Result<usize, Fault>
    ensures end { IfOk result (λ end. (readable context s.now ≡ true) × (end ≡ (stop_of context s.now).place)) }
    ensures fault { IfErr result (λ fault. stop_of context s.now ≡ stop_at fault) }
{
    let end = end_of(context);
    let mut at: usize = 0;
    // A `loop` and no `for`: each turn goes on by a run and a character.
    loop {
        at += ordinary_front(&s[at..], end);
        if at == s.len() {
            return Ok(at);
        }
        let CharRead::Char { value, len } = read_char(&s[at..]) else {
            return Err(Fault::IllFormed(at));
        };
        if value == 0 {
            return Err(Fault::Nul(at));
        }
        if value == u32::from(end) {
            return Ok(at);
        }
        at += len;
    }
}
