// Where a source stops, and why.
ghost use Rattle.std.specs.Prelude.{◌≡◌};
ghost use Rattle.standard.specs.Contexts.{end_byte};
ghost use Rattle.standard.specs.Reading.{calls_for, stop_of};

use standard::Context;
use standard::characters::{CharRead, read_char};

// Why reading stops, and after how many bytes. An answer's number and no Result: with 0 and 7, too, it is what the caller hands on.
#[derive(Clone, Copy)]
pub(crate) struct Stopped {
    pub answer: u32,
    pub place: usize,
}

// The byte before which a source ends. The checker has its own: the two share nothing but `standard`.
pub(crate) fn end_of(context: Context) -> u8
    ensures { result ≡ end_byte context }
{
    match context {
        Context::Text => b'<',
        Context::Attribute => b'"',
    }
}

// The answer that a character calls for; a number and no Option, since 0, where reading goes on, is an answer too.
pub(crate) fn calls_for(context: Context, c: u32) -> u32
    ensures { result ≡ calls_for context c }
{
    if c == 0 {
        return 2;
    }
    if c == u32::from(end_of(context)) {
        return 7;
    }
    0
}

// Where a source stops: runs of ordinary bytes are passed at once, and each other character is read.
pub(crate) fn find_stop(context: Context, s: &[u8]) -> Stopped
    ensures { (result.answer ≡ (stop_of context s.now).answer) × (result.place ≡ (stop_of context s.now).place) }
{
    let mut at: usize = 0;
    // A `loop` and no `for`: each turn goes on by a run and a character.
    loop {
        let from = runs::ordinary_end(end_of(context), s, at);
        if s.len() <= from {
            return Stopped {
                answer: 0,
                place: from,
            };
        }
        let CharRead::Char { value, len } = read_char(&s[from..]) else {
            return Stopped {
                answer: 1,
                place: from,
            };
        };
        let answer = calls_for(context, value);
        if answer != 0 {
            return Stopped {
                answer,
                place: from,
            };
        }
        at = from + len;
    }
}
