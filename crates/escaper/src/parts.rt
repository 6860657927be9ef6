// The parts of a well-formed input: a run of quiet bytes, then what one other byte begins, and again.
ghost use Rattle.std.specs.Prelude.{◌≡◌, ◌<◌, ◌++◌, length};
ghost use Rattle.escaper.specs.Walk.{quote_of, Sound, Moves};

use crate::{Mode, specials};

// The quotation mark where that is replaced, and `<` once more where it is not. It ends no input, so it is no `end_of`.
fn quote_of(mode: Mode) -> u8
    ensures { result ≡ quote_of mode }
{
    match mode {
        Mode::Text => b'<',
        Mode::Attribute => b'"',
    }
}

// A run, which is written as it stands, what is written for the character after it, if there is one, and where the part ends.
#[derive(Clone, Copy)]
pub(crate) struct Part<'a> {
    pub(crate) run: &'a [u8],
    pub(crate) text: &'a [u8],
    pub(crate) end: usize,
}

// The part that begins at `at`. It is inlined, since a part that is handed over in memory takes longer than its walk.
#[inline(always)]
pub(crate) fn part_at<'a>(mode: Mode, s: &'a [u8], at: usize) -> Part<'a>
    requires sound { Sound s.now at }
    requires more { at < length s.now }
    ensures moves { Moves mode s.now at (result.run.now ++ result.text.now) result.end }
    ensures on { at < result.end }
{
    let end = runs::quiet_end(quote_of(mode), s, at);
    let run = &s[at..end];
    if s.len() <= end {
        return Part {
            run,
            text: b"",
            end,
        };
    }
    let special = specials::special_at(s, end);
    let after = end + specials::source_length(special);
    Part {
        run,
        text: specials::text_of(special, &s[end..after]),
        end: after,
    }
}
