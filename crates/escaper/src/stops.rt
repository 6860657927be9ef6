// Where an input stops: at its end, or at the first bytes that are no character. It has no end byte and no answer for NUL, so it is no part of the
// decoder's.
ghost use Rattle.std.specs.Prelude.{◌≡◌, ◌≤◌, MatchOption, length};
ghost use Rattle.standard.specs.Answers.{done, ill_formed};
ghost use Rattle.escaper.specs.Escape.{escape_stop};

use standard::characters::CharRead;

// How many bytes stand before the first that are no character.
pub(crate) fn find_stop(s: &[u8]) -> Option<usize>
    ensures { MatchOption result ((escape_stop s.now).answer ≡ done)
        (λ place. ((escape_stop s.now).answer ≡ ill_formed) × (place ≡ (escape_stop s.now).place) × (place ≤ length s.now)) }
{
    // The place is counted: a step is a run or a character, and no iterator takes such.
    let mut at: usize = 0;
    while at < s.len() {
        if s[at] < 0x80 {
            at = runs::ascii_end(s, at);
        } else {
            let CharRead::Char { value: _, len } = standard::characters::read_char(&s[at..]) else {
                return Some(at);
            };
            at += len;
        }
    }
    None
}
