// What is not quiet: the characters that are replaced, and those that begin with C2 as U+00A0 does.
ghost use Rattle.std.specs.Prelude.{◌≡◌, ◌<◌, ◌+◌, length, get_or};
ghost use Rattle.escaper.specs.Walk.{special_of, source_length, text_of};

// A character that is replaced, or another one of two bytes.
#[derive(Clone, Copy)]
pub(crate) enum Special {
    Amp,
    Lt,
    Gt,
    Nbsp,
    Quot,
    Other,
}

// What the byte at `at` begins, which is not quiet.
#[tactic(auto, unfolding(crate::specs::Walk::special_of))]
pub(crate) fn special_at(s: &[u8], at: usize) -> Special
    requires { at < length s.now }
    ensures { result ≡ special_of (get_or s.now at 0) (get_or s.now (at + 1) 0) }
{
    match s[at] {
        b'&' => Special::Amp,
        b'<' => Special::Lt,
        b'>' => Special::Gt,
        b'"' => Special::Quot,
        _ if s.get(at + 1) == Some(&0xA0) => Special::Nbsp,
        _ => Special::Other,
    }
}

// How many bytes it has.
pub(crate) fn source_length(special: Special) -> usize
    ensures { result ≡ source_length special }
{
    match special {
        Special::Nbsp | Special::Other => 2,
        _ => 1,
    }
}

// What is written for it, own being its own bytes.
#[tactic(auto, unfolding(standard::proofs::Computing::computing))]
pub(crate) fn text_of<'a>(special: Special, own: &'a [u8]) -> &'a [u8]
    ensures { result.now ≡ text_of special own.now }
{
    match special {
        Special::Amp => b"&amp;",
        Special::Lt => b"&lt;",
        Special::Gt => b"&gt;",
        Special::Nbsp => b"&nbsp;",
        Special::Quot => b"&quot;",
        Special::Other => own,
    }
}
