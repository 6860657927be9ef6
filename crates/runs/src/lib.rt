// Runs: stretches of bytes that pass a test, which need no look at each character. They are tested in blocks, whose loop has no early end, so that it
// is done many bytes at a time.
#![tactic(auto)]

ghost use Rattle.std.specs.Prelude.{◌≡◌, ℕ, Bool, ◌+◌, length, drop};
ghost use Rattle.lists.specs.Notation.{front};
ghost use Rattle.runs.specs.Kinds as spec;

// Where the bytes that pass a test end, of those that stand from `from` on.
fn run_end<P: Fn(u8) -> bool>(passes: P, s: &[u8], from: usize) -> usize
    requires { P.IsAlwaysCallable passes }
    ensures { (test : ℕ → Bool) → spec.Tests (P.post passes) test → result ≡ from + length (front test (drop from s.now)) }
{
    if s.len() <= from {
        return from;
    }
    // Many runs are empty, where characters are read one by one: a look at the first byte spares the block.
    if !passes(s[from]) {
        return from;
    }
    let mut rest = &s[from + 1..];
    while let Some((block, after)) = rest.split_first_chunk::<32>() {
        if !block.iter().fold(true, |all, b| all & passes(*b)) {
            break;
        }
        rest = after;
    }
    let at = s.len() - rest.len();
    match rest.iter().position(|b| !passes(*b)) {
        Some(more) => at + more,
        None => s.len(),
    }
}

// Where ASCII ends.
pub fn ascii_end(s: &[u8], from: usize) -> usize
    ensures { result ≡ from + length (front spec.ascii (drop from s.now)) }
{
    run_end(|b| b < 0x80, s, from)
}

// Where the bytes end that are characters of their own and stop no reading, where a source ends before end.
pub fn ordinary_end(end: u8, s: &[u8], from: usize) -> usize
    ensures { result ≡ from + length (front (spec.ordinary end) (drop from s.now)) }
{
    run_end(|b| (0x1 <= b) & (b <= 0x7F) & (b != end), s, from)
}

// Where the bytes end that are characters of their own and stand for themselves without an error, where a source ends before end.
pub fn plain_end(end: u8, s: &[u8], from: usize) -> usize
    ensures { result ≡ from + length (front (spec.plain end) (drop from s.now)) }
{
    run_end(
        |b| { (((0x20 <= b) & (b <= 0x7E) & (b != b'&')) | (b == 0xA) | (b == 0x9)) & (b != end) },
        s,
        from,
    )
}

// Where the bytes end that escaping leaves as they are, whatever follows them: none is `&`, `<`, `>`, quote, or C2, with which U+00A0 begins.
#[tactic(auto, unfolding(crate::specs::Kinds::quiet))]
pub fn quiet_end(quote: u8, s: &[u8], from: usize) -> usize
    ensures { result ≡ from + length (front (spec.quiet quote) (drop from s.now)) }
{
    run_end(
        |b| (b != b'&') & (b != b'<') & (b != b'>') & (b != 0xC2) & (b != quote),
        s,
        from,
    )
}
