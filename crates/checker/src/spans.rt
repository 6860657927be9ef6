// Spans, in blocks: bytes that stop no reading, and bytes that a source and its text have alike. A span may end early: it spares work and settles
// nothing. The loops over a block have no early end, so they are done many bytes at a time. The checker doesn't see the crate `runs`, which the
// decoder has for this.
ghost use Rattle.std.specs.Prelude.{◌≡◌, true, ◌≤◌, length};
ghost use Rattle.checker.specs.Spans as spec;

// A byte that is a character of its own and stops no reading, where a source ends before end.
fn ordinary(b: u8, end: u8) -> bool
    ensures { result ≡ spec.ordinary end b }
{
    (0x1 <= b) & (b <= 0x7F) & (b != end)
}

// Whether the 64 bytes of a block are ordinary.
fn ordinary_block(block: &[u8], end: u8) -> bool
    requires { length block.now ≡ 64 }
    ensures { result ≡ true → spec.Ordinary end block.now 64 }
{
    let mut all = true;
    for b in block {
        all &= ordinary(*b, end);
    }
    all
}

// How many bytes at the front are ordinary, byte by byte.
fn ordinary_bytes(s: &[u8], end: u8) -> usize
    ensures within { result ≤ length s.now }
    ensures each { spec.Ordinary end s.now result }
{
    s.iter().position(|b| !ordinary(*b, end)).unwrap_or(s.len())
}

// The same, in blocks as long as they are ordinary. A look at the first byte spares the block where it is not.
pub(crate) fn ordinary_front(s: &[u8], end: u8) -> usize
    ensures within { result ≤ length s.now }
    ensures each { spec.Ordinary end s.now result }
{
    if s.is_empty() || !ordinary(s[0], end) {
        return 0;
    }
    let mut rest = s;
    while let Some((block, after)) = rest.split_first_chunk::<64>() {
        if !ordinary_block(block, end) {
            break;
        }
        rest = after;
    }
    s.len() - rest.len() + ordinary_bytes(rest, end)
}

// A byte that is a piece and its own text, without an error, and is the byte c too.
fn alike(b: u8, c: u8) -> bool
    ensures { result ≡ spec.alike b c }
{
    (((0x20 <= b) & (b <= 0x7E) & (b != b'&')) | (b == 0xA) | (b == 0x9)) & (b == c)
}

// Whether 32 bytes of a source and 32 of a text are alike.
pub(crate) fn alike_block(source: &[u8], text: &[u8]) -> bool
    requires source { length source.now ≡ 32 }
    requires text { length text.now ≡ 32 }
    ensures { result ≡ true → spec.Alike source.now text.now 32 }
{
    let mut all = true;
    // By an index into both: of what a zip has given, a proof doesn't know that it stands at one place of both.
    for i in 0..32usize {
        all &= alike(source[i], text[i]);
    }
    all
}

// How many bytes at the front of a source and a text are alike, byte by byte.
fn alike_bytes(source: &[u8], text: &[u8]) -> usize
    ensures source { result ≤ length source.now }
    ensures text { result ≤ length text.now }
    ensures each { spec.Alike source.now text.now result }
{
    source
        .iter()
        .zip(text)
        .position(|(b, c)| !alike(*b, *c))
        .unwrap_or(source.len().min(text.len()))
}

// The same, in blocks as long as they are alike.
fn alike_blocks(source: &[u8], text: &[u8]) -> usize
    ensures source { result ≤ length source.now }
    ensures text { result ≤ length text.now }
    ensures each { spec.Alike source.now text.now result }
{
    let end = source.len().min(text.len());
    // By one count: both go on by it alike.
    let mut i: usize = 0;
    while 32 <= end - i {
        if !alike_block(&source[i..i + 32], &text[i..i + 32]) {
            break;
        }
        i += 32;
    }
    i + alike_bytes(&source[i..], &text[i..])
}

// The same. A look at the first bytes spares the block where they differ.
#[inline(always)]
pub(crate) fn alike_front(source: &[u8], text: &[u8]) -> usize
    ensures source { result ≤ length source.now }
    ensures text { result ≤ length text.now }
    ensures each { spec.Alike source.now text.now result }
{
    if source.is_empty() || text.is_empty() || !alike(source[0], text[0]) {
        return 0;
    }
    alike_blocks(source, text)
}
