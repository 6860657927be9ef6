// Lines in a room.
ghost use Rattle.std.specs.Prelude.{◌∷◌, [], ◌++◌, ◌+◌, ◌≤◌, ◌<◌, length};
ghost use Rattle.lists.specs.Rooms.{Put};
ghost use Rattle.standard.specs.Utf8.{bytes};
ghost use Rattle.reporting.specs.Report.{decimal as digits_of, pair as pair_of, line, digit as digit_of};
ghost use Rattle.reporting.specs.Lines.{pair_lines, after_text, Wrote};

// A room, and the place in it where the next byte goes. What no longer fits is left out.
// No `fmt::Write`: the contract of `write!` speaks of a call that succeeds, and not of what one that fails has written, which `Reports` asks for.
#[derive(Drop)]
struct Writer<'a> {
    out: &'a mut [u8],
    at: usize,
}

impl Writer<'_> {
    fn text(&mut self, text: &[u8])
        ensures { Wrote self.old text.now self.new }
    {
        let at = self.at;
        self.at = rooms::copy(text, &mut *self.out, at);
    }

    // One byte, stored here: most of what lines hold is single digits, for each of which `rooms::copy` would look for blocks.
    fn byte(&mut self, byte: u8)
        ensures { Wrote self.old (byte ∷ []) self.new }
    {
        if self.at < self.out.len() {
            self.out[self.at] = byte;
            self.at += 1;
        }
    }

    fn digit(&mut self, n: u32)
        requires { n < 10 }
        ensures { Wrote self.old (digit_of n ∷ []) self.new }
    {
        self.byte(b'0' + n as u8);
    }

    // A number in decimal: the digits of its tenth, if it has more than one, and then its last.
    fn decimal(&mut self, n: u32)
        ensures { Wrote self.old (digits_of n) self.new }
    {
        if n < 10 {
            return self.digit(n);
        }
        self.decimal(n / 10);
        self.digit(n % 10);
    }

    // A line of two numbers.
    fn pair(&mut self, a: u32, b: u32)
        ensures { Wrote self.old (line (pair_of a b)) self.new }
    {
        self.decimal(a);
        self.byte(b' ');
        self.decimal(b);
        self.byte(b'\n');
    }

    // A line for each two numbers.
    fn pairs(&mut self, numbers: &[u32])
        ensures { Wrote self.old (pair_lines numbers.now) self.new }
    {
        let mut rest = numbers;
        while let [code, place, others @ ..] = rest {
            self.pair(*code, *place);
            rest = others;
        }
    }

    // LF after a text, a line for each two numbers, and one of a word and a place.
    fn after_text(&mut self, numbers: &[u32], word: &[u8], place: u32)
        ensures { Wrote self.old (after_text numbers.now word.now place) self.new }
    {
        self.byte(b'\n');
        self.pairs(numbers);
        self.text(word);
        self.decimal(place);
        self.byte(b'\n');
    }

    // The line of a source that is refused.
    fn refused(&mut self, answer: u32, place: u32)
        ensures { Wrote self.old (line (bytes "refused " ++ pair_of answer place)) self.new }
    {
        self.text(b"refused ");
        self.pair(answer, place);
    }
}

// Writes what stands after a text of a source that is read, and answers the place after it.
pub(crate) fn put_read(out: &mut [u8], at: usize, numbers: &[u32], word: &[u8], place: u32) -> usize
    requires { at + length (after_text numbers.now word.now place) ≤ length out.old }
    ensures { Put out.old at (after_text numbers.now word.now place) out.new result }
{
    let mut writer = Writer { out: &mut *out, at };
    writer.after_text(numbers, word, place);
    writer.at
}

// Writes the line of a source that is refused, and answers the place after it.
pub(crate) fn put_refused(out: &mut [u8], at: usize, answer: u32, place: u32) -> usize
    requires { at + length (line (bytes "refused " ++ pair_of answer place)) ≤ length out.old }
    ensures { Put out.old at (line (bytes "refused " ++ pair_of answer place)) out.new result }
{
    let mut writer = Writer { out: &mut *out, at };
    writer.refused(answer, place);
    writer.at
}
