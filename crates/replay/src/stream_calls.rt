// Calls of a stream: marked rooms are lent, and what a call hands back goes into a tally and, where it is shown, into the line. Then the rooms are
// marked again.
ghost use Rattle.std.specs.Iterator.{IsFinite};

use crate::lent::{Rooms, Written};
use crate::lines::{Errors, Text};
use crate::numbers::split_within;
use crate::streams::{Shown, sum_stream};
use crate::sums::Sum;
use decoder::{Fed, Stream};
use standard::Context;
use std::io;
use std::io::Write;

// What is kept of calls: how many there were, the sum of what they handed back, and whether one touched what it had to leave.
#[derive(Clone, Copy, Default)]
pub(crate) struct Tally {
    pub calls: u32,
    pub sum: Sum,
    pub touched: bool,
}

impl Tally {
    // Takes in more calls, as many as their own tally says.
    pub(crate) fn take_in(&mut self, more: Tally) {
        self.calls = self.calls.wrapping_add(more.calls);
        self.sum = self.sum.number(more.sum.0);
        self.touched |= more.touched;
    }
}

// How calls are shown: not at all, without or with the stream after each.
#[derive(Clone, Copy, PartialEq, Eq)]
pub(crate) enum Show {
    Hidden,
    Bare,
    Full,
}

// Where calls are shown, the rooms that they are lent, and what is kept of them.
#[derive(Drop)]
pub(crate) struct Calls<'o, 'c, 'r, W: Write> {
    pub output: &'o mut W,
    pub rooms: &'c mut Rooms<'r>,
    pub show: Show,
    pub tally: Tally,
}

// The sum of a call that wrote this.
fn sum_call(fed: Fed, written: Written) -> Sum {
    sum_stream(fed.record)
        .numbers(&[fed.answer, fed.taken, fed.text, fed.errors, fed.place])
        .bytes(written.text)
        .numbers(written.errors)
}

// ` | `, and ANSWER TAKEN TEXT ERRORS PLACE HEX CODE@PLACE CODE@PLACE .., and the stream where it is shown.
fn put_call<W: Write>(output: &mut W, show: Show, fed: Fed, written: Written) -> io::Result<()> {
    write!(
        output,
        " | {} {} {} {} {} {}{}",
        fed.answer,
        fed.taken,
        fed.text,
        fed.errors,
        fed.place,
        Text(written.text),
        Errors {
            numbers: written.errors,
            with_places: true,
        },
    )?;
    if show == Show::Full {
        write!(output, " {}", Shown(fed.record))?;
    }
    Ok(())
}

impl<W: Write> Calls<'_, '_, '_, W> {
    // A call more, which wrote what it says.
    fn called(&mut self, fed: Fed) -> io::Result<Fed> {
        let written = self.rooms.written(fed.text, fed.errors);
        if self.show != Show::Hidden {
            put_call(&mut *self.output, self.show, fed, written)?;
        }
        self.tally.take_in(Tally {
            calls: 1,
            sum: sum_call(fed, written),
            touched: written.touched(),
        });
        self.rooms.mark();
        Ok(fed)
    }

    // A chunk is fed.
    pub(crate) fn feed(&mut self, stream: Stream, chunk: &[u8]) -> io::Result<Fed> {
        let fed = self.rooms.feed(stream, chunk);
        self.called(fed)
    }

    // The stream is ended.
    pub(crate) fn end(&mut self, stream: Stream) -> io::Result<Stream> {
        let fed = self.rooms.end(stream);
        Ok(self.called(fed)?.record)
    }

    // A chunk is fed, and what an answer 6 leaves of it again. Each such call takes a byte, so there is one call more than bytes at most.
    fn feed_all(&mut self, stream: Stream, chunk: &[u8]) -> io::Result<Stream> {
        let mut rest = chunk;
        let mut fed = self.feed(stream, rest)?;
        for _ in chunk {
            if fed.answer != 6 {
                break;
            }
            (_, rest) = split_within(rest, fed.taken as usize);
            fed = self.feed(fed.record, rest)?;
        }
        Ok(fed.record)
    }

    // A stream from its beginning to its end, with a source in chunks of these lengths.
    pub(crate) fn run<I: Iterator<Item = usize>>(
        &mut self,
        context: Context,
        source: &[u8],
        lengths: I,
    ) -> io::Result<Stream>
        requires can { I.can_next lengths }
        requires ends { IsFinite (I.remaining lengths) }
    {
        let mut stream = Stream::new(context);
        let mut rest = source;
        for length in lengths {
            let (chunk, more) = split_within(rest, length);
            stream = self.feed_all(stream, chunk)?;
            rest = more;
        }
        self.end(stream)
    }
}
