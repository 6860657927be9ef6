// The chunk decoder: its record, and its calls.
ghost use Rattle.std.specs.Prelude.{◌≡◌, true, ◌≤◌, ◌-◌, ◌/◌, length, take, if◌then◌else◌};
ghost use Rattle.standard.specs.NameList.{builtin};
ghost use Rattle.decoder.specs.Stream as spec;
ghost use Rattle.decoder.specs.Feeding.{refusal_of};

use crate::feeding::{Walked, padded, put_last, walk};
use crate::numbers::stopped;
use crate::opening::is_open;
use crate::turns::{after_cr, data};
use crate::writers::{Ends, lacks_room};
use standard::Context;

// CharRefTokenizer's states, with data around them.
#[derive(Clone, Copy, PartialEq, Eq, Debug)]
pub enum State {
    // Nothing is held; nothing after a CR, whose LF is to be passed over.
    Data,
    AfterCr,
    // `&`; `&#`; `&#x` or `&#X`.
    Begin,
    Octothorpe,
    HexBegin,
    // `&#` or `&#x` and digits, of which only the number is kept. The base is a number, 10 or 16, as document 01 has it.
    Numeric { base: u32, value: u32 },
    // `&` and a beginning of some name.
    Named,
    // Nothing is held: letters and digits of no name pass, and error 4 waits for their `;`.
    BogusName,
    Closed,
}

// What is held: the state, the place of its `&`, and the first count bytes of the store, an array, since there is no heap.
#[derive(Clone, Copy, PartialEq, Eq, Debug)]
pub struct Held {
    pub state: State,
    pub place: u32,
    pub store: [u8; 32],
    pub count: usize,
}

// A stream between two calls: its context, what is held, the first part_count bytes of an incomplete character, and how many bytes were taken.
#[derive(Clone, Copy, PartialEq, Eq, Debug)]
pub struct Stream {
    pub context: Context,
    pub held: Held,
    pub part: [u8; 3],
    pub part_count: usize,
    pub taken: u32,
}

// What a call answers: a number, bytes taken, text bytes and errors written, a place, and the record.
#[derive(Clone, Copy, PartialEq, Eq, Debug)]
pub struct Fed {
    pub answer: u32,
    pub taken: u32,
    pub text: u32,
    pub errors: u32,
    pub place: u32,
    pub record: Stream,
}

// What is held, with nothing past its count.
fn canonical(held: Held) -> Held
    requires { (held.count ≤ 32) × (spec.holds builtin held.state (take held.count held.store) ≡ true) }
    ensures { result ≡ spec.held_of (spec.st_of held) }
{
    let store = padded(&held.store, held.count);
    match held.state {
        State::Data => data(),
        State::AfterCr => after_cr(),
        State::Numeric { base, value } => Held {
            state: State::Numeric {
                base,
                value: stopped(value),
            },
            store,
            ..held
        },
        _ => Held { store, ..held },
    }
}

// A record with nothing past its counts.
fn cleared_record(record: Stream) -> Stream
    requires { spec.is_open builtin «record» ≡ true }
    ensures { result ≡ spec.record_of «record».context (spec.at_of «record») }
{
    let bytes = record.part;
    Stream {
        held: canonical(record.held),
        part: padded(&bytes, record.part_count),
        ..record
    }
}

// A stream that closed.
fn closed(context: Context, taken: u32) -> Stream
    ensures { result ≡ spec.closed_by context taken }
{
    Stream {
        context,
        held: Held {
            state: State::Closed,
            place: 0,
            store: [0u8; 32],
            count: 0,
        },
        part: [0u8; 3],
        part_count: 0,
        taken,
    }
}

// Why a chunk of so many bytes is refused, 8, 3, 4 or 5, if it is. The end is refused as a chunk of no bytes is.
fn refusal(record: Stream, chunk: usize, text: usize, errors: usize) -> Option<u32>
    ensures { result ≡ refusal_of builtin «record» chunk text errors }
{
    if !is_open(record) {
        return Some(8);
    }
    if 65536 < chunk {
        return Some(3);
    }
    if 16777216 < record.taken as usize + chunk {
        return Some(4);
    }
    if lacks_room(text, errors) {
        return Some(5);
    }
    None
}

// Nothing changes.
fn refused(answer: u32, record: Stream) -> Fed
    ensures { result ≡ spec.fed_of (spec.refuses answer «record») }
{
    Fed {
        answer,
        taken: 0,
        text: 0,
        errors: 0,
        place: 0,
        record,
    }
}

// The answers that close a stream while it is fed.
fn closes(answer: u32) -> bool
    ensures { result ≡ spec.closes answer }
{
    matches!(answer, 1 | 2 | 7)
}

// What a walk comes to, where before bytes were taken before it.
fn walked_to(context: Context, before: u32, walked: Walked) -> Fed
    requires { (before ≤ walked.«record».taken) × (walked.«record».part_count ≤ walked.«record».taken)
        × (walked.ends.text ≤ 16777216) × (walked.ends.errors ≤ 16777216) }
    ensures { result ≡ record {
      answer = walked.answer;
      taken = walked.«record».taken - before;
      text = walked.ends.text;
      errors = walked.ends.errors / 2;
      place = if spec.closes walked.answer then walked.«record».taken - walked.«record».part_count else 0;
      «record» = if spec.closes walked.answer then spec.closed_by context walked.«record».taken else walked.«record»;
    } }
{
    let record = walked.record;
    let fed = Fed {
        answer: walked.answer,
        taken: record.taken - before,
        text: walked.ends.text as u32,
        errors: (walked.ends.errors / 2) as u32,
        place: 0,
        record,
    };
    if !closes(walked.answer) {
        return fed;
    }
    Fed {
        place: record.taken - record.part_count as u32,
        record: closed(context, record.taken),
        ..fed
    }
}

impl Stream {
    // A new stream is open, with its context and nothing taken or held.
    pub fn new(context: Context) -> Stream
        ensures { result ≡ spec.new_stream context }
    {
        Stream {
            context,
            held: data(),
            part: [0u8; 3],
            part_count: 0,
            taken: 0,
        }
    }

    // One chunk more.
    pub fn feed(self, chunk: &[u8], text: &mut [u8], errors: &mut [u32]) -> Fed
        ensures { spec.Feeds (spec.feed_of builtin self chunk.now (length text.old) (length errors.old))
            text.old errors.old result text.new errors.new }
    {
        if let Some(answer) = refusal(self, chunk.len(), text.len(), errors.len()) {
            return refused(answer, self);
        }
        let walked = walk(cleared_record(self), chunk, text, errors);
        walked_to(self.context, self.taken, walked)
    }

    // The source ends here.
    pub fn end(self, text: &mut [u8], errors: &mut [u32]) -> Fed
        ensures { spec.Feeds (spec.end_of builtin self (length text.old) (length errors.old))
            text.old errors.old result text.new errors.new }
    {
        if let Some(answer) = refusal(self, 0, text.len(), errors.len()) {
            return refused(answer, self);
        }
        let taken = self.taken;
        if 0 < self.part_count {
            return Fed {
                answer: 1,
                taken: 0,
                text: 0,
                errors: 0,
                place: taken - self.part_count as u32,
                record: closed(self.context, taken),
            };
        }
        let held = canonical(self.held);
        let ends = put_last(self.context, held, text, errors, Ends::NONE);
        Fed {
            answer: 0,
            taken: 0,
            text: ends.text as u32,
            errors: (ends.errors / 2) as u32,
            place: 0,
            record: closed(self.context, taken),
        }
    }
}
