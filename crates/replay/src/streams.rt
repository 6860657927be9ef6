// Streams: how a record has them and a line shows them, and their sums.
use crate::lines::Text;
use crate::numbers::number_at;
use crate::sources::context_of;
use crate::sums::{Sum, low, trimmed};
use decoder::{Held, State, Stream};
use standard::Context;
use std::fmt;

// How many bytes one has in a record.
pub(crate) const STREAM_BYTES: usize = 61;

// Another letter is a closed stream's.
fn state_of(letter: u8, base: u32, value: u32) -> State {
    match letter {
        b'D' => State::Data,
        b'R' => State::AfterCr,
        b'B' => State::Begin,
        b'O' => State::Octothorpe,
        b'H' => State::HexBegin,
        b'N' => State::Numeric { base, value },
        b'L' => State::Named,
        b'W' => State::BogusName,
        _ => State::Closed,
    }
}

// The other way: a state's letter, and the base and the value of a number.
fn letter_of(state: State) -> (char, u32, u32) {
    match state {
        State::Data => ('D', 0, 0),
        State::AfterCr => ('R', 0, 0),
        State::Begin => ('B', 0, 0),
        State::Octothorpe => ('O', 0, 0),
        State::HexBegin => ('H', 0, 0),
        State::Numeric { base, value } => ('N', base, value),
        State::Named => ('L', 0, 0),
        State::BogusName => ('W', 0, 0),
        State::Closed => ('C', 0, 0),
    }
}

fn context_letter(context: Context) -> char {
    match context {
        Context::Text => 'T',
        Context::Attribute => 'A',
    }
}

pub(crate) fn read_stream(s: &[u8; STREAM_BYTES]) -> Stream {
    let mut store = [0; 32];
    store.copy_from_slice(&s[26..58]);
    Stream {
        context: context_of(s[0]),
        held: Held {
            state: state_of(s[1], number_at(s, 2), number_at(s, 6)),
            place: number_at(s, 10),
            store,
            count: number_at(s, 14) as usize,
        },
        part: [s[58], s[59], s[60]],
        part_count: number_at(s, 18) as usize,
        taken: number_at(s, 22),
    }
}

// The sum of all fields of a stream.
pub(crate) fn sum_stream(stream: Stream) -> Sum {
    let held = stream.held;
    let (letter, base, value) = letter_of(held.state);
    let numbers = [
        context_letter(stream.context) as u32,
        letter as u32,
        base,
        value,
        held.place,
        low(held.count),
        low(stream.part_count),
        stream.taken,
    ];
    Sum::default()
        .numbers(&numbers)
        .trimmed(&held.store)
        .trimmed(&stream.part)
}

// A state as a line shows it: LETTER, or LETTER BASE=VALUE.
#[derive(Clone, Copy)]
struct ShownState(State);

impl fmt::Display for ShownState {
    fn fmt<W: fmt::Write>(&self, f: &mut fmt::Formatter<W>) -> fmt::Result {
        let (letter, base, value) = letter_of(self.0);
        if letter == 'N' {
            write!(f, "{letter}{base}={value}")
        } else {
            write!(f, "{letter}")
        }
    }
}

// A stream as a line shows it: CONTEXT STATE@PLACE STORE/COUNT PART/COUNT TAKEN, the store and the part without the zeros at the end.
#[derive(Clone, Copy)]
pub(crate) struct Shown(pub Stream);

impl fmt::Display for Shown {
    fn fmt<W: fmt::Write>(&self, f: &mut fmt::Formatter<W>) -> fmt::Result {
        let Shown(stream) = *self;
        let held = stream.held;
        write!(
            f,
            "{} {}@{} {}/{} {}/{} {}",
            context_letter(stream.context),
            ShownState(held.state),
            held.place,
            Text(trimmed(&held.store)),
            held.count,
            Text(trimmed(&stream.part)),
            stream.part_count,
            stream.taken,
        )
    }
}
