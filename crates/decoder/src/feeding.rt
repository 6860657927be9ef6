// The bytes of a chunk: they are skimmed where nothing is held, and else met one by one.
ghost use Rattle.std.specs.Prelude.{◌≡◌, ◌≤◌, ◌<◌, ◌+◌, ◌∷◌, [], length, get_or, take, set};
ghost use Rattle.standard.specs.Utf8.{encode};
ghost use Rattle.standard.specs.NameList.{builtin};
ghost use Rattle.standard.specs.Reading.{reading_at, ◌⊕◌};
ghost use Rattle.decoder.specs.Writing.{Writes, Free, Used};
ghost use Rattle.decoder.specs.Machine as machine;
ghost use Rattle.decoder.specs.Pieces.{piece_of};
ghost use Rattle.decoder.specs.Stream as spec;
ghost use Rattle.decoder.specs.Turns.{Fit, released_of};
ghost use Rattle.decoder.specs.Feeding.{Open, char_walk, byte_walk, Walks, Bounded, Moves};

use crate::pieces::Piece;
use crate::skimming::skim;
use crate::stops::calls_for;
use crate::stream::{Held, State, Stream};
use crate::turns::{data, finish, step};
use crate::writers::{Ends, lacks_room, put_piece};
use standard::Context;
use standard::characters::{CharRead, read_char};

// What a walk over a chunk comes to: its answer, by document 01's number, which `Fed` hands on, the record of where it ended, and where what was
// written ends.
#[derive(Clone, Copy)]
pub(crate) struct Walked {
    pub answer: u32,
    pub record: Stream,
    pub ends: Ends,
}

// Writes what is released of what is held, with the character at place p after it. Both rooms and their ends go from call to call one by one, here
// and below: a struct that lends the rooms would have to be taken apart and made anew in each.
fn put_turn(
    text: &mut [u8],
    errors: &mut [u32],
    ends: Ends,
    held: Held,
    released: Piece,
    own: Piece,
    p: u32,
) -> Ends
    requires { (released.size ≤ held.count) × (held.count ≤ 32) × (length held.store ≡ 32) × Free ends text.old errors.old }
    ensures { Writes (released_of held released ⊕ reading_at p (piece_of own)) ends text.old errors.old result text.new errors.new × Used ends result }
{
    let store = held.store;
    let mut next = put_piece(text, errors, ends, released, held.place);
    next.text = rooms::copy(&store[released.size..held.count], text, next.text);
    put_piece(text, errors, next, own, p)
}

// What is held then, and where what was written ends.
#[derive(Clone, Copy)]
struct Met {
    held: Held,
    ends: Ends,
}

// A character that is taken.
fn meet(
    context: Context,
    held: Held,
    p: u32,
    c: u32,
    text: &mut [u8],
    errors: &mut [u32],
    ends: Ends,
) -> Met
    requires { Fit held × Free ends text.old errors.old }
    ensures { (result.held ≡ spec.held_of (machine.step builtin context (spec.st_of held) p c (encode c)).next)
        × Writes (machine.step builtin context (spec.st_of held) p c (encode c)).gives ends text.old errors.old result.ends text.new errors.new
        × Used ends result.ends }
{
    let turn = step(context, held, p, c);
    Met {
        held: turn.next,
        ends: put_turn(text, errors, ends, held, turn.released, turn.own, p),
    }
}

// What is held is written, with nothing after it.
pub(crate) fn put_last(
    context: Context,
    held: Held,
    text: &mut [u8],
    errors: &mut [u32],
    ends: Ends,
) -> Ends
    requires { Fit held × Free ends text.old errors.old }
    ensures { Writes (machine.finish builtin context (spec.st_of held)) ends text.old errors.old result text.new errors.new × Used ends result }
{
    let released = finish(context, held);
    put_turn(text, errors, ends, held, released, Piece::none(0), 0)
}

// Of a character that stops the walk: what is held is written at the context's end.
fn put_stop(
    context: Context,
    answer: u32,
    held: Held,
    text: &mut [u8],
    errors: &mut [u32],
    ends: Ends,
) -> Ends
    requires { Fit held × Free ends text.old errors.old }
    ensures { Writes (spec.last_of builtin context answer (spec.st_of held)) ends text.old errors.old result text.new errors.new × Used ends result }
{
    if answer == 7 {
        return put_last(context, held, text, errors, ends);
    }
    ends
}

// The first n bytes of rest, with zeros after them.
pub(crate) fn padded<const N: usize>(rest: &[u8], n: usize) -> [u8; N]
    requires { (n ≤ N) × (n ≤ length rest.now) }
    ensures { result ≡ spec.padded N (take n rest.now) }
{
    let mut part = [0u8; N];
    rooms::copy(&rest[..n], &mut part, 0);
    part
}

// A whole character that ends with the next byte: it is taken, or it stops the walk.
fn take_char(record: Stream, c: u32, text: &mut [u8], errors: &mut [u32], ends: Ends) -> Walked
    requires { Open «record» × («record».taken < 16777216) × Free ends text.old errors.old }
    ensures { Walks «record».context (char_walk builtin «record».context (spec.at_of «record») c (encode c))
        text.old ends.text errors.old ends.errors result text.new errors.new
        × Used ends result.ends }
{
    let context = record.context;
    let held = record.held;
    let answer = calls_for(context, c);
    if answer != 0 {
        return Walked {
            answer,
            record,
            ends: put_stop(context, answer, held, text, errors, ends),
        };
    }
    let p = record.taken - record.part_count as u32;
    let met = meet(context, held, p, c, text, errors, ends);
    Walked {
        answer: 0,
        record: Stream {
            held: met.held,
            part: [0u8; 3],
            part_count: 0,
            taken: record.taken + 1,
            ..record
        },
        ends: met.ends,
    }
}

// One byte more is of a character that is not whole yet.
fn keep_byte(record: Stream, own: &[u8], n: usize) -> Stream
    requires { (n ≤ 3) × (n ≤ length own.now) × («record».taken < 16777216) × («record».held ≡ spec.held_of (spec.st_of «record».held)) }
    ensures { result ≡ spec.record_of «record».context
        (spec.at_by (spec.st_of «record».held) (take n own.now) («record».taken + 1)) }
{
    Stream {
        part: padded(own, n),
        part_count: n,
        taken: record.taken + 1,
        ..record
    }
}

// The first n bytes of a part, and one byte more.
fn with_byte(part: [u8; 3], n: usize, b: u8) -> [u8; 4]
    requires { n ≤ 3 }
    ensures { result ≡ set (get_or part 0 0 ∷ get_or part 1 0 ∷ get_or part 2 0 ∷ 0 ∷ []) n b }
{
    let mut own = [part[0], part[1], part[2], 0];
    own[n] = b;
    own
}

// The next byte.
fn take_byte(record: Stream, b: u8, text: &mut [u8], errors: &mut [u32], ends: Ends) -> Walked
    requires { Open «record» × («record».taken < 16777216) × Free ends text.old errors.old }
    ensures { Walks «record».context (byte_walk builtin «record».context (spec.at_of «record») b)
        text.old ends.text errors.old ends.errors result text.new errors.new
        × Used ends result.ends }
{
    let n = record.part_count;
    let own = with_byte(record.part, n, b);
    match read_char(&own[..n + 1]) {
        CharRead::Char { value, .. } => take_char(record, value, text, errors, ends),
        CharRead::Incomplete(_) => Walked {
            answer: 0,
            record: keep_byte(record, &own, n + 1),
            ends,
        },
        CharRead::Illformed(_) => Walked {
            answer: 1,
            record,
            ends,
        },
        CharRead::End => Walked {
            answer: 0,
            record,
            ends,
        },
    }
}

// How far a chunk was read, with the record there and where what was written ends.
#[derive(Clone, Copy)]
struct Ahead {
    record: Stream,
    at: usize,
    ends: Ends,
}

// Where nothing is held, the chunk from `at` on as far as it can be skimmed.
fn skim_on(
    record: Stream,
    chunk: &[u8],
    at: usize,
    text: &mut [u8],
    errors: &mut [u32],
    ends: Ends,
) -> Ahead
    requires { Open «record» × (at ≤ «record».taken) × («record».taken + length chunk.now ≤ 16777216 + at)
        × (at ≤ length chunk.now) × (ends.text ≤ length text.old) × (ends.errors ≤ length errors.old) }
    ensures { Moves «record» chunk.now at text.old ends.text errors.old ends.errors
        result.«record» result.at text.new result.ends.text errors.new result.ends.errors }
{
    let State::Data = record.held.state else {
        return Ahead { record, at, ends };
    };
    if record.part_count != 0 {
        return Ahead { record, at, ends };
    }
    let before = record.taken - at as u32;
    let skimmed = skim(record.context, before, chunk, at, text, errors, ends);
    let end = skimmed.at;
    Ahead {
        record: Stream {
            held: data(),
            part: [0u8; 3],
            part_count: 0,
            taken: before + end as u32,
            ..record
        },
        at: end,
        ends: skimmed.ends,
    }
}

// The bytes of a chunk, from a record on.
pub(crate) fn walk(start: Stream, chunk: &[u8], text: &mut [u8], errors: &mut [u32]) -> Walked
    requires { Open start × (start.taken + length chunk.now ≤ 16777216) }
    ensures { Walks start.context (spec.walk builtin start.context (length text.old) (length errors.old)
        (spec.at_of start) chunk.now)
        text.old 0 errors.old 0 result text.new errors.new
        × Bounded start (length chunk.now) result }
{
    let mut record = start;
    let mut at: usize = 0;
    let mut ends = Ends::NONE;
    // A `while` and no `for`: a turn may skim many bytes.
    while at < chunk.len() {
        let ahead = skim_on(record, chunk, at, text, errors, ends);
        record = ahead.record;
        at = ahead.at;
        ends = ahead.ends;
        if at == chunk.len() {
            return Walked {
                answer: 0,
                record,
                ends,
            };
        }
        if lacks_room(text.len() - ends.text, errors.len() - ends.errors) {
            return Walked {
                answer: 6,
                record,
                ends,
            };
        }
        let next = take_byte(record, chunk[at], text, errors, ends);
        if next.answer != 0 {
            return next;
        }
        record = next.record;
        ends = next.ends;
        at += 1;
    }
    Walked {
        answer: 0,
        record,
        ends,
    }
}
