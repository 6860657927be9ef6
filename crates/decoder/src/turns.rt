// One character, as what is held meets it: the steps of CharRefTokenizer. Nothing is written here: a turn is a value.
ghost use Rattle.std.specs.Prelude.{◌≡◌, ◌∷◌, [], ◌++◌, false, ◌≤◌, ◌<◌, ◌+◌, take, set};
ghost use Rattle.standard.specs.Utf8.{encode};
ghost use Rattle.standard.specs.Names.{longest, begins, found_of};
ghost use Rattle.standard.specs.NameList.{builtin};
ghost use Rattle.decoder.specs.Machine as machine;
ghost use Rattle.decoder.specs.Pieces.{none_of};
ghost use Rattle.decoder.specs.Stream.{st_of, held_of};
ghost use Rattle.decoder.specs.Turns.{ascii_of, name_of, Fit, Stored, NameHeld, Follows, Releases, Turns};

use crate::classes::{alphanumeric, character_code};
use crate::names::{begins_name, longest_name};
use crate::numbers::{add_digit, digit_of, finish_numeric};
use crate::pieces::{Piece, named, named_by};
use crate::stream::{Held, State};
use standard::Context;
use standard::names::{CharRef, Found};

// What a character does: the piece that is released of what is held, which the store's bytes from the piece's size on follow; the character itself,
// as a piece; and what is held then.
#[derive(Clone, Copy)]
pub(crate) struct Turn {
    pub released: Piece,
    pub own: Piece,
    pub next: Held,
}

// A character as a byte where it is ASCII, and else as one that no ASCII test passes.
fn ascii(c: u32) -> u8
    ensures { result ≡ ascii_of c }
{
    if c < 0x80 {
        return c as u8;
    }
    0x80
}

// Nothing is held. This and the next have a function each, named as their state of the machine is, since contracts name it.
pub(crate) fn data() -> Held
    ensures { result ≡ held_of machine.Data }
{
    Held {
        state: State::Data,
        place: 0,
        store: [0u8; 32],
        count: 0,
    }
}

pub(crate) fn after_cr() -> Held
    ensures { result ≡ held_of machine.AfterCr }
{
    Held {
        state: State::AfterCr,
        place: 0,
        store: [0u8; 32],
        count: 0,
    }
}

// The `&` at place is held.
fn begin(place: u32) -> Held
    ensures { result ≡ held_of (machine.Begin place) }
{
    let mut store = [0u8; 32];
    store[0] = b'&';
    Held {
        state: State::Begin,
        place,
        store,
        count: 1,
    }
}

fn bogus_name(place: u32) -> Held
    ensures { result ≡ held_of (machine.BogusName place) }
{
    Held {
        state: State::BogusName,
        place,
        store: [0u8; 32],
        count: 0,
    }
}

// One byte more is held, in another state.
fn hold(held: Held, state: State, b: u8) -> Held
    requires { held.count < 32 }
    ensures { result ≡ record { state = state; place = held.place; store = set held.store held.count b; count = held.count + 1 } }
{
    let count = held.count;
    let mut store = held.store;
    store[count] = b;
    Held {
        state,
        store,
        count: count + 1,
        ..held
    }
}

// A digit more: the store stays.
fn numeric(held: Held, base: u32, value: u32) -> Held
    ensures { result ≡ record { state = State.Numeric base value; place = held.place; store = held.store; count = held.count } }
{
    Held {
        state: State::Numeric { base, value },
        ..held
    }
}

// The character is taken and nothing is released of the count bytes that are held.
fn absorbed(count: usize, next: Held) -> Turn
    ensures { result ≡ record { released = none_of count; own = none_of 0; next = next } }
{
    Turn {
        released: Piece::none(count),
        own: Piece::none(0),
        next,
    }
}

// After what is released nothing is held.
fn turn_data(released: Piece, p: u32, c: u32) -> Turn
    ensures { Follows released p result (machine.step_data p c (encode c)) }
{
    if c == 0xD {
        return Turn {
            released,
            own: Piece::one(1, 0xA, 0, 0),
            next: after_cr(),
        };
    }
    if c == 0x26 {
        return Turn {
            released,
            own: Piece::none(0),
            next: begin(p),
        };
    }
    Turn {
        released,
        own: Piece::one(1, c, character_code(c), 0),
        next: data(),
    }
}

fn turn_after_cr(held: Held, p: u32, c: u32) -> Turn
    requires { Stored held [] }
    ensures { Turns held p result (machine.step_after_cr p c (encode c)) }
{
    if c == 0xA {
        return absorbed(0, data());
    }
    turn_data(Piece::none(0), p, c)
}

// `do_begin`.
fn turn_begin(context: Context, held: Held, p: u32, c: u32) -> Turn
    requires { Stored held (0x26 ∷ []) }
    ensures { Turns held p result (machine.step_begin builtin context held.place p c (encode c)) }
{
    let b = ascii(c);
    if b == b'#' {
        return absorbed(1, hold(held, State::Octothorpe, b));
    }
    if alphanumeric(b) {
        return turn_named(context, held, p, c);
    }
    turn_data(Piece::one(1, 0x26, 0, 0), p, c)
}

// `do_octothorpe`.
fn turn_octothorpe(held: Held, p: u32, c: u32) -> Turn
    requires { Stored held (0x26 ∷ 0x23 ∷ []) }
    ensures { Turns held p result (machine.step_octothorpe held.place p c (encode c)) }
{
    let b = ascii(c);
    if (b == b'x') | (b == b'X') {
        return absorbed(2, hold(held, State::HexBegin, b));
    }
    let digit = digit_of(b);
    if digit < 10 {
        return absorbed(2, numeric(held, 10, digit));
    }
    turn_data(Piece::one(1, 0x26, 1, 0), p, c)
}

fn turn_hex_begin(held: Held, letter: u8, p: u32, c: u32) -> Turn
    requires { Stored held (0x26 ∷ 0x23 ∷ letter ∷ []) }
    ensures { Turns held p result (machine.step_hex_begin held.place letter p c (encode c)) }
{
    let digit = digit_of(ascii(c));
    if digit < 16 {
        return absorbed(3, numeric(held, 16, digit));
    }
    turn_data(Piece::one(1, 0x26, 1, 0), p, c)
}

// `do_numeric` and `do_numeric_semicolon`.
fn turn_numeric(held: Held, base: u32, value: u32, p: u32, c: u32) -> Turn
    requires { Stored held (take held.count held.store) × (base ≤ 16) × (value ≤ 0x110000) }
    ensures { Turns held p result (machine.step_numeric held.place (take held.count held.store) base value p c (encode c)) }
{
    let count = held.count;
    let b = ascii(c);
    let digit = digit_of(b);
    if digit < base {
        return absorbed(count, numeric(held, base, add_digit(value, base, digit)));
    }
    let meant = finish_numeric(value);
    if b == b';' {
        return Turn {
            released: Piece::one(count, meant.char, meant.code, 0),
            own: Piece::none(0),
            next: data(),
        };
    }
    turn_data(Piece::one(count, meant.char, 2, meant.code), p, c)
}

// What is held of a name is settled by a character that no name goes on with; rest is what is held after its `&`, and that character.
fn settle(context: Context, held: Held, rest: &[u8], p: u32, c: u32) -> Turn
    requires { NameHeld held (name_of held) c × (rest.now ≡ name_of held ++ ascii_of c ∷ [])
        × (begins builtin rest.now ≡ false) }
    ensures { Turns held p result (machine.settle context held.place (longest builtin (name_of held)) (name_of held) p c (encode c)) }
{
    let found = longest_name(rest);
    let released = named_by(context, found, rest);
    if found.is_some() {
        return turn_data(released, p, c);
    }
    if !alphanumeric(ascii(c)) {
        return turn_data(released, p, c);
    }
    Turn {
        released,
        own: Piece::one(1, c, 0, 0),
        next: bogus_name(held.place),
    }
}

// What was found stands for. A match and no `map_or`: what a closure gave is not told to a law that speaks of this.
fn reference_of(found: Option<Found>) -> CharRef
    ensures { result ≡ (found_of found).reference }
{
    match found {
        Some(found) => found.reference,
        None => CharRef::EMPTY,
    }
}

// `do_named`.
fn turn_named(context: Context, held: Held, p: u32, c: u32) -> Turn
    requires { NameHeld held (name_of held) c }
    ensures { Turns held p result (machine.step_named builtin context held.place (name_of held) p c (encode c)) }
{
    let count = held.count;
    let b = ascii(c);
    let next = hold(held, State::Named, b);
    let store = next.store;
    let rest = &store[1..count + 1];
    if !begins_name(rest) {
        return settle(context, held, rest, p, c);
    }
    if b == b';' {
        return Turn {
            released: Piece {
                size: count,
                reference: reference_of(longest_name(rest)),
                first: 0,
                second: 0,
            },
            own: Piece::none(0),
            next: data(),
        };
    }
    absorbed(count, next)
}

// `do_bogus_name`.
fn turn_bogus_name(held: Held, p: u32, c: u32) -> Turn
    requires { held ≡ held_of (machine.BogusName held.place) }
    ensures { Turns held p result (machine.step_bogus held.place p c (encode c)) }
{
    let b = ascii(c);
    if alphanumeric(b) {
        return Turn {
            released: Piece::none(0),
            own: Piece::one(1, c, 0, 0),
            next: held,
        };
    }
    if b == b';' {
        return Turn {
            released: Piece {
                size: 0,
                reference: CharRef::EMPTY,
                first: 4,
                second: 0,
            },
            own: Piece::one(1, c, 0, 0),
            next: data(),
        };
    }
    turn_data(Piece::none(0), p, c)
}

// `step`: a character c at place p.
pub(crate) fn step(context: Context, held: Held, p: u32, c: u32) -> Turn
    requires { Fit held }
    ensures { Turns held p result (machine.step builtin context (st_of held) p c (encode c)) }
{
    let state = held.state;
    let store = held.store;
    match state {
        State::Data | State::Closed => turn_data(Piece::none(0), p, c),
        State::AfterCr => turn_after_cr(held, p, c),
        State::Begin => turn_begin(context, held, p, c),
        State::Octothorpe => turn_octothorpe(held, p, c),
        State::HexBegin => turn_hex_begin(held, store[2], p, c),
        State::Numeric { base, value } => turn_numeric(held, base, value, p, c),
        State::Named => turn_named(context, held, p, c),
        State::BogusName => turn_bogus_name(held, p, c),
    }
}

// `end_of_file`: what is held, read as the last pieces.
pub(crate) fn finish(context: Context, held: Held) -> Piece
    requires { Fit held }
    ensures { Releases held result (machine.finish builtin context (st_of held)) }
{
    let state = held.state;
    let store = held.store;
    let count = held.count;
    match state {
        State::Begin => Piece::one(1, 0x26, 0, 0),
        State::Octothorpe | State::HexBegin => Piece::one(1, 0x26, 1, 0),
        State::Numeric { value, .. } => {
            let meant = finish_numeric(value);
            Piece::one(count, meant.char, 2, meant.code)
        }
        State::Named => named(context, &store[1..count]),
        _ => Piece::none(0),
    }
}
