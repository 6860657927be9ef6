// Whether a record counts as open.
ghost use Rattle.std.specs.Prelude.{◌≡◌, ◌∷◌, []};
ghost use Rattle.standard.specs.NameList.{builtin};
ghost use Rattle.standard.specs.Utf8.{read_char};
ghost use Rattle.decoder.specs.Stream as spec;

use crate::names::begins_name;
use crate::stream::{State, Stream};
use standard::characters::{CharRead, read_char};

// `&#`.
fn is_intro(store: &[u8]) -> bool
    ensures { result ≡ spec.same store.now (0x26 ∷ 0x23 ∷ []) }
{
    store == b"&#".as_slice()
}

// `&#x` or `&#X`.
fn is_hex_intro(store: &[u8]) -> bool
    ensures { result ≡ spec.is_hex_intro store.now }
{
    (store == b"&#x".as_slice()) | (store == b"&#X".as_slice())
}

// `&` and a nonempty beginning of some name that isn't itself a name ending in `;`.
fn is_named(store: &[u8]) -> bool
    ensures { result ≡ spec.is_name_store builtin store.now }
{
    match store {
        [b'&', .., last] => begins_name(&store[1..]) & (*last != b';'),
        _ => false,
    }
}

// The store is what the state says.
fn holds(state: State, store: &[u8]) -> bool
    ensures { result ≡ spec.holds builtin state store.now }
{
    match state {
        State::Data | State::AfterCr | State::BogusName => store.is_empty(),
        State::Begin => store == b"&".as_slice(),
        State::Octothorpe => is_intro(store),
        State::HexBegin => is_hex_intro(store),
        State::Numeric { base, .. } => {
            ((base == 10) & is_intro(store)) | ((base == 16) & is_hex_intro(store))
        }
        State::Named => is_named(store),
        State::Closed => false,
    }
}

// No bytes, or a proper beginning of a well-formed character.
fn is_part(part: &[u8]) -> bool
    ensures { result ≡ spec.is_part (read_char part.now) }
{
    matches!(read_char(part), CharRead::Incomplete(_) | CharRead::End)
}

// Whether a record is open: its counts are in bounds, its store and its part are of what it says is held, and so many bytes were taken.
pub(crate) fn is_open(stream: Stream) -> bool
    ensures { result ≡ spec.is_open builtin stream }
{
    let held = stream.held;
    let part = stream.part;
    let store = held.store;
    let within = (held.count <= 32) & (stream.part_count <= 3) & (stream.taken <= 16777216);
    if !within {
        return false;
    }
    let stored = holds(held.state, &store[..held.count]);
    let begun = is_part(&part[..stream.part_count]);
    let taken = held.count + stream.part_count <= stream.taken as usize;
    stored & begun & (held.place <= stream.taken) & taken
}
