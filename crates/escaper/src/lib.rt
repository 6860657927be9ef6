// Escaping: text or an attribute value with its special characters replaced. `write_escaped` of serialize/mod.rs.
#![tactic(auto)]

ghost use Rattle.std.specs.Prelude.{◌≡◌, ◌<◌, MatchResult};
ghost use Rattle.escaper.specs.Escape.{Escapes, number_of};

mod parts;
mod results;
mod specials;
mod stops;

// What is escaped: text, or the value of an attribute in quotation marks.
#[derive(Clone, Copy, PartialEq, Eq, Debug)]
pub enum Mode {
    Text,
    Attribute,
}

// By its number, 0 or 1; another number is handed back.
impl TryFrom<u32> for Mode {
    type Error = u32;

    ghost try_from_gives = { λ number r. MatchResult r (λ mode. number ≡ number_of mode) (λ other. (other ≡ number) × (1 < number)) };

    fn try_from(number: u32) -> Result<Self, u32> {
        match number {
            0 => Ok(Mode::Text),
            1 => Ok(Mode::Attribute),
            other => Err(other),
        }
    }
}

// The answer, by document 01's number, the length of the result (with 0 and 9), and the place of a fault.
#[derive(Clone, Copy, PartialEq, Eq, Debug)]
pub struct Escaped {
    pub answer: u32,
    pub text: u32,
    pub place: u32,
}

// Escapes all of `input` into `out`, or refuses it and writes nothing.
pub fn escape(mode: Mode, input: &[u8], out: &mut [u8]) -> Escaped
    ensures { Escapes mode input.now out.old result out.new }
{
    if 65536 < input.len() {
        return Escaped {
            answer: 3,
            text: 0,
            place: 0,
        };
    }
    if let Some(place) = stops::find_stop(input) {
        return Escaped {
            answer: 1,
            text: 0,
            place: place as u32,
        };
    }
    let text = results::escaped_length(mode, input);
    if out.len() < text {
        return Escaped {
            answer: 9,
            text: text as u32,
            place: 0,
        };
    }
    let end = results::write_escaped(mode, input, out);
    Escaped {
        answer: 0,
        text: end as u32,
        place: 0,
    }
}
