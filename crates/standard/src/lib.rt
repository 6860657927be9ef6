// What other crates share, decoder and checker nothing beside: the contexts, the reader of one character, and the names.
#![tactic(auto)]

ghost use Rattle.std.specs.Prelude.{◌≡◌, ◌<◌, MatchResult};
ghost use Rattle.standard.specs.Contexts.{number_of};

pub mod characters;
pub mod names;
pub mod records;
pub mod table;

// Where a source stands in a page: its end and the rule for names without `;` go by this.
#[derive(Clone, Copy, PartialEq, Eq, Debug)]
pub enum Context {
    Text,
    Attribute,
}

// By its number, 0 or 1; another number is handed back.
impl TryFrom<u32> for Context {
    type Error = u32;

    ghost try_from_gives = { λ number r. MatchResult r (λ context. number ≡ number_of context) (λ other. (other ≡ number) × (1 < number)) };

    fn try_from(number: u32) -> Result<Self, u32> {
        match number {
            0 => Ok(Context::Text),
            1 => Ok(Context::Attribute),
            other => Err(other),
        }
    }
}
