// The built-in names, as their readers ask for them.
ghost use Rattle.std.specs.Prelude.{◌≡◌, ◌≤◌, length, IfSome};
ghost use Rattle.standard.specs.Names.{longest, begins, found_of};
ghost use Rattle.standard.specs.NameList.{builtin};

use standard::names::{self, Found};
use standard::table::builtin_table;

// The longest name that stands at the front of rest, if one does.
pub(crate) fn longest_name(rest: &[u8]) -> Option<Found>
    ensures longest { found_of result ≡ longest builtin rest.now }
    ensures there { IfSome result (λ f. (1 ≤ f.len) × (f.len ≤ length rest.now)) }
{
    names::longest_name(builtin_table(), rest)
}

// Whether rest is a beginning of some name.
pub(crate) fn begins_name(rest: &[u8]) -> bool
    ensures { result ≡ begins builtin rest.now }
{
    names::begins_name(builtin_table(), rest)
}
