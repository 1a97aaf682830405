// A declaration: a name that is new in its kind, and its arity.
ghost use Rattle.std.specs.Prelude.{◌≡◌, ◌+◌, ◌^◌, ◌≤◌, ◌<◌, length};
ghost use Rattle.text.specs.Name.{Hashed, max_names};
ghost use Rattle.text.specs.Token.{number_of};
ghost use Rattle.cells.specs.TextSoFar.{reading_of};
ghost use Rattle.declarations.specs.Declarations.{fresh, arity_of, symbol_of};

use cells::state::SymbolRoom;
use program::limits::MAX_ARITY;
use program::reply::{Fault, Refusal};
use text::name::{find_name, pad};
use text::token::{is_name, number_of};

// "a declared name is ill formed, or declared twice in its kind": whether it is neither.
fn is_fresh(s: &[u8], from: usize, count: usize, symbols: &SymbolRoom) -> bool
    requires { from + count ≤ max_names }
    ensures { Hashed symbols.now.names symbols.now.hashes from (from + count) → result ≡ fresh symbols.now.names from count s.now }
{
    let end = from + count;
    is_name(s) && find_name(&symbols.names, &symbols.hashes, from, end, &pad(s)) == end
}

fn arity_of(s: &[u8], place: usize) -> Result<u16, Fault>
    ensures { reading_of result ≡ arity_of place (number_of s.now) }
{
    let n = number_of(s, 0).ok_or(Fault {
        refusal: Refusal::IllFormed,
        place,
    })?;
    if MAX_ARITY < n {
        return Err(Fault {
            refusal: Refusal::OutOfRange,
            place,
        });
    }
    Ok(n as u16)
}

// A name's arity, where the name and it stand behind the tab at `at`.
pub fn symbol_of(
    name: &[u8],
    arity: &[u8],
    at: usize,
    from: usize,
    count: usize,
    symbols: &SymbolRoom,
) -> Result<u16, Fault>
    requires { (from + count ≤ max_names) × (at + length name.now < 2 ^ 32) }
    ensures { Hashed symbols.now.names symbols.now.hashes from (from + count) → reading_of result ≡ symbol_of symbols.now.names from count at name.now arity.now }
{
    if !is_fresh(name, from, count, symbols) {
        return Err(Fault {
            refusal: Refusal::BadName,
            place: at + 1,
        });
    }
    arity_of(arity, at + 1 + name.len() + 1)
}
