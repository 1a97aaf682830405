// One more symbol: its name, hash and arity behind the others, and its arity behind the words.
ghost use Rattle.std.specs.Prelude.{◌≡◌, List, ◌++◌, ℕ, ◌+◌, ◌*◌, ◌≤◌, ◌<◌, length, set};
ghost use Rattle.text.specs.Name.{name_bytes, max_names};
ghost use Rattle.text.specs.Room.{in_room};
ghost use Rattle.declarations.specs.Added.{Added};

use cells::cells::put;
use cells::state::SymbolRoom;
use text::name::{NAME_BYTES, hash_of, pad};

// A name behind the others.
fn put_name(names: &mut [u8], at: usize, key: &[u8])
    requires { (length key.now ≡ name_bytes) × (at + name_bytes ≤ length names.old) }
    ensures { (room : ℕ) (ns : List ℕ) → names.old ≡ in_room room ns → at ≡ length ns → names.new ≡ in_room room (ns ++ key.now) }
{
    names[at..at + NAME_BYTES].copy_from_slice(key);
}

// Symbol number n, and its arity at place `at` of the words.
pub fn add_symbol(
    name: &[u8],
    arity: u16,
    n: usize,
    at: usize,
    symbols: &mut SymbolRoom,
    words: &mut [u16],
)
    requires { n < max_names }
    ensures { Added name.now arity n at symbols.old words.old symbols.new words.new }
{
    let key = pad(name);
    put(&mut symbols.hashes, n, hash_of(&key));
    put_name(&mut symbols.names, n * NAME_BYTES, &key);
    put(&mut symbols.arities, n, arity);
    put(words, at, arity);
}
