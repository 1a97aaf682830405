// The names of a program, as they are lent: their faults, after all faults in the words.
ghost use Rattle.std.specs.Prelude.{◌≡◌, ◌+◌, ◌*◌, ◌≤◌, length};
ghost use Rattle.text.specs.Name.{name_bytes, max_names, entry, Hashed};
ghost use Rattle.program.specs.Reply.{scanned};
ghost use Rattle.written_lines.specs.Walked.{NameAt};
ghost use Rattle.writer.specs.Names.{is_entry, first_of, is_sound, each_name, names_of, names_reply};

use program::reply::{Fault, Refusal};
use text::cut::find;
use text::name::{NAME_BYTES, find_name, hash_of, name_at, pad, same_bytes};
use text::token::is_name;

// A name, and nothing but zeros behind it.
fn is_entry(key: &[u8]) -> bool
    ensures { result ≡ is_entry key.now }
{
    let end = find(key, 0, 0);
    let name = &key[..end];
    if !is_name(name) {
        return false;
    }
    let kept = pad(name);
    same_bytes(&kept, key)
}

// The first name of the kind that name i is of.
fn first_of(predicates: usize, i: usize) -> usize
    ensures { result ≡ first_of predicates i }
{
    if i < predicates {
        return 0;
    }
    predicates
}

// "a declared name is ill formed, or declared twice in its kind": whether name i is neither.
fn is_sound(names: &[u8], hashes: &[u32], predicates: usize, i: usize) -> bool
    requires { (NameAt names.now i) × (length hashes.now ≡ max_names) }
    ensures { Hashed names.now hashes.now 0 i → result ≡ is_sound names.now predicates i }
{
    let key = name_at(names, i);
    if !is_entry(key) {
        return false;
    }
    let first = first_of(predicates, i);
    find_name(names, hashes, first, i, key) == i
}

// "then 12 at the name's byte index"
fn each_name(names: &[u8], predicates: usize, symbols: usize) -> Result<(), Fault>
    requires { (symbols ≤ max_names) × (length names.now ≡ symbols * name_bytes) }
    ensures { scanned result ≡ names_reply (each_name names.now predicates 0 symbols) }
{
    let mut hashes = [0u32; 128];
    for i in 0..symbols {
        if !is_sound(names, &hashes, predicates, i) {
            return Err(Fault {
                refusal: Refusal::BadName,
                place: i * NAME_BYTES,
            });
        }
        hashes[i] = hash_of(name_at(names, i));
    }
    Ok(())
}

// "shorter than 16 bytes a symbol is 1 at their length, longer is 7 at the first byte over, then 12 at the name's byte index"
pub fn check_names(names: &[u8], predicates: usize, functions: usize) -> Result<(), Fault>
    requires { predicates + functions ≤ max_names }
    ensures { scanned result ≡ names_reply (names_of names.now predicates (predicates + functions)) }
{
    let symbols = predicates + functions;
    let size = symbols * NAME_BYTES;
    if names.len() < size {
        return Err(Fault {
            refusal: Refusal::TooSoon,
            place: names.len(),
        });
    }
    if size < names.len() {
        return Err(Fault {
            refusal: Refusal::Follows,
            place: size,
        });
    }
    each_name(names, predicates, symbols)
}
