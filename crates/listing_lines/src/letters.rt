// The letters of a row: "`g` or `a` for each variable of the shape (or list) in order, `-` for none".
ghost use Rattle.std.specs.Prelude.{◌≡◌, cond, [], ◌∷◌, ◌<◌};
ghost use Rattle.text.specs.Put.{Put};
ghost use Rattle.listing_lines.specs.Letters.{letter, letters_of};
ghost use Rattle.listing_lines.specs.Set.{in_set};

use terms::walk::has;
use text::put::put_byte;

// "v is at most 15"
const VARIABLES: usize = 16;

// Whether bit v is set.
fn is_in(set: u16, v: usize) -> bool
    requires { v < 16 }
    ensures { result ≡ in_set set v }
{
    has(u32::from(set), v)
}

// "A mask has bit v set where variable v is ground."
fn letter_of(mask: u16, v: usize) -> u8
    requires { v < 16 }
    ensures { result ≡ letter mask v }
{
    if is_in(mask, v) { b'g' } else { b'a' }
}

// The letter of variable v, where it is in the set.
fn put_letter(out: &mut [u8], at: usize, set: u16, mask: u16, v: usize) -> usize
    requires { v < 16 }
    ensures { Put (cond (in_set set v) (letter mask v ∷ []) []) out.old out.new at result }
{
    if is_in(set, v) {
        return put_byte(out, at, letter_of(mask, v));
    }
    at
}

// The letters of the variables in a set.
pub fn put_letters(out: &mut [u8], at: usize, set: u16, mask: u16) -> usize
    ensures { Put (letters_of (in_set set) mask) out.old out.new at result }
{
    if set == 0 {
        return put_byte(out, at, b'-');
    }
    let mut end = at;
    for v in 0..VARIABLES {
        end = put_letter(out, end, set, mask, v);
    }
    end
}
