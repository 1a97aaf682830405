// The bindings of a store as they are noted in lent bytes, and taken back: the set of the variables that are bound, and behind it their places.
ghost use Rattle.std.specs.Prelude.{◌≡◌, ◌+◌, ◌≤◌, length};
ghost use Rattle.terms.specs.Mask.{Marks};
ghost use Rattle.terms.specs.Store.{all_variables};
ghost use Rattle.terms.specs.Noted.{IsBound, count_of, Coded, PlacesPut, noted_size, noted_end, BindingsPut, BindingsTaken};

use crate::bytes::{noted_set, put_set};
use crate::unifier::NO_PLACE;
use crate::walk::{has, only};

// The bytes of a set, which stand before those of the places.
const SET: usize = 4;

// The set of the variables that are bound.
pub fn bound_set(places: &[u8; 32]) -> u32
    ensures { Marks (IsBound places.now) result }
{
    let mut set = 0u32;
    for (x, place) in places.iter().enumerate() {
        if *place < NO_PLACE {
            set |= only(x);
        }
    }
    set
}

// How many bytes it takes to note the bindings of the variables in a set.
pub fn noted_size(set: u32) -> usize
    ensures { (result ≡ noted_size set) × (result ≤ 36) }
{
    SET + set.count_ones() as usize
}

// Puts the places of the variables in a set, in the order of the variables.
fn put_places(places: &[u8; 32], set: u32, bytes: &mut [u8], at: usize)
    requires { at + count_of set all_variables ≤ length bytes.old }
    ensures { PlacesPut places.now bytes.old bytes.new set at all_variables }
{
    let mut end = at;
    for (x, place) in places.iter().enumerate() {
        if has(set, x) {
            bytes[end] = *place;
            end += 1;
        }
    }
}

// Takes the places that were put of the variables in a set; every other variable is unbound. Says where they end.
fn take_places(bytes: &[u8], set: u32, from: usize, places: &mut [u8; 32]) -> usize
    requires { from + count_of set all_variables ≤ length bytes.now }
    ensures { (result ≡ from + count_of set all_variables) × (length places.new ≡ all_variables)
        × Coded bytes.now places.new set from all_variables }
{
    *places = [NO_PLACE; 32];
    let mut end = from;
    for (x, place) in places.iter_mut().enumerate() {
        if has(set, x) {
            *place = bytes[end];
            end += 1;
        }
    }
    end
}

// Notes bindings from a byte on; the set is that of their variables.
pub fn put_bindings(places: &[u8; 32], set: u32, bytes: &mut [u8], at: usize)
    requires { Marks (IsBound places.now) set × (at + noted_size set ≤ length bytes.old) }
    ensures { BindingsPut places.now bytes.old bytes.new at (noted_size set) }
{
    put_set(bytes, at, set);
    put_places(places, set, bytes, at + SET);
}

// Takes the bindings that are noted from a byte on. Says where they end.
pub fn take_bindings(bytes: &[u8], at: usize, places: &mut [u8; 32]) -> usize
    requires { noted_end bytes.now at ≤ length bytes.now }
    ensures { BindingsTaken bytes.now places.new at result }
{
    let set = noted_set(bytes, at);
    take_places(bytes, set, at + SET, places)
}
