// A set of masks as bits in 4,096 lent words: mask q is bit q % 16 of word q / 16.
ghost use Rattle.std.specs.Prelude.{◌≡◌, ◌↔◌, ◌<◌, ◌/◌, ◌^◌, length, T};
ghost use Rattle.rows.specs.MaskSet.{set_words, with_mask, InSet, Inserted};

use marks::bits::{mark, marks};

pub const SET_WORDS: usize = 4096;

const BITS: u16 = 16;

// The word that has one bit alone.
pub fn one_bit(b: u16) -> u16
    requires { b < 16 }
    ensures { result ≡ 2 ^ b }
{
    mark(usize::from(b))
}

// Whether mask q is in the set, which may be of fewer words.
pub fn contains(set: &[u16], q: u16) -> bool
    requires { q / 16 < length set.now }
    ensures { T result ↔ InSet set.now q }
{
    let at = usize::from(q / BITS);
    marks(set[at], usize::from(q % BITS))
}

// Puts mask q into the set, where it may be already.
pub fn put(set: &mut [u16], q: u16)
    requires { q / 16 < length set.old }
    ensures { set.new ≡ with_mask set.old q }
{
    let at = usize::from(q / BITS);
    set[at] |= one_bit(q % BITS);
}

// Puts mask q into the set: true where it was not there.
pub fn insert(set: &mut [u16], q: u16) -> bool
    requires { length set.old ≡ set_words }
    ensures { Inserted set.old set.new q result }
{
    if contains(set, q) {
        return false;
    }
    put(set, q);
    true
}
