// Sets of masks that are kept between rounds, in lent words: one for each of so many things, and behind the sets a word for each thing, of how many rows
// its set is the result. The set of thing k has so many words, `size`.
ghost use Rattle.std.specs.Prelude.{◌≡◌, ◌↔◌, ℕ, ◌+◌, ◌*◌, ◌/◌, ◌≤◌, ◌<◌, length, T};
ghost use Rattle.rows.specs.MaskSet.{InSet};
ghost use Rattle.rows.specs.KeptSets.{masks_in, KeptAt, Gained, Unkept};

use crate::maskset::{contains, put};

// How many things have a set.
pub const THINGS: usize = 64;

// Whether mask q is kept for thing k.
pub fn is_kept(kept: &[u16], size: usize, k: usize, q: u16) -> bool
    requires { size * k + q / 16 < length kept.now }
    ensures { T result ↔ KeptAt kept.now (size * k) q }
{
    contains(&kept[size * k..], q)
}

// Keeps mask q for thing k.
pub fn keep_mask(kept: &mut [u16], size: usize, k: usize, q: u16)
    requires { size * k + q / 16 < length kept.old }
    ensures { q < masks_in size → Gained (λ p. p ≡ q) (size * k) size kept.old kept.new }
{
    put(&mut kept[size * k..], q);
}

// Keeps the masks of the set `found` for thing k.
pub fn keep_masks(found: &[u16], size: usize, k: usize, kept: &mut [u16])
    requires { (size ≤ length found.now) × (size * k + size ≤ length kept.old) }
    ensures { Gained (InSet found.now) (size * k) size kept.old kept.new }
{
    let first = size * k;
    for (i, word) in found[..size].iter().enumerate() {
        let at = first + i;
        kept[at] |= *word;
    }
}

// Takes the masks that are kept for thing k out of the set `found`. Says whether masks are left, of those that can be kept.
pub fn take_kept(kept: &[u16], size: usize, k: usize, found: &mut [u16]) -> bool
    requires { (size ≤ length found.old) × (size * k + size ≤ length kept.now) }
    ensures { Unkept kept.now (size * k) size found.old found.new
        × ((q : ℕ) → (q < masks_in size) × InSet found.new q → T result) }
{
    let first = size * k;
    let mut left = 0u16;
    for (i, gone) in kept[first..first + size].iter().enumerate() {
        let word = found[i];
        let rest = word ^ (word & *gone);
        found[i] = rest;
        left |= rest;
    }
    0 < left
}
