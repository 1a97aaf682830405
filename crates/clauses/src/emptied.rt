// The set of marks that a clause found, made empty again.
ghost use Rattle.std.specs.Prelude.{ℕ, ◌≡◌, ◌*◌, ◌≤◌, ◌<◌, length, replicate};
ghost use Rattle.rows.specs.MaskSet.{set_words, InSet};

use rows::zeros::clear;

// Clears the first words of a set that has no mark behind them.
pub fn empty_found(found: &mut [u16], words: usize)
    requires { (length found.old ≡ set_words) × (words ≤ set_words) × ((q : ℕ) → InSet found.old q → q < 16 * words) }
    ensures { found.new ≡ replicate set_words 0 }
{
    clear(found, words);
}
