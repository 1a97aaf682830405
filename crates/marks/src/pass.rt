// Marks passed from one atom to another on the sets that unification leaves: no second unification, no walk of terms.
ghost use Rattle.std.specs.Prelude.{◌≤◌};
ghost use Rattle.terms.specs.Cells.{variables};
ghost use Rattle.terms.specs.Mask.{Marks};
ghost use Rattle.marks.specs.Passing.{KnownIn, MarkedIn};

use crate::bits::{lowest, mark};

// The variables known ground: those of the sets of the marked variables that are present.
pub fn known(sets: &[u32; 32], base: usize, mask: u16, present: u16) -> u32
    requires { base ≤ variables }
    ensures { Marks (KnownIn sets.now base mask present) result }
{
    let mut left = mask & present;
    let mut all = 0u32;
    // From each variable of the mask to the next: a `for` over all 16 would also turn for those that are not in it, and is slower.
    while 0 < left {
        let x = lowest(left);
        let at = base + x;
        all |= sets[at];
        left -= mark(x);
    }
    all
}

// Marks pass from atom A (mask m, sets from `from` on, variables `here`) to atom B (mask n, sets from `to` on, variables `there`): the mask that results.
pub fn pass_on(
    sets: &[u32; 32],
    from: usize,
    m: u16,
    here: u16,
    to: usize,
    n: u16,
    there: u16,
) -> u16
    requires { (from ≤ variables) × (to ≤ variables) }
    ensures { Marks (MarkedIn sets.now from m here to n there) result }
{
    let ground_by = known(sets, from, m, here);
    let mut left = there ^ (there & n);
    let mut ground = 0u16;
    // From each variable of the mask to the next: a `for` over all 16 would also turn for those that are not in it, and is slower.
    while 0 < left {
        let y = lowest(left);
        let bit = mark(y);
        let at = to + y;
        let set = sets[at];
        if set & ground_by == set {
            ground |= bit;
        }
        left -= bit;
    }
    n | ground
}
