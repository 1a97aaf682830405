// What the rules do with the masks of rows: put together, kept to a list, taken to a shape's numbering and back.
ghost use Rattle.std.specs.Prelude.{ℕ, ◌≤◌, ◌<◌, get_or};
ghost use Rattle.terms.specs.Mask.{Has};
ghost use Rattle.marks.specs.Modes.{Together, KeptTo, Reordered, Restored};

use crate::bits::{mark, marks};

// "the cont row's marks together with those that the solution passes"
pub fn together(m: u16, n: u16) -> u16
    ensures { Together m n result }
{
    m | n
}

// "A cont mask has no bit outside its list."
pub fn kept(list: u16, mask: u16) -> u16
    ensures { KeptTo (Has list) mask result }
{
    list & mask
}

// The variables of an atom by first appearance: the shape's variable k is the atom's variable `variables[k]`, for each k below the count.
#[derive(Clone, Copy)]
pub struct Order {
    pub variables: [u8; 16],
    pub count: usize,
    ghost few: { count ≤ 16 },
    ghost below: { (k : ℕ) → k < count → get_or variables k 0 < 16 },
}

// A clause's marks in the numbering of a shape, whose variable k is the clause's variable order[k].
pub fn renumber(order: &Order, mask: u16) -> u16
    ensures { Reordered order.now.variables order.now.count mask result }
{
    let mut renumbered = 0u16;
    for (k, v) in order.variables[..order.count].iter().enumerate() {
        if marks(mask, usize::from(*v)) {
            renumbered |= mark(k);
        }
    }
    renumbered
}

// Marks in the numbering of a shape, back in that of the clause. One function with `renumber` would have to be told by closures which of k and order[k]
// is asked for and which is marked: no plainer.
pub fn restore(order: &Order, mask: u16) -> u16
    ensures { Restored order.now.variables order.now.count mask result }
{
    let mut restored = 0u16;
    for (k, v) in order.variables[..order.count].iter().enumerate() {
        if marks(mask, k) {
            restored |= mark(usize::from(*v));
        }
    }
    restored
}
