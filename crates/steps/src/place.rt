// A call row and a cont row for a body atom.
ghost use Rattle.std.specs.Prelude.{◌≤◌, IfOk};
ghost use Rattle.marks.specs.Modes.{modes};
ghost use Rattle.rows.specs.Rows.{keys_of};
ghost use Rattle.rows.specs.Store.{reached};
ghost use Rattle.table.specs.Rules.{Reached};
ghost use Rattle.table.specs.RoundKeys.{Keyed};
ghost use Rattle.steps.specs.Situation.{Place};
ghost use Rattle.steps.specs.Steps.{Given, RowsIn, Writable, Emitted, Stepped};

use directory::layout::{BODY_LIST, BODY_SHAPE, MAX_SHAPES};
use marks::rows::{Order, kept, renumber};
use rows::store::{NoRoom, add};
use terms::walk::narrow;

// Where the slots of cont rows and of solution rows begin; those of call rows begin at 0. A slot is a word of the lent table, by which the heads of the
// chains stand, too: so the kind of a row is a part of that number, and not an enum.
pub const CONTS: usize = MAX_SHAPES;

pub const SOLUTIONS: usize = CONTS + MAX_SHAPES;

// How many slots there are.
pub const SLOTS: usize = SOLUTIONS + MAX_SHAPES;

// A round: its number, how many rows there were before the last round and before this one, and the room in rows.
#[derive(Clone, Copy)]
pub struct Round {
    pub number: u16,
    pub since: usize,
    pub rows: usize,
    pub room: usize,
}

// "a call row for A(i+1) and a cont row (n, i+1)": those of body atom j with the marks on its clause.
pub fn emit(
    dir: &[u16],
    order: &Order,
    table: &mut [u16],
    buckets: &mut [u16],
    n: usize,
    at: Round,
    j: usize,
    mask: u16,
) -> Result<usize, NoRoom>
    requires { Place dir.now order.now.variables order.now.count j × Writable table.old buckets.old n at.room × (at.rows ≤ n) }
    ensures stepped { (w : Place dir.now order.now.variables order.now.count j)
        → Reached modes w.p (RowsIn w.p (keys_of table.old at.rows)) w.k w.i mask
        → Stepped (Given w.p (keys_of table.old at.rows)) at.number at.room n table.old buckets.old
        (Keyed w.p (Emitted w.p w.k w.i mask)) (reached at.room result) table.new buckets.new }
    ensures within { IfOk result (λ m. m ≤ at.room) }
{
    let listed = kept(dir[BODY_LIST + j], mask);
    let next = add(
        table,
        buckets,
        n,
        at.room,
        at.number,
        narrow(CONTS + j),
        listed,
    )?;
    let shape = dir[BODY_SHAPE + j];
    add(
        table,
        buckets,
        next,
        at.room,
        at.number,
        shape,
        renumber(order, mask),
    )
}
