// Chains by slot: from a head for each slot along the rows of that slot, newest first.
ghost use Rattle.std.specs.Prelude.{◌≡◌, ℕ, ◌*◌, ◌≤◌, ◌<◌, length};
ghost use Rattle.program.specs.Limits.{row_size, max_rows};
ghost use Rattle.rows.specs.Rows.{slots, slot_at};
ghost use Rattle.rows.specs.Linked.{BySlot, Linked};

use crate::row::slot_at;
use program::limits::ROW_SIZE;

// Puts the rows from..to into the chains of their slots, each before the older ones.
pub fn link(table: &mut [u16], heads: &mut [u16], from: usize, to: usize)
    requires by_slot { BySlot table.old heads.old from }
    requires from_le_to { (from ≤ to) × (to ≤ max_rows) × (row_size * to ≤ length table.old) × (length heads.old ≡ slots) }
    requires by_index { (r : ℕ) → r < to → slot_at table.old r < slots }
    ensures { Linked table.old from to table.new heads.new }
{
    for r in from..to {
        let slot = usize::from(slot_at(table, r));
        let older = heads[slot];
        table[ROW_SIZE * r + 3] = older;
        heads[slot] = (r + 1) as u16;
    }
}
