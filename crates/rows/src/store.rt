// The store: a table in which each key has one row, found through buckets.
ghost use mathlib.Core.List.{Memᴰ};
ghost use Rattle.std.specs.Prelude.{◌↔◌, ◌+◌, ◌*◌, ◌≤◌, ◌<◌, length, T, IfOk};
ghost use Rattle.program.specs.Limits.{row_size, max_rows};
ghost use Rattle.rows.specs.Rows.{slots, key_of, keys_of};
ghost use Rattle.rows.specs.Store.{Store, Added, reached};

use crate::row::{bucket, is_at, next_at, put};

// Whether one of the first n rows has this slot and this mask: a walk along the chain of their bucket.
pub fn holds(table: &[u16], heads: &[u16], n: usize, slot: u16, mask: u16) -> bool
    requires store { Store table.now heads.now n }
    requires slot_lt_slots { slot < slots }
    ensures { T result ↔ Memᴰ (key_of slot mask) (keys_of table.now n) }
{
    let at = bucket(slot, mask);
    let mut link = usize::from(heads[at]);
    // The rows of a bucket are linked in the lent table: with no heap no list of them can be made to go over.
    while 0 < link {
        let r = link - 1;
        if is_at(table, r, slot, mask) {
            return true;
        }
        link = next_at(table, r);
    }
    false
}

// There is no room for a row more.
#[derive(Clone, Copy, PartialEq, Eq)]
pub struct NoRoom;

// The table and the buckets are lent, and both are written: a struct of two `&mut` would ask each function for clauses on what it lends.
// Adds the row of a key that is not there yet: the new number of rows. An error where there is no room for it.
pub fn add(
    table: &mut [u16],
    heads: &mut [u16],
    n: usize,
    room: usize,
    round: u16,
    slot: u16,
    mask: u16,
) -> Result<usize, NoRoom>
    requires store { Store table.old heads.old n }
    requires n_le_room { (n ≤ room) × (room ≤ max_rows) × (row_size * room ≤ length table.old) × (slot < slots) }
    ensures added { Added table.old heads.old n room round slot mask (reached room result) table.new heads.new }
    ensures within { IfOk result (λ m. m ≤ room) }
{
    if holds(table, heads, n, slot, mask) {
        return Ok(n);
    }
    let count = n + 1;
    if count <= room {
        let at = bucket(slot, mask);
        let next = heads[at];
        put(table, n, round, slot, mask, next);
        heads[at] = count as u16;
        return Ok(count);
    }
    Err(NoRoom)
}
