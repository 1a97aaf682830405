// The words of a row: round, slot, mask, and the links to the rows before of the same slot and in the same bucket.
ghost use Rattle.std.specs.Prelude.{◌≡◌, ◌↔◌, ◌+◌, ◌*◌, ◌<◌, length, T};
ghost use Rattle.program.specs.Limits.{row_size, masks};
ghost use Rattle.rows.specs.Rows.{slots, buckets, round_at, slot_at, mask_at, before_at, next_at, bucket_of};
ghost use Rattle.rows.specs.Store.{with_row};

use program::limits::ROW_SIZE;

// Masks are below this.
pub const MASKS: usize = 65536;

pub const BUCKETS: usize = 2048;

// Each word of a row is one index: a function that took the word's place as a const parameter would add a name and save nothing.
pub fn round_at(table: &[u16], r: usize) -> u16
    requires { row_size * r + 4 < length table.now }
    ensures { result ≡ round_at table.now r }
{
    table[ROW_SIZE * r]
}

pub fn slot_at(table: &[u16], r: usize) -> u16
    requires { row_size * r + 4 < length table.now }
    ensures { result ≡ slot_at table.now r }
{
    table[ROW_SIZE * r + 1]
}

pub fn mask_at(table: &[u16], r: usize) -> u16
    requires { row_size * r + 4 < length table.now }
    ensures { result ≡ mask_at table.now r }
{
    table[ROW_SIZE * r + 2]
}

// The link to the row before of the same slot: 1 + that row, or 0 where there is none, as it stands in the lent table.
pub fn before_at(table: &[u16], r: usize) -> usize
    requires { row_size * r + 4 < length table.now }
    ensures { result ≡ before_at table.now r }
{
    usize::from(table[ROW_SIZE * r + 3])
}

// The link to the row before in the same bucket, which is such a number too.
pub fn next_at(table: &[u16], r: usize) -> usize
    requires { row_size * r + 4 < length table.now }
    ensures { result ≡ next_at table.now r }
{
    usize::from(table[ROW_SIZE * r + 4])
}

// Whether row r has this slot and this mask.
pub fn is_at(table: &[u16], r: usize, slot: u16, mask: u16) -> bool
    requires { row_size * r + 4 < length table.now }
    ensures { T result ↔ (slot_at table.now r ≡ slot) × (mask_at table.now r ≡ mask) }
{
    slot_at(table, r) == slot && mask_at(table, r) == mask
}

// The bucket of a slot and a mask.
pub fn bucket(slot: u16, mask: u16) -> usize
    requires { (slot < slots) × (mask < masks) }
    ensures { (result ≡ bucket_of slot mask) × (result < buckets) }
{
    (usize::from(slot) * MASKS + usize::from(mask)) * 2654435769 / 1048576 % BUCKETS
}

// Writes row r, which has no row before it of the same slot yet.
pub fn put(table: &mut [u16], r: usize, round: u16, slot: u16, mask: u16, next: u16)
    requires { row_size * r + 4 < length table.old }
    ensures { table.new ≡ with_row table.old r round slot mask next }
{
    let at = ROW_SIZE * r;
    table[at] = round;
    table[at + 1] = slot;
    table[at + 2] = mask;
    table[at + 3] = 0;
    table[at + 4] = next;
}
