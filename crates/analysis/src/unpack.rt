// Rows as they stand at the end: round, kind, a, b, mask.
ghost use Rattle.std.specs.Prelude.{◌≡◌, ◌++◌, ◌+◌, ◌*◌, ◌<◌, length, drop};
ghost use Rattle.program.specs.Kinds.{word_of};
ghost use Rattle.program.specs.Limits.{row_size};
ghost use Rattle.table.specs.Table.{table_words};
ghost use Rattle.analysis.specs.Unpacked.{with_words, with_row, Packed};
ghost use Rattle.concerns.specs.Standing.{Stands};

use concerns::bodies::clause_of;
use concerns::slot::Slot;
use directory::encoded::Encoded;
use directory::layout::CLAUSE_FIRST;
use program::kind::Kind;
use program::limits::ROW_SIZE;
use rows::row::{mask_at, slot_at};
use terms::walk::narrow;

// Writes all of row r but its round.
fn write(table: &mut [u16], r: usize, kind: Kind, a: u16, b: u16, mask: u16)
    requires { row_size * r + 4 < length table.old }
    ensures { table.new ≡ with_words table.old r (word_of kind) a b mask }
{
    let at = ROW_SIZE * r;
    table[at + 1] = kind as u16;
    table[at + 2] = a;
    table[at + 3] = b;
    table[at + 4] = mask;
}

// Row r, from its slot and its mask.
fn unpack_row(program: &Encoded, table: &mut [u16], r: usize)
    requires { Stands program.now.words.now program.now.dir.now table.old r × (row_size * r + 4 < length table.old) }
    ensures { (w : Stands program.now.words.now program.now.dir.now table.old r) → table.new ≡ with_row table.old r w.row }
{
    let slot = slot_at(table, r);
    let mask = mask_at(table, r);
    match Slot::of(slot) {
        Slot::Call(s) => write(table, r, Kind::Call, narrow(s), 0, mask),
        Slot::Cont(j) => {
            let k = clause_of(program, j);
            let place = j - usize::from(program.dir[CLAUSE_FIRST + k]);
            write(table, r, Kind::Cont, narrow(k + 1), narrow(place + 1), mask);
        }
        Slot::Solution(s) => write(table, r, Kind::Solution, narrow(s), 0, mask),
    }
}

// The first n rows.
pub fn unpack(program: &Encoded, table: &mut [u16], n: usize)
    requires { Packed program.now.words.now program.now.dir.now table.old n }
    ensures { (w : Packed program.now.words.now program.now.dir.now table.old n)
        → table.new ≡ table_words w.entries ++ drop (row_size * n) table.old }
{
    for r in 0..n {
        unpack_row(program, table, r);
    }
}
