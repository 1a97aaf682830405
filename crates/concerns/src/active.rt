// The clauses that a row concerns: a call row those whose head has its predicate, a cont row its own, a solution row those with a body atom of its predicate.
ghost use Rattle.std.specs.Prelude.{◌≡◌, ℕ, ◌+◌, ◌*◌, ◌<◌, length};
ghost use Rattle.terms.specs.Mask.{Has};
ghost use Rattle.marks.specs.Modes.{modes};
ghost use Rattle.program.specs.Limits.{row_size};
ghost use Rattle.directory.specs.Directory.{predicate_of};
ghost use Rattle.rows.specs.Rows.{keys_of};
ghost use Rattle.table.specs.Rules.{Row};
ghost use Rattle.table.specs.NewRows.{New};
ghost use Rattle.steps.specs.Situation.{Situation};
ghost use Rattle.steps.specs.Steps.{RowsIn};
ghost use Rattle.concerns.specs.Standing.{Stands};
ghost use Rattle.concerns.specs.Active.{Indexed, Concerns, ShapeAsked, RoundAsked};

use crate::bodies::clause_of;
use crate::index::Index;
use crate::slot::Slot;
use directory::encoded::Encoded;
use directory::layout::{SHAPE_CELLS, SHAPE_START};
use rows::row::slot_at;

// The predicate of shape s.
fn predicate_of(program: &Encoded, s: usize) -> usize
    requires { ShapeAsked program.now.words.now program.now.dir.now s }
    ensures { (w : ShapeAsked program.now.words.now program.now.dir.now s) → result ≡ predicate_of w.S }
{
    usize::from(program.dir[SHAPE_CELLS + usize::from(program.dir[SHAPE_START + s])])
}

// The clauses that row r concerns.
fn concerned(program: &Encoded, table: &[u16], r: usize, index: &Index) -> u64
    requires { Stands program.now.words.now program.now.dir.now table.now r × (row_size * r + 4 < length table.now) × (length index.now.headed ≡ 64) × (length index.now.bodied ≡ 64) }
    ensures { (w : Stands program.now.words.now program.now.dir.now table.now r) → Indexed w.p index.now.headed index.now.bodied
        → (k : ℕ) → Concerns w.p k w.row → Has result k }
{
    match Slot::of(slot_at(table, r)) {
        Slot::Call(s) => index.headed[predicate_of(program, s)],
        Slot::Cont(j) => 1u64 << clause_of(program, j),
        Slot::Solution(s) => index.bodied[predicate_of(program, s)],
    }
}

// The clauses that a row from `since` on concerns.
pub fn active(
    program: &Encoded,
    table: &[u16],
    heads: &[u16],
    since: usize,
    rows: usize,
    index: &Index,
) -> u64
    requires { RoundAsked program.now.words.now program.now.dir.now table.now heads.now index.now.headed index.now.bodied since rows }
    ensures { (w : Situation program.now.words.now program.now.dir.now table.now heads.now since rows) → Indexed w.p index.now.headed index.now.bodied
        → (k : ℕ) (row : Row ℕ) → New modes w.p (RowsIn w.p (keys_of table.now since)) (RowsIn w.p (keys_of table.now rows)) row
        → Concerns w.p k row → Has result k }
{
    let mut set = 0;
    for r in since..rows {
        set |= concerned(program, table, r, index);
    }
    set
}
