// A clause in a round: the combinations with a row of the last round, place by place.
ghost use Rattle.std.specs.Prelude.{IfOk};
ghost use Rattle.marks.specs.Modes.{modes};
ghost use Rattle.rows.specs.Rows.{keys_of};
ghost use Rattle.rows.specs.Store.{reached};
ghost use Rattle.table.specs.NewRows.{NewIn};
ghost use Rattle.table.specs.RoundKeys.{Keyed};
ghost use Rattle.steps.specs.Situation.{HeadAsked};
ghost use Rattle.steps.specs.Steps.{Given, RowsIn, Stepped};
ghost use Rattle.steps.specs.Unifiers.{Room};
ghost use Rattle.ends.specs.Ends.{Scratch};
ghost use Rattle.clauses.specs.Clauses.{MiddlesAsked, PastPlaces};
ghost use Rattle.clauses.specs.Working.{Working};

use crate::ending::end_clause;
use crate::workspace::Workspace;
use directory::encoded::Encoded;
use directory::layout::CLAUSE_FIRST;
use joining::joins::middle_place;
use rows::store::NoRoom;
use steps::place::Round;

// The middle places of a clause, whose body atoms are first..last.
fn middle_places(
    program: &Encoded,
    table: &mut [u16],
    heads: &[u16],
    work: &mut Workspace,
    n: usize,
    at: Round,
    first: usize,
    last: usize,
) -> Result<usize, NoRoom>
    requires { MiddlesAsked program.now.words.now program.now.dir.now table.old heads.now at.since at.rows first last
        × Working program.now.words.now program.now.dir.now table.old work.old at.rows n at.room }
    ensures scratch { Scratch work.new.answers work.new.found }
    ensures stepped { (w : MiddlesAsked program.now.words.now program.now.dir.now table.old heads.now at.since at.rows first last)
        → Stepped (Given w.situation.p (keys_of table.old at.rows)) at.number at.room n table.old work.old.buckets
        (PastPlaces w.situation.p (keys_of table.old at.since) (keys_of table.old at.rows) w.k w.middles) (reached at.room result) table.new work.new.buckets }
    ensures works { IfOk result (λ m. Working program.now.words.now program.now.dir.now table.new work.new at.rows m at.room) }
{
    let mut rows = n;
    for j in first..last {
        rows = middle_place(
            program,
            table,
            &mut work.buckets,
            heads,
            &mut work.found,
            &mut work.answers,
            &mut work.answered,
            rows,
            at,
            j,
        )?;
    }
    Ok(rows)
}

// All that a round looks at in clause k.
#[tactic(auto, using(calling::proofs::ShapeVisits::clause_in_dir))]
pub fn clause(
    program: &Encoded,
    table: &mut [u16],
    heads: &[u16],
    work: &mut Workspace,
    unifiers: &mut [u8],
    n: usize,
    at: Round,
    k: usize,
) -> Result<usize, NoRoom>
    requires { HeadAsked program.now.words.now program.now.dir.now table.old heads.now at.since at.rows k
        × Working program.now.words.now program.now.dir.now table.old work.old at.rows n at.room × Room unifiers.old }
    ensures scratch { Scratch work.new.answers work.new.found }
    ensures stepped { (w : HeadAsked program.now.words.now program.now.dir.now table.old heads.now at.since at.rows k)
        → Stepped (Given w.situation.p (keys_of table.old at.rows)) at.number at.room n table.old work.old.buckets
        (Keyed w.situation.p (NewIn modes w.situation.p (RowsIn w.situation.p (keys_of table.old at.since)) (RowsIn w.situation.p (keys_of table.old at.rows)) k)) (reached at.room result) table.new work.new.buckets }
    ensures works { IfOk result (λ m. Working program.now.words.now program.now.dir.now table.new work.new at.rows m at.room) }
{
    let first = usize::from(program.dir[CLAUSE_FIRST + k]);
    let end = usize::from(program.dir[CLAUSE_FIRST + k + 1]);
    let mut rows = n;
    if first < end {
        rows = middle_places(program, table, heads, work, rows, at, first, end - 1)?;
    }
    end_clause(program, table, heads, work, unifiers, rows, at, k)
}
