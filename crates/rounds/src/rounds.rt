// The rounds: each looks at the combinations with a row of the last one, clause by clause, and only at clauses that a new row concerns.
ghost use Rattle.std.specs.Prelude.{◌+◌, ◌≤◌, ◌<◌, IfOk};
ghost use Rattle.marks.specs.Modes.{modes};
ghost use Rattle.program.specs.Program.{Program};
ghost use Rattle.rows.specs.Rows.{keys_of};
ghost use Rattle.rows.specs.Store.{reached};
ghost use Rattle.table.specs.NewRows.{NewIn, NewGives};
ghost use Rattle.table.specs.RoundKeys.{Keyed};
ghost use Rattle.steps.specs.Situation.{Setting, Situation, HeadAsked};
ghost use Rattle.steps.specs.Steps.{Given, RowsIn, Stepped};
ghost use Rattle.steps.specs.Unifiers.{Room};
ghost use Rattle.ends.specs.Ends.{Scratch};
ghost use Rattle.clauses.specs.Working.{Working};
ghost use Rattle.rounds.specs.Rounds.{RoundsAsked, LookAsked, Finished};
ghost use Rattle.concerns.specs.Active.{RoundAsked};

use clauses::clauses::clause;
use clauses::workspace::Workspace;
use concerns::active::active;
use concerns::index::{Index, enter_bodies, enter_heads};
use directory::encoded::Encoded;
use directory::layout::{CLAUSE_COUNT, GOAL_GROUND};
use rows::chain::link;
use rows::store::{NoRoom, add};
use steps::place::Round;

// All that a round looks at in clause k, where its bit says that a new row concerns it. What any other clause could give is there already.
fn look(
    program: &Encoded,
    table: &mut [u16],
    heads: &[u16],
    work: &mut Workspace,
    unifiers: &mut [u8],
    n: usize,
    at: Round,
    k: usize,
    concerns: u64,
) -> Result<usize, NoRoom>
    requires { LookAsked program.now.words.now program.now.dir.now table.old heads.now at.since at.rows k concerns
        × Working program.now.words.now program.now.dir.now table.old work.old at.rows n at.room × Room unifiers.old }
    ensures scratch { Scratch work.new.answers work.new.found }
    ensures stepped { (w : HeadAsked program.now.words.now program.now.dir.now table.old heads.now at.since at.rows k)
        → Stepped (Given w.situation.p (keys_of table.old at.rows)) at.number at.room n table.old work.old.buckets
        (Keyed w.situation.p (NewIn modes w.situation.p (RowsIn w.situation.p (keys_of table.old at.since)) (RowsIn w.situation.p (keys_of table.old at.rows)) k)) (reached at.room result) table.new work.new.buckets }
    ensures works { IfOk result (λ m. Working program.now.words.now program.now.dir.now table.new work.new at.rows m at.room) }
{
    // A set of 64 clauses: `has` of `terms` asks one of 32 variables.
    if (concerns >> k) % 2 == 1 {
        return clause(program, table, heads, work, unifiers, n, at, k);
    }
    Ok(n)
}

// A round: the clauses that a new row concerns, one after the other.
fn round(
    program: &Encoded,
    table: &mut [u16],
    heads: &[u16],
    work: &mut Workspace,
    unifiers: &mut [u8],
    index: &Index,
    at: Round,
) -> Result<usize, NoRoom>
    requires { RoundAsked program.now.words.now program.now.dir.now table.old heads.now index.now.headed index.now.bodied at.since at.rows
        × Working program.now.words.now program.now.dir.now table.old work.old at.rows at.rows at.room × Room unifiers.old }
    ensures scratch { Scratch work.new.answers work.new.found }
    ensures stepped { (w : Situation program.now.words.now program.now.dir.now table.old heads.now at.since at.rows)
        → Stepped (Given w.p (keys_of table.old at.rows)) at.number at.room at.rows table.old work.old.buckets
        (Keyed w.p (NewGives modes w.p (RowsIn w.p (keys_of table.old at.since)) (RowsIn w.p (keys_of table.old at.rows)))) (reached at.room result) table.new work.new.buckets }
    ensures works { IfOk result (λ m. Working program.now.words.now program.now.dir.now table.new work.new at.rows m at.room) }
{
    let clauses = usize::from(program.dir[CLAUSE_COUNT]);
    let concerns = active(program, table, heads, at.since, at.rows, index);
    let mut rows = at.rows;
    for k in 0..clauses {
        rows = look(program, table, heads, work, unifiers, rows, at, k, concerns)?;
    }
    Ok(rows)
}

// The rows of the least set, unordered: how many there are, or that there are more than the room.
pub fn rounds(
    program: &Encoded,
    table: &mut [u16],
    heads: &mut [u16],
    work: &mut Workspace,
    unifiers: &mut [u8],
    room: usize,
) -> Result<usize, NoRoom>
    requires { RoundsAsked program.now.words.now program.now.dir.now table.old work.old.buckets heads.old unifiers.old work.old.answers work.old.found work.old.kept work.old.answered room }
    ensures finished { (p : Program) → Setting program.now.words.now program.now.dir.now p → Finished p room (reached room result) table.new }
    ensures within { IfOk result (λ m. m ≤ room) }
{
    let mut index = Index {
        headed: [0; 64],
        bodied: [0; 64],
    };
    enter_heads(program, &mut index.headed);
    enter_bodies(program, &mut index.bodied);
    let rows = add(
        table,
        &mut work.buckets,
        0,
        room,
        0,
        0,
        program.dir[GOAL_GROUND],
    )?;
    let mut at = Round {
        number: 1,
        since: 0,
        rows,
        room,
    };
    loop {
        link(table, heads, at.since, at.rows);
        let next = round(program, table, heads, work, unifiers, &index, at)?;
        if next == at.rows {
            return Ok(at.rows);
        }
        at = Round {
            number: at.number + 1,
            since: at.rows,
            rows: next,
            ..at
        };
    }
}
