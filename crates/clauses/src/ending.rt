// The head of a clause in a round: what its new call rows open, and what the clause ends in. Marks on a head of few variables are kept between rounds.
ghost use Rattle.std.specs.Prelude.{IfOk};
ghost use Rattle.rows.specs.Rows.{keys_of};
ghost use Rattle.rows.specs.Store.{reached};
ghost use Rattle.steps.specs.Situation.{HeadAsked};
ghost use Rattle.steps.specs.Steps.{Given, Stepped};
ghost use Rattle.steps.specs.Unifiers.{Room};
ghost use Rattle.ends.specs.Ends.{WithHead, Scratch};
ghost use Rattle.clauses.specs.Working.{Working};

use crate::kept::end_kept;
use crate::wide::end_wide;
use crate::workspace::Workspace;
use directory::encoded::Encoded;
use directory::layout::CLAUSE_VARS;
use ends::keep::KEPT_VARS;
use rows::store::NoRoom;
use steps::place::Round;
use steps::unifiers::forget_notes;

// All that a round looks at with the head of clause k: what new call rows open, and what the clause ends in with a row of the last round. What comes of
// shapes and the head is noted anew.
#[tactic(auto, using(calling::proofs::ShapeVisits::clause_in_dir))]
pub fn end_clause(
    program: &Encoded,
    table: &mut [u16],
    heads: &[u16],
    work: &mut Workspace,
    unifiers: &mut [u8],
    n: usize,
    at: Round,
    k: usize,
) -> Result<usize, NoRoom>
    requires { HeadAsked program.now.words.now program.now.dir.now table.old heads.now at.since at.rows k
        × Working program.now.words.now program.now.dir.now table.old work.old at.rows n at.room × Room unifiers.old }
    ensures scratch { Scratch work.new.answers work.new.found }
    ensures stepped { (w : HeadAsked program.now.words.now program.now.dir.now table.old heads.now at.since at.rows k)
        → Stepped (Given w.situation.p (keys_of table.old at.rows)) at.number at.room n table.old work.old.buckets
        (WithHead w.situation.p (keys_of table.old at.since) (keys_of table.old at.rows) k) (reached at.room result) table.new work.new.buckets }
    ensures works { IfOk result (λ m. Working program.now.words.now program.now.dir.now table.new work.new at.rows m at.room) }
{
    forget_notes(unifiers);
    if usize::from(program.dir[CLAUSE_VARS + k]) <= KEPT_VARS {
        return end_kept(program, table, heads, work, unifiers, n, at, k);
    }
    end_wide(program, table, heads, work, unifiers, n, at, k)
}
