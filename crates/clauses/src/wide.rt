// The head of a clause that has too many variables for its marks to be kept: what its new call rows open, and what the clause ends in.
ghost use Rattle.std.specs.Prelude.{IfOk};
ghost use Rattle.rows.specs.Rows.{keys_of};
ghost use Rattle.rows.specs.Store.{reached};
ghost use Rattle.steps.specs.Situation.{HeadAsked};
ghost use Rattle.steps.specs.Steps.{Given, Stepped};
ghost use Rattle.steps.specs.Unifiers.{HeadNotes};
ghost use Rattle.ends.specs.Ends.{WithHead, Scratch};
ghost use Rattle.clauses.specs.Working.{Working};

use crate::emptied::empty_found;
use crate::workspace::Workspace;
use directory::encoded::Encoded;
use directory::layout::{CLAUSE_HEAD, CLAUSE_VARS};
use ends::ends::head_marks;
use ends::heads::at_head;
use rows::store::NoRoom;
use solving::solve::MarkSet;
use steps::place::Round;
use steps::since::any_since;

// A clause whose marks are not kept: where a call row is new, all marks are collected, else the new ones; they go to all call rows.
#[tactic(auto, using(calling::proofs::ShapeVisits::clause_in_dir))]
pub fn end_wide(
    program: &Encoded,
    table: &mut [u16],
    heads: &[u16],
    work: &mut Workspace,
    unifiers: &mut [u8],
    n: usize,
    at: Round,
    k: usize,
) -> Result<usize, NoRoom>
    requires { HeadAsked program.now.words.now program.now.dir.now table.old heads.now at.since at.rows k
        × Working program.now.words.now program.now.dir.now table.old work.old at.rows n at.room
        × HeadNotes program.now.words.now program.now.dir.now k unifiers.old }
    ensures scratch { Scratch work.new.answers work.new.found }
    ensures stepped { (w : HeadAsked program.now.words.now program.now.dir.now table.old heads.now at.since at.rows k)
        → Stepped (Given w.situation.p (keys_of table.old at.rows)) at.number at.room n table.old work.old.buckets
        (WithHead w.situation.p (keys_of table.old at.since) (keys_of table.old at.rows) k) (reached at.room result) table.new work.new.buckets }
    ensures works { IfOk result (λ m. Working program.now.words.now program.now.dir.now table.new work.new at.rows m at.room) }
{
    let predicate = usize::from(program.words[usize::from(program.dir[CLAUSE_HEAD + k])]);
    let since = if any_since(program.dir, heads, predicate, 0, at.since) {
        0
    } else {
        at.since
    };
    let marked = head_marks(
        program,
        table,
        heads,
        &mut work.answers,
        since,
        at.rows,
        k,
        &mut work.found,
        &mut work.answered,
        unifiers,
    );
    let marks = if marked {
        1usize << usize::from(program.dir[CLAUSE_VARS + k])
    } else {
        0
    };
    let rows = at_head(
        program,
        table,
        &mut work.buckets,
        heads,
        &mut work.answers,
        n,
        at,
        k,
        MarkSet {
            words: &[],
            below: 0,
        },
        MarkSet {
            words: &work.found,
            below: marks,
        },
        unifiers,
    );
    empty_found(&mut work.found, (marks + 15) / 16);
    rows
}
