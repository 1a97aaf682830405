// The head of a clause whose marks are kept between rounds: what its new call rows open, and what the clause ends in.
ghost use Rattle.std.specs.Prelude.{◌+◌, ◌≤◌, get_or, IfOk};
ghost use Rattle.directory.specs.Layout.{clause_vars};
ghost use Rattle.rows.specs.Rows.{keys_of};
ghost use Rattle.rows.specs.Store.{reached};
ghost use Rattle.steps.specs.Situation.{HeadAsked};
ghost use Rattle.steps.specs.Steps.{Given, Stepped};
ghost use Rattle.steps.specs.Unifiers.{HeadNotes};
ghost use Rattle.ends.specs.Ends.{WithHead, Scratch};
ghost use Rattle.ends.specs.Keeping.{kept_vars};
ghost use Rattle.clauses.specs.Working.{Working};

use crate::emptied::empty_found;
use crate::workspace::Workspace;
use directory::encoded::Encoded;
use directory::layout::CLAUSE_VARS;
use ends::ends::head_marks;
use ends::heads::at_head;
use ends::keep::{KEPT_ROWS, KEPT_SET};
use rows::keptset::{keep_masks, take_kept};
use rows::store::NoRoom;
use solving::solve::MarkSet;
use steps::place::Round;
use terms::walk::narrow;

// A clause whose marks are kept: those that are kept go to the call rows that they have not gone to yet, and the new ones to all.
#[tactic(auto, using(calling::proofs::ShapeVisits::clause_in_dir))]
pub fn end_kept(
    program: &Encoded,
    table: &mut [u16],
    heads: &[u16],
    work: &mut Workspace,
    unifiers: &mut [u8],
    n: usize,
    at: Round,
    k: usize,
) -> Result<usize, NoRoom>
    requires { HeadAsked program.now.words.now program.now.dir.now table.old heads.now at.since at.rows k
        × Working program.now.words.now program.now.dir.now table.old work.old at.rows n at.room
        × (get_or program.now.dir.now (clause_vars + k) 0 ≤ kept_vars) × HeadNotes program.now.words.now program.now.dir.now k unifiers.old }
    ensures scratch { Scratch work.new.answers work.new.found }
    ensures stepped { (w : HeadAsked program.now.words.now program.now.dir.now table.old heads.now at.since at.rows k)
        → Stepped (Given w.situation.p (keys_of table.old at.rows)) at.number at.room n table.old work.old.buckets
        (WithHead w.situation.p (keys_of table.old at.since) (keys_of table.old at.rows) k) (reached at.room result) table.new work.new.buckets }
    ensures works { IfOk result (λ m. Working program.now.words.now program.now.dir.now table.new work.new at.rows m at.room) }
{
    let all = 1usize << usize::from(program.dir[CLAUSE_VARS + k]);
    let known = usize::from(work.kept[KEPT_ROWS + k]).min(at.since);
    head_marks(
        program,
        table,
        heads,
        &mut work.answers,
        known,
        at.rows,
        k,
        &mut work.found,
        &mut work.answered,
        unifiers,
    );
    let marks = if take_kept(&work.kept, KEPT_SET, k, &mut work.found) {
        all
    } else {
        0
    };
    let from = Round { since: known, ..at };
    let first = KEPT_SET * k;
    let end = first + KEPT_SET;
    let kept: &[u16] = &work.kept;
    let rows = at_head(
        program,
        table,
        &mut work.buckets,
        heads,
        &mut work.answers,
        n,
        from,
        k,
        MarkSet {
            words: &kept[first..end],
            below: all,
        },
        MarkSet {
            words: &work.found,
            below: marks,
        },
        unifiers,
    );
    keep_masks(&work.found, KEPT_SET, k, &mut work.kept);
    empty_found(&mut work.found, KEPT_SET);
    work.kept[KEPT_ROWS + k] = narrow(at.rows);
    rows
}
