// The marks on a clause's head that result in a round.
ghost use Rattle.std.specs.Prelude.{◌≡◌, length, replicate};
ghost use Rattle.program.specs.Limits.{max_rows};
ghost use Rattle.rows.specs.MaskSet.{set_words};
ghost use Rattle.steps.specs.Situation.{HeadAsked};
ghost use Rattle.steps.specs.Heads.{HeadMark, Collected, Told};
ghost use Rattle.steps.specs.Unifiers.{HeadNotes};
ghost use Rattle.joining.specs.KeptAnswers.{KeepsAnswers};

use calling::calls::mark_head;
use directory::encoded::Encoded;
use directory::layout::{CLAUSE_FIRST, CLAUSE_VARS};
use joining::joins::last_place;
use steps::meet::first_variables;

// Marks on the head of clause k that result from rows since `since`, into the set, which is empty at first. Says whether there can be any. A clause without
// a body notes what comes of shapes and its head.
#[tactic(auto, using(calling::proofs::ShapeVisits::clause_in_dir))]
pub fn head_marks(
    program: &Encoded,
    table: &[u16],
    heads: &[u16],
    answers: &mut [u16],
    since: usize,
    before: usize,
    k: usize,
    found: &mut [u16],
    answered: &mut [u16],
    unifiers: &mut [u8],
) -> bool
    requires { HeadAsked program.now.words.now program.now.dir.now table.now heads.now since before k × (found.old ≡ replicate set_words 0)
        × (length answers.old ≡ max_rows) × KeepsAnswers program.now.words.now program.now.dir.now table.now answered.old before
        × HeadNotes program.now.words.now program.now.dir.now k unifiers.old }
    ensures { KeepsAnswers program.now.words.now program.now.dir.now table.now answered.new before
        × ((w : HeadAsked program.now.words.now program.now.dir.now table.now heads.now since before k)
        → Collected (HeadMark w.situation.p table.now since before k (length w.clause.c.body)) found.old found.new
        × Told (HeadMark w.situation.p table.now since before k (length w.clause.c.body)) result)
        × HeadNotes program.now.words.now program.now.dir.now k unifiers.new }
{
    let first = usize::from(program.dir[CLAUSE_FIRST + k]);
    let end = usize::from(program.dir[CLAUSE_FIRST + k + 1]);
    if first == end {
        return mark_head(program, table, heads, since, k, found, before, unifiers);
    }
    let there = first_variables(usize::from(program.dir[CLAUSE_VARS + k]));
    last_place(
        program,
        table,
        heads,
        answers,
        answered,
        since,
        before,
        end - 1,
        there,
        found,
    )
}
