// Where everything stands in accepted words.
ghost use Rattle.std.specs.Prelude.{◌≡◌, length};
ghost use Rattle.directory.specs.Layout.{dir_words};
ghost use Rattle.directory.specs.Said.{said, Accepted};
ghost use Rattle.directory.specs.Walked.{Placed};

use crate::encoded::Declared;
use crate::goal::goal;
use crate::layout::{
    BODY_COUNT, CLAUSE_COUNT, CLAUSE_FIRST, CLAUSES_START, FUNCTIONS_START, PREDICATES_START,
};
use crate::places::clauses;
use terms::walk::narrow;

// The declarations, the clauses and the goal.
pub fn places(words: &[u16], dir: &mut [u16])
    requires { (Accepted words.now) × (length dir.old ≡ dir_words) }
    ensures { Placed words.now (said words.now) dir.new }
{
    let functions_at = PREDICATES_START + usize::from(words[0]);
    let clauses_at = functions_at + usize::from(words[1]);
    let n = usize::from(words[2]);
    let declared = Declared {
        words,
        predicates: &words[PREDICATES_START..functions_at],
        functions: &words[functions_at..clauses_at],
    };
    let at = clauses(&declared, clauses_at, dir, n);
    goal(&declared, at, dir);
    dir[BODY_COUNT] = dir[CLAUSE_FIRST + n];
    dir[CLAUSE_COUNT] = narrow(n);
    dir[FUNCTIONS_START] = narrow(functions_at);
    dir[CLAUSES_START] = narrow(clauses_at);
}
