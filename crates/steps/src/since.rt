// Whether rows of a predicate's shapes are new.
ghost use Rattle.std.specs.Prelude.{T, ◌↔◌, List, ℕ};
ghost use Rattle.program.specs.Program.{Program};
ghost use Rattle.steps.specs.Situation.{Setting};
ghost use Rattle.steps.specs.Since.{SinceIn, PredicateAsked};

use directory::layout::{PREDICATE_SHAPE, SHAPE_NEXT};

// Whether a slot of one of the predicate's shapes has a row from `since` on; the slots begin at `first`.
pub fn any_since(dir: &[u16], heads: &[u16], predicate: usize, first: usize, since: usize) -> bool
    requires { PredicateAsked dir.now heads.now predicate first }
    ensures { (words : List ℕ) (p : Program) → Setting words dir.now p → T result ↔ SinceIn p heads.now predicate first since }
{
    let mut link = usize::from(dir[PREDICATE_SHAPE + predicate]);
    // The shapes of a predicate are linked in the directory: with no heap no list of them can be made to go over.
    while 0 < link {
        let s = link - 1;
        if since < usize::from(heads[first + s]) {
            return true;
        }
        link = usize::from(dir[SHAPE_NEXT + s]);
    }
    false
}
