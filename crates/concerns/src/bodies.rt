// Body atoms and their clauses.
ghost use Rattle.std.specs.Prelude.{◌≡◌};
ghost use Rattle.concerns.specs.Standing.{Belongs};

use directory::encoded::Encoded;
use directory::layout::CLAUSE_FIRST;

// The clause, from 0, of body atom j.
pub fn clause_of(program: &Encoded, j: usize) -> usize
    requires { Belongs program.now.words.now program.now.dir.now j }
    ensures { (w : Belongs program.now.words.now program.now.dir.now j) → result ≡ w.body.k }
{
    program.dir[CLAUSE_FIRST + 1..]
        .iter()
        .position(|end| j < usize::from(*end))
        .unwrap()
}
