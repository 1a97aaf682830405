// Which runs of cells are atoms: only these can be unified.
ghost use Rattle.std.specs.Prelude.{◌↔◌, T};
ghost use Rattle.unify_main.specs.AtomRun.{TermsRun, AtomRun};

use terms::walk::FIRST_VARIABLE;

// "v is at most 15": no cell from here on is a variable's.
const AFTER_VARIABLES: u16 = 32784;
// "An atom has at most 32 cells."
pub const ATOM_CELLS: usize = 32;

// Whether the run is n terms and nothing behind them.
fn are_terms(run: &[u16], functions: &[u16], n: usize) -> bool
    ensures { T result ↔ TermsRun functions.now run.now n }
{
    let mut left = n;
    for (at, cell) in run.iter().enumerate() {
        if left == 0 || run.len() - at < left {
            return false;
        }
        left -= 1;
        if *cell < FIRST_VARIABLE {
            let Some(arity) = functions.get(usize::from(*cell)) else {
                return false;
            };
            left += usize::from(*arity);
        } else if AFTER_VARIABLES <= *cell {
            return false;
        }
    }
    left == 0
}

// Whether the run is an atom: a predicate and its argument terms.
pub fn is_atom(run: &[u16], predicates: &[u16], functions: &[u16]) -> bool
    ensures { T result ↔ AtomRun predicates.now functions.now run.now }
{
    if ATOM_CELLS < run.len() {
        return false;
    }
    let Some((predicate, arguments)) = run.split_first() else {
        return false;
    };
    let Some(arity) = predicates.get(usize::from(*predicate)) else {
        return false;
    };
    are_terms(arguments, functions, usize::from(*arity))
}
