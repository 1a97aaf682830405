// Where the atoms of the clauses stand in the words.
ghost use Rattle.std.specs.Prelude.{◌≡◌, ◌+◌, ◌≤◌, ◌<◌, length, get_or};
ghost use Rattle.terms.specs.Cells.{enc};
ghost use Rattle.program.specs.Limits.{max_declared, max_body, max_bodies};
ghost use Rattle.directory.specs.Layout.{clause_first, dir_words, max_shape_cells};
ghost use Rattle.directory.specs.Walked.{AtomsWritten, ClauseWritten, ClausesWritten};
ghost use Rattle.directory.specs.From.{AtomFrom, AtomsFrom, ClauseFrom, ClausesFrom};

use crate::encoded::Declared;
use crate::layout::{BODY_CELLS, BODY_START, CLAUSE_CELLS, CLAUSE_FIRST, CLAUSE_HEAD, CLAUSE_VARS};
use crate::numbers::numbers;
use terms::walk::{narrow, terms_end};

// How many cells the atom at a place has.
pub fn atom_cells(declared: &Declared<'_>, at: usize) -> usize
    requires { AtomFrom declared.now.words.now at declared.now.predicates.now declared.now.functions.now }
    ensures { (a : AtomFrom declared.now.words.now at declared.now.predicates.now declared.now.functions.now) → result ≡ length (enc a.atom) }
{
    let q = usize::from(declared.words[at]);
    let arity = usize::from(declared.predicates[q]);
    let next = at + 1;
    1 + terms_end(&declared.words[next..], declared.functions, arity)
}

// The atoms of a body, one after another: where each stands, from number j on. The place behind them.
fn body_atoms(declared: &Declared<'_>, from: usize, dir: &mut [u16], j: usize, m: usize) -> usize
    requires { (AtomsFrom declared.now.words.now from declared.now.predicates.now declared.now.functions.now m) × (length declared.now.words.now ≤ max_shape_cells) × (length dir.old ≡ dir_words) × (j + m ≤ max_bodies) × (from ≤ length declared.now.words.now) }
    ensures { (a : AtomsFrom declared.now.words.now from declared.now.predicates.now declared.now.functions.now m) → AtomsWritten declared.now.words.now a.atoms a.rest dir.old dir.new j m result }
{
    let mut at = from;
    for i in 0..m {
        let cells = atom_cells(declared, at);
        let n = j + i;
        dir[BODY_START + n] = narrow(at);
        dir[BODY_CELLS + n] = narrow(cells);
        at += cells;
    }
    at
}

// A clause: where its head stands and how many variables it has, and its body's atoms. The place behind it.
fn clause(declared: &Declared<'_>, from: usize, dir: &mut [u16], k: usize) -> usize
    requires { (ClauseFrom declared.now.words.now from declared.now.predicates.now declared.now.functions.now) × (length declared.now.words.now ≤ max_shape_cells) × (length dir.old ≡ dir_words) × (k < max_declared) × (get_or dir.old (clause_first + k) 0 + max_body ≤ max_bodies) × (length declared.now.predicates.now ≤ max_declared) }
    ensures { (a : ClauseFrom declared.now.words.now from declared.now.predicates.now declared.now.functions.now) → ClauseWritten declared.now.words.now a.clause a.rest dir.old dir.new k result }
{
    let j = usize::from(dir[CLAUSE_FIRST + k]);
    let m = usize::from(declared.words[from]);
    let head = from + 1;
    let cells = atom_cells(declared, head);
    let body = head + cells;
    let mut table = [0u16; 16];
    let variables = numbers(&declared.words[head..body], &mut table);
    let next = k + 1;
    dir[CLAUSE_HEAD + k] = narrow(head);
    dir[CLAUSE_CELLS + k] = narrow(cells);
    dir[CLAUSE_VARS + k] = narrow(variables);
    dir[CLAUSE_FIRST + next] = narrow(j + m);
    body_atoms(declared, body, dir, j, m)
}

// So many clauses, one after another. The place behind them.
pub fn clauses(declared: &Declared<'_>, from: usize, dir: &mut [u16], count: usize) -> usize
    requires { (ClausesFrom declared.now.words.now from declared.now.predicates.now declared.now.functions.now count) × (length declared.now.words.now ≤ max_shape_cells) × (length dir.old ≡ dir_words) × (count ≤ max_declared) × (from ≤ length declared.now.words.now) × (length declared.now.predicates.now ≤ max_declared) }
    ensures { (a : ClausesFrom declared.now.words.now from declared.now.predicates.now declared.now.functions.now count) → ClausesWritten declared.now.words.now a.clauses a.rest dir.old dir.new count result }
{
    dir[CLAUSE_FIRST] = 0;
    let mut at = from;
    for k in 0..count {
        at = clause(declared, at, dir, k);
    }
    at
}
